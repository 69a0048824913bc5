//! The whole listing of a script.
ghost use Rattle.std.specs.Prelude.{◌≡◌, ◌*◌, ◌<◌, ◌≤◌, ◌++◌, length, take, drop, IfOk, nat_le};
ghost use Rattle.script.specs.Counting.{goes_on, rest_after};
ghost use Rattle.script.specs.Laws.{IsListing};
ghost use Rattle.script.specs.Scripts.{lines_of, listing, listing_into};

use crate::any_group::makes_group;
use crate::command::Command;
use crate::line::MOST_BYTES;
use crate::reader::read;
use crate::script::Script;
use crate::script_bytes::script_of;
use stamps::refusal::Refusal;
use std::alloc::{AllocError, Global};

/// The lines of a script, in order.
///
/// # Errors
///
/// There is no memory for them.
pub fn list(heap: Global, bytes: &[u8]) -> Result<Vec<u8>, AllocError>
    ensures value { IfOk result (λ v. v.items ≡ listing bytes.now) }
    ensures law { IfOk result (λ v. IsListing bytes.now v.items) }
{
    let mut out = vec![in heap; 0; MOST_BYTES * count_lines(bytes)]?;
    let len = write_lines(bytes, &mut out);
    out.truncate(len);
    Ok(out)
}

/// Writes the lines of a script to the start of the buffer, and answers their length.
///
/// # Errors
///
/// `ShortBuffer` if the buffer has not 96 bytes for each line. It is left as it was.
pub fn list_into(bytes: &[u8], buffer: &mut [u8]) -> Result<usize, Refusal>
    ensures value { (result, buffer.new) ≡ listing_into bytes.now buffer.old }
    ensures law { IfOk result (λ len. IsListing bytes.now (take len buffer.new)) }
    ensures few { IfOk result (λ len. len ≤ 96 * 65535) }
{
    if !has_room(bytes, buffer.len()) {
        return Err(Refusal::ShortBuffer);
    }
    Ok(write_lines(bytes, buffer))
}

/// Whether a buffer of a length has 96 bytes for each line.
// A line takes at least one byte of the script, so the lines need not be counted where there is room for as many as
// there are bytes.
fn has_room(bytes: &[u8], len: usize) -> bool
    ensures { result ≡ nat_le (96 * length (lines_of bytes.now)) len }
{
    let lines = len / MOST_BYTES;
    lines >= bytes.len() || lines >= count_lines(bytes)
}

/// Writes the lines where the buffer is known to be long enough, and answers their length.
fn write_lines(bytes: &[u8], buffer: &mut [u8]) -> usize
    requires { 96 * length (lines_of bytes.now) ≤ length buffer.old }
    ensures len { result ≡ length (listing bytes.now) }
    ensures text { buffer.new ≡ listing bytes.now ++ drop (length (listing bytes.now)) buffer.old }
    ensures short { result ≤ 96 * length (lines_of bytes.now) }
    ensures law { IsListing bytes.now (take result buffer.new) }
{
    let mut script = Script::new(bytes);
    // Where the next line goes. No iterator cuts the buffer: only a line that is written has a length.
    let mut end = 0;
    'lines: while !script.has_ended() {
        end += script.write_next(&mut buffer[end..]);
    }
    end
}

/// How many lines the listing of a script has. The commands alone decide where it ends, whatever a group answers.
// No iterator: the first command is tested otherwise than the rest.
fn count_lines(bytes: &[u8]) -> usize
    ensures count { result ≡ length (lines_of bytes.now) }
    ensures few { result ≤ 65535 }
{
    let mut rest = script_of(bytes);
    let mut count = 0;
    'lines: while !rest.is_empty() {
        // After the first command there is a group.
        rest = rest_after(rest, count > 0);
        count += 1;
    }
    count
}

/// What is left after the next command: nothing if it ends the listing. Lines are counted without a group, so whether
/// one was made is told.
fn rest_after(bytes: &[u8], has_group: bool) -> &[u8]
    requires { 0 < length bytes.now }
    ensures left { result.now ≡ rest_after has_group bytes.now }
    ensures shorter { length result.now < length bytes.now }
{
    match read(bytes) {
        Ok((command, rest)) if goes_on(command, has_group) => rest,
        _ => &[],
    }
}

/// Whether the listing goes on after a command, by whether a group was made before it.
fn goes_on(command: Command, has_group: bool) -> bool
    ensures { result ≡ goes_on has_group command }
{
    if has_group {
        !matches!(command, Command::Layout { .. })
    } else {
        makes_group(command)
    }
}
