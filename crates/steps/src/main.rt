//! Reads a step script from standard input and prints its listing.
#![tactic(auto)]

ghost use Rattle.std.specs.Prelude.{◌≡◌, IfOk, IfSome, OnOk};
ghost use Rattle.std.specs.Io.KnownBytes.{Appends};
ghost use Rattle.script.specs.Laws.{IsListing};
ghost use Rattle.script.specs.Scripts.{listing, script_of};

use script::list::list;
use script::script::MOST_SCRIPT_BYTES;
use std::alloc::Global;
use std::io;
use std::io::{Read, Write};

#[cfg(test)]
mod tests;

fn main(rt: HostRuntime) -> anyhow::Result<()> {
    run(rt.alloc(), &mut rt.stdin(), &mut rt.stdout())
}

/// Reads a script and writes its listing, and nothing else. Nothing is written before all was read and listed.
fn run<R: Read, W: Write>(heap: Global, reader: &mut R, writer: &mut W) -> anyhow::Result<()>
    ensures value { OnOk result (IfSome (R.remaining reader.old) (λ input.
        Appends (W.contents writer.old) (W.contents writer.new) (listing input))) }
    ensures law { OnOk result (IfSome (R.remaining reader.old) (λ input. IsListing input (listing input))) }
{
    let listing = read_listing(heap, reader)?;
    writer.write_all(&listing)?;
    Ok(())
}

/// The listing of the script that a reader gives. It has no writer, so it can write nothing.
fn read_listing<R: Read>(heap: Global, reader: &mut R) -> anyhow::Result<Vec<u8>>
    ensures value { IfOk result (λ text. IfSome (R.remaining reader.old) (λ input. text.items ≡ listing input)) }
    ensures law { IfOk result (λ text. IfSome (R.remaining reader.old) (λ input. IsListing input text.items)) }
{
    let script = read_script(heap, reader)?;
    Ok(list(heap, &script)?)
}

/// The bytes that are a script's. What lies past them is not read.
fn read_script<R: Read>(heap: Global, reader: &mut R) -> io::Result<Vec<u8>>
    ensures { IfOk result (λ script. IfSome (R.remaining reader.old) (λ input. script.items ≡ script_of input)) }
{
    let mut script = Vec::new(heap);
    reader
        .take(MOST_SCRIPT_BYTES as u64)
        .read_to_end(&mut script)?;
    Ok(script)
}
