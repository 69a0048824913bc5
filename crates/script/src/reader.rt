//! Bytes to commands.
ghost use Rattle.std.specs.Prelude.{◌≡◌, ◌<◌, ◌≤◌, length, drop, IsOkAnd};
ghost use Rattle.script.specs.Commands.{command_and_rest, read_command, read_form, read_operands, u8_at};
ghost use Rattle.script.specs.Commands.{form_of, deliver_form, get_form, layout_form, open_session_form};
ghost use Rattle.script.specs.Commands.{put_form, tell_form, view_form};
ghost use Rattle.script.specs.ReaderLaws.{AnswersFirstCommand};

use crate::command::Command;
use stamps::refusal::Refusal;

/// The first command of a script, and what is left after it.
///
/// # Errors
///
/// `UnknownLetter` if no command has the letter, and `ShortCommand` if the bytes end before its last
/// operand, or there are none.
pub fn read(script: &[u8]) -> Result<(Command, &[u8]), Refusal>
    ensures value { command_and_rest result ≡ read_command script.now }
    ensures law { AnswersFirstCommand script.now (command_and_rest result) }
{
    let [letter, rest @ ..] = script else {
        return Err(Refusal::ShortCommand);
    };
    read_operands(*letter as char, rest)
}

/// The command of a letter, with the operands that follow it.
fn read_operands(letter: char, bytes: &[u8]) -> Result<(Command, &[u8]), Refusal>
    ensures { command_and_rest result ≡ read_operands (form_of letter) bytes.now }
{
    match letter {
        'L' => read_layout(bytes),
        'S' => read_open_session(bytes),
        'T' => read_tell(bytes),
        'P' => read_put(bytes),
        'G' => read_get(bytes),
        'H' => read_server(
            bytes,
            |site, partition| Command::Heartbeat { site, partition },
        ),
        'D' => read_deliver(bytes),
        'R' => read_server(bytes, |site, partition| Command::Report { site, partition }),
        'U' => read_server(
            bytes,
            |site, partition| Command::Stabilise { site, partition },
        ),
        'C' => read_server(bytes, |site, partition| Command::Tidy { site, partition }),
        'Q' => read_server(bytes, |site, partition| Command::Lead { site, partition }),
        'V' => read_view(bytes),
        _ => Err(Refusal::UnknownLetter),
    }
}

fn read_layout(bytes: &[u8]) -> Result<(Command, &[u8]), Refusal>
    ensures { command_and_rest result ≡ read_form layout_form bytes.now }
{
    let [sites, partitions, clock, marks, rest @ ..] = bytes else {
        return Err(Refusal::ShortCommand);
    };
    let (sites, partitions) = (*sites, *partitions);
    let (clock, marks) = (*clock as char, *marks as char);
    Ok((
        Command::Layout {
            sites,
            partitions,
            clock,
            marks,
        },
        rest,
    ))
}

fn read_open_session(bytes: &[u8]) -> Result<(Command, &[u8]), Refusal>
    ensures { command_and_rest result ≡ read_form open_session_form bytes.now }
{
    let [site, rest @ ..] = bytes else {
        return Err(Refusal::ShortCommand);
    };
    Ok((Command::OpenSession { site: *site }, rest))
}

fn read_tell(bytes: &[u8]) -> Result<(Command, &[u8]), Refusal>
    ensures { command_and_rest result ≡ read_form tell_form bytes.now }
{
    let [site, partition, a, b, c, d, e, f, rest @ ..] = bytes else {
        return Err(Refusal::ShortCommand);
    };
    let (site, partition) = (*site, *partition);
    let time = u64::from_be_bytes([0, 0, *a, *b, *c, *d, *e, *f]);
    Ok((
        Command::Tell {
            site,
            partition,
            time,
        },
        rest,
    ))
}

fn read_put(bytes: &[u8]) -> Result<(Command, &[u8]), Refusal>
    ensures { command_and_rest result ≡ read_form put_form bytes.now }
{
    let [session, key_high, key_low, kind, a, b, c, d, rest @ ..] = bytes else {
        return Err(Refusal::ShortCommand);
    };
    let (session, kind) = (*session, *kind);
    let key = u16::from_be_bytes([*key_high, *key_low]);
    let amount = u32::from_be_bytes([*a, *b, *c, *d]);
    Ok((
        Command::Put {
            session,
            key,
            kind,
            amount,
        },
        rest,
    ))
}

fn read_get(bytes: &[u8]) -> Result<(Command, &[u8]), Refusal>
    ensures { command_and_rest result ≡ read_form get_form bytes.now }
{
    let [session, key_high, key_low, rest @ ..] = bytes else {
        return Err(Refusal::ShortCommand);
    };
    let session = *session;
    let key = u16::from_be_bytes([*key_high, *key_low]);
    Ok((Command::Get { session, key }, rest))
}

fn read_deliver(bytes: &[u8]) -> Result<(Command, &[u8]), Refusal>
    ensures { command_and_rest result ≡ read_form deliver_form bytes.now }
{
    let [from, to, partition, rest @ ..] = bytes else {
        return Err(Refusal::ShortCommand);
    };
    let (from, to, partition) = (*from, *to, *partition);
    Ok((
        Command::Deliver {
            from,
            to,
            partition,
        },
        rest,
    ))
}

fn read_view(bytes: &[u8]) -> Result<(Command, &[u8]), Refusal>
    ensures { command_and_rest result ≡ read_form view_form bytes.now }
{
    let [
        session,
        partition,
        first_high,
        first_low,
        second_high,
        second_low,
        rest @ ..,
    ] = bytes
    else {
        return Err(Refusal::ShortCommand);
    };
    let (session, partition) = (*session, *partition);
    let first = u16::from_be_bytes([*first_high, *first_low]);
    let second = u16::from_be_bytes([*second_high, *second_low]);
    Ok((
        Command::View {
            session,
            partition,
            first,
            second,
        },
        rest,
    ))
}

/// A command of one server, made of the site and the partition that stand there.
fn read_server<F: FnOnce(u8, u8) -> Command>(
    bytes: &[u8],
    command: F,
) -> Result<(Command, &[u8]), Refusal>
    requires { F.IsAlwaysCallable command }
    ensures short { length bytes.now < 2 → command_and_rest result ≡ Err Refusal.ShortCommand }
    ensures read { 2 ≤ length bytes.now → IsOkAnd (command_and_rest result) (λ p.
        F.post command (u8_at bytes.now 0) (u8_at bytes.now 1) p.0 × (p.1 ≡ drop 2 bytes.now)) }
{
    let [site, partition, rest @ ..] = bytes else {
        return Err(Refusal::ShortCommand);
    };
    Ok((command(*site, *partition), rest))
}
