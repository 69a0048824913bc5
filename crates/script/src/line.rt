//! The text of one line, as it is being made.
ghost use Rattle.std.specs.Prelude.{◌≡◌, ◌+◌, ◌≤◌, [], ◌∷◌, ◌++◌, length, drop, decimal};
ghost use Rattle.script.specs.Answers.{answer_text, basis_text, read_text, refusal_text, shown_text};
ghost use Rattle.script.specs.Answers.{stamp_text, value_text, version_text};
ghost use Rattle.script.specs.Lines.{letter_byte, line_of};

use crate::answer::Answer;
use arrayvec::ArrayVec;
use group::shown::Shown;
use itoa::{Buffer, Integer};
use servers::value::{Basis, Value};
use stamps::refusal::Refusal;
use stamps::stamp::Stamp;
use std::marker::Model;

/// The most bytes that a line has, with its line feed.
pub const MOST_BYTES: usize = 96;

/// The text of one line, as it is being made.
// Answers are put here by methods and no `Display`: `write!` promises its bytes only at `Ok`, and nothing promises
// `Ok`.
#[derive(Drop)]
pub(crate) struct Line {
    text: ArrayVec<u8, MOST_BYTES>,
}

// In clauses a line is its text.
impl Model for Line {
    ghost use Rattle.std.specs.Prelude.{ℕ, List};

    ghost Value = { List ℕ };

    ghost view = { λ line. line.text.items };
}

// Pieces go to the end of a line, which has room for them.
#[tactic(auto, using(crate::proofs::Lengths::pieces))]
impl Line {
    fn new() -> Line
        ensures { result ≡ [] }
    {
        Line {
            text: ArrayVec::new(),
        }
    }

    fn as_slice(&self) -> &[u8]
        ensures { result.now ≡ self.now }
    {
        self.text.as_slice()
    }

    fn byte(&mut self, byte: u8)
        requires { length self.old + 1 ≤ 96 }
        ensures { self.new ≡ self.old ++ byte ∷ [] }
    {
        self.text.push(byte);
    }

    fn text(&mut self, bytes: &[u8])
        requires { length self.old + length bytes.now ≤ 96 }
        ensures { self.new ≡ self.old ++ bytes.now }
    {
        self.text.try_extend_from_slice(bytes).unwrap();
    }

    /// A number in decimal digits, with a minus in front if it is below 0.
    fn number<I: Integer>(&mut self, number: I)
        requires { length self.old + length (I.text number) ≤ 96 }
        ensures { self.new ≡ self.old ++ I.text number }
    {
        let mut digits = Buffer::new();
        self.text(digits.format(number).as_bytes());
    }

    /// The whole line of a command.
    fn command(&mut self, number: u32, letter: char, answer: Answer)
        requires new { self.old ≡ [] }
        requires few { number ≤ 65535 }
        ensures text { self.new ≡ line_of number letter answer }
        ensures short { length (line_of number letter answer) ≤ 96 }
    {
        self.number(number);
        self.byte(b' ');
        self.byte(letter_byte(letter));
        self.byte(b' ');
        self.answer(answer);
        self.byte(b'\n');
    }

    fn answer(&mut self, answer: Answer)
        requires { length self.old + 87 ≤ 96 }
        ensures text { self.new ≡ self.old ++ answer_text answer }
        ensures short { length (answer_text answer) ≤ 87 }
    {
        match answer {
            Answer::Done => self.text(b"ok"),
            Answer::Count(number) => self.number(number),
            Answer::Number(number) => self.number(number),
            Answer::Stamped(stamp) => self.stamp(stamp),
            Answer::Shown(version) => self.shown(version),
            Answer::Both(first, second) => {
                self.read(first);
                self.text(b" / ");
                self.read(second);
            }
            Answer::Refused(why) => self.refusal(why),
        }
    }

    /// What one read answers.
    fn read(&mut self, res: Result<Option<Shown>, Refusal>)
        requires { length self.old + 42 ≤ 96 }
        ensures text { self.new ≡ self.old ++ read_text res }
        ensures short { length (read_text res) ≤ 42 }
    {
        match res {
            Ok(version) => self.shown(version),
            Err(why) => self.refusal(why),
        }
    }

    fn shown(&mut self, version: Option<Shown>)
        requires { length self.old + 42 ≤ 96 }
        ensures text { self.new ≡ self.old ++ shown_text version }
        ensures short { length (shown_text version) ≤ 42 }
    {
        match version {
            None => self.text(b"none"),
            Some(version) => self.version(version),
        }
    }

    /// A version as its value, its stamp and its source.
    fn version(&mut self, version: Shown)
        requires { length self.old + 42 ≤ 96 }
        ensures text { self.new ≡ self.old ++ version_text version }
        ensures short { length (version_text version) ≤ 42 }
    {
        self.value(version.value);
        self.byte(b' ');
        self.stamp(version.stamp);
        self.byte(b' ');
        self.number(version.source.number());
    }

    fn value(&mut self, value: Value)
        requires { length self.old + 18 ≤ 96 }
        ensures text { self.new ≡ self.old ++ value_text value }
        ensures short { length (value_text value) ≤ 18 }
    {
        match value {
            Value::Gone => self.text(b"gone"),
            Value::Price(cents) => self.amount(b"price ", cents),
            Value::Percent(percent) => self.amount(b"percent ", percent.hundredths),
            Value::Basis(basis) => self.basis(basis),
        }
    }

    fn basis(&mut self, basis: Basis)
        requires { length self.old + 18 ≤ 96 }
        ensures text { self.new ≡ self.old ++ basis_text basis }
        ensures short { length (basis_text basis) ≤ 18 }
    {
        match basis {
            Basis::Part => self.text(b"basis part"),
            Basis::Sheet => self.text(b"basis sheet"),
        }
    }

    /// A word and a number.
    fn amount(&mut self, word: &[u8], number: u32)
        requires { length self.old + length word.now + 10 ≤ 96 }
        ensures text { self.new ≡ self.old ++ (word.now ++ decimal number) }
        ensures short { length (decimal number) ≤ 10 }
    {
        self.text(word);
        self.number(number);
    }

    /// A stamp as its time and its count.
    fn stamp(&mut self, stamp: Stamp)
        requires { length self.old + 21 ≤ 96 }
        ensures text { self.new ≡ self.old ++ stamp_text stamp }
        ensures short { length (stamp_text stamp) ≤ 21 }
    {
        self.number(stamp.time());
        self.byte(b'.');
        self.number(stamp.count());
    }

    fn refusal(&mut self, why: Refusal)
        requires { length self.old + 6 ≤ 96 }
        ensures text { self.new ≡ self.old ++ refusal_text why }
        ensures short { length (refusal_text why) ≤ 6 }
    {
        self.text(b"no ");
        self.number(why.number());
    }
}

/// Writes the line of a command to the start of the buffer, and answers its length.
pub(crate) fn write_line(buffer: &mut [u8], number: u32, letter: char, answer: Answer) -> usize
    requires room { 96 ≤ length buffer.old }
    requires few { number ≤ 65535 }
    ensures len { result ≡ length (line_of number letter answer) }
    ensures text { buffer.new ≡ line_of number letter answer ++ drop result buffer.old }
    ensures short { result ≤ 96 }
{
    let mut line = Line::new();
    line.command(number, letter, answer);
    let text = line.as_slice();
    let len = text.len();
    buffer[..len].copy_from_slice(text);
    len
}

/// The byte that a line shows of a letter: a question mark for one that no command has.
fn letter_byte(letter: char) -> u8
    ensures { result ≡ letter_byte letter }
{
    match letter {
        'L' | 'S' | 'T' | 'P' | 'G' | 'H' | 'D' | 'R' | 'U' | 'C' | 'Q' | 'V' => letter as u8,
        _ => b'?',
    }
}
