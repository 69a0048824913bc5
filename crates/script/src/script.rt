//! A script, listed line by line.
ghost use Rattle.std.specs.Prelude.{◌≡◌, ◌+◌, ◌<◌, ◌≤◌, ◌==◌, length, IfOk, IfSome};

use crate::answer::Answer;
use crate::any_group::AnyGroup;
use crate::line::{MOST_BYTES, write_line};
use crate::obeys::Obeys;
use crate::reader::read;
pub use crate::script_bytes::MOST_SCRIPT_BYTES;
use crate::script_bytes::script_of;
use stamps::refusal::Refusal;

/// A script over what obeys its commands: a group, or one that its layout has still to make.
#[derive(Drop)]
pub struct ScriptOver<'a, G> {
    // What is left of the script.
    pub(crate) rest: &'a [u8],
    // How many lines there were.
    pub(crate) lines: u32,
    pub(crate) group: G,
    ghost few: { lines + length rest.now ≤ 65535 },
}

/// A whole script, whose layout makes its group.
pub type Script<'a> = ScriptOver<'a, AnyGroup>;

impl<'a> Script<'a> {
    ghost use Rattle.script.specs.Scripts.{new_script, script_state};
    ghost use Rattle.script.specs.ScriptGroups.{script_group};

    /// A script of these bytes, of which no line was listed yet. Bytes past the first 65,535 are no part of it.
    pub fn new(bytes: &'a [u8]) -> Script<'a>
        ensures { script_state script_group result ≡ new_script bytes.now }
    {
        ScriptOver {
            rest: script_of(bytes),
            lines: 0,
            group: AnyGroup::NoGroup,
        }
    }
}

impl<'a, G: Obeys> ScriptOver<'a, G> {
    ghost use Rattle.script.specs.Scripts.{end_with, line_into, next, next_answer, next_line, script_state};

    /// Performs the next command and writes its line to the start of the buffer: the line's length, or none if the
    /// script has ended.
    ///
    /// # Errors
    ///
    /// `ShortBuffer` if the buffer has not 96 bytes. Nothing is performed, and the buffer is left as it was.
    pub fn next_line(&mut self, buffer: &mut [u8]) -> Result<Option<usize>, Refusal>
        ensures value { (result, script_state G.state self.new, buffer.new) ≡
            next_line G.obey_gives (script_state G.state self.old) buffer.old }
        ensures short { IfOk result (λ line. IfSome line (λ len. len ≤ 96)) }
    {
        if buffer.len() < MOST_BYTES {
            return Err(Refusal::ShortBuffer);
        }
        if self.has_ended() {
            return Ok(None);
        }
        Ok(Some(self.write_next(buffer)))
    }

    /// Asked before a line is written, since after the last one there may be no room for another.
    pub(crate) fn has_ended(&self) -> bool
        ensures { result ≡ (length self.now.rest.now == 0) }
    {
        self.rest.is_empty()
    }

    /// The next line, where there is one and the buffer is long enough.
    pub(crate) fn write_next(&mut self, buffer: &mut [u8]) -> usize
        requires room { 96 ≤ length buffer.old }
        requires some { 0 < length self.old.rest.now }
        ensures value { let before = script_state G.state self.old in
            (Ok (Some result), script_state G.state self.new, buffer.new) ≡
            line_into before buffer.old (next G.obey_gives before) }
        ensures short { result ≤ 96 }
    {
        let letter = self.rest[0] as char;
        let answer = self.next_answer();
        self.lines += 1;
        write_line(buffer, self.lines, letter, answer)
    }

    /// Performs the next command.
    // The answer is returned where it comes: with a `?` it would be copied once more.
    fn next_answer(&mut self) -> Answer
        requires { 0 < length self.old.rest.now }
        ensures answer { (result, script_state G.state self.new) ≡
            next_answer G.obey_gives (script_state G.state self.old) }
        ensures shorter { length self.new.rest.now < length self.old.rest.now }
    {
        let (command, rest) = match read(self.rest) {
            Ok(first) => first,
            Err(why) => return self.end_with(why),
        };
        match self.group.obey(command) {
            Ok(answer) => {
                self.rest = rest;
                answer
            }
            Err(why) => self.end_with(why),
        }
    }

    /// Nothing is listed after this refusal.
    fn end_with(&mut self, why: Refusal) -> Answer
        ensures { (result, script_state G.state self.new) ≡ end_with (script_state G.state self.old) why }
    {
        self.rest = &[];
        Answer::Refused(why)
    }
}
