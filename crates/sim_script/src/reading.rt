//! Reading a line.

ghost use Rattle.std.specs.Prelude.{◌≡◌, IfSome};
ghost use Rattle.event_log.specs.Reading.{parts_left};
ghost use Rattle.sim_script.specs.Scripts as spec;

use crate::script_line::ScriptLine;
use crate::word::{Word, next_end, word_named};
use event_log::{first_part, next_number};
use smbd_base::{EndId, MOST_FRAGMENTED_SIZE};

/// The line that these bytes are, without a line feed, if they are one. It takes no memory.
#[tactic(auto, unfolding(crate::specs::Scripts::script_line))]
pub fn read_line(bytes: &[u8]) -> Option<ScriptLine>
    ensures value { result ≡ spec.script_line bytes.now }
    ensures written { IfSome result (λ line. spec.IsLawfulLine line × (bytes.now ≡ spec.line_text line)) }
{
    let (name, rest) = first_part(bytes);
    let word = word_named(name)?;
    let (end, rest) = next_end(rest)?;
    line_of_word(word, end, rest)
}

/// The line of the word and the end, by the parts after these.
fn line_of_word(word: Word, end: EndId, rest: Option<&[u8]>) -> Option<ScriptLine>
    ensures { result ≡ spec.line_of_word word end (parts_left rest.entry) }
{
    match word {
        Word::Submit => submit_of(end, rest),
        Word::Drive => line_at_end(ScriptLine::Drive(end), rest),
        Word::Carry => line_at_end(ScriptLine::Carry(end), rest),
        Word::Cut => line_at_end(ScriptLine::Cut(end), rest),
    }
}

/// The line of a message: its length and its first byte are left.
#[tactic(auto, unfolding(crate::specs::Scripts::submit_of))]
fn submit_of(end: EndId, rest: Option<&[u8]>) -> Option<ScriptLine>
    ensures { result ≡ spec.submit_of end (parts_left rest.entry) }
{
    let (bytes, rest) = next_number(rest, 1, MOST_FRAGMENTED_SIZE as u64)?;
    let (byte, rest) = next_number(rest, 0, 255)?;
    let length = bytes as u32;
    let first = byte as u8;
    line_at_end(ScriptLine::Submit { end, length, first }, rest)
}

/// The line, where no part is left.
fn line_at_end(line: ScriptLine, rest: Option<&[u8]>) -> Option<ScriptLine>
    ensures { result ≡ spec.line_at_end line (parts_left rest.entry) }
{
    match rest {
        None => Some(line),
        Some(_) => None,
    }
}
