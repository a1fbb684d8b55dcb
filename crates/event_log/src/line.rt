//! The text of one line.

ghost use Rattle.std.specs.Prelude.{◌≡◌, ◌++◌, ◌∷◌, string_bytes, Ok, IfOk, OnOk};
ghost use Rattle.std.specs.List.{join_with_byte};
ghost use Rattle.hex.specs.Hex.{encode_lower, IsBytes};
ghost use Rattle.event_log.specs.Lines as spec;
ghost use Rattle.event_log.specs.Reading.{reading_of};

use crate::side::{Side, add_side};
use smbd_base::{Event, Frame, NoMemory};
use std::alloc::Global;
use std::marker::Model;

/// A line of a log, without its line feed (this project's own). Contracts see the list of its bytes.
#[derive(Clone, Debug, Drop)]
pub struct Line {
    text: String,
}

impl Model for Line {
    ghost use Rattle.std.specs.Prelude.{List, ℕ, string_bytes};

    ghost Value = { List ℕ };

    ghost view = { λ l. string_bytes l.text };
}

impl Line {
    /// The line of this text.
    pub(crate) fn of_text(text: String) -> Line
        ensures { result ≡ string_bytes text }
    {
        Line { text }
    }

    /// The bytes of the line, without its line feed.
    pub fn bytes(&self) -> &[u8]
        ensures { result.now ≡ self.now }
    {
        self.text.as_bytes()
    }
}

/// Adds the hex of a frame.
pub(crate) fn add_frame(alloc: Global, text: &mut String, frame: &Frame) -> Result<(), NoMemory>
    ensures text { OnOk result (string_bytes text.new ≡ string_bytes text.old ++ encode_lower frame.now) }
    ensures bytes { IsBytes frame.now }
{
    let bytes = frame.bytes();
    let digits = hex::encode(alloc, bytes)?;
    text.push_str(digits.as_str())?;
    Ok(())
}

/// Adds what stands after the side, with a space before it.
fn add_event(alloc: Global, text: &mut String, event: &Event, number: u64) -> Result<(), NoMemory>
    ensures text { OnOk result (string_bytes text.new ≡ string_bytes text.old ++ 32 ∷ join_with_byte 32 (spec.words_of (spec.logged number event.now))) }
    ensures bytes { OnOk result (IsBytes (spec.frame_in (spec.logged number event.now))) }
{
    match event {
        Event::Post(receives) => Ok(write!(text, " post {receives}")?),
        Event::Submit(message) => {
            let length = message.len();
            Ok(write!(text, " submit {length}")?)
        }
        Event::Emit(frame) => {
            text.push_str(" emit ")?;
            add_frame(alloc, text, frame)
        }
        Event::Take(frame) => {
            let length = frame.len();
            Ok(write!(text, " take {number} {length}")?)
        }
        Event::Cut => Ok(text.push_str(" cut")?),
    }
}

/// Adds the line of an event of an end to a text, without a line feed. `number` is the number of the taken frame, from 1, and
/// counts for a Take alone.
pub fn add_line(
    alloc: Global,
    text: &mut String,
    side: Side,
    event: &Event,
    number: u64,
) -> Result<(), NoMemory>
    ensures text { OnOk result (string_bytes text.new ≡ string_bytes text.old ++ spec.line_text side (spec.logged number event.now)) }
    ensures bytes { OnOk result (IsBytes (spec.frame_in (spec.logged number event.now))) }
{
    add_side(text, side)?;
    add_event(alloc, text, event, number)?;
    Ok(())
}

/// The line of an event of an end. `number` is the number of the taken frame, from 1 to 2^62 - 1, and counts for a Take
/// alone. Lengths lie in the ranges of `LogLine`.
pub fn line_of(alloc: Global, side: Side, event: &Event, number: u64) -> Result<Line, NoMemory>
    requires { spec.HasLawfulNumbers side (spec.logged number event.now) }
    ensures text { IfOk result (λ line. line ≡ spec.line_text side (spec.logged number event.now)) }
    ensures read_back { IfOk result (λ line. reading_of line ≡ Ok (side, spec.logged number event.now)) }
{
    let mut text = String::new(alloc);
    add_line(alloc, &mut text, side, event, number)?;
    Ok(Line { text })
}
