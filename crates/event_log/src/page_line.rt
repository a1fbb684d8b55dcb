//! The text of one line of a worker.

ghost use Rattle.std.specs.Prelude.{◌≡◌, ◌++◌, ◌∷◌, string_bytes, Ok, IfOk, OnOk};
ghost use Rattle.std.specs.List.{join_with_byte};
ghost use Rattle.event_log.specs.Lines as spec;
ghost use Rattle.event_log.specs.Reading.{reading_of};

use crate::line::{Line, add_frame};
use crate::log_line::LogLine;
use crate::side::{Side, add_side};
use smbd_base::{NoMemory, PageEvent, Right};
use std::alloc::Global;

/// Adds what a line tells, with a space before it.
fn add_words(alloc: Global, text: &mut String, line: &LogLine) -> Result<(), NoMemory>
    ensures { OnOk result (string_bytes text.new ≡ string_bytes text.old ++ 32 ∷ join_with_byte 32 (spec.words_of line.now)) }
{
    match line {
        LogLine::Post(receives) => Ok(write!(text, " post {receives}")?),
        LogLine::Submit(length) => Ok(write!(text, " submit {length}")?),
        LogLine::Emit(frame) => {
            text.push_str(" emit ")?;
            add_frame(alloc, text, frame)
        }
        LogLine::Take { number, length } => Ok(write!(text, " take {number} {length}")?),
        LogLine::Cut => Ok(text.push_str(" cut")?),
        LogLine::Load {
            token,
            right: Right::Fetch,
            length,
        } => Ok(write!(text, " load {} fetch {length}", token.number())?),
        LogLine::Load {
            token,
            right: Right::Place,
            length,
        } => Ok(write!(text, " load {} place {length}", token.number())?),
        LogLine::Fetch { token, at, length } => {
            Ok(write!(text, " fetch {} {at} {length}", token.number())?)
        }
        LogLine::Place {
            token,
            order,
            at,
            length,
        } => Ok(write!(text, " place {} {order} {at} {length}", token.number())?),
        LogLine::Unload { token } => Ok(write!(text, " unload {}", token.number())?),
    }
}

/// Adds a line to a text, without a line feed.
pub fn add_log_line(
    alloc: Global,
    text: &mut String,
    side: Side,
    line: &LogLine,
) -> Result<(), NoMemory>
    ensures { OnOk result (string_bytes text.new ≡ string_bytes text.old ++ spec.line_text side line.now) }
{
    add_side(text, side)?;
    add_words(alloc, text, line)?;
    Ok(())
}

/// What the line of an event of a page tells.
fn logged_page(event: &PageEvent) -> LogLine
    requires { spec.IsShort event.now }
    ensures { result ≡ spec.logged_page event.now }
{
    match event {
        PageEvent::Load {
            token,
            right,
            bytes,
        } => LogLine::Load {
            token: *token,
            right: *right,
            length: bytes.len() as u32,
        },
        PageEvent::Fetch { token, at, bytes } => LogLine::Fetch {
            token: *token,
            at: *at,
            length: bytes.len() as u32,
        },
        PageEvent::Place {
            token,
            order,
            at,
            bytes,
        } => LogLine::Place {
            token: *token,
            order: *order,
            at: *at,
            length: bytes.len() as u32,
        },
        PageEvent::Unload { token, .. } => LogLine::Unload { token: *token },
    }
}

/// The line of an event of a worker (this project's own). The worker is one of 1 to 8, and lengths and places lie in the ranges of
/// `LogLine`.
pub fn line_of_page(alloc: Global, side: Side, event: &PageEvent) -> Result<Line, NoMemory>
    requires { spec.HasLawfulNumbers side (spec.logged_page event.now) }
    ensures text { IfOk result (λ line. line ≡ spec.line_text side (spec.logged_page event.now)) }
    ensures read_back { IfOk result (λ line. reading_of line ≡ Ok (side, spec.logged_page event.now)) }
{
    let mut text = String::new(alloc);
    add_log_line(alloc, &mut text, side, &logged_page(event))?;
    Ok(Line::of_text(text))
}
