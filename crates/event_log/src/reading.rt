//! Reading a line.

ghost use Rattle.std.specs.Prelude.{◌≡◌, ◌≤◌, Ok, IfOk, IfErr};
ghost use Rattle.std.specs.List.{list_all};
ghost use Rattle.event_log.specs.Lines.{IsLawfulLine, line_text};
ghost use Rattle.event_log.specs.Reading as spec;

use crate::fault::LineFault;
use crate::log_line::LogLine;
use crate::parts::{first_part, next_number, next_right};
use crate::side::Side;
use crate::word::{Word, side_named, word_named};
use smbd_base::{Frame, MOST_CREDITS, MOST_FRAME_SIZE, PAGE_SIZE, Token};
use std::alloc::Global;

/// The line that these bytes say, without a line feed, or the first fault, in the order of `LineFault`'s comment. It takes
/// memory for a frame alone.
#[tactic(auto, unfolding(crate::specs::Reading::reading_of))]
pub fn read_line(alloc: Global, bytes: &[u8]) -> Result<(Side, LogLine), LineFault>
    ensures value { IfOk result (λ line. spec.reading_of bytes.now ≡ Ok line) }
    ensures written { IfOk result (λ line. IsLawfulLine line.0 line.1 × (bytes.now ≡ line_text line.0 line.1)) }

    // Each other fault comes exactly where it is the first, and want of memory only at the line of a frame.
    ensures fault { IfErr result (λ fault. spec.IsLineFault fault bytes.now) }
{
    if bytes.len() > 16_400 {
        return Err(LineFault::Long);
    }
    let (name, rest) = first_part(bytes);
    let Some(side) = side_named(name) else {
        return Err(LineFault::Side);
    };
    let Some(after) = rest else {
        return Err(LineFault::Word);
    };
    let (name, rest) = first_part(after);
    let Some(word) = word_named(side, name) else {
        return Err(LineFault::Word);
    };
    let line = line_of_word(alloc, word, rest)?;
    Ok((side, line))
}

/// The line of the word, by the parts after it.
fn line_of_word(alloc: Global, word: Word, rest: Option<&[u8]>) -> Result<LogLine, LineFault>
    ensures value { IfOk result (λ line. spec.line_of_word word (spec.parts_left rest.entry) ≡ Ok line) }
    ensures fault { IfErr result (λ fault. spec.IsCause (spec.IsEmit (spec.line_of_word word (spec.parts_left rest.entry))) fault (spec.line_of_word word (spec.parts_left rest.entry))) }
{
    let line = match word {
        Word::Emit => return emit_of(alloc, rest),
        Word::Post => post_of(rest),
        Word::Submit => submit_of(rest),
        Word::Take => take_of(rest),
        Word::Cut => line_at_end(LogLine::Cut, rest),
        Word::Load => load_of(rest),
        Word::Fetch => fetch_of(rest),
        Word::Place => place_of(rest),
        Word::Unload => unload_of(rest),
    };
    line.ok_or(LineFault::Number)
}

/// The token of this number.
fn token_numbered(number: u64) -> Token
    requires least { 256 ≤ number }
    requires most { number ≤ 4294967295 }
    ensures { result ≡ spec.token_numbered number }
{
    Token::new((number % 256) as u8, (number / 256) as u32)
}

/// The line, where no part is left.
fn line_at_end(line: LogLine, rest: Option<&[u8]>) -> Option<LogLine>
    ensures { result ≡ spec.line_at_end line (spec.parts_left rest.entry) }
{
    match rest {
        None => Some(line),
        Some(_) => None,
    }
}

#[tactic(auto, unfolding(crate::specs::Reading::post_of))]
fn post_of(rest: Option<&[u8]>) -> Option<LogLine>
    ensures { result ≡ spec.post_of (spec.parts_left rest.entry) }
{
    let (receives, rest) = next_number(rest, 1, MOST_CREDITS as u64)?;
    line_at_end(LogLine::Post(receives as u16), rest)
}

#[tactic(auto, unfolding(crate::specs::Reading::submit_of))]
fn submit_of(rest: Option<&[u8]>) -> Option<LogLine>
    ensures { result ≡ spec.submit_of (spec.parts_left rest.entry) }
{
    let (length, rest) = next_number(rest, 1, 4_294_967_295)?;
    line_at_end(LogLine::Submit(length as u32), rest)
}

/// Whether this is a digit of hex in lower case.
fn is_lower_digit(b: u8) -> bool
    ensures { result ≡ spec.is_lower_digit b }
{
    (b'0' <= b && b <= b'9') || (b'a' <= b && b <= b'f')
}

/// Whether all are such digits.
fn are_lower_digits(digits: &[u8]) -> bool
    ensures { result ≡ list_all spec.is_lower_digit digits.now }
{
    digits.iter().all(|&b| is_lower_digit(b))
}

/// Whether these are the digits of a frame.
fn is_frame_text(digits: &[u8]) -> bool
    ensures { result ≡ spec.is_frame_text digits.now }
{
    if digits.is_empty() || digits.len() > 16_384 || digits.len() % 2 != 0 {
        return false;
    }
    are_lower_digits(digits)
}

/// The line of a frame, by its hex.
fn frame_line(alloc: Global, digits: &[u8]) -> Result<LogLine, LineFault>
    ensures value { IfOk result (λ line. spec.frame_line digits.now ≡ Ok line) }
    ensures fault { IfErr result (λ fault. spec.IsCause (spec.IsEmit (spec.frame_line digits.now)) fault (spec.frame_line digits.now)) }
{
    if !is_frame_text(digits) {
        return Err(LineFault::Hex);
    }
    match hex::decode(alloc, digits) {
        Ok(frame) => Ok(LogLine::Emit(Frame::of_bytes(frame)?)),
        Err(_) => Err(LineFault::NoMemory),
    }
}

#[tactic(auto, unfolding(crate::specs::Reading::emit_of))]
fn emit_of(alloc: Global, rest: Option<&[u8]>) -> Result<LogLine, LineFault>
    ensures value { IfOk result (λ line. spec.emit_of (spec.parts_left rest.entry) ≡ Ok line) }
    ensures fault { IfErr result (λ fault. spec.IsCause (spec.IsEmit (spec.emit_of (spec.parts_left rest.entry))) fault (spec.emit_of (spec.parts_left rest.entry))) }
{
    let Some(bytes) = rest else {
        return Err(LineFault::Number);
    };
    match first_part(bytes) {
        (digits, None) => frame_line(alloc, digits),
        (_, Some(_)) => Err(LineFault::Number),
    }
}

#[tactic(auto, unfolding(crate::specs::Reading::take_of))]
fn take_of(rest: Option<&[u8]>) -> Option<LogLine>
    ensures { result ≡ spec.take_of (spec.parts_left rest.entry) }
{
    let (number, rest) = next_number(rest, 1, 4_611_686_018_427_387_903)?;
    let (size, rest) = next_number(rest, 1, MOST_FRAME_SIZE as u64)?;
    let length = size as u32;
    line_at_end(LogLine::Take { number, length }, rest)
}

#[tactic(auto, unfolding(crate::specs::Reading::load_of))]
fn load_of(rest: Option<&[u8]>) -> Option<LogLine>
    ensures { result ≡ spec.load_of (spec.parts_left rest.entry) }
{
    let (number, rest) = next_number(rest, 256, 4_294_967_295)?;
    let (right, rest) = next_right(rest)?;
    let (size, rest) = next_number(rest, 1, PAGE_SIZE as u64)?;
    let token = token_numbered(number);
    let length = size as u32;
    line_at_end(
        LogLine::Load {
            token,
            right,
            length,
        },
        rest,
    )
}

#[tactic(auto, unfolding(crate::specs::Reading::fetch_of))]
fn fetch_of(rest: Option<&[u8]>) -> Option<LogLine>
    ensures { result ≡ spec.fetch_of (spec.parts_left rest.entry) }
{
    let (number, rest) = next_number(rest, 256, 4_294_967_295)?;
    let (place, rest) = next_number(rest, 0, PAGE_SIZE as u64 - 1)?;
    let (size, rest) = next_number(rest, 1, PAGE_SIZE as u64 - place)?;
    let token = token_numbered(number);
    let at = place as u32;
    let length = size as u32;
    line_at_end(LogLine::Fetch { token, at, length }, rest)
}

#[tactic(auto, unfolding(crate::specs::Reading::place_of))]
fn place_of(rest: Option<&[u8]>) -> Option<LogLine>
    ensures { result ≡ spec.place_of (spec.parts_left rest.entry) }
{
    let (number, rest) = next_number(rest, 256, 4_294_967_295)?;
    let (count, rest) = next_number(rest, 0, 65_534)?;
    let (place, rest) = next_number(rest, 0, PAGE_SIZE as u64 - 1)?;
    let (size, rest) = next_number(rest, 1, PAGE_SIZE as u64 - place)?;
    let token = token_numbered(number);
    let order = count as u32;
    let at = place as u32;
    let length = size as u32;
    line_at_end(
        LogLine::Place {
            token,
            order,
            at,
            length,
        },
        rest,
    )
}

#[tactic(auto, unfolding(crate::specs::Reading::unload_of))]
fn unload_of(rest: Option<&[u8]>) -> Option<LogLine>
    ensures { result ≡ spec.unload_of (spec.parts_left rest.entry) }
{
    let (number, rest) = next_number(rest, 256, 4_294_967_295)?;
    let token = token_numbered(number);
    line_at_end(LogLine::Unload { token }, rest)
}
