//! The words of lines, which stand after the side.

ghost use Rattle.std.specs.Prelude.{◌≡◌, bytes_eq};
ghost use Rattle.event_log.specs.Reading as spec;

use crate::side::Side;
use smbd_base::Right;

/// What a line tells: an event of an end, or of a page.
#[derive(Clone, Copy, Debug, PartialEq, Eq)]
pub(crate) enum Word {
    Post,
    Submit,
    Emit,
    Take,
    Cut,
    Load,
    Fetch,
    Place,
    Unload,
}

/// Whether the name is this text.
fn is(name: &[u8], text: &[u8]) -> bool
    ensures { result ≡ bytes_eq name.now text.now }
{
    name == text
}

/// The word of this name that a line of this side can have.
pub(crate) fn word_named(side: Side, name: &[u8]) -> Option<Word>
    ensures { result ≡ spec.word_named side name.now }
{
    match side {
        Side::C | Side::S => end_word(name),
        Side::Cw(_) | Side::Sw(_) => page_word(name),
    }
}

#[tactic(auto, unfolding(crate::specs::Reading::end_word))]
fn end_word(name: &[u8]) -> Option<Word>
    ensures { result ≡ spec.end_word name.now }
{
    if is(name, b"post") {
        return Some(Word::Post);
    }
    if is(name, b"submit") {
        return Some(Word::Submit);
    }
    if is(name, b"emit") {
        return Some(Word::Emit);
    }
    if is(name, b"take") {
        return Some(Word::Take);
    }
    if is(name, b"cut") {
        return Some(Word::Cut);
    }
    None
}

#[tactic(auto, unfolding(crate::specs::Reading::page_word))]
fn page_word(name: &[u8]) -> Option<Word>
    ensures { result ≡ spec.page_word name.now }
{
    if is(name, b"load") {
        return Some(Word::Load);
    }
    if is(name, b"fetch") {
        return Some(Word::Fetch);
    }
    if is(name, b"place") {
        return Some(Word::Place);
    }
    if is(name, b"unload") {
        return Some(Word::Unload);
    }
    None
}

/// The right of this name.
#[tactic(auto, unfolding(crate::specs::Reading::right_named))]
pub(crate) fn right_named(name: &[u8]) -> Option<Right>
    ensures { result ≡ spec.right_named name.now }
{
    if is(name, b"fetch") {
        return Some(Right::Fetch);
    }
    if is(name, b"place") {
        return Some(Right::Place);
    }
    None
}

/// The side of this name.
#[tactic(auto, unfolding(crate::specs::Reading::side_named))]
pub(crate) fn side_named(name: &[u8]) -> Option<Side>
    ensures { result ≡ spec.side_named name.now }
{
    match name {
        [letter] => end_named(*letter),
        [letter, digit] if b'1' <= *digit && *digit <= b'8' => {
            worker_named(*letter, *digit - b'0')
        }
        _ => None,
    }
}

fn end_named(letter: u8) -> Option<Side>
    ensures { result ≡ spec.end_named letter }
{
    match letter {
        b'C' => Some(Side::C),
        b'S' => Some(Side::S),
        _ => None,
    }
}

fn worker_named(letter: u8, worker: u8) -> Option<Side>
    ensures { result ≡ spec.worker_named letter worker }
{
    match letter {
        b'C' => Some(Side::Cw(worker)),
        b'S' => Some(Side::Sw(worker)),
        _ => None,
    }
}
