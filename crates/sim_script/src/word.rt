//! The names in a line: its word, which stands first, and its end.

ghost use Rattle.std.specs.Prelude.{◌≡◌, bytes_eq};
ghost use Rattle.event_log.specs.Reading.{parts_left};
ghost use Rattle.sim_script.specs.Scripts as spec;

use event_log::first_part;
use smbd_base::EndId;

/// What a line does.
#[derive(Clone, Copy, Debug, PartialEq, Eq)]
pub(crate) enum Word {
    Submit,
    Drive,
    Carry,
    Cut,
}

/// Whether the name is this text.
fn is(name: &[u8], text: &[u8]) -> bool
    ensures { result ≡ bytes_eq name.now text.now }
{
    name == text
}

/// The word of this name.
#[tactic(auto, unfolding(crate::specs::Scripts::word_named))]
pub(crate) fn word_named(name: &[u8]) -> Option<Word>
    ensures { result ≡ spec.word_named name.now }
{
    if is(name, b"submit") {
        return Some(Word::Submit);
    }
    if is(name, b"drive") {
        return Some(Word::Drive);
    }
    if is(name, b"carry") {
        return Some(Word::Carry);
    }
    if is(name, b"cut") {
        return Some(Word::Cut);
    }
    None
}

/// The end of this name: `C` is the client, `S` the server.
#[tactic(auto, unfolding(crate::specs::Scripts::end_named))]
fn end_named(name: &[u8]) -> Option<EndId>
    ensures { result ≡ spec.end_named name.now }
{
    if is(name, b"C") {
        return Some(EndId::Client);
    }
    if is(name, b"S") {
        return Some(EndId::Server);
    }
    None
}

/// The end that the next part names, and the parts after it. The next part is the bytes of `rest` up to the first space.
pub fn next_end(rest: Option<&[u8]>) -> Option<(EndId, Option<&[u8]>)>
    ensures { spec.end_and_parts result ≡ spec.next_end (parts_left rest.entry) }
{
    let (part, after) = first_part(rest?);
    let end = end_named(part)?;
    Some((end, after))
}
