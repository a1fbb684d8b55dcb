//! Fetches and Places: accesses by the peer's descriptors.

ghost use Rattle.std.specs.Prelude.{◌≡◌, Some, vec_len};
ghost use Rattle.smbd_base.specs.Tokens.{PageToken, token_of};
ghost use Rattle.smbd_base.specs.Pages.{page_at};
ghost use Rattle.page_slots.specs.Answers.{places_had};
ghost use Rattle.registration.specs.Regions.{IsAmong};
ghost use Rattle.page_workers.specs.declared.kept.Kept.TheVariants as keeps;
ghost use Rattle.page_workers.specs.Tries.{HasTried, fetch_job, place_job, is_sound};

use crate::kept::Tried;
use crate::tries::{Attempt, refused};
use buffer_descriptor::Descriptor;
use event_log::LogLine;
use file_messages::{Completion, WorkResult};
use page_slots::PagePass;
use registration::Region;
use remote_access::{Remote, read_from, write_to};
use smbd_base::{Message, Token};

/// Whether a descriptor names at least one byte, and ends below 2^64.
fn is_sound(descriptor: &Descriptor) -> bool
    ensures { result ≡ is_sound descriptor.now }
{
    descriptor.length >= 1 && u64::MAX - descriptor.offset >= u64::from(descriptor.length)
}

/// Copies the descriptor's bytes out of its page.
pub(crate) fn fetch(
    region: &mut Region,
    pass: &mut PagePass,
    number: u64,
    descriptor: &Descriptor,
    mut room: Vec<u8>,
) -> Attempt
    requires { vec_len room ≡ descriptor.now.length }
    ensures tried { HasTried (keeps.Fresh (fetch_job number descriptor.now)) result.tried result.line region.old region.new }
    ensures pass { pass.new ≡ pass.old }
{
    if !is_sound(descriptor) {
        return refused();
    }
    if read_from(region, pass, descriptor, &mut room) != Remote::Done {
        return refused();
    }
    let Some(token) = Token::from_number(descriptor.token) else {
        unreachable!()
    };
    Attempt {
        tried: Tried::Finished(Completion {
            number,
            result: WorkResult::Fetched(Message::owned(room)),
        }),
        line: Some(LogLine::Fetch {
            token,
            at: descriptor.offset.saturating_sub(token.start()) as u32,
            length: descriptor.length,
        }),
    }
}

/// How many places the descriptor's token has had.
fn places_before(region: &Region, descriptor: &Descriptor) -> u16
    ensures { (token : PageToken) → token_of descriptor.now.token ≡ Some token → IsAmong token.page region.now
        → result ≡ places_had (page_at token.page region.now.pages).loaded }
{
    let Some(token) = Token::from_number(descriptor.token) else {
        return 0;
    };
    if usize::from(token.page()) >= region.count() {
        return 0;
    }
    region.places_had(token.page())
}

/// Copies bytes into the descriptor's page.
pub(crate) fn place(
    region: &mut Region,
    pass: &mut PagePass,
    number: u64,
    descriptor: &Descriptor,
    bytes: &Message,
) -> Attempt
    ensures tried { HasTried (keeps.Fresh (place_job number descriptor.now bytes.now)) result.tried result.line region.old region.new }
    ensures pass { pass.new ≡ pass.old }
{
    if !is_sound(descriptor) {
        return refused();
    }
    if bytes.len() != descriptor.length as usize {
        return refused();
    }
    let order = places_before(region, descriptor);
    if write_to(region, pass, descriptor, bytes.bytes()) != Remote::Done {
        return refused();
    }
    let Some(token) = Token::from_number(descriptor.token) else {
        unreachable!()
    };
    Attempt {
        tried: Tried::Finished(Completion {
            number,
            result: WorkResult::Placed,
        }),
        line: Some(LogLine::Place {
            token,
            order: u32::from(order),
            at: descriptor.offset.saturating_sub(token.start()) as u32,
            length: descriptor.length,
        }),
    }
}
