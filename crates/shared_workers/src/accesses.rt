//! Fetches and Places: accesses by the peer's descriptors.

ghost use Rattle.std.specs.Prelude.{◌≡◌, ◌+◌, ◌≤◌, ◌<◌, vec_len, length};
ghost use Rattle.shared_pages.specs.Calls.{known_by, opening_of, IsOf, MayMake};
ghost use Rattle.page_workers.specs.declared.kept.Kept.TheVariants as keeps;
ghost use Rattle.page_workers.specs.Tries.{fetch_job, place_job, is_sound};
ghost use Rattle.shared_workers.specs.Tries.{HasTried};

use crate::tries::{Attempt, refused};
use buffer_descriptor::Descriptor;
use event_log::LogLine;
use file_messages::{Completion, WorkResult};
use page_workers::Tried;
use shared_pages::PagePass;
use shared_region::{Region, Remote, Written, read_from, write_in_order};
use smbd_base::{Message, Token};

/// Whether a descriptor names at least one byte, and ends below 2^64.
fn is_sound(descriptor: &Descriptor) -> bool
    ensures { result ≡ is_sound descriptor.now }
{
    descriptor.length >= 1 && u64::MAX - descriptor.offset >= u64::from(descriptor.length)
}

/// Copies the descriptor's bytes out of its page.
pub(crate) fn fetch(
    region: &Region,
    pass: &mut PagePass,
    number: u64,
    descriptor: &Descriptor,
    mut room: Vec<u8>,
) -> Attempt
    requires own { IsOf region.now.pages pass.old }
    requires few { MayMake (known_by pass.old) }
    requires room { vec_len room ≡ descriptor.now.length }
    ensures own { IsOf region.now.pages pass.new }
    ensures few { length (known_by pass.new).made ≤ length (known_by pass.old).made + 1 }
    ensures tried { HasTried (opening_of region.now.pages) (keeps.Fresh (fetch_job number descriptor.now)) result.tried result.line (known_by pass.old) (known_by pass.new) }
{
    if !is_sound(descriptor) {
        return refused();
    }
    if read_from(region, pass, descriptor, &mut room) != Remote::Done {
        return refused();
    }
    let Some(token) = Token::from_number(descriptor.token) else {
        unreachable!()
    };
    Attempt {
        tried: Tried::Finished(Completion {
            number,
            result: WorkResult::Fetched(Message::owned(room)),
        }),
        line: Some(LogLine::Fetch {
            token,
            at: descriptor.offset.saturating_sub(token.start()) as u32,
            length: descriptor.length,
        }),
    }
}

/// Copies bytes into the descriptor's page.
pub(crate) fn place(
    region: &Region,
    pass: &mut PagePass,
    number: u64,
    descriptor: &Descriptor,
    bytes: &Message,
) -> Attempt
    requires own { IsOf region.now.pages pass.old }
    requires few { MayMake (known_by pass.old) }
    ensures own { IsOf region.now.pages pass.new }
    ensures few { length (known_by pass.new).made ≤ length (known_by pass.old).made + 1 }
    ensures tried { HasTried (opening_of region.now.pages) (keeps.Fresh (place_job number descriptor.now bytes.now)) result.tried result.line (known_by pass.old) (known_by pass.new) }
{
    if !is_sound(descriptor) {
        return refused();
    }
    if bytes.len() != descriptor.length as usize {
        return refused();
    }
    let Written { answer, order } = write_in_order(region, pass, descriptor, bytes.bytes());
    if answer != Remote::Done {
        return refused();
    }
    let Some(token) = Token::from_number(descriptor.token) else {
        unreachable!()
    };
    Attempt {
        tried: Tried::Finished(Completion {
            number,
            result: WorkResult::Placed,
        }),
        line: Some(LogLine::Place {
            token,
            order: u32::from(order),
            at: descriptor.offset.saturating_sub(token.start()) as u32,
            length: descriptor.length,
        }),
    }
}
