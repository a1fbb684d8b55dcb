//! Unloads: the record of a page is withdrawn, and the page taken back.

ghost use Rattle.std.specs.Prelude.{◌≡◌, ◌+◌, ◌≤◌, ◌<◌, Some, vec_len, length};
ghost use Rattle.smbd_base.specs.declared.token.TheConstants.{PAGE_SIZE};
ghost use Rattle.event_log.specs.declared.log_line.LogLine.TheVariants as lines;
ghost use Rattle.file_messages.specs.declared.job.WorkResult.TheVariants as results;
ghost use Rattle.shared_pages.specs.Calls.{known_by, opening_of, IsOf, MayMake};
ghost use Rattle.page_workers.specs.declared.kept.Kept.TheVariants as keeps;
ghost use Rattle.page_workers.specs.Tries.{unload_job};
ghost use Rattle.shared_workers.specs.Tries.{HasTried};

use crate::tries::{Attempt, refused};
use event_log::LogLine;
use file_messages::{Completion, WorkResult};
use page_workers::{Kept, Tried};
use shared_pages::{Access, PagePass};
use shared_region::{Region, Release};
use smbd_base::{Message, Token};

/// The page was unloaded into `room`.
fn unloaded(number: u64, token: Token, room: Vec<u8>) -> Attempt
    ensures tried { result.tried ≡ Tried.Finished (record { number = number; result = results.Unloaded room.items }) }
    ensures line { result.line ≡ Some (lines.Unload token) }
{
    Attempt {
        tried: Tried::Finished(Completion {
            number,
            result: WorkResult::Unloaded(Message::owned(room)),
        }),
        line: Some(LogLine::Unload { token }),
    }
}

/// Withdraws the token's record, and unloads its page.
pub(crate) fn unload(
    region: &Region,
    pass: &mut PagePass,
    number: u64,
    token: Token,
    mut room: Vec<u8>,
) -> Attempt
    requires own { IsOf region.now.pages pass.old }
    requires few { MayMake (known_by pass.old) }
    requires room { vec_len room ≡ PAGE_SIZE }
    ensures own { IsOf region.now.pages pass.new }
    ensures few { length (known_by pass.new).made ≤ length (known_by pass.old).made + 1 }
    ensures tried { HasTried (opening_of region.now.pages) (keeps.Fresh (unload_job number token)) result.tried result.line (known_by pass.old) (known_by pass.new) }
{
    match region.release(pass, token, &mut room) {
        Release::Released => unloaded(number, token, room),
        Release::Withdrawn(_) => Attempt {
            tried: Tried::Begun(Kept::Withdrawn { number, token }),
            line: None,
        },
        Release::Unknown => refused(),
        Release::Stale => refused(),
        Release::Busy { .. } => refused(),
        Release::Again { .. } => refused(),
    }
}

/// Unloads a page whose record is gone.
pub(crate) fn unload_again(
    region: &Region,
    pass: &mut PagePass,
    number: u64,
    token: Token,
    mut room: Vec<u8>,
) -> Attempt
    requires own { IsOf region.now.pages pass.old }
    requires few { MayMake (known_by pass.old) }
    requires room { vec_len room ≡ PAGE_SIZE }
    ensures own { IsOf region.now.pages pass.new }
    ensures few { length (known_by pass.new).made ≤ length (known_by pass.old).made + 1 }
    ensures tried { HasTried (opening_of region.now.pages) (keeps.Withdrawn number token) result.tried result.line (known_by pass.old) (known_by pass.new) }
{
    if u16::from(token.page()) >= region.count() {
        return refused();
    }
    match region.retry_unload(pass, token, &mut room) {
        Access::Done => unloaded(number, token, room),
        Access::Stale => refused(),
        Access::WrongRight => refused(),
        Access::Worn => refused(),
        Access::Busy => refused(),
    }
}
