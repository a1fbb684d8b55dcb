//! One try of a job.

ghost use Rattle.std.specs.Prelude.{◌≡◌, ◌+◌, ◌≤◌, ◌<◌, None, vec_len, length, IfOk};
ghost use Rattle.shared_pages.specs.Calls.{known_by, opening_of, IsOf, MayMake};
ghost use Rattle.page_workers.specs.declared.kept.Kept.TheVariants as keeps;
ghost use Rattle.page_workers.specs.Tries.{room_of, room_of_work};
ghost use Rattle.shared_workers.specs.Tries.{HasTried};

use crate::accesses::{fetch, place};
use crate::loads::{issue, load};
use crate::unloads::{unload, unload_again};
use event_log::LogLine;
use file_messages::{Job, Work};
use page_workers::{Kept, Tried};
use shared_pages::PagePass;
use shared_region::Region;
use smbd_base::{NoMemory, PAGE_SIZE};
use std::alloc::Global;

/// What one try came to, and the line of the event that it made of a page.
#[derive(Drop)]
pub struct Attempt {
    pub tried: Tried,
    pub line: Option<LogLine>,
}

/// Nothing was done.
pub(crate) fn refused() -> Attempt
    ensures tried { result.tried ≡ Tried.Refused }
    ensures line { result.line ≡ None }
{
    Attempt {
        tried: Tried::Refused,
        line: None,
    }
}

/// Room for the bytes that are copied out of a page.
pub(crate) fn room_for(alloc: Global, kept: &Kept) -> Result<Vec<u8>, NoMemory>
    ensures { IfOk result (λ room. vec_len room ≡ room_of kept.now) }
{
    let count = match kept {
        Kept::Fresh(job) => match &job.work {
            Work::Fetch { descriptor } => descriptor.length,
            Work::Unload { .. } => PAGE_SIZE,
            Work::Load { .. } => 0,
            Work::Place { .. } => 0,
        },
        Kept::Loaded { .. } => 0,
        Kept::Withdrawn { .. } => PAGE_SIZE,
    };
    Ok(vec![in alloc; 0; count as usize]?)
}

/// Tries a job once of which nothing was done.
fn try_fresh(region: &Region, pass: &mut PagePass, job: &Job, room: Vec<u8>) -> Attempt
    requires own { IsOf region.now.pages pass.old }
    requires few { MayMake (known_by pass.old) }
    requires room { vec_len room ≡ room_of_work job.now.work }
    ensures own { IsOf region.now.pages pass.new }
    ensures few { length (known_by pass.new).made ≤ length (known_by pass.old).made + 1 }
    ensures tried { HasTried (opening_of region.now.pages) (keeps.Fresh job.now) result.tried result.line (known_by pass.old) (known_by pass.new) }
{
    let number = job.number;
    match &job.work {
        Work::Load { page, right, bytes } => load(region, pass, number, *page, *right, bytes),
        Work::Fetch { descriptor } => fetch(region, pass, number, descriptor, room),
        Work::Place { descriptor, bytes } => place(region, pass, number, descriptor, bytes),
        Work::Unload { token } => unload(region, pass, number, *token, room),
    }
}

/// Tries what is left of a job once. `room` is where bytes are copied to.
pub(crate) fn try_once(region: &Region, pass: &mut PagePass, kept: &Kept, room: Vec<u8>) -> Attempt
    requires own { IsOf region.now.pages pass.old }
    requires few { MayMake (known_by pass.old) }
    requires room { vec_len room ≡ room_of kept.now }
    ensures own { IsOf region.now.pages pass.new }
    ensures few { length (known_by pass.new).made ≤ length (known_by pass.old).made + 1 }
    ensures tried { HasTried (opening_of region.now.pages) kept.now result.tried result.line (known_by pass.old) (known_by pass.new) }
{
    match kept {
        Kept::Fresh(job) => try_fresh(region, pass, job, room),
        Kept::Loaded {
            number,
            token,
            right,
            length,
        } => issue(region, *number, *token, *right, *length),
        Kept::Withdrawn { number, token } => unload_again(region, pass, *number, *token, room),
    }
}
