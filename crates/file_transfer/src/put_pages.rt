//! The registered pages of a put, page by page.

ghost use Rattle.std.specs.Prelude.{◌≡◌, ◌≤◌, ◌<◌, ◌+◌, ◌*◌, ◌^◌, ◌==◌, ℕ, not, List, [], ◌∷◌, ◌++◌, Option, None, Some, IfOk, All, length, map, filter, option_map, slice_get, vec_capacity};
ghost use Rattle.file_messages.specs.declared.job.WorkResult.TheVariants.{Loaded, Unloaded};
ghost use Rattle.file_messages.specs.declared.job.Completion.{Completion};
ghost use Rattle.file_pasts.specs.ClientPast.{ClientEvent, Completed, unloads_on};
ghost use Rattle.file_pasts.specs.PutDue.{descriptors_for, load_of_part, load_after};
ghost use Rattle.file_pasts.specs.InStep.{IsLoadDone, IsUnloadDone};
ghost use Rattle.file_transfer.specs.declared.put_pages.Page.{Page};
ghost use Rattle.file_transfer.specs.declared.put_pages.UnderWay.{UnderWay};
ghost use Rattle.file_transfer.specs.ClientStands.{pages_named};
ghost use Rattle.file_transfer.specs.PutPagesStand.{SlotsStand, PartsTaken, HasRoomOn, SlotsNamed, is_back, under_way_of};

use crate::client_jobs::Jobs;
use crate::loaded_page::LoadedPage;
use file_messages::Work;
use smbd_base::{Message, NoMemory, Right};
use std::alloc::Global;
use std::collections::VecDeque;

/// A page.
#[derive(Drop)]
pub struct Page {
    /// The part that waits for the page to be unloaded.
    pub waiting: Option<Message>,
    /// The load that no WRITE has named yet.
    pub fresh: Option<LoadedPage>,
    /// How often it was unloaded.
    pub unloads: u64,
    /// Whether every part that the page took was unloaded.
    pub free: bool,
}

/// A group that has a page that is not unloaded.
#[derive(Clone, Copy)]
pub struct UnderWay {
    /// Its first page.
    pub first: usize,
    /// How many groups before it used its pages.
    pub turn: u64,
    /// How many pages it has.
    pub pages: usize,
}

/// Takes the parts of a group, the first of them on this page: each is loaded at once where its page is free, and waits
/// for it otherwise. Room is kept for a job of each.
pub fn take_parts(slots: &mut Vec<Page>, jobs: &mut Jobs, first: usize, parts: VecDeque<Message>)
    requires within { first + length parts.items ≤ length slots.old.items }
    requires small { length slots.old.items ≤ 256 }
    requires room { length parts.items ≤ jobs.old.kept }
    ensures taken { (w : ℕ) (past : List ClientEvent) → PartsTaken w first [] past slots.old.items jobs.old → HasRoomOn w first (first + length parts.items) past
        → PartsTaken w first parts.items past slots.new.items jobs.new }
    ensures kept { jobs.new.kept + length parts.items ≡ jobs.old.kept }
    ensures pages { length slots.new.items ≡ length slots.old.items }
{
    let mut parts = parts;
    let mut page = first;
    while let Some(part) = parts.pop_front() {
        take_part(slots, jobs, page, part);
        page += 1;
    }
}

fn take_part(slots: &mut Vec<Page>, jobs: &mut Jobs, page: usize, part: Message)
    requires within { page < length slots.old.items }
    requires small { page < 256 }
    requires room { 0 < jobs.old.kept }
    ensures taken { (w first : ℕ) (taken : List (List ℕ)) (past : List ClientEvent) → PartsTaken w first taken past slots.old.items jobs.old
        → page ≡ first + length taken → HasRoomOn w page (page + 1) past → PartsTaken w first (taken ++ part ∷ []) past slots.new.items jobs.new }
    ensures kept { jobs.new.kept + 1 ≡ jobs.old.kept }
    ensures pages { length slots.new.items ≡ length slots.old.items }
{
    let slot = &mut slots[page];
    if slot.free {
        slot.free = false;
        jobs.add(Work::Load {
            page: page as u8,
            right: Right::Fetch,
            bytes: part,
        });
        return;
    }
    slot.waiting = Some(part);
    jobs.let_go();
}

/// The loads of so many pages from this one on, which no WRITE has named, if each of them is loaded.
pub fn fresh_of(
    alloc: Global,
    slots: &Vec<Page>,
    first: usize,
    count: usize,
) -> Result<Option<Vec<LoadedPage>>, NoMemory>
    requires { first + count ≤ length slots.now.items }
    ensures { (w : ℕ) (past : List ClientEvent) (parts : List (List ℕ)) → SlotsStand w past slots.now.items → length parts ≡ count
        → IfOk result (λ found. option_map pages_named found ≡ descriptors_for first parts past) }
{
    let mut found = Vec::with_capacity(alloc, count)?;
    for page in first..first + count {
        let slot = &slots[page];
        match slot.fresh {
            Some(loaded) => found.push(loaded)?,
            None => return Ok(None),
        }
    }
    Ok(Some(found))
}

/// A WRITE was given that names the loads of so many pages from this one on.
pub fn name_pages(slots: &mut Vec<Page>, first: usize, count: usize)
    requires { first + count ≤ length slots.old.items }
    ensures named { (w : ℕ) (past : List ClientEvent) → SlotsStand w past slots.old.items → SlotsNamed w first (first + count) past slots.new.items }
    ensures pages { length slots.new.items ≡ length slots.old.items }
{
    for page in first..first + count {
        let slot = &mut slots[page];
        slot.fresh = None;
    }
}

/// A page was loaded.
pub fn note_load(slots: &mut Vec<Page>, page: usize, loaded: LoadedPage)
    requires { page < length slots.old.items }
    ensures stand { (w number : ℕ) (past : List ClientEvent) → SlotsStand w past slots.old.items → IsLoadDone page number loaded.descriptor past
        → SlotsStand w (Completed (record { number = number; result = Loaded loaded.descriptor }) ∷ past) slots.new.items }
    ensures pages { length slots.new.items ≡ length slots.old.items }
{
    let slot = &mut slots[page];
    slot.fresh = Some(loaded);
}

/// A page was unloaded: the part that waited for it.
pub fn note_unload(slots: &mut Vec<Page>, page: usize) -> Option<Message>
    requires within { page < length slots.old.items }
    requires counted { (it : Page) → slice_get slots.old.items page ≡ Some it → it.unloads < 18446744073709551615 }
    ensures stand { (w number : ℕ) (bytes : List ℕ) (past : List ClientEvent) → SlotsStand w past slots.old.items → IsUnloadDone w page number past
        → SlotsStand w (Completed (record { number = number; result = Unloaded bytes }) ∷ past) slots.new.items }
    ensures next { (w : ℕ) (past : List ClientEvent) → SlotsStand w past slots.old.items → load_of_part page result ≡ load_after w (Some page) past }
    ensures pages { length slots.new.items ≡ length slots.old.items }
{
    let slot = &mut slots[page];
    slot.unloads += 1;
    let part = slot.waiting.take();
    slot.free = part.is_none();
    part
}

/// Whether each page of the group was unloaded.
fn is_back_on(slots: &Vec<Page>, group: &UnderWay) -> bool
    requires { group.now.first + group.now.pages ≤ length slots.now.items }
    ensures { (w : ℕ) (past : List ClientEvent) → SlotsStand w past slots.now.items → result ≡ is_back past group.now }
{
    for page in group.first..group.first + group.pages {
        if slots[page].unloads <= group.turn {
            return false;
        }
    }
    true
}

/// Lets go of the groups whose pages are all unloaded.
pub fn drop_back(under_way: &mut Vec<UnderWay>, slots: &Vec<Page>)
    requires { (k : ℕ) (group : UnderWay) → slice_get under_way.old.items k ≡ Some group → group.first + group.pages ≤ length slots.now.items }
    ensures back { (w : ℕ) (past : List ClientEvent) → SlotsStand w past slots.now.items → under_way.new.items ≡ under_way_of past under_way.old.items }
    ensures room { vec_capacity under_way.new ≡ vec_capacity under_way.old }
{
    let mut place = under_way.len();
    while place > 0 {
        place -= 1;
        let group = under_way[place];
        if is_back_on(slots, &group) {
            let _ = under_way.remove(place);
        }
    }
}
