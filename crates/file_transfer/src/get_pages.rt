//! The registered pages of a get: each round loads 16 pages, which its READ names, and unloads them again.

ghost use Rattle.std.specs.Prelude.{◌≡◌, ◌<◌, ◌≤◌, ◌%◌, ℕ, true, false, List, [], ◌∷◌, Option, None, Some, IfOk, OnOk, OnErr, option_map, length, map, replicate, slice_set};
ghost use Rattle.smbd_base.specs.declared.token.TheConstants.{PAGE_SIZE};
ghost use Rattle.file_messages.specs.declared.kind.Channel.TheVariants as channels;
ghost use Rattle.file_pasts.specs.ClientPast.{ClientEvent, Completed, AnswersJob};
ghost use Rattle.file_pasts.specs.GetDue.{IsGet, sent, page_loads};
ghost use Rattle.file_transfer.specs.ClientStands.{pages_named};
ghost use Rattle.file_transfer.specs.GetStands.{awaits};
ghost use Rattle.file_transfer.specs.GetPagesStand.{MayNote, loaded_in, back_in, all_of, unused_pages, loads_at, pages_from, first_unload};

use crate::loaded_page::LoadedPage;
use buffer_descriptor::Descriptor;
use file_messages::{Completion, Work, WorkResult};
use smbd_base::{Message, NoMemory, PAGE_SIZE, Right};
use std::alloc::Global;
use std::collections::VecDeque;

/// The pages of a get.
pub const PAGES: usize = 16;

/// The bytes of a page.
const PAGE: usize = PAGE_SIZE as usize;

/// A page.
#[derive(Drop)]
pub struct Page {
    /// Its load that no READ has named yet.
    pub loaded: Option<LoadedPage>,
    /// What was in it when it was unloaded.
    pub back: Option<Message>,
}

/// The Loads of a round: 16 pages of zeros, for the server to place in. They share their bytes.
pub fn loads_of_next(alloc: Global) -> Result<VecDeque<Work>, NoMemory>
    ensures { IfOk result (λ loads. loads.items ≡ page_loads 16 0) }
{
    let zeros = page_of_zeros(alloc)?;
    let mut loads = VecDeque::with_capacity(alloc, PAGES)?;
    for page in 0..PAGES {
        loads.push_back(Work::Load {
            page: page as u8,
            right: Right::Place,
            bytes: zeros.share()?,
        })?;
    }
    Ok(loads)
}

fn page_of_zeros(alloc: Global) -> Result<Message, NoMemory>
    ensures { IfOk result (λ page. page ≡ replicate PAGE_SIZE 0) }
{
    Message::copy_of(alloc, &[0; PAGE])
}

/// Pages that are not loaded.
pub fn unused(alloc: Global) -> Result<Vec<Page>, NoMemory>
    ensures { IfOk result (λ slots. slots.items ≡ unused_pages 16) }
{
    let mut slots = Vec::with_capacity(alloc, PAGES)?;
    for _page in 0..PAGES {
        slots.push(Page {
            loaded: None,
            back: None,
        })?;
    }
    Ok(slots)
}

/// The loads of the pages, if each of them is loaded.
pub fn all_loaded(alloc: Global, slots: &Vec<Page>) -> Result<Option<Vec<LoadedPage>>, NoMemory>
    ensures { IfOk result (λ found. option_map pages_named found ≡ all_of (map loaded_in slots.now.items)) }
{
    let mut found = Vec::with_capacity(alloc, PAGES)?;
    for slot in slots {
        match slot.loaded {
            Some(loaded) => found.push(loaded)?,
            None => return Ok(None),
        }
    }
    Ok(Some(found))
}

/// Takes what came of a job.
pub fn note(slots: &mut Vec<Page>, completion: Completion)
    requires { MayNote slots.old.items completion }
    ensures loaded { (past : List ClientEvent) → IsGet channels.V1 past → AnswersJob past completion → map loaded_in slots.old.items ≡ loads_at 16 0 (sent past) past
        → map loaded_in slots.new.items ≡ loads_at 16 0 (sent past) (Completed completion ∷ past) }
    ensures back { (past : List ClientEvent) → IsGet channels.V1 past → AnswersJob past completion → awaits channels.V1 past ≡ true
        → map back_in slots.old.items ≡ pages_from 16 (first_unload past) past → map back_in slots.new.items ≡ pages_from 16 (first_unload past) (Completed completion ∷ past) }
{
    let place = (completion.number % 16) as usize;
    match completion.result {
        WorkResult::Loaded(descriptor) => note_load(slots, descriptor),
        WorkResult::Unloaded(bytes) => note_back(slots, place, bytes),
        _ => {}
    }
}

/// A page was loaded.
fn note_load(slots: &mut Vec<Page>, descriptor: Descriptor)
    requires within { descriptor.token % 256 < length slots.old.items }
    requires has_token { 256 ≤ descriptor.token }
    ensures loaded { map loaded_in slots.new.items ≡ slice_set (map loaded_in slots.old.items) (descriptor.token % 256) (Some descriptor) }
    ensures back { map back_in slots.new.items ≡ map back_in slots.old.items }
{
    let slot = &mut slots[(descriptor.token % 256) as usize];
    slot.loaded = Some(LoadedPage { descriptor });
}

/// A page was unloaded.
fn note_back(slots: &mut Vec<Page>, page: usize, bytes: Message)
    requires { page < length slots.old.items }
    ensures back { map back_in slots.new.items ≡ slice_set (map back_in slots.old.items) page bytes }
    ensures loaded { map loaded_in slots.new.items ≡ map loaded_in slots.old.items }
{
    let slot = &mut slots[page];
    slot.back = Some(bytes);
}
