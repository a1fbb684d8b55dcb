//! The groups of a put over registered pages: each is cut into the parts of its pages, which its WRITE names.

ghost use Rattle.std.specs.Prelude.{◌≡◌, ◌+◌, ◌*◌, ◌%◌, ◌<◌, ◌≤◌, ◌++◌, ℕ, false, List, [], ◌∷◌, Option, None, Some, IfOk, OnOk, OnErr, IfSome, IsNone, option_map, length, drop, map};
ghost use Rattle.file_messages.specs.declared.layout.TheConstants.{GROUP_SIZE};
ghost use Rattle.file_messages.specs.declared.job.Work.{Work};
ghost use Rattle.file_messages.specs.declared.job.WorkResult.TheVariants.{Loaded, Unloaded};
ghost use Rattle.file_messages.specs.Messages.{request_bytes};
ghost use Rattle.file_messages.specs.Runs.{pages_of};
ghost use Rattle.file_pasts.specs.ClientPast.{ClientEvent, Group, Completed, Replied, AnswersJob, has_failed, page_freed, reply_fault, answers};
ghost use Rattle.file_pasts.specs.PutDue.{Follows, next_request, job_in_turn, load_of_part, has_room as has_room_by};
ghost use Rattle.file_pasts.specs.InStep.{over};
ghost use Rattle.file_transfer.specs.ClientJobs.{JobsStand, after_giving};
ghost use Rattle.file_transfer.specs.ClientStands.{past_after_sending, descriptor_in, first_named};
ghost use Rattle.file_transfer.specs.PutRegisteredStands.{RegisteredStand, RegisteredPutStands, IsRegistered, MayGive, MayTake, MayComplete, JobClosed, MayLoad, MayUnload, MayAskRegistered};

use crate::client_jobs::Jobs;
use crate::client_requests::Unanswered;
use crate::loaded_page::LoadedPage;
use crate::put_pages::{
    Page, UnderWay, drop_back, fresh_of, name_pages, note_load, note_unload, take_parts,
};
use crate::put_requests::PutRequests;
use crate::writing::write_over_pages;
use buffer_descriptor::Descriptor;
use file_messages::{Asked, Completion, Job, WRITE, Work, WorkResult};
use smbd_base::{Message, NoMemory, PAGE_SIZE, Right};
use std::alloc::Global;
use std::collections::VecDeque;

/// The bytes of a page, and the pages of a group.
const PAGE: usize = PAGE_SIZE as usize;

const WINDOW: usize = 16;

/// The groups that were handed in, on their pages.
#[derive(Drop)]
pub struct RegisteredGroups {
    jobs: Jobs,
    slots: Vec<Page>,
    /// The groups whose pages are not all unloaded.
    under_way: Vec<UnderWay>,
    /// How many groups were handed in.
    count: u64,
    /// The bytes of each group whose WRITE was not given.
    waiting: VecDeque<u32>,
}

impl RegisteredGroups {
    /// No groups, over so many windows of 16 pages.
    pub fn open(alloc: Global, windows: usize) -> Result<RegisteredGroups, NoMemory>
        requires some { 1 ≤ windows }
        requires few { windows ≤ 15 }
        ensures { IfOk result (λ g. RegisteredStand windows [] g) }
    {
        let mut slots = Vec::with_capacity(alloc, WINDOW * windows)?;
        for _page in 0..WINDOW * windows {
            slots.push(Page {
                waiting: None,
                fresh: None,
                unloads: 0,
                free: true,
            })?;
        }
        let under_way = Vec::with_capacity(alloc, windows)?;
        Ok(RegisteredGroups {
            jobs: Jobs::new(alloc),
            slots,
            under_way,
            count: 0,
            waiting: VecDeque::new(alloc),
        })
    }

    /// The bytes of the next group whose WRITE was not given.
    fn next_size(&self) -> Option<u32>
        ensures some { IfSome result (λ size. self.now.waiting.items ≡ size ∷ drop 1 self.now.waiting.items) }
        ensures none { IsNone result → self.now.waiting.items ≡ [] }
    {
        match self.waiting.front() {
            Some(size) => Some(*size),
            None => None,
        }
    }

    /// How many groups can be under way.
    fn windows(&self) -> usize
        ensures { (w : ℕ) (past : List ClientEvent) → RegisteredStand w past self.now → result ≡ w }
    {
        self.slots.len() / WINDOW
    }

    /// Fewer groups are under way than there are windows.
    pub fn has_room(&self) -> bool
        ensures { (w : ℕ) (past : List ClientEvent) → RegisteredStand w past self.now → result ≡ has_room_by (over w) past }
    {
        self.under_way.len() < self.windows()
    }

    /// The first page of the group after so many.
    fn page_after(&self, groups: u64) -> usize
        requires { IsRegistered self.now }
        ensures at { (w : ℕ) (past : List ClientEvent) → RegisteredStand w past self.now → result ≡ groups % w * 16 }
        ensures within { result + 16 ≤ length self.now.slots.items }
    {
        (groups % self.windows() as u64) as usize * WINDOW
    }

    /// Takes the next group: its bytes are copied once, into the parts of its pages. Nothing is kept of it where memory is
    /// wanting.
    pub fn hand(&mut self, alloc: Global, bytes: &[u8]) -> Result<(), NoMemory>
        requires { MayTake self.old bytes.now }
        ensures taken { (w : ℕ) (past : List ClientEvent) → RegisteredStand w past self.old → Follows (over w) (Group bytes.now) past
            → OnOk result (RegisteredStand w (Group bytes.now ∷ past) self.new) }
        ensures same { (w : ℕ) (past : List ClientEvent) → RegisteredStand w past self.old → OnErr result (RegisteredStand w past self.new) }
    {
        let parts = cut(alloc, bytes)?;
        let pages = parts.len();
        let first = self.page_after(self.count);
        let turn = self.count / self.windows() as u64;
        self.waiting.reserve(1)?;
        self.jobs.reserve(pages)?;
        take_parts(&mut self.slots, &mut self.jobs, first, parts);
        self.under_way
            .push_reserved(UnderWay { first, turn, pages });
        self.waiting.push_back_reserved(bytes.len() as u32);
        self.count += 1;
        Ok(())
    }

    /// The next job that is due.
    pub fn next_job(&mut self) -> Option<Job>
        requires { MayGive self.old }
        ensures due { (w : ℕ) (past : List ClientEvent) → RegisteredStand w past self.old → result ≡ job_in_turn w past }
        ensures after { (w : ℕ) (past : List ClientEvent) → RegisteredStand w past self.old → has_failed past ≡ false
            → RegisteredStand w (after_giving (job_in_turn w past) past) self.new }
    {
        self.jobs.next()
    }

    /// A job is completed.
    pub fn completed(&mut self, completion: Completion)
        requires { MayComplete self.old completion }
        ensures { (w : ℕ) (past : List ClientEvent) → RegisteredStand w past self.old → AnswersJob past completion
            → RegisteredStand w (Completed completion ∷ past) self.new }
    {
        let freed = self.jobs.complete(completion.number);
        if let WorkResult::Loaded(descriptor) = completion.result {
            self.loaded(descriptor);
            return;
        }
        match freed {
            Some(page) => self.unloaded(page),
            None => self.jobs.let_go(),
        }
    }

    /// A page was loaded.
    fn loaded(&mut self, descriptor: Descriptor)
        requires { MayLoad self.old descriptor }
        ensures { (w number : ℕ) (past : List ClientEvent) → JobClosed w past (record { number = number; result = Loaded descriptor }) self.old
            → RegisteredStand w (Completed (record { number = number; result = Loaded descriptor }) ∷ past) self.new }
    {
        let page = (descriptor.token % 256) as usize;
        note_load(&mut self.slots, page, LoadedPage { descriptor });
        self.jobs.let_go();
    }

    /// A page was unloaded: the part that waited for it is loaded next.
    fn unloaded(&mut self, page: u8)
        requires { MayUnload self.old page }
        ensures { (w number : ℕ) (bytes : List ℕ) (past : List ClientEvent) → JobClosed w past (record { number = number; result = Unloaded bytes }) self.old
            → page_freed (record { number = number; result = Unloaded bytes }) past ≡ Some page
            → RegisteredStand w (Completed (record { number = number; result = Unloaded bytes }) ∷ past) self.new }
    {
        let _counted = self.count;
        let part = note_unload(&mut self.slots, usize::from(page));
        load_next(&mut self.jobs, page, part);
        drop_back(&mut self.under_way, &self.slots);
    }

    /// The reply to a request was taken: the pages that it named are unloaded.
    pub fn unload(&mut self, pages: &[LoadedPage])
        requires { length pages.now ≤ self.old.jobs.kept }
        ensures { (w : ℕ) (past : List ClientEvent) (message : List ℕ) → RegisteredStand w past self.old → reply_fault (answers past) message ≡ None
            → map descriptor_in pages.now ≡ first_named (answers past).unanswered → RegisteredStand w (Replied message ∷ past) self.new }
    {
        self.jobs.unload(pages);
    }

    /// The loads that unanswered requests named: room is kept for an Unload of each.
    pub fn kept(&self) -> usize
        ensures { result ≡ self.now.jobs.kept }
    {
        self.jobs.kept()
    }
}

/// A part that waited for its page is loaded.
fn load_next(jobs: &mut Jobs, page: u8, part: Option<Message>)
    requires { 0 < jobs.old.kept }
    ensures kept { jobs.new.kept + 1 ≡ jobs.old.kept }
    ensures more { (came_due : List Work) (past : List ClientEvent) → JobsStand came_due past jobs.old → JobsStand (came_due ++ load_of_part page part) past jobs.new }
{
    match part {
        Some(bytes) => jobs.add(Work::Load {
            page,
            right: Right::Fetch,
            bytes,
        }),
        None => jobs.let_go(),
    }
}

/// The bytes of a group, page by page.
fn cut(alloc: Global, bytes: &[u8]) -> Result<VecDeque<Message>, NoMemory>
    requires { length bytes.now ≤ GROUP_SIZE }
    ensures { IfOk result (λ parts. parts.items ≡ pages_of bytes.now) }
{
    let mut parts = VecDeque::with_capacity(alloc, WINDOW)?;
    let mut place = 0;
    while place < bytes.len() {
        let end = (place + PAGE).min(bytes.len());
        parts.push_back(Message::copy_of(alloc, &bytes[place..end])?)?;
        place = end;
    }
    Ok(parts)
}

/// The next request that is due.
pub fn next_registered(
    alloc: Global,
    requests: &mut PutRequests,
    groups: &mut RegisteredGroups,
) -> Result<Option<Message>, NoMemory>
    requires { MayAskRegistered requests.old groups.old }
    ensures due { (w : ℕ) (past : List ClientEvent) → RegisteredPutStands w past requests.old groups.old
        → IfOk result (λ m. m ≡ option_map request_bytes (next_request (over w) past)) }
    ensures after { (w : ℕ) (past : List ClientEvent) → RegisteredPutStands w past requests.old groups.old
        → OnOk result (RegisteredPutStands w (past_after_sending (next_request (over w) past) past) requests.new groups.new) }
    ensures same { (w : ℕ) (past : List ClientEvent) → RegisteredPutStands w past requests.old groups.old
        → OnErr result (RegisteredPutStands w past requests.new groups.new) }
{
    if requests.has_failed() {
        return Ok(None);
    }
    let Some(size) = groups.next_size() else {
        return requests.next_end(alloc);
    };
    let first = groups.page_after(u64::from(requests.sent()));
    let count = pages_in(size);
    let Some(pages) = fresh_of(alloc, &groups.slots, first, count)? else {
        return Ok(None);
    };
    let asked = Asked {
        op: WRITE,
        channel: 1,
        id: requests.sent() + 1,
        length: size,
    };
    let message = write_over_pages(alloc, &asked, requests.offset(), pages.as_slice())?;
    requests.reserve()?;
    groups.jobs.reserve(count)?;
    let _ = groups.waiting.pop_front();
    name_pages(&mut groups.slots, first, count);
    requests.ask(Unanswered { asked, pages });
    Ok(Some(message))
}

/// How many pages so many bytes take.
fn pages_in(size: u32) -> usize
    ensures { (group : List ℕ) → size ≡ length group → result ≡ length (pages_of group) }
{
    (size as usize + (PAGE - 1)) / PAGE
}
