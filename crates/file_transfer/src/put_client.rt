//! The client's machine of a put.

ghost use Rattle.std.specs.Prelude.{◌≡◌, ◌≤◌, ℕ, true, false, List, [], ◌∷◌, Option, None, Some, option_map, map, IfOk, OnOk, OnErr, length};
ghost use Rattle.file_messages.specs.Messages.{request_bytes};
ghost use Rattle.file_pasts.specs.ClientPast.{ClientEvent, Group, End, Completed, Replied, AnswersJob, reply_fault, answers, has_failed};
ghost use Rattle.file_pasts.specs.PutDue.{Setup, IsPut, Follows, wants_group, has_room, next_request, next_job, is_finished};
ghost use Rattle.file_pasts.specs.PutLaws.{put_over};
ghost use Rattle.file_transfer.specs.ClientJobs.{after_giving};
ghost use Rattle.file_transfer.specs.ClientStands.{past_after_sending, with_error, descriptor_in, first_named};
ghost use Rattle.file_transfer.specs.PutClientStands.{GroupsCame, MayTakeGroup, MayGiveJob, MayCompleteJob, MayUnloadPages, CameBy, HasCome, MayHand, MayComplete, MaySend};

use crate::loaded_page::LoadedPage;
use crate::put_inline::{InlineGroups, next_inline};
use crate::put_registered::{RegisteredGroups, next_registered};
use crate::put_requests::PutRequests;
use file_messages::{Channel, Completion, Job, ReplyFault};
use smbd_base::{Message, NoMemory};
use std::alloc::Global;

/// The WRITEs without registered pages that may be prepared or unanswered.
const WINDOW: usize = 4;

/// The groups that were handed in, as they travel.
#[derive(Drop)]
enum Groups {
    /// In the requests themselves.
    Inline(InlineGroups),
    /// Through registered pages.
    Registered(RegisteredGroups),
}

impl Groups {
    fn open(alloc: Global, channel: Channel, pages: u16) -> Result<Groups, NoMemory>
        requires least { 16 ≤ pages }
        requires most { pages ≤ 255 }
        ensures { IfOk result (GroupsCame (put_over channel pages) []) }
    {
        match channel {
            Channel::None => Ok(Groups::Inline(InlineGroups::new(alloc))),
            Channel::V1 => Ok(Groups::Registered(RegisteredGroups::open(
                alloc,
                usize::from(pages / 16),
            )?)),
        }
    }

    /// Whether one more group may be under way, where so many requests have no reply.
    fn has_room(&self, unanswered: usize) -> bool
        ensures { (s : Setup) (past : List ClientEvent) → GroupsCame s past self.now → unanswered ≡ length (answers past).unanswered → result ≡ has_room s past }
    {
        match self {
            Groups::Inline(groups) => groups.waiting().saturating_add(unanswered) < WINDOW,
            Groups::Registered(groups) => groups.has_room(),
        }
    }

    fn hand(&mut self, alloc: Global, bytes: &[u8]) -> Result<(), NoMemory>
        requires { MayTakeGroup self.old bytes.now }
        ensures handed { (s : Setup) (past : List ClientEvent) → GroupsCame s past self.old → IsPut s past → Follows s (Group bytes.now) past
            → OnOk result (GroupsCame s (Group bytes.now ∷ past) self.new) }
        ensures same { (s : Setup) (past : List ClientEvent) → GroupsCame s past self.old → OnErr result (GroupsCame s past self.new) }
    {
        match self {
            Groups::Inline(groups) => groups.hand(alloc, bytes),
            Groups::Registered(groups) => groups.hand(alloc, bytes),
        }
    }

    fn next_job(&mut self) -> Option<Job>
        requires { MayGiveJob self.old }
        ensures due { (s : Setup) (past : List ClientEvent) → GroupsCame s past self.old → has_failed past ≡ false → result ≡ next_job s past }
        ensures after { (s : Setup) (past : List ClientEvent) → GroupsCame s past self.old → has_failed past ≡ false
            → GroupsCame s (after_giving (next_job s past) past) self.new }
    {
        match self {
            Groups::Inline(_groups) => None,
            Groups::Registered(groups) => groups.next_job(),
        }
    }

    fn completed(&mut self, completion: Completion)
        requires { MayCompleteJob self.old completion }
        ensures { (s : Setup) (past : List ClientEvent) → GroupsCame s past self.old → IsPut s past → AnswersJob past completion
            → GroupsCame s (Completed completion ∷ past) self.new }
    {
        match self {
            Groups::Inline(_groups) => {}
            Groups::Registered(groups) => groups.completed(completion),
        }
    }

    /// The reply to the request that named these pages was taken.
    fn answered(&mut self, pages: &[LoadedPage])
        requires { MayUnloadPages self.old pages.now }
        ensures { (s : Setup) (past : List ClientEvent) (message : List ℕ) → GroupsCame s past self.old → reply_fault (answers past) message ≡ None
            → map descriptor_in pages.now ≡ first_named (answers past).unanswered → GroupsCame s (Replied message ∷ past) self.new }
    {
        match self {
            Groups::Inline(_groups) => {}
            Groups::Registered(groups) => groups.unload(pages),
        }
    }
}

/// The client's machine of a put (this project's own): it is handed the bytes to be written in groups of 65,536, the last
/// one shorter, and gives the requests and the jobs on registered pages that are due.
///
/// Its contracts speak of its past, the list of all that it was handed and gave. Nothing keeps that list.
#[derive(Drop)]
pub struct PutClient {
    alloc: Global,
    requests: PutRequests,
    groups: Groups,
}

impl PutClient {
    /// A machine that was handed nothing, for a pool of so many pages, from 16 to 255. Without registered pages the pool is
    /// not used.
    pub fn open(alloc: Global, channel: Channel, pages: u16) -> Result<PutClient, NoMemory>
        requires least { 16 ≤ pages }
        requires most { pages ≤ 255 }
        ensures { IfOk result (CameBy (put_over channel pages) []) }
    {
        let groups = Groups::open(alloc, channel, pages)?;
        Ok(PutClient {
            alloc,
            requests: PutRequests::new(alloc),
            groups,
        })
    }

    /// Whether a group may be handed in: their end was not told, the last one was not shorter than 65,536 bytes, and fewer
    /// than 4 WRITEs are prepared or unanswered, or with registered pages fewer groups are under way than the pool has
    /// windows of 16 pages. A group is under way until its pages are unloaded.
    pub fn wants_group(&self) -> bool
        ensures { (s : Setup) (past : List ClientEvent) → CameBy s past self.now → result ≡ wants_group s past }
    {
        self.requests.goes_on() && self.groups.has_room(self.requests.unanswered())
    }

    /// Takes the next group. Its bytes are copied once. Where memory is wanting nothing is kept of it.
    pub fn group(&mut self, bytes: &[u8]) -> Result<(), NoMemory>
        requires { MayHand self.old bytes.now }
        ensures handed { (s : Setup) (past : List ClientEvent) → CameBy s past self.old → wants_group s past ≡ true
            → OnOk result (CameBy s (Group bytes.now ∷ past) self.new) }
        ensures same { (s : Setup) (past : List ClientEvent) → CameBy s past self.old → OnErr result (CameBy s past self.new) }
    {
        let _sent = self.requests.sent();
        self.groups.hand(self.alloc, bytes)?;
        self.requests.take_group(bytes.len());
        Ok(())
    }

    /// No more groups come. To say it again changes nothing.
    pub fn end(&mut self)
        ensures { (s : Setup) (past : List ClientEvent) → CameBy s past self.old → CameBy s (End ∷ past) self.new }
    {
        self.requests.end();
    }

    /// The next job on registered pages that is due, if one is due and was not given. It takes no memory.
    pub fn next_job(&mut self) -> Option<Job>
        requires { HasCome self.old }
        ensures due { (s : Setup) (past : List ClientEvent) → CameBy s past self.old → result ≡ next_job s past }
        ensures after { (s : Setup) (past : List ClientEvent) → CameBy s past self.old → CameBy s (after_giving (next_job s past) past) self.new }
    {
        if self.requests.has_failed() {
            return None;
        }
        let _sent = self.requests.sent();
        self.groups.next_job()
    }

    /// A job that was given is completed. It takes no memory.
    pub fn completed(&mut self, completion: Completion)
        requires { MayComplete self.old completion }
        ensures { (s : Setup) (past : List ClientEvent) → CameBy s past self.old → AnswersJob past completion → CameBy s (Completed completion ∷ past) self.new }
    {
        self.groups.completed(completion);
    }

    /// The next request, if one is due and was not given. The machine gives fewer than 4,294,967,296 of them. Where memory
    /// is wanting it stands as before.
    pub fn next_message(&mut self) -> Result<Option<Message>, NoMemory>
        requires { MaySend self.old }
        ensures due { (s : Setup) (past : List ClientEvent) → CameBy s past self.old → IfOk result (λ m. m ≡ option_map request_bytes (next_request s past)) }
        ensures after { (s : Setup) (past : List ClientEvent) → CameBy s past self.old → OnOk result (CameBy s (past_after_sending (next_request s past) past) self.new) }
        ensures same { (s : Setup) (past : List ClientEvent) → CameBy s past self.old → OnErr result (CameBy s past self.new) }
    {
        match &mut self.groups {
            Groups::Inline(groups) => next_inline(self.alloc, &mut self.requests, groups),
            Groups::Registered(groups) => next_registered(self.alloc, &mut self.requests, groups),
        }
    }

    /// Takes a reply to the oldest request that has none. A reply that is refused makes the machine fail: that fault is
    /// answered to each later reply, and nothing is due any more. It takes no memory, and `File(NoMemory)` is not answered.
    pub fn reply(&mut self, message: &Message) -> Result<(), ReplyFault>
        requires { HasCome self.old }
        ensures answer { (s : Setup) (past : List ClientEvent) → CameBy s past self.old → with_error result ≡ reply_fault (answers past) message.now }
        ensures after { (s : Setup) (past : List ClientEvent) → CameBy s past self.old → CameBy s (Replied message.now ∷ past) self.new }
    {
        let pages = self.requests.reply(message)?;
        self.groups.answered(pages.as_slice());
        Ok(())
    }

    /// Whether the reply to END was taken.
    pub fn finished(&self) -> bool
        ensures { (s : Setup) (past : List ClientEvent) → CameBy s past self.now → result ≡ is_finished past }
    {
        self.requests.finished()
    }
}
