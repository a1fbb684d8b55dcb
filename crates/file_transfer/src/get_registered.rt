//! The rounds of a get over registered pages: 16 Loads, a READ that names them, its reply, and 16 Unloads.

ghost use Rattle.std.specs.Prelude.{◌≡◌, ◌+◌, ◌*◌, ◌<◌, ◌≤◌, ◌==◌, ◌++◌, false, ℕ, List, [], ◌∷◌, Option, None, IfOk, OnOk, OnErr, option_map, length, map};
ghost use Rattle.file_messages.specs.declared.layout.TheConstants.{GROUP_SIZE};
ghost use Rattle.file_messages.specs.declared.kind.Channel.TheVariants as channels;
ghost use Rattle.file_messages.specs.declared.job.Work.{Work};
ghost use Rattle.file_messages.specs.Messages.{request_bytes};
ghost use Rattle.file_pasts.specs.ClientPast.{ClientEvent, Completed, Replied, AnswersJob, answers, reply_fault, has_failed};
ghost use Rattle.file_pasts.specs.GetDue.{next_job, next_request, some_bytes};
ghost use Rattle.file_transfer.specs.ClientJobs.{JobsStand, after_giving};
ghost use Rattle.file_transfer.specs.ClientStands.{past_after_sending, descriptor_in, first_named};
ghost use Rattle.file_transfer.specs.GetStands.{HasRoom};
ghost use Rattle.file_transfer.specs.GetPagesStand.{RoundsStand, back_in, sizes};
ghost use Rattle.file_transfer.specs.GetRegisteredStands.{RegisteredGetStands, MayGive, MayAsk, MayComplete, loads_after, are_back as are_back_by};

use crate::client_jobs::Jobs;
use crate::get_groups::GetGroups;
use crate::get_pages::{PAGES, Page, all_loaded, loads_of_next, note, unused};
use crate::get_requests::GetRequests;
use crate::loaded_page::LoadedPage;
use file_messages::{Channel, Completion, GROUP_SIZE, Job, Work};
use smbd_base::{Message, NoMemory};
use std::alloc::Global;
use std::collections::VecDeque;

/// The jobs of a round: a Load and an Unload of each page.
const ROUND: u64 = 32;

/// The rounds of a get: its pages, and the jobs on them.
#[derive(Drop)]
pub struct GetRounds {
    jobs: Jobs,
    slots: Vec<Page>,
    /// The Loads of the round after this one.
    next_loads: VecDeque<Work>,
    /// How many jobs were completed.
    completed: u64,
}

impl GetRounds {
    /// The first round, whose Loads are due.
    pub fn open(alloc: Global) -> Result<GetRounds, NoMemory>
        ensures { IfOk result (RoundsStand []) }
    {
        let mut loads = loads_of_next(alloc)?;
        let mut jobs = Jobs::new(alloc);
        jobs.reserve(PAGES)?;
        let slots = unused(alloc)?;
        jobs.add_all(&mut loads);
        Ok(GetRounds {
            jobs,
            slots,
            next_loads: loads,
            completed: 0,
        })
    }

    /// The next job that is due.
    pub fn next_job(&mut self) -> Option<Job>
        requires { MayGive self.old }
        ensures due { (past : List ClientEvent) → RoundsStand past self.old → has_failed past ≡ false → result ≡ next_job channels.V1 past }
        ensures after { (past : List ClientEvent) → RoundsStand past self.old → has_failed past ≡ false
            → RoundsStand (after_giving (next_job channels.V1 past) past) self.new }
    {
        self.jobs.next()
    }

    /// The reply to the request that named these pages was taken.
    pub fn unload(&mut self, pages: &[LoadedPage])
        requires { length pages.now ≤ self.old.jobs.kept }
        ensures { (past : List ClientEvent) (message : List ℕ) → RoundsStand past self.old → reply_fault (answers past) message ≡ None
            → map descriptor_in pages.now ≡ first_named (answers past).unanswered → RoundsStand (Replied message ∷ past) self.new }
    {
        self.jobs.unload(pages);
    }

    /// The pages of the last READ, the one with this number, are unloaded.
    fn are_back(&self, sent: u32) -> bool
        ensures { result ≡ are_back_by self.now.completed sent }
    {
        sent == 0 || ROUND * u64::from(sent) <= self.completed
    }
}

/// The next request that is due.
pub fn next_registered(
    alloc: Global,
    requests: &mut GetRequests,
    groups: &mut GetGroups,
    rounds: &mut GetRounds,
) -> Result<Option<Message>, NoMemory>
    requires { MayAsk requests.old groups.old rounds.old }
    ensures due { (past : List ClientEvent) → RegisteredGetStands past requests.old groups.old rounds.old
        → IfOk result (λ m. m ≡ option_map request_bytes (next_request channels.V1 past)) }
    ensures after { (past : List ClientEvent) → RegisteredGetStands past requests.old groups.old rounds.old
        → OnOk result (RegisteredGetStands (past_after_sending (next_request channels.V1 past) past) requests.new groups.new rounds.new) }
    ensures same { (past : List ClientEvent) → RegisteredGetStands past requests.old groups.old rounds.old
        → OnErr result (RegisteredGetStands past requests.new groups.new rounds.new) }
{
    if !requests.may_ask() || !rounds.are_back(requests.sent()) {
        return Ok(None);
    }
    if !requests.goes_on() {
        let message = requests.end(alloc)?;
        return Ok(Some(message));
    }
    let Some(loaded) = all_loaded(alloc, &rounds.slots)? else {
        return Ok(None);
    };
    let next_loads = loads_of_next(alloc)?;
    let slots = unused(alloc)?;
    groups.make_room(alloc)?;
    let message = requests.read(alloc, Channel::V1, loaded)?;
    rounds.next_loads = next_loads;
    rounds.slots = slots;
    Ok(Some(message))
}

/// A job is completed.
pub fn completed(
    requests: &GetRequests,
    groups: &mut GetGroups,
    rounds: &mut GetRounds,
    completion: Completion,
)
    requires { MayComplete requests.now groups.old rounds.old completion }
    ensures { (past : List ClientEvent) → RegisteredGetStands past requests.now groups.old rounds.old → AnswersJob past completion
        → RegisteredGetStands (Completed completion ∷ past) requests.now groups.new rounds.new }
{
    let sent = requests.sent();
    let _ = rounds.jobs.complete(completion.number);
    rounds.completed += 1;
    note(&mut rounds.slots, completion);
    if rounds.completed == ROUND * u64::from(sent) {
        groups.take_pages(&rounds.slots, requests.last() as usize);
        begin_next(rounds, requests.last());
    }
}

/// The next round begins, if the READ gave its whole length.
fn begin_next(rounds: &mut GetRounds, count: u32)
    requires { count ≡ GROUP_SIZE → length rounds.old.next_loads.items ≤ rounds.old.jobs.kept }
    ensures kept { rounds.new.jobs.kept + length (loads_after count rounds.old.next_loads.items) ≡ rounds.old.jobs.kept }
    ensures jobs { (came_due : List Work) (past : List ClientEvent) → JobsStand came_due past rounds.old.jobs
        → JobsStand (came_due ++ loads_after count rounds.old.next_loads.items) past rounds.new.jobs }
    ensures same { (rounds.new.slots ≡ rounds.old.slots) × (rounds.new.completed ≡ rounds.old.completed) }
{
    if count == GROUP_SIZE {
        rounds.jobs.add_all(&mut rounds.next_loads);
    }
}
