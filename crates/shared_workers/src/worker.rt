//! A worker.

ghost use Rattle.std.specs.Prelude.{◌≡◌, ◌≢◌, ◌≤◌, ◌<◌, ◌+◌, vec_len, vec_capacity, ◌++◌, ◌∷◌, [], None, Some, true, false, Ok, length, List, option_to_list, IfOk, OnErr};
ghost use Rattle.file_messages.specs.declared.job.Completion.{Completion};
ghost use Rattle.completion_ring.specs.Rings.{sent, received, known, free, SameJobs, SameDone};
ghost use Rattle.shared_pages.specs.Calls.{known_by, opening_of, IsOf, MayMake};
ghost use Rattle.shared_workers.specs.Workers.{WorkerState, opened, taken, finished, DoesJobs, HasKept, TriedKept, HasAnswered, IsUntried, WentOn, IsIdle, IsFull};

use crate::answer::One;
use crate::tries::{Attempt, room_for, try_once};
use completion_ring::{Done, Full, Jobs};
use event_log::LogLine;
use file_messages::{Completion, Job};
use page_workers::{Kept, Tried};
use shared_pages::PagePass;
use shared_region::Region;
use smbd_base::NoMemory;
use std::alloc::Global;
use std::marker::Model;

/// A worker of an end (this project's own): it does the jobs of its ring, one after another, and keeps one that the region refuses
/// until a later call.
#[derive(Drop)]
pub struct Worker {
    alloc: Global,
    number: u8,
    pub(crate) pass: PagePass,
    kept: Option<Kept>,
    pub(crate) jobs: Done<Job>,
    pub(crate) done: Jobs<Completion>,
    unsent: Option<Completion>,
    lines: Vec<LogLine>,
}

impl Model for Worker {
    ghost use Rattle.shared_workers.specs.Workers.{WorkerState};

    ghost Value = { WorkerState };

    ghost view = { λ w. record { number = w.number; pass = w.pass; kept = w.kept; jobs = w.jobs; done = w.done; unsent = w.unsent; lines = w.lines.items } };
}

/// Adds a line, if there is one, in the room that was made.
fn add(lines: &mut Vec<LogLine>, line: Option<LogLine>)
    requires { vec_len lines.old < vec_capacity lines.old }
    ensures { lines.new.items ≡ lines.old.items ++ option_to_list line }
{
    if let Some(line) = line {
        lines.push_reserved(line);
    }
}

/// Sends a completion. It comes back only where the ring has no room.
fn send(done: &mut Jobs<Completion>, completion: Completion) -> Option<Completion>
    ensures ring { SameJobs done.old done.new }
    ensures told { sent done.new ++ option_to_list result ≡ sent done.old ++ completion ∷ [] }
    ensures sent { (gone : List Completion) × (sent done.new ≡ sent done.old ++ gone) }
    ensures room { free done.old + length (sent done.old) ≤ free done.new + length (sent done.new) }
    ensures full { result ≢ None → (free done.old ≡ 0) × (free done.new ≡ 0) × (result ≡ Some completion) × (sent done.new ≡ sent done.old) }
{
    match done.offer(completion) {
        Ok(()) => None,
        Err(Full(back)) => Some(back),
    }
}

impl Worker {
    /// A worker of this number, from 1 to 8, which takes its jobs from the one ring and sends its completions by the other.
    pub fn open(
        alloc: Global,
        number: u8,
        pass: PagePass,
        jobs: Done<Job>,
        done: Jobs<Completion>,
    ) -> Result<Worker, NoMemory>
        requires least { 1 ≤ number }
        requires most { number ≤ 8 }
        requires made { (known_by pass).made ≡ [] }
        requires jobs { received jobs ≡ [] }
        requires done { sent done ≡ [] }
        ensures opened { IfOk result (λ w. w ≡ opened number pass jobs done) }
        ensures does { IfOk result (λ w. DoesJobs w) }
    {
        Ok(Worker {
            alloc,
            number,
            pass,
            kept: None,
            jobs,
            done,
            unsent: None,
            lines: Vec::with_capacity(alloc, 16)?,
        })
    }

    /// The worker's number, from 1 to 8.
    pub fn number(&self) -> u8
        ensures { result ≡ self.now.number }
    {
        self.number
    }

    /// The lines of the events that weren't told, the oldest one first.
    pub fn lines(&self) -> &[LogLine]
        ensures { result.now ≡ self.now.lines }
    {
        self.lines.as_slice()
    }

    /// The lines are told.
    pub fn clear_lines(&mut self)
        ensures { self.new ≡ record self.old { lines = [] } }
    {
        self.lines.clear();
    }

    /// Sends the completion that waits, if one does. Answers whether none waits now.
    fn send_unsent(&mut self) -> bool
        ensures ring { SameJobs self.old.done self.new.done }
        ensures told { finished self.new ≡ finished self.old }
        ensures sent { (gone : List Completion) × (sent self.new.done ≡ sent self.old.done ++ gone) }
        ensures room { free self.old.done + length (sent self.old.done) ≤ free self.new.done + length (sent self.new.done) }
        ensures none { result ≡ true → self.new.unsent ≡ None }
        ensures full { result ≡ false → IsFull self.old × IsFull self.new }
        ensures same { self.new ≡ record self.old { done = self.new.done; unsent = self.new.unsent } }
    {
        match self.unsent.take() {
            None => true,
            Some(completion) => {
                self.unsent = send(&mut self.done, completion);
                self.unsent.is_none()
            }
        }
    }

    /// Keeps the next job, where none is kept and one comes. Answers whether one is kept.
    fn keep_next(&mut self) -> bool
        ensures kept { result ≡ true → HasKept self.old self.new }
        ensures none { result ≡ false → IsIdle self.new × (known self.old.jobs ≡ []) × (taken self.new ≡ taken self.old) × (self.new.kept ≡ self.old.kept) }
        ensures ring { SameDone self.old.jobs self.new.jobs }
        ensures same { self.new ≡ record self.old { jobs = self.new.jobs; kept = self.new.kept } }
    {
        match &self.kept {
            Some(_) => return true,
            None => {}
        }
        match self.jobs.next() {
            Some(job) => {
                self.kept = Some(Kept::Fresh(job));
                true
            }
            None => false,
        }
    }

    /// Tries the job that is kept. Answers whether it is finished. Without memory nothing is done.
    fn try_kept(&mut self, region: &Region) -> Result<bool, NoMemory>
        requires own { IsOf region.now.pages self.old.pass }
        requires few { MayMake (known_by self.old.pass) }
        requires kept { self.old.kept ≢ None }
        requires sent { self.old.unsent ≡ None }
        ensures own { IsOf region.now.pages self.new.pass }
        ensures few { length (known_by self.new.pass).made ≤ length (known_by self.old.pass).made + 1 }
        ensures tried { IfOk result (λ done. TriedKept (opening_of region.now.pages) self.old self.new done) }
        ensures same { OnErr result (self.new ≡ self.old) }
    {
        let Some(kept) = &self.kept else {
            unreachable!()
        };
        let room = room_for(self.alloc, kept)?;
        self.lines.reserve(1)?;
        let Attempt { tried, line } = try_once(region, &mut self.pass, kept, room);
        add(&mut self.lines, line);
        match tried {
            Tried::Finished(completion) => {
                self.kept = None;
                self.unsent = send(&mut self.done, completion);
                Ok(true)
            }
            Tried::Begun(kept) => {
                self.kept = Some(kept);
                Ok(false)
            }
            Tried::Refused => Ok(false),
        }
    }

    /// Sends the completion that waits, and tries the next job once.
    pub fn one(&mut self, region: &Region) -> Result<One, NoMemory>
        requires own { IsOf region.now.pages self.old.pass }
        requires few { MayMake (known_by self.old.pass) }
        ensures own { IsOf region.now.pages self.new.pass }
        ensures few { length (known_by self.new.pass).made ≤ length (known_by self.old.pass).made + 1 }
        ensures tried { IfOk result (λ one. HasAnswered (opening_of region.now.pages) one self.old self.new) }
        ensures untried { OnErr result (IsUntried self.old self.new) }
        ensures went { WentOn self.old self.new }
        ensures did { result ≡ Ok One.Did → length (finished self.new) ≡ length (finished self.old) + 1 }
        ensures none { result ≢ Ok One.Did → finished self.new ≡ finished self.old }
        ensures sent { self.new.unsent ≢ None → free self.new.done ≡ 0 }
    {
        if !self.send_unsent() {
            return Ok(One::Full);
        }
        if !self.keep_next() {
            return Ok(One::Idle);
        }
        if self.try_kept(region)? {
            Ok(One::Did)
        } else {
            Ok(One::Held)
        }
    }
}
