//! The jobs of a client's machine: those that are due, and those that were given and are not completed.

ghost use Rattle.std.specs.Prelude.{◌≡◌, ◌+◌, ◌<◌, ◌≤◌, ◌^◌, ℕ, List, [], ◌∷◌, ◌++◌, Option, Some, None, IfOk, OnOk, OnErr, IsNone, map, length, slice_get, position, ◌==◌, IfSome, vec_len, vec_capacity};
ghost use Rattle.std.specs.VecDeque.{deque_len, deque_capacity};

use crate::loaded_page::LoadedPage;
use file_messages::{Job, Work};
use smbd_base::NoMemory;
use std::alloc::Global;
use std::collections::VecDeque;

/// A job that was given and is not completed.
#[derive(Clone, Copy)]
pub struct OutstandingJob {
    number: u64,
    /// The page that it takes back, if it is an Unload.
    frees: Option<u8>,
}

/// The jobs that are due or under way. Room is kept for each of them, and for so many more that are still to come: a job
/// that comes due, is given or is completed takes no memory.
#[derive(Drop)]
pub struct Jobs {
    due: VecDeque<Work>,
    outstanding: Vec<OutstandingJob>,
    /// How many were given: the number of the next one.
    given: u64,
    /// For how many more there is room.
    kept: usize,
    ghost due_fits: { deque_len due + vec_len outstanding + kept ≤ deque_capacity due },
    ghost outstanding_fits: { deque_len due + vec_len outstanding + kept ≤ vec_capacity outstanding },
}

impl Jobs {
    ghost use Rattle.file_messages.specs.declared.job.Work.{Work};
    ghost use Rattle.file_messages.specs.declared.job.Completion.{Completion};
    ghost use Rattle.file_transfer.specs.declared.client_jobs.OutstandingJob.{OutstandingJob};
    ghost use Rattle.file_pasts.specs.ClientPast.{ClientEvent, Completed, jobs_given, open_jobs, job_at, page_unloaded};
    ghost use Rattle.file_pasts.specs.PutDue.{numbered, unloads_of};
    ghost use Rattle.file_transfer.specs.ClientStands.{descriptor_in};
    ghost use Rattle.file_transfer.specs.ClientJobs.{JobsStand, after_giving};

    /// No jobs, and no room for any.
    pub fn new(alloc: Global) -> Jobs
        ensures stands { JobsStand [] [] result }
        ensures kept { result.kept ≡ 0 }
    {
        Jobs {
            due: VecDeque::new(alloc),
            outstanding: Vec::new(alloc),
            given: 0,
            kept: 0,
        }
    }

    /// For how many more there is room.
    pub fn kept(&self) -> usize
        ensures { result ≡ self.now.kept }
    {
        self.kept
    }

    /// Makes room for so many more.
    pub fn reserve(&mut self, count: usize) -> Result<(), NoMemory>
        requires { count < 2 ^ 32 }
        ensures ok { OnOk result (self.new.kept ≡ self.old.kept + count) }
        ensures err { OnErr result (self.new.kept ≡ self.old.kept) }
        ensures same { (came_due : List Work) (past : List ClientEvent) → JobsStand came_due past self.old → JobsStand came_due past self.new }
    {
        let more = self.outstanding.len() + self.kept + count;
        self.due.reserve(more)?;
        self.outstanding
            .reserve(self.due.len() + self.kept + count)?;
        self.kept += count;
        Ok(())
    }

    /// Gives back the room for one.
    pub fn let_go(&mut self)
        requires { 0 < self.old.kept }
        ensures kept { self.new.kept + 1 ≡ self.old.kept }
        ensures same { (came_due : List Work) (past : List ClientEvent) → JobsStand came_due past self.old → JobsStand came_due past self.new }
    {
        self.kept -= 1;
    }

    /// A job comes due.
    pub fn add(&mut self, work: Work)
        requires { 0 < self.old.kept }
        ensures kept { self.new.kept + 1 ≡ self.old.kept }
        ensures more { (came_due : List Work) (past : List ClientEvent) → JobsStand came_due past self.old → JobsStand (came_due ++ work ∷ []) past self.new }
    {
        self.kept -= 1;
        self.due.push_back_reserved(work);
    }

    /// These come due, and are no longer kept elsewhere.
    pub fn add_all(&mut self, works: &mut VecDeque<Work>)
        requires { length works.old.items ≤ self.old.kept }
        ensures kept { self.new.kept + length works.old.items ≡ self.old.kept }
        ensures more { (came_due : List Work) (past : List ClientEvent) → JobsStand came_due past self.old → JobsStand (came_due ++ works.old.items) past self.new }
    {
        while let Some(work) = works.pop_front() {
            self.add(work);
        }
    }

    /// Unloads of these pages come due.
    pub fn unload(&mut self, pages: &[LoadedPage])
        requires { length pages.now ≤ self.old.kept }
        ensures kept { self.new.kept + length pages.now ≡ self.old.kept }
        ensures more { (came_due : List Work) (past : List ClientEvent) → JobsStand came_due past self.old
            → JobsStand (came_due ++ unloads_of (map descriptor_in pages.now)) past self.new }
    {
        for page in pages {
            let token = page.token();
            self.add(Work::Unload { token });
        }
    }

    /// The next job that is due.
    pub fn next(&mut self) -> Option<Job>
        requires { self.old.given < 18446744073709551615 }
        ensures kept { self.new.kept ≡ self.old.kept }
        ensures due { (came_due : List Work) (past : List ClientEvent) → JobsStand came_due past self.old
            → result ≡ numbered (length (jobs_given past)) (slice_get came_due (length (jobs_given past))) }
        ensures after { (came_due : List Work) (past : List ClientEvent) → JobsStand came_due past self.old → JobsStand came_due (after_giving result past) self.new }
    {
        let work = self.due.pop_front()?;
        let number = self.given;
        let frees = Jobs::page_of(&work);
        self.given += 1;
        self.outstanding
            .push_reserved(OutstandingJob { number, frees });
        Some(Job { number, work })
    }

    /// The job with this number is completed: the page that it took back, if it was an Unload. Its room is kept.
    pub fn complete(&mut self, number: u64) -> Option<u8>
        ensures kept { (came_due : List Work) (past : List ClientEvent) (work : Work) → JobsStand came_due past self.old
            → job_at number (open_jobs past) ≡ Some work → self.new.kept ≡ self.old.kept + 1 }
        ensures page { (came_due : List Work) (past : List ClientEvent) (work : Work) → JobsStand came_due past self.old
            → job_at number (open_jobs past) ≡ Some work → result ≡ page_unloaded (Some work) }
        ensures after { (came_due : List Work) (past : List ClientEvent) (work : Work) (c : Completion) → JobsStand came_due past self.old
            → job_at number (open_jobs past) ≡ Some work → c.number ≡ number → JobsStand came_due (Completed c ∷ past) self.new }
    {
        let Some(place) = self.place_of(number) else {
            return None;
        };
        let job = self.outstanding.remove(place);
        self.kept += 1;
        job.frees
    }

    /// The page that a job takes back.
    fn page_of(work: &Work) -> Option<u8>
        ensures { result ≡ page_unloaded (Some work.now) }
    {
        match work {
            Work::Unload { token } => Some(token.page()),
            _ => None,
        }
    }

    /// The place of the outstanding job with this number.
    fn place_of(&self, number: u64) -> Option<usize>
        ensures value { result ≡ position (λ (job : OutstandingJob). job.number == number) self.now.outstanding.items }
        ensures within { IfSome result (λ i. i < vec_len self.now.outstanding) }
    {
        self.outstanding.iter().position(|job| job.number == number)
    }
}
