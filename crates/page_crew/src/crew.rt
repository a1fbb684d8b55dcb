//! The workers of both ends.

ghost use Rattle.std.specs.Prelude.{◌≡◌, ℕ, ◌+◌, ◌<◌, ◌≤◌, List, length, map, slice_get, Some, IfOk, OnOk, OnErr, MatchOption};
ghost use Rattle.copy_laws.specs.Coupled.{Pasts};
ghost use Rattle.copy_laws.specs.Steps.{opened_pasts};
ghost use Rattle.page_crew.specs.Crews.{IsSized, IsCrewOf, workers_of, with_workers, opened_crew, lines_of, dones_of, told, HasGiven, HasNone, HasTaken, AreAsMany, HaveTurned, GoesOn};

use crate::workers::{clear_all, give_to, lines_at, open_workers, run_all, take_from};
use event_log::LogLine;
use file_messages::{Completion, Job};
use page_workers::{Worker, worker_for};
use registration::Region;
use smbd_base::{EndId, NoMemory};
use std::alloc::Global;
use std::marker::Model;

/// The workers of both ends of a copy, and the region whose pages they share (this project's own).
#[derive(Drop)]
pub struct Crew {
    region: Region,
    clients: Vec<Worker>,
    servers: Vec<Worker>,
}

impl Model for Crew {
    ghost use Rattle.page_crew.specs.Crews.{CrewState, IsSized};

    ghost Value = { CrewState };

    ghost view = { λ c. record { region = c.region; clients = c.clients.items; servers = c.servers.items } };

    ghost invariant = { λ c. IsSized (record { region = c.region; clients = c.clients.items; servers = c.servers.items }) };
}

impl Crew {
    /// So many workers of each end, from 1 to 8, over so many pages, from 16 to 255, none of which was loaded.
    pub fn open(alloc: Global, workers: u8, pages: u16) -> Result<Crew, NoMemory>
        requires some { 1 ≤ workers }
        requires few { workers ≤ 8 }
        requires least { 16 ≤ pages }
        requires most { pages ≤ 255 }
        ensures opened { IfOk result (λ crew. crew ≡ opened_crew workers pages) }
        ensures coupled { IfOk result (λ crew. IsCrewOf opened_pasts crew) }
    {
        let (region, mut passes) = Region::open(alloc, pages, 1, 2 * workers)?;
        let clients = open_workers(alloc, workers, &mut passes)?;
        let servers = open_workers(alloc, workers, &mut passes)?;
        Ok(Crew {
            region,
            clients,
            servers,
        })
    }

    /// How many workers each end has.
    pub fn count(&self) -> u8
        ensures number { result ≡ length self.now.clients }
        ensures sized { IsSized self.now }
    {
        self.clients.len() as u8
    }

    /// The lines of the events of one worker, its place counted from 0, that weren't told; the oldest first.
    pub fn lines(&self, end: EndId, place: u8) -> &[LogLine]
        requires { place < length self.now.clients }
        ensures { slice_get (lines_of (workers_of end self.now)) place ≡ Some result.now }
    {
        match end {
            EndId::Client => lines_at(&self.clients, usize::from(place)),
            EndId::Server => lines_at(&self.servers, usize::from(place)),
        }
    }

    /// All lines are told.
    pub fn clear_lines(&mut self)
        ensures told { self.new ≡ record self.old { clients = map told self.old.clients; servers = map told self.old.servers } }
        ensures coupled { (p : Pasts) → IsCrewOf p self.old → IsCrewOf p self.new }
    {
        clear_all(&mut self.clients);
        clear_all(&mut self.servers);
    }

    /// Gives a job to the worker of its end that does the work on its page. Without memory the job is let go.
    pub fn give(&mut self, end: EndId, job: Job) -> Result<(), NoMemory>
        ensures given { OnOk result (HasGiven end job self.old self.new) }
        ensures same { OnErr result (self.new ≡ self.old) }
        ensures side { self.new ≡ with_workers end (workers_of end self.new) self.old }
        ensures lines { lines_of (workers_of end self.new) ≡ lines_of (workers_of end self.old) }
        ensures done { dones_of (workers_of end self.new) ≡ dones_of (workers_of end self.old) }
    {
        let worker = worker_for(&job.work, self.count());
        let place = usize::from(worker - 1);
        match end {
            EndId::Client => give_to(&mut self.clients, place, job),
            EndId::Server => give_to(&mut self.servers, place, job),
        }
    }

    /// Takes the next completion of one of the end's workers. None comes exactly where none waits.
    pub fn taken(&mut self, end: EndId) -> Option<Completion>
        ensures taken { MatchOption result (HasNone (workers_of end self.old) × (self.new ≡ self.old)) (λ c. HasTaken end c self.old self.new) }
        ensures side { self.new ≡ with_workers end (workers_of end self.new) self.old }
        ensures lines { lines_of (workers_of end self.new) ≡ lines_of (workers_of end self.old) }
    {
        match end {
            EndId::Client => take_from(&mut self.clients),
            EndId::Server => take_from(&mut self.servers),
        }
    }

    /// Lets each worker do its jobs, at most 16 of each, one worker after another, the client's first.
    pub fn run(&mut self) -> Result<(), NoMemory>
        ensures turned { OnOk result (HaveTurned self.old self.new) }
        ensures grew { (p : Pasts) → IsCrewOf p self.old → GoesOn p self.old self.new }
        ensures count { AreAsMany self.old self.new }
    {
        run_all(&mut self.region, &mut self.clients)?;
        run_all(&mut self.region, &mut self.servers)
    }
}
