//! A worker meets the ends of its rings, and the other workers.

ghost use Rattle.std.specs.Prelude.{◌≡◌, ◌+◌, ◌≤◌, ◌++◌, length};
ghost use Rattle.completion_ring.specs.Rings.{sent, received, known, free, room, ArePair, SameJobs, SameDone};
ghost use Rattle.shared_pages.specs.Rule.{longest, AllCompare, Knows};
ghost use Rattle.shared_pages.specs.Calls.{MadeAsMuch, known_by, opening_of, IsOf};
ghost use Rattle.shared_workers.specs.Workers.{WorkerState, taken};

use crate::worker::Worker;
use completion_ring::{Done, Jobs};
use file_messages::{Completion, Job};
use shared_region::Region;

impl Worker {
    /// Sets both rings of the worker beside their other ends: each end then knows what was offered and what came out.
    pub fn beside(&mut self, jobs: &mut Jobs<Job>, done: &mut Done<Completion>)
        requires jobs { ArePair jobs.old self.old.jobs }
        requires done { ArePair self.old.done done.old }
        ensures same { self.new ≡ record self.old { jobs = self.new.jobs; done = self.new.done } }
        ensures rings { SameDone self.old.jobs self.new.jobs × SameJobs self.old.done self.new.done }
        ensures others { SameJobs jobs.old jobs.new × SameDone done.old done.new }
        ensures pairs { ArePair jobs.new self.new.jobs × ArePair self.new.done done.new }
        ensures stays { (taken self.new ≡ taken self.old) × (sent self.new.done ≡ sent self.old.done) }
        ensures others_stay { (sent jobs.new ≡ sent jobs.old) × (received done.new ≡ received done.old) }
        ensures given { taken self.new ++ known self.new.jobs ≡ sent jobs.new }
        ensures told { received done.new ++ known done.new ≡ sent self.new.done }
        ensures room_given { room jobs.new + length (taken self.new) ≤ free jobs.new + length (sent jobs.new) }
        ensures room_told { room self.new.done + length (received done.new) ≤ free self.new.done + length (sent self.new.done) }
    {
        completion_ring::beside(jobs, &mut self.jobs);
        completion_ring::beside(&mut self.done, done);
    }

    /// Tells each of two workers' passes what the other has seen, as `Region::meet`.
    pub fn meet(&mut self, other: &mut Worker, region: &Region)
        requires { IsOf region.now.pages self.old.pass × IsOf region.now.pages other.old.pass }
        ensures same { self.new ≡ record self.old { pass = self.new.pass } }
        ensures other_same { other.new ≡ record other.old { pass = other.new.pass } }
        ensures own { IsOf region.now.pages self.new.pass × IsOf region.now.pages other.new.pass }
        ensures one { (known_by self.new.pass).seen ≡ longest (known_by self.old.pass).seen (known_by other.old.pass).seen }
        ensures other { (known_by other.new.pass).seen ≡ (known_by self.new.pass).seen }
        ensures made { MadeAsMuch (known_by self.old.pass) (known_by self.new.pass) × MadeAsMuch (known_by other.old.pass) (known_by other.new.pass) }
        ensures compare { AllCompare (known_by self.old.pass).seen (known_by other.old.pass).seen }
        ensures knows { Knows (opening_of region.now.pages) (known_by self.new.pass) × Knows (opening_of region.now.pages) (known_by other.new.pass) }
    {
        region.meet(&mut self.pass, &mut other.pass);
    }
}
