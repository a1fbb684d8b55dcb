//! The jobs of a call.

ghost use Rattle.std.specs.Prelude.{◌≡◌, ◌≤◌, ◌+◌, length, is_ok};
ghost use Rattle.shared_pages.specs.Rule.{most_events};
ghost use Rattle.shared_pages.specs.Calls.{known_by, opening_of, IsOf};
ghost use Rattle.shared_workers.specs.Workers.{HasRun};

use crate::answer::One;
use crate::worker::Worker;
use shared_region::Region;
use smbd_base::NoMemory;

/// The most jobs that a worker finishes in one call.
const MOST_JOBS: u32 = 16;

impl Worker {
    /// Does the jobs that the worker has, at most 16.
    pub fn run(&mut self, region: &Region) -> Result<(), NoMemory>
        requires own { IsOf region.now.pages self.old.pass }
        requires few { length (known_by self.old.pass).made + 16 ≤ most_events }
        ensures own { IsOf region.now.pages self.new.pass }
        ensures few { length (known_by self.new.pass).made ≤ length (known_by self.old.pass).made + 16 }
        ensures run { HasRun (opening_of region.now.pages) (is_ok result) self.old self.new }
    {
        for _ in 0..MOST_JOBS {
            match self.one(region) {
                Ok(One::Did) => {}
                Ok(One::Held) => return Ok(()),
                Ok(One::Idle) => return Ok(()),
                Ok(One::Full) => return Ok(()),
                Err(NoMemory) => return Err(NoMemory),
            }
        }
        Ok(())
    }
}
