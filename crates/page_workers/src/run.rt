//! The workers of an end, each in its turn.

ghost use Rattle.std.specs.Prelude.{◌≡◌, ◌≤◌, ◌+◌, length, is_ok};
ghost use Rattle.page_workers.specs.Workers.{HasRun, HaveRun};

use crate::answer::One;
use crate::worker::Worker;
use registration::Region;
use smbd_base::NoMemory;

/// The most jobs that a worker finishes in one call.
const MOST_JOBS: u32 = 16;

impl Worker {
    /// Does the jobs that the worker has, at most 16.
    pub fn run(&mut self, region: &mut Region) -> Result<(), NoMemory>
        ensures { HasRun self.old self.new region.old region.new (is_ok result) }
    {
        for _ in 0..MOST_JOBS {
            match self.one(region) {
                Ok(One::Did) => {}
                Ok(One::Held) => return Ok(()),
                Ok(One::Idle) => return Ok(()),
                Err(NoMemory) => return Err(NoMemory),
            }
        }
        Ok(())
    }
}

/// Has each worker do its jobs, at most 16 of each, one worker after another. Without memory those that come after are not called.
pub fn run_workers(region: &mut Region, workers: &mut [Worker]) -> Result<(), NoMemory>
    ensures { HaveRun workers.old workers.new region.old region.new (is_ok result) }
{
    for worker in workers {
        match worker.run(region) {
            Ok(()) => {}
            Err(NoMemory) => return Err(NoMemory),
        }
    }
    Ok(())
}
