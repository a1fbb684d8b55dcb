//! The workers of one end.

ghost use Rattle.std.specs.Prelude.{◌≡◌, ℕ, ◌+◌, ◌-◌, ◌<◌, ◌≤◌, List, length, map, slice_get, Some, is_ok, IfOk, OnOk, OnErr, MatchOption};
ghost use Rattle.std.specs.List.{range_with_len};
ghost use Rattle.page_workers.specs.Workers.{HaveRun};
ghost use Rattle.copy_laws.specs.Steps.{workers_opened};
ghost use Rattle.page_crew.specs.Crews.{lines_of, told, IsGivenAt, HasNone, IsTakenFrom};

use event_log::LogLine;
use file_messages::{Completion, Job};
use page_slots::Passes;
use page_workers::{Worker, run_workers};
use registration::Region;
use smbd_base::NoMemory;
use std::alloc::Global;

/// So many workers, the first of which has number 1. Each takes the next pass.
pub(crate) fn open_workers(
    alloc: Global,
    count: u8,
    passes: &mut Passes,
) -> Result<Vec<Worker>, NoMemory>
    requires few { count ≤ 8 }
    requires left { count ≤ length passes.old }
    ensures workers { IfOk result (λ v. (first seats : ℕ) → passes.old ≡ range_with_len first seats → v.items ≡ workers_opened first count) }
    ensures passes { OnOk result ((first seats : ℕ) → passes.old ≡ range_with_len first seats → passes.new ≡ range_with_len (first + count) (seats - count)) }
{
    let mut workers = Vec::with_capacity(alloc, usize::from(count))?;
    for place in 0..count {
        let Some(pass) = passes.take() else {
            unreachable!()
        };
        workers.push(Worker::open(alloc, place + 1, pass)?)?;
    }
    Ok(workers)
}

/// The lines of the worker at this place that weren't told.
pub(crate) fn lines_at(workers: &[Worker], place: usize) -> &[LogLine]
    requires { place < length workers.now }
    ensures { slice_get (lines_of workers.now) place ≡ Some result.now }
{
    workers[place].lines()
}

/// All lines are told.
pub(crate) fn clear_all(workers: &mut [Worker])
    ensures { workers.new ≡ map told workers.old }
{
    for worker in workers {
        worker.clear_lines();
    }
}

/// Gives a job to the worker at this place. Without memory the job is let go.
pub(crate) fn give_to(workers: &mut [Worker], place: usize, job: Job) -> Result<(), NoMemory>
    requires { place < length workers.old }
    ensures given { OnOk result (IsGivenAt place job workers.old workers.new) }
    ensures same { OnErr result (workers.new ≡ workers.old) }
{
    let worker = &mut workers[place];
    worker.give(job)
}

/// Takes the oldest completion of the first worker that has one.
pub(crate) fn take_from(workers: &mut [Worker]) -> Option<Completion>
    ensures { MatchOption result (HasNone workers.old × (workers.new ≡ workers.old)) (λ c. IsTakenFrom c workers.old workers.new) }
{
    for worker in workers {
        match worker.taken() {
            Some(completion) => return Some(completion),
            None => {}
        }
    }
    None
}

/// Lets each worker do its jobs, at most 16 of each, one worker after another.
pub(crate) fn run_all(region: &mut Region, workers: &mut Vec<Worker>) -> Result<(), NoMemory>
    ensures { HaveRun workers.old.items workers.new.items region.old region.new (is_ok result) }
{
    run_workers(region, workers)
}
