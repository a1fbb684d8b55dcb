//! Which worker of an end does a job.

ghost use Rattle.std.specs.Prelude.{◌≡◌, ◌≤◌};
ghost use Rattle.page_workers.specs.Turns.{page_of_work, worker_number};

use file_messages::Work;

/// The page that the work is on.
fn page_of(work: &Work) -> u8
    ensures { result ≡ page_of_work work.now }
{
    match work {
        Work::Load { page, .. } => *page,
        Work::Fetch { descriptor } => (descriptor.token % 256) as u8,
        Work::Place { descriptor, .. } => (descriptor.token % 256) as u8,
        Work::Unload { token } => token.page(),
    }
}

/// The number of the worker, from 1 to the number of an end's workers, that does this work (this project's own). All work on one page is
/// done by one worker.
pub fn worker_for(work: &Work, workers: u8) -> u8
    requires least { 1 ≤ workers }
    requires most { workers ≤ 8 }
    ensures number { result ≡ worker_number work.now workers }
    ensures among { result ≤ workers }
{
    page_of(work) % workers + 1
}
