//! A worked example of a worker's jobs, by computation.

ghost use Rattle.page_workers.specs.Worked.{WorksSo, WorksNotSo};

/// A page that is loaded, fetched from and taken back, and what isn't the work of a worker.
pub fn worked_workers()
    ensures so { WorksSo }
    ensures not_so { WorksNotSo }
{}
