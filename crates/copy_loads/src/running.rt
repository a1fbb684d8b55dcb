//! A copy that is run to its end.

ghost use Rattle.std.specs.Prelude.{◌≡◌, ℕ, List, Some, IfErr, IfOk, OnOk};
ghost use Rattle.copy_parts.specs.Options.{AreLawful};
ghost use Rattle.end_workers.specs.Progress.{GoesOn, IsOpened};
ghost use Rattle.end_workers.specs.Promise.{stream_of, KeepsPromise};
ghost use Rattle.copy_loads.specs.Reports.{TellsAll};

use end_workers::{Barrier, Copy, CopyOptions, CopyReport};
use smbd_outside::{Sink, Source, Status};
use std::alloc::Global;
use std::sync::Wait;

/// Copies the source to the sink, at most 16,777,216 bytes, and tells the log what both ends and their workers did. `Ok` has the report of a
/// copy that is done, and an `Err` says why one stopped before that.
pub fn run_to_end<R: Wait, S: Source, K: Sink, L: Sink>(
    rt: &R,
    alloc: Global,
    options: &CopyOptions,
    source: &mut S,
    sink: &mut K,
    log: &mut L,
) -> Result<CopyReport, Status>
    requires { AreLawful options.now }
    ensures done { OnOk result (KeepsPromise Status.Done options.now (stream_of S.left S.faults source.old source.new)
        (stream_of K.written K.faults sink.old sink.new) (stream_of L.written L.faults log.old log.new)) }
    ensures stops { IfErr result (λ status. KeepsPromise status options.now (stream_of S.left S.faults source.old source.new)
        (stream_of K.written K.faults sink.old sink.new) (stream_of L.written L.faults log.old log.new)) }

    // The report tells all bytes of a source that tells them, and each request for them.
    ensures report { (bytes : List ℕ) → S.left source.old ≡ Some bytes → IfOk result (TellsAll options.now bytes) }
{
    let Ok(mut copy) = Copy::open(alloc, options) else {
        return Err(Status::NoMemory);
    };
    run_opened(rt, &mut copy, source, sink, log)
}

/// Barriers with rounds between them, until one ends the copy, which was just opened. At each barrier the lines stand in the log before
/// the sink gets its bytes.
fn run_opened<R: Wait, S: Source, K: Sink, L: Sink>(
    rt: &R,
    copy: &mut Copy,
    source: &mut S,
    sink: &mut K,
    log: &mut L,
) -> Result<CopyReport, Status>
    requires on { GoesOn copy.old }
    requires opened { IsOpened copy.old.options copy.old }
    ensures done { OnOk result (KeepsPromise Status.Done copy.old.options (stream_of S.left S.faults source.old source.new)
        (stream_of K.written K.faults sink.old sink.new) (stream_of L.written L.faults log.old log.new)) }
    ensures stops { IfErr result (λ status. KeepsPromise status copy.old.options (stream_of S.left S.faults source.old source.new)
        (stream_of K.written K.faults sink.old sink.new) (stream_of L.written L.faults log.old log.new)) }
    ensures report { (bytes : List ℕ) → S.left source.old ≡ Some bytes → IfOk result (TellsAll copy.old.options bytes) }
{
    for _ in rt.forever() {
        match copy.barrier(source, sink, log) {
            Barrier::More => {}
            Barrier::Done => return Ok(copy.finish()),
            Barrier::Stop(status) => return Err(status),
        }
        let Ok(()) = copy.round() else {
            return Err(Status::NoMemory);
        };
    }
    unreachable!()
}
