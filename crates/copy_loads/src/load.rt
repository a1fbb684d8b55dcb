//! A load.

ghost use Rattle.std.specs.Prelude.{◌≡◌, ◌⊎◌, ◌≤◌, None};
ghost use Rattle.file_messages.specs.declared.kind.CopyKind.TheVariants as kinds;
ghost use Rattle.copy_parts.specs.Options.{AreLawful};
ghost use Rattle.load_summary.specs.Summaries.{summary_text, load_line};
ghost use Rattle.end_workers.specs.Promise.{stream_of, IsSilent};
ghost use Rattle.end_workers.specs.Sizes.{most_bytes};
ghost use Rattle.std.specs.Io.KnownBytes.{Appends};
ghost use Rattle.copy_loads.specs.Loads.{KeepsLoadPromise, TellsLine};

use crate::running::run_to_end;
use end_workers::{CopyOptions, CopyReport};
use file_messages::GROUP_SIZE;
use load_summary::summary_of;
use made_input::MadeInput;
use smbd_outside::{Failed, MemorySink, Sink, Status, write_whole};
use std::alloc::Global;
use std::sync::Wait;

/// Makes the input of `length` bytes, at most 16,777,216, that begins with `first`, puts it into memory, tells the log what both ends and
/// their workers did, and then writes one line to the sink, which says what came of it: `length L requests R sha256 H`, with the length of
/// the copy, the number of its requests with END, and the SHA-256 of the bytes that the memory holds, in lower-case hex.
/// No other status than `Done`, `WriteFault`, `LogFault` and `NoMemory` comes.
pub fn run_load<R: Wait, K: Sink, L: Sink>(
    rt: &R,
    alloc: Global,
    first: u8,
    length: u32,
    options: &CopyOptions,
    sink: &mut K,
    log: &mut L,
) -> Status
    requires lawful { AreLawful options.now }
    requires put { options.now.kind ≡ kinds.Put }
    requires uncut { options.now.cut ≡ None }
    requires few { length ≤ most_bytes }
    ensures promise { KeepsLoadPromise result first length options.now
        (stream_of K.written K.faults sink.old sink.new) (stream_of L.written L.faults log.old log.new) }

    // With `Done`, the words alone say what the sink got.
    ensures line { result ≡ Status.Done → Appends (K.written sink.old) (K.written sink.new) (load_line first length) }

    // Where nothing fails, the load succeeds, but for want of memory.
    ensures complete { IsSilent (stream_of K.written K.faults sink.old sink.new) → IsSilent (stream_of L.written L.faults log.old log.new) →
        (result ≡ Status.Done) ⊎ (result ≡ Status.NoMemory) }
{
    // said for the contracts: limits are lawful
    let _credits = options.limits.credits();
    let Ok(mut memory) = MemorySink::open(alloc, length, GROUP_SIZE, &[]) else {
        return Status::NoMemory;
    };
    let mut input = MadeInput::open(first, length);
    match run_to_end(rt, alloc, options, &mut input, &mut memory, log) {
        Ok(report) => tell(alloc, report, memory.taken(), sink),
        Err(status) => stopped(status),
    }
}

/// How a load ends whose put stopped so. The memory has room for all of the input, but no contract of a copy says that a sink with room
/// never fails: its fault would be called want of memory.
fn stopped(status: Status) -> Status
    ensures log { status ≡ Status.LogFault → result ≡ Status.LogFault }
    ensures other { (status ≡ Status.LogFault → ⊥) → result ≡ Status.NoMemory }
{
    match status {
        Status::LogFault => Status::LogFault,
        _ => Status::NoMemory,
    }
}

/// Writes the line of a put of which this is the report, and which brought these bytes.
fn tell<K: Sink>(alloc: Global, report: CopyReport, bytes: &[u8], sink: &mut K) -> Status
    ensures { TellsLine result (summary_text report.length report.requests bytes.now) (stream_of K.written K.faults sink.old sink.new) }
{
    let Ok(line) = summary_of(alloc, report.length, report.requests, bytes) else {
        return Status::NoMemory;
    };
    match write_whole(sink, line.as_bytes()) {
        Ok(()) => Status::Done,
        Err(Failed) => Status::WriteFault,
    }
}
