//! A copy that words name.

ghost use Rattle.std.specs.Prelude.{◌≡◌};
ghost use Rattle.command_words.specs.Lawful.{MayBeMade, options_of};
ghost use Rattle.end_workers.specs.Promise.{stream_of, Succeeds};
ghost use Rattle.smbd_cli.specs.Copies.{HasGivenAll, IsFairCopy, KeepsCopyPromise};

use command_words::CopyCommand;
use copy_loads::{run_load, run_to_end};
use smbd_outside::{Sink, Source, Status};
use std::alloc::Global;
use std::sync::Wait;

/// Copies the source to the sink, at most 16,777,216 bytes, and tells the log what both ends and their workers did: barriers with rounds
/// between them, as long as there is more to do. At each barrier the lines stand in the log before the sink gets its bytes. `Load` makes
/// its own input, puts it into memory, and writes one line to the sink, which sums it up; it reads nothing.
pub fn run_copy<R: Wait, S: Source, K: Sink, L: Sink>(
    rt: &R,
    alloc: Global,
    command: &CopyCommand,
    source: &mut S,
    sink: &mut K,
    log: &mut L,
) -> Status
    requires { MayBeMade command.now }
    ensures promise { KeepsCopyPromise result command.now (stream_of S.left S.faults source.old source.new)
        (stream_of K.written K.faults sink.old sink.new) (stream_of L.written L.faults log.old log.new) }

    // With `Done`, a source that tells its bytes is at its end, and the sink got just them; or it got the line of a load.
    ensures given { result ≡ Status.Done → HasGivenAll command.now (stream_of S.left S.faults source.old source.new)
        (stream_of K.written K.faults sink.old sink.new) }

    // Where nothing fails, the copy succeeds, or is cut as was asked, but for want of memory.
    ensures complete { IsFairCopy command.now (stream_of S.left S.faults source.old source.new)
        (stream_of K.written K.faults sink.old sink.new) (stream_of L.written L.faults log.old log.new) → Succeeds (options_of command.now) result }
{
    match command {
        CopyCommand::Copy(options) => match run_to_end(rt, alloc, options, source, sink, log) {
            Ok(_report) => Status::Done,
            Err(status) => status,
        },
        CopyCommand::Load {
            first,
            length,
            options,
        } => run_load(rt, alloc, *first, *length, options, sink, log),
    }
}
