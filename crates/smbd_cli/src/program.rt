//! The top call.

ghost use Rattle.std.specs.Prelude.{◌≡◌, ◌⊎◌, ℕ, List, Some, None};
ghost use Rattle.command_words.specs.declared.options.CopyCommand.{CopyCommand as Copying};
ghost use Rattle.command_words.specs.declared.options.Plain.{Plain as Waitless};
ghost use Rattle.command_words.specs.declared.options.Command.TheVariants as commands;
ghost use Rattle.command_words.specs.Command.{command_of};
ghost use Rattle.command_words.specs.Lawful.{options_of};
ghost use Rattle.smbd_cli.specs.Copies.{HasGivenAll, IsFairCopy, KeepsCopyPromise};
ghost use Rattle.smbd_cli.specs.Plain.{KeepsPlainPromise, IsFairPlain, bad_line, status_by_line};
ghost use Rattle.end_workers.specs.Promise.{stream_of, Succeeds};

use crate::copy::run_copy;
use crate::plain::run_plain;
use command_words::{Command, Word, command_of};
use smbd_base::NoMemory;
use smbd_outside::{Sink, Source, Status};
use std::alloc::Global;
use std::sync::Wait;

/// Does all that the program does: reads the words, and then copies the source to the sink, which the log is told, puts a made input into
/// memory, or runs the script that the source has, whose log the sink gets. `Usage` comes exactly where the words name no command, and
/// then nothing is read or written. Every other status is that of the copy or of the run, with its cause. Where memory is wanting for
/// reading the words, that is answered in place of any other status.
pub fn run<R: Wait, S: Source, K: Sink, L: Sink>(
    rt: &R,
    alloc: Global,
    words: &[Word],
    source: &mut S,
    sink: &mut K,
    log: &mut L,
) -> Status
    ensures usage { result ≡ Status.Usage → command_of words.now ≡ None }
    ensures unnamed { command_of words.now ≡ None → (result ≡ Status.Usage) ⊎ (result ≡ Status.NoMemory) }
    ensures untouched { command_of words.now ≡ None → (source.new ≡ source.old) × (sink.new ≡ sink.old) × (log.new ≡ log.old) }

    // the words of a copy
    ensures promise { (command : Copying) → command_of words.now ≡ Some (commands.Copy command) → KeepsCopyPromise result command
        (stream_of S.left S.faults source.old source.new) (stream_of K.written K.faults sink.old sink.new)
        (stream_of L.written L.faults log.old log.new) }
    ensures given { (command : Copying) → command_of words.now ≡ Some (commands.Copy command) → result ≡ Status.Done →
        HasGivenAll command (stream_of S.left S.faults source.old source.new) (stream_of K.written K.faults sink.old sink.new) }
    ensures complete { (command : Copying) → command_of words.now ≡ Some (commands.Copy command) →
        IsFairCopy command (stream_of S.left S.faults source.old source.new) (stream_of K.written K.faults sink.old sink.new)
        (stream_of L.written L.faults log.old log.new) → Succeeds (options_of command) result }

    // the words of a script's run, which has no log beside its output
    ensures plain { (command : Waitless) → command_of words.now ≡ Some (commands.Plain command) →
        KeepsPlainPromise result command (stream_of S.left S.faults source.old source.new)
        (stream_of K.written K.faults sink.old sink.new) × (log.new ≡ log.old) }
    ensures plain_complete { (command : Waitless) (input : List ℕ) → command_of words.now ≡ Some (commands.Plain command) →
        IsFairPlain (stream_of S.left S.faults source.old source.new) (stream_of K.written K.faults sink.old sink.new) input →
        (result ≡ status_by_line (bad_line command input)) ⊎ (result ≡ Status.NoMemory) }
{
    match command_of(alloc, words) {
        Ok(Some(Command::Copy(command))) => run_copy(rt, alloc, &command, source, sink, log),
        Ok(Some(Command::Plain(command))) => run_plain(alloc, &command, source, sink),
        Ok(None) => Status::Usage,
        Err(NoMemory) => Status::NoMemory,
    }
}
