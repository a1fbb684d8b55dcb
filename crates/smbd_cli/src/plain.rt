//! The commands that wait for nobody.

ghost use Rattle.std.specs.Prelude.{◌≡◌, ◌⊎◌, ◌≤◌, ℕ, None, List, IfOk, IfErr, OnOk, length, string_bytes};
ghost use Rattle.sim_script.specs.Scripts.{first_bad_line, script_of};
ghost use Rattle.run_log.specs.RunLines.{run_lines};
ghost use Rattle.world_core.specs.Run.{run_of};
ghost use Rattle.smbd_cli.specs.Plain.{KeepsPlainPromise, IsFairPlain, bad_line, status_by_line, StopsScript, StopsList};
ghost use Rattle.frame_lists.specs.Frames.{first_bad_frame_line, description_of};
ghost use Rattle.end_workers.specs.Promise.{stream_of};
ghost use Rattle.end_workers.specs.Sizes.{most_bytes};

use crate::input::read_input;
use command_words::Plain;
use event_log::{Line, write_lines};
use frame_lists::{FrameListFault, describe};
use run_log::lines_of_run;
use sim_script::run_text;
use smbd_base::{EndLimits, NoMemory};
use smbd_outside::{Failed, Sink, Source, Status, write_whole};
use std::alloc::Global;
use world_core::World;

/// Reads all of the input, at most 16,777,216 bytes, checks it, and then writes what it asks for: for `Sim` the log of the run
/// of the script that the input is, line by line in the order of the events; for `Show` what each frame of a list says, one line a
/// frame.
pub fn run_plain<S: Source, K: Sink>(
    alloc: Global,
    command: &Plain,
    source: &mut S,
    sink: &mut K,
) -> Status
    ensures promise { KeepsPlainPromise result command.now (stream_of S.left S.faults source.old source.new)
        (stream_of K.written K.faults sink.old sink.new) }

    // Where nothing fails, the input alone says what comes, but for want of memory.
    ensures complete { (input : List ℕ) →
        IsFairPlain (stream_of S.left S.faults source.old source.new) (stream_of K.written K.faults sink.old sink.new) input →
        (result ≡ status_by_line (bad_line command.now input)) ⊎ (result ≡ Status.NoMemory) }
{
    match run_to_end(alloc, *command, source, sink) {
        Ok(()) => Status::Done,
        Err(status) => status,
    }
}

/// Does so, with each status but `Done` as a refusal.
fn run_to_end<S: Source, K: Sink>(
    alloc: Global,
    command: Plain,
    source: &mut S,
    sink: &mut K,
) -> Result<(), Status>
    ensures done { OnOk result (KeepsPlainPromise Status.Done command (stream_of S.left S.faults source.old source.new)
        (stream_of K.written K.faults sink.old sink.new)) }
    ensures stops { IfErr result (λ status. KeepsPlainPromise status command (stream_of S.left S.faults source.old source.new)
        (stream_of K.written K.faults sink.old sink.new)) }
{
    let input = read_input(alloc, source)?;
    match command {
        Plain::Sim(limits) => {
            let lines = log_of_script(alloc, limits, &input)?;
            match write_lines(&lines, sink) {
                Ok(()) => Ok(()),
                Err(Failed) => Err(Status::WriteFault),
            }
        }
        Plain::Show => {
            let text = description_of(alloc, &input)?;
            match write_whole(sink, text.as_bytes()) {
                Ok(()) => Ok(()),
                Err(Failed) => Err(Status::WriteFault),
            }
        }
    }
}

/// What the frames of a list say.
fn description_of(alloc: Global, text: &[u8]) -> Result<String, Status>
    ensures good { IfOk result (λ description. first_bad_frame_line text.now ≡ None) }
    ensures description { IfOk result (λ description. string_bytes description ≡ description_of text.now) }
    ensures stops { IfErr result (λ status. StopsList status text.now) }
{
    match describe(alloc, text) {
        Ok(description) => Ok(description),
        Err(FrameListFault::Line(line)) => Err(Status::BadInput { line }),
        Err(FrameListFault::NoMemory) => Err(Status::NoMemory),
    }
}

/// The log of the run of a script over two ends of these limits.
fn log_of_script(alloc: Global, limits: EndLimits, text: &[u8]) -> Result<Vec<Line>, Status>
    requires { length text.now ≤ most_bytes }
    ensures good { IfOk result (λ lines. first_bad_line text.now ≡ None) }
    ensures lines { IfOk result (λ lines. lines.items ≡ run_lines (run_of limits limits (script_of text.now))) }
    ensures stops { IfErr result (λ status. StopsScript status text.now) }
{
    if let Some(line) = sim_script::first_bad_line(text) {
        return Err(Status::BadInput { line });
    }
    // said for the contracts: limits are lawful
    let _ = limits.credits();
    let Ok(mut world) = World::open(alloc, limits, limits) else {
        return Err(Status::NoMemory);
    };
    let Ok(()) = run_text(alloc, &mut world, text) else {
        return Err(Status::NoMemory);
    };
    match lines_of_run(alloc, &world) {
        Ok(lines) => Ok(lines),
        Err(NoMemory) => Err(Status::NoMemory),
    }
}
