//! The lines of a run.

ghost use Rattle.std.specs.Prelude.{◌≡◌, ◌+◌, ◌<◌, ◌^◌, [], ◌∷◌, List, length, take, reverse, IfOk, OnOk};
ghost use Rattle.world_core.specs.Run.{past_of};
ghost use Rattle.run_log.specs.RunLines as spec;
ghost use Rattle.run_log.specs.RunLines.{run_lines, newest_line, next_frame_number, AreTellable};
ghost use Rattle.run_log.specs.Runs.{IsRun};

use event_log::{Line, Side, line_of};
use smbd_base::{EndId, Event, NoMemory};
use std::alloc::Global;
use world_core::World;

/// How far the history of one end was told: how many events, and the number of the next frame that it takes.
#[derive(Clone, Copy, Debug, PartialEq, Eq)]
pub struct Told {
    pub events: usize,
    pub next: u64,
}

impl Told {
    /// Nothing was told.
    pub fn nothing() -> Told
        ensures { result ≡ record { events = 0; next = 1 } }
    {
        Told { events: 0, next: 1 }
    }
}

/// The name of an end in a log.
pub fn side_of(end: EndId) -> Side
    ensures { result ≡ spec.side_of end }
{
    match end {
        EndId::Client => Side::C,
        EndId::Server => Side::S,
    }
}

/// The number of the next frame that is taken, after this event. `number` is the one before it.
pub fn number_after(number: u64, event: &Event) -> u64
    requires { number + 1 < 2 ^ 64 }
    ensures { result ≡ spec.number_after number event.now }
{
    match event {
        Event::Take(_) => number + 1,
        _ => number,
    }
}

/// The line of the next event of a history.
fn next_line(
    alloc: Global,
    end: EndId,
    history: &[Event],
    told: &mut Told,
) -> Result<Line, NoMemory>
    requires more { told.old.events < length history.now }
    requires next { told.old.next ≡ next_frame_number (reverse (take told.old.events history.now)) }
    requires few { length history.now < 2 ^ 61 + 2 }
    requires tellable { AreTellable end (reverse history.now) }
    ensures line { IfOk result (λ line. line ∷ [] ≡ newest_line end (reverse (take (told.old.events + 1) history.now))) }
    ensures events { OnOk result (told.new.events ≡ told.old.events + 1) }
    ensures next { OnOk result (told.new.next ≡ next_frame_number (reverse (take (told.old.events + 1) history.now))) }
{
    let event = &history[told.events];
    let line = line_of(alloc, side_of(end), event, told.next)?;
    told.events += 1;
    told.next = number_after(told.next, event);
    Ok(line)
}

/// The lines of a run, in the order of its events. It takes one pass, and each event is read once.
pub fn lines_of_run(alloc: Global, world: &World) -> Result<Vec<Line>, NoMemory>
    requires { IsRun world.now }
    ensures { IfOk result (λ lines. lines.items ≡ run_lines world.now) }
{
    let client = world.history(EndId::Client);
    let server = world.history(EndId::Server);
    let order = world.order();
    let mut client_told = Told::nothing();
    let mut server_told = Told::nothing();
    let mut lines = Vec::with_capacity(alloc, order.len())?;
    for end in order {
        let line = match end {
            EndId::Client => next_line(alloc, EndId::Client, client, &mut client_told)?,
            EndId::Server => next_line(alloc, EndId::Server, server, &mut server_told)?,
        };
        lines.push(line)?;
    }
    Ok(lines)
}
