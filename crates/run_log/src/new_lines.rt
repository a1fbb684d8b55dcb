//! The lines of what one end did since its log was told.

ghost use Rattle.std.specs.Prelude.{◌≡◌, ◌++◌, ◌+◌, ◌<◌, ◌^◌, length, string_bytes, codes, IfOk, OnOk};
ghost use Rattle.event_log.specs.Lines.{lines_text};
ghost use Rattle.run_log.specs.NewLines as spec;
ghost use Rattle.run_log.specs.NewLines.{new_lines, told_after, CanTell};
ghost use Rattle.run_log.specs.RunLines.{event_line};

use crate::telling::{Told, number_after, side_of};
use event_log::add_line;
use smbd_base::{EndId, Event, NoMemory};
use std::alloc::Global;

/// Adds the lines of the events of one end that were not told, each with its line feed. Gives what is told with them.
pub fn add_new_lines(
    alloc: Global,
    text: &mut String,
    end: EndId,
    told: &Told,
    events: &[Event],
) -> Result<Told, NoMemory>
    requires { CanTell told.now events.now }
    ensures lines { OnOk result (string_bytes text.new ≡ string_bytes text.old ++ new_lines end told.now events.now) }
    ensures told { IfOk result (λ now. now ≡ told_after told.now events.now) }
{
    let next = add_lines(alloc, text, end, told.next, &events[told.events..])?;
    Ok(Told {
        events: events.len(),
        next,
    })
}

/// Adds the lines of events; the first frame that is taken has number `first`. Gives the number of the next one.
fn add_lines(
    alloc: Global,
    text: &mut String,
    end: EndId,
    first: u64,
    events: &[Event],
) -> Result<u64, NoMemory>
    requires { first + length events.now < 2 ^ 64 }
    ensures lines { OnOk result (string_bytes text.new ≡ string_bytes text.old ++ lines_text (spec.lines_from end first events.now)) }
    ensures next { IfOk result (λ next. next ≡ spec.number_after_all first events.now) }
{
    let mut number = first;
    for event in events {
        add_event_line(alloc, text, end, number, event)?;
        number = number_after(number, event);
    }
    Ok(number)
}

/// Adds the line of an event, with its line feed. `number` is the number of the taken frame, and counts for a Take alone.
fn add_event_line(
    alloc: Global,
    text: &mut String,
    end: EndId,
    number: u64,
    event: &Event,
) -> Result<(), NoMemory>
    ensures { OnOk result (string_bytes text.new ≡ string_bytes text.old ++ (event_line end number event.now ++ codes "\n")) }
{
    add_line(alloc, text, side_of(end), event, number)?;
    text.push_str("\n")?;
    Ok(())
}
