//! Lines to a log.

ghost use Rattle.std.specs.Prelude.{◌≡◌, OnOk, OnErr};
ghost use Rattle.std.specs.Io.KnownBytes.{Appends};
ghost use Rattle.smbd_outside.specs.Causes.{HasCause};
ghost use Rattle.smbd_outside.specs.Streams.{AppendsFront};
ghost use Rattle.event_log.specs.Lines as spec;

use crate::batch::{Batch, add};
use crate::line::Line;
use smbd_outside::{Failed, Sink, write_whole};

/// Writes the lines in their order, a line feed after each, in pieces of many lines. At `Failed` a log that tells its
/// bytes got a front of that text. It takes no memory.
pub fn write_lines<L: Sink>(lines: &[Line], log: &mut L) -> Result<(), Failed>
    ensures whole { OnOk result (Appends (L.written log.old) (L.written log.new) (spec.lines_text lines.now)) }
    ensures front { OnErr result (AppendsFront (L.written log.old) (L.written log.new) (spec.lines_text lines.now)) }
    ensures cause { HasCause (L.faults log.old) (L.faults log.new) result }
{
    let mut batch = Batch::new();
    for line in lines {
        add(&mut batch, log, line.bytes())?;
        add(&mut batch, log, b"\n")?;
    }
    write_whole(log, batch.bytes())
}
