//! The lines of what a worker did since its log was told.

ghost use Rattle.std.specs.Prelude.{◌≡◌, ◌++◌, string_bytes, map, codes, OnOk};
ghost use Rattle.event_log.specs.Lines as spec;
ghost use Rattle.event_log.specs.Lines.{lines_text};

use event_log::{LogLine, Side, add_log_line};
use smbd_base::NoMemory;
use std::alloc::Global;

/// Adds a line of a side, with its line feed.
fn add_one(alloc: Global, text: &mut String, side: Side, line: &LogLine) -> Result<(), NoMemory>
    ensures { OnOk result (string_bytes text.new ≡ string_bytes text.old ++ (spec.line_text side line.now ++ codes "\n")) }
{
    add_log_line(alloc, text, side, line)?;
    text.push_str("\n")?;
    Ok(())
}

/// Adds the lines of one side, each with its line feed.
pub fn add_worker_lines(
    alloc: Global,
    text: &mut String,
    side: Side,
    lines: &[LogLine],
) -> Result<(), NoMemory>
    ensures { OnOk result (string_bytes text.new ≡ string_bytes text.old ++ lines_text (map (λ line. spec.line_text side line) lines.now)) }
{
    for line in lines {
        add_one(alloc, text, side, line)?;
    }
    Ok(())
}
