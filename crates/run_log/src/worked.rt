//! Worked examples of the lines of runs.

ghost use Rattle.run_log.specs.Worked.{WorkedLines};

/// What some runs write to a log.
pub fn worked_lines()
    ensures { WorkedLines }
{}
