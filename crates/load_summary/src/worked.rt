//! Worked examples of summaries.

ghost use Rattle.load_summary.specs.Worked.{WorkedLines, WorkedRequests};

/// How many requests some puts have, and the lines of two of them.
pub fn worked_summaries()
    ensures requests { WorkedRequests }
    ensures lines { WorkedLines }
{}
