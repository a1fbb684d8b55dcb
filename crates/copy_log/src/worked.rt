//! Worked examples of logs, by computation.

ghost use Rattle.copy_log.specs.Worked.{LogsSo};

/// The log of a copy that fetched three bytes, in two orders.
pub fn worked_logs()
    ensures { LogsSo }
{}
