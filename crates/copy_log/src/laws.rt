//! Laws of logs.

ghost use Rattle.copy_log.specs.Laws.{LogsGoOn, LogsOpen};

/// A log goes on by the lines of what happened since, in the order of the sides.
pub fn logs_go_on()
    ensures { LogsGoOn }
{}

/// It begins with the opening posts, the client's and then the server's.
pub fn logs_open()
    ensures { LogsOpen }
{}
