//! Worked messages and copies. Each is the contract of a function that does nothing, and is proved by computation.

ghost use Rattle.file_messages.specs.WorkedMessages.{WritesSo, RefusesSo, RepliesSo};
ghost use Rattle.file_messages.specs.WorkedCopies.{CopiesSo};

/// Worked messages: the bytes of small copies, what they say, and the first faults of others.
pub fn worked_messages()
    ensures writes { WritesSo }
    ensures refuses { RefusesSo }
    ensures replies { RepliesSo }
{}

/// Worked copies: the requests and replies of copies of several groups.
pub fn worked_copies()
    ensures { CopiesSo }
{}
