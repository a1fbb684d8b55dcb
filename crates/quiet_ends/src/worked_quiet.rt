//! Worked examples of quiet ends.

ghost use Rattle.quiet_ends.specs.WorkedQuiet.{QuietSo, UnquietSo, DeadEndSo};

/// Worked quiet ends: two that are quiet, some that are not, and the dead end of ends with one credit.
/// It does nothing. Its contract is proved by computation, and shows what the definitions say.
pub fn worked_quiet_ends()
    ensures quiet { QuietSo }
    ensures unquiet { UnquietSo }
    ensures dead_end { DeadEndSo }
{}
