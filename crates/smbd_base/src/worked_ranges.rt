//! Worked examples of limits, at both bounds of each range.

ghost use Rattle.smbd_base.specs.WorkedLimits.{LimitsSo};

/// Limits at the bounds of their ranges and one past them, which of two comes first, and the sizes of a page and of tokens.
/// It does nothing. Its contract is proved by computation, and holds each bound to its number.
pub fn worked_limits()
    ensures { LimitsSo }
{}
