//! Worked examples of empty frames.

ghost use Rattle.empty_frames.specs.WorkedEmpty.{CountsSo, ComesNearSo, FloodsSo};

/// Worked empty frames: what is counted, how near two ends with 3 credits come to the bound, and two pairs that flood each
/// other against their rules. It does nothing. Its contract is proved by computation, and shows what the definitions say.
pub fn worked_empty_frames()
    ensures counts { CountsSo }
    ensures near { ComesNearSo }
    ensures flood { FloodsSo }
{}
