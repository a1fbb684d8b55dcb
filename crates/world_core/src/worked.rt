//! Worked examples of runs on a link that is cut.

ghost use Rattle.world_core.specs.Worked.{RunSo};

/// Worked runs: what choices do on a link that is cut, and where there is nothing to do.
/// It does nothing. Its contract is proved by computation, and shows what the definitions say.
pub fn worked_runs()
    ensures { RunSo }
{}
