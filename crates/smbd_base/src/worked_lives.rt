//! Worked examples of the lives of pages.

ghost use Rattle.smbd_base.specs.WorkedLives.{TokensSo, LiveSo, StepSo, StepNotSo, PoolStepSo};

/// Worked lives of pages: which steps a page and a pool allow, up to each bound, and which they do not.
/// It does nothing. Its contract shows what the definitions say.
pub fn worked_page_lives()
    ensures tokens { TokensSo }
    ensures lives { LiveSo }
    ensures steps { StepSo }
    ensures refused { StepNotSo }
    ensures pools { PoolStepSo }
{}
