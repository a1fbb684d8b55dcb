//! Worked examples of lists of page events.

ghost use Rattle.smbd_base.specs.WorkedPages.{FitSo, FitNotSo};

/// Worked lists of page events: the lists of two passes that fit together, and small ones that do not.
/// It does nothing. Its contract shows what the definitions say.
pub fn worked_page_lists()
    ensures fit { FitSo }
    ensures unfit { FitNotSo }
{}
