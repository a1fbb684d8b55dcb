//! Laws of pages, which stand on their definitions alone: each function does nothing, and its contract is the law.

ghost use Rattle.smbd_base.specs.PageLaws.{MakesPageLives, LeavesPageStates, MakesFittingLists};

/// The steps of a pool, from its opened pages on, are a lawful life of each page, which leaves the page's state.
pub fn steps_make_page_lives()
    ensures lives { MakesPageLives }
    ensures states { LeavesPageStates }
{}

/// The events of such steps, as each pass made them, are lists that fit together.
pub fn lists_of_passes_fit()
    ensures { MakesFittingLists }
{}
