//! A pass of a pool.

ghost use Rattle.std.specs.Prelude.{◌≡◌, ◌↔◌, ◌++◌, [], IsNone};
ghost use Rattle.std.specs.Option.{option_to_list};
ghost use Rattle.shared_pages.specs.Rule.{sight_of};
ghost use Rattle.shared_pages.specs.declared.view.Hold.TheVariants.{Free};
ghost use Rattle.shared_pages.specs.declared.view.View.TheVariants.{One};

use crate::slot::Slot;
use crate::view::View;
use atomic_table::Seat;
use std::collections::VecDeque;

/// One of the users of a pool. Contracts see what it knows, `known_by`: of each page the life up to its last call on it.
#[derive(Drop)]
pub struct PagePass {
    pub(crate) seat: Seat<Option<Slot>, View>,
    pub(crate) number: u8,
    ghost rests: { (seat.me ≡ (One (sight_of seat.me.0), [])) × ((sight_of seat.me.0).hold ≡ Free) },
    ghost numbered: { number ≡ (sight_of seat.me.0).number },
}

/// The passes of a pool that are not handed out yet. Contracts see their list.
#[derive(Drop)]
pub struct Passes {
    passes: VecDeque<PagePass>,
}

impl Passes {
    pub(crate) fn of(passes: VecDeque<PagePass>) -> Passes
        ensures { result.passes.items ≡ passes.items }
    {
        Passes { passes }
    }

    /// The first pass that is left, and `None` where none is.
    pub fn take(&mut self) -> Option<PagePass>
        ensures taken { self.old.passes.items ≡ option_to_list result ++ self.new.passes.items }
        ensures none { IsNone result ↔ (self.old.passes.items ≡ []) }
    {
        self.passes.pop_front()
    }
}

impl PagePass {
    /// A pass that was just made.
    pub(crate) fn new(seat: Seat<Option<Slot>, View>, number: u8) -> PagePass
        requires rests { (seat.me ≡ (One (sight_of seat.me.0), [])) × ((sight_of seat.me.0).hold ≡ Free) }
        requires numbered { number ≡ (sight_of seat.me.0).number }
        ensures { result.seat ≡ seat }
    {
        PagePass { seat, number }
    }

    /// The number of the pass, from 0.
    pub fn number(&self) -> u8
        ensures { result ≡ (sight_of self.now.seat.me.0).number }
    {
        self.number
    }
}
