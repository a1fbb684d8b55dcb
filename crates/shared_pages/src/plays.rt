//! The rule of the table, and the kinds of steps on it.

ghost use Rattle.std.specs.Prelude.{replicate, []};
ghost use Rattle.smbd_base.specs.declared.page_event.PageEvent.{PageEvent};
ghost use Rattle.smbd_base.specs.declared.page_event.PageEvent.TheVariants.{Unload};
ghost use Rattle.shared_pages.specs.Rule.{Kept, new_sight, held, given, kept, met, looked, copied, joined, fewer, next_pass};
ghost use Rattle.shared_pages.specs.declared.view.Opening.{Opening};
ghost use Rattle.shared_pages.specs.declared.view.View.TheVariants.{Rest, Spent};

use crate::slot::Slot;
use crate::view::{Opening, View};
use atomic_table::{Join, Play, Split, TableRule};
use std::marker::{Brand, PhantomData};

/// What holds of the words, the slots and what all passes have seen, between any two steps.
pub struct Order;

impl TableRule<Option<Slot>, View, Opening> for Order {
    ghost holds = { Kept };

    ghost first = { λ pool. Rest 0 (replicate pool.pages []) };
}

/// How the pool was opened, which each call picks.
pub trait Opens {
    ghost opening: { Opening };
}

impl Opens for Brand {
    ghost opening = { record { pages = 1; first = 1; seats = 1 } };
}

/// A swap that takes a page in hand.
pub struct Holds<J> {
    of: PhantomData<J>,
}

impl<J: Opens> Play<Option<Slot>, View> for Holds<J> {
    ghost then = { held J.opening.first };
}

/// The event of a step, which each call picks.
pub trait Does {
    ghost event: { PageEvent };
}

impl Does for Brand {
    ghost event = { Unload (record { page = 0; generation = 0 }) [] };
}

/// A page goes back with an event.
pub struct Gives<J> {
    of: PhantomData<J>,
}

impl<J: Does> Play<Option<Slot>, View> for Gives<J> {
    ghost then = { given J.event };
}

/// A page goes back as it was.
pub struct LetsGo;

impl Play<Option<Slot>, View> for LetsGo {
    ghost then = { kept };
}

/// A pass learns what another one has seen.
pub struct Meet<J> {
    of: PhantomData<J>,
}

impl<J: Opens> Play<Option<Slot>, View> for Meet<J> {
    ghost then = { met J.opening };
}

/// A pass changes nothing.
pub struct Looks<J> {
    of: PhantomData<J>,
}

impl<J: Opens> Play<Option<Slot>, View> for Looks<J> {
    ghost then = { looked J.opening };
}

/// The next pass is made.
pub struct Deals;

impl Split<View> for Deals {
    ghost left = { fewer };

    ghost right = { next_pass };
}

pub struct Copies;

impl Split<View> for Copies {
    ghost left = { λ v. v };

    ghost right = { copied };
}

pub struct Joins;

impl Join<View> for Joins {
    ghost both = { joined };

    ghost spent = { Spent };
}
