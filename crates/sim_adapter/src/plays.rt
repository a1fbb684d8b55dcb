//! The rule of the table, and the kinds of steps on it.

ghost use Rattle.std.specs.Prelude.{List, ℕ, []};
ghost use Rattle.sim_adapter.specs.declared.view.View.TheVariants.{Spent};
ghost use Rattle.sim_adapter.specs.Rule.{Orderly, opening_view, left_end, right_end};
ghost use Rattle.sim_adapter.specs.Plays.{emit_looked, published, cut_looked, peer_looked, retired, posts, submits, cuts, met, united};

use crate::view::{Ends, View};
use atomic_table::{Join, Play, Split, TableRule};
use smbd_base::Frame;
use std::marker::{Brand, PhantomData};

/// What holds of the words, the slots and both ends' histories together, between any two steps.
pub struct Order;

impl TableRule<Option<Frame>, View, Ends> for Order {
    ghost holds = { Orderly };

    ghost first = { opening_view };
}

/// The look of `emit` at the cut word, which begins its turn.
pub struct LookToEmit;

impl Play<Option<Frame>, View> for LookToEmit {
    ghost then = { emit_looked };
}

/// A frame counts as sent.
pub struct Publish;

impl Play<Option<Frame>, View> for Publish {
    ghost then = { published };
}

/// The look of `take` at the cut word.
pub struct LookToTake;

impl Play<Option<Frame>, View> for LookToTake {
    ghost then = { cut_looked };
}

/// The look of `take` at the frames that the peer sent, which begins its turn where there is a new one.
pub struct LookAtPeer;

impl Play<Option<Frame>, View> for LookAtPeer {
    ghost then = { peer_looked };
}

/// A frame counts as taken.
pub struct Retire;

impl Play<Option<Frame>, View> for Retire {
    ghost then = { retired };
}

/// Receives count as posted.
pub struct Posts;

impl Play<Option<Frame>, View> for Posts {
    ghost then = { posts };
}

/// The message that a step submits, which each call picks.
pub trait Says {
    ghost message: { List ℕ };
}

impl Says for Brand {
    ghost message = { [] };
}

/// A message was submitted.
pub struct Submits<J> {
    of: PhantomData<J>,
}

impl<J: Says> Play<Option<Frame>, View> for Submits<J> {
    ghost then = { submits J.message };
}

/// The link is cut.
pub struct Cuts;

impl Play<Option<Frame>, View> for Cuts {
    ghost then = { cuts };
}

/// Both ends know what the other has done.
pub struct Meet;

impl Play<Option<Frame>, View> for Meet {
    ghost then = { met };
}

/// Both ends of one seat become two seats.
pub struct Part;

impl Split<View> for Part {
    ghost left = { left_end };

    ghost right = { right_end };
}

/// All that a seat knows goes to a new one.
pub struct HandOver;

impl Split<View> for HandOver {
    ghost left = { λ _. Spent };

    ghost right = { λ v. v };
}

/// Two ends meet in one seat, or one moves to it.
pub struct Unite;

impl Join<View> for Unite {
    ghost both = { united };

    ghost spent = { Spent };
}
