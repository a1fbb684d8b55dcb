//! The pass of one end.

ghost use Rattle.std.specs.Prelude.{◌≡◌};
ghost use Rattle.smbd_base.specs.Limits.{IsLawful};
ghost use Rattle.sim_adapter.specs.Rule.{Rests, end_of};

use crate::view::{Ends, View};
use atomic_table::Seat;
use smbd_base::{EndId, Frame};

/// The pass of one end at a link. Contracts see its history, `history_of`, and what else it knows, `known_by`.
#[derive(Drop)]
pub struct Pass {
    pub(crate) seat: Seat<Option<Frame>, View>,
    pub(crate) side: EndId,
    pub(crate) ends: Ends,
    /// The frames that it sent.
    pub(crate) emitted: u64,
    /// The frames that it took.
    pub(crate) taken: u64,
    ghost rests: { Rests side emitted taken seat.me },
    ghost keyed: { (end_of seat.me.0).ends ≡ ends },
    ghost lawful: { IsLawful ends.client × IsLawful ends.server },
}

impl Pass {
    /// The pass of an end that was just opened.
    pub(crate) fn new(seat: Seat<Option<Frame>, View>, side: EndId, ends: &Ends) -> Pass
        requires rests { Rests side 0 0 seat.me }
        requires keyed { (end_of seat.me.0).ends ≡ ends.now }
        requires lawful { IsLawful ends.now.client × IsLawful ends.now.server }
        ensures { result.seat ≡ seat }
    {
        Pass {
            seat,
            side,
            ends: *ends,
            emitted: 0,
            taken: 0,
        }
    }
}
