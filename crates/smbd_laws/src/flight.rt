//! The frames in flight between two ends (MS-SMBD 3.1.1: send credits and receive credits).

ghost use Rattle.std.specs.Prelude.{◌≡◌, ◌++◌, ◌∷◌, ℕ, List, None};
ghost use mathlib.Core.List.{IsPrefix};
ghost use Rattle.smbd_base.specs.declared.end_id.EndId.{EndId as Side};
ghost use Rattle.smbd_base.specs.declared.event.Event.{Event as Happening};
ghost use Rattle.smbd_base.specs.Limits.{Limits, IsLawful};
ghost use Rattle.smbd_base.specs.Counts.{peer_of};
ghost use Rattle.smbd_base.specs.Joint.{emitted_frames, taken_frames};
ghost use Rattle.smbd_base.specs.History.{take_fault, IsLegal};

/// The next frame in flight to an end is not refused: a receive waits for it, it is short enough, and it is the negotiation
/// message that is awaited, or a data transfer message without a fault, whose piece fits what is expected.
///
/// Each of the two ends has its own limits, and follows its rules. The sender took, in order, only frames that the taker
/// sent, and the taker took the sender's frames before this one.
pub fn acceptance()
    ensures { (side : Side) (own other : Limits) (taker sender : List Happening) (frame : List ℕ) (rest : List (List ℕ)) → IsLawful own → IsLawful other
        → IsLegal (peer_of side) other sender → IsLegal side own taker → IsPrefix (taken_frames sender) (emitted_frames taker)
        → emitted_frames sender ≡ taken_frames taker ++ frame ∷ rest → take_fault side own taker frame ≡ None }
{}
