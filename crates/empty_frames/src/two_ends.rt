//! The empty frames of two ends.

ghost use Rattle.std.specs.Prelude.{◌+◌, ◌-◌, ◌*◌, ◌≤◌, ℕ, List};
ghost use Rattle.smbd_base.specs.declared.event.Event.{Event as Happening};
ghost use Rattle.smbd_base.specs.Limits.{Limits, IsLawful};
ghost use Rattle.smbd_base.specs.Joint.{AreJoint};
ghost use Rattle.empty_frames.specs.EmptyFrames.{empty_frames_of_both, filled_frames_of_both};

/// The data transfer messages without payload that two ends send to each other are bounded by those with payload: where each
/// end has at least `least` credits, `least - 2` times the number of the former is at most `least` times the number of the
/// latter plus 2. Lawful limits have 3 credits or more: so for each message with payload there are at most 3 without, and 6
/// more.
pub fn empty_frames_are_bounded()
    ensures any { (client_limits server_limits : Limits) (client server : List Happening) (least : ℕ)
        → IsLawful client_limits → IsLawful server_limits → AreJoint client_limits server_limits client server
        → least ≤ client_limits.credits → least ≤ server_limits.credits
        → (least - 2) * empty_frames_of_both client server ≤ least * filled_frames_of_both client server + 2 * least }
    ensures lawful { (client_limits server_limits : Limits) (client server : List Happening)
        → IsLawful client_limits → IsLawful server_limits → AreJoint client_limits server_limits client server
        → empty_frames_of_both client server ≤ 3 * filled_frames_of_both client server + 6 }
{}
