//! The credits between two ends (MS-SMBD 3.1.1: send credits and receive credits).

ghost use Rattle.std.specs.Prelude.{List};
ghost use Rattle.smbd_base.specs.declared.event.Event.{Event as Happening};
ghost use Rattle.smbd_base.specs.Limits.{Limits, IsLawful};
ghost use Rattle.smbd_base.specs.Joint.{AreJoint};
ghost use Rattle.joint_laws.specs.Credits.{AreBalanced};

/// No frame is sent without a receive that was posted for it, no end holds more credits than its peer keeps receives, and
/// of the credits that the ends hold and that are in flight to them at least one is always left.
pub fn credits_balance_and_stay()
    ensures { (client_limits server_limits : Limits) (client server : List Happening)
        → IsLawful client_limits → IsLawful server_limits → AreJoint client_limits server_limits client server
        → AreBalanced client_limits server_limits client server }
{}
