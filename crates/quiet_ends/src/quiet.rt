//! What quiet ends have done.

ghost use Rattle.std.specs.Prelude.{List};
ghost use Rattle.smbd_base.specs.declared.event.Event.{Event as Happening};
ghost use Rattle.smbd_base.specs.Limits.{Limits, IsLawful};
ghost use Rattle.smbd_base.specs.Joint.{AreJoint};
ghost use Rattle.quiet_ends.specs.QuietEnds.{AreQuiet, HaveDeliveredAll};

/// Two ends that fit together and are quiet have sent each message that was submitted, owe no response, and have delivered to
/// each other all that was submitted. So no message is left for want of credits.
pub fn quiet_ends_have_delivered_all()
    ensures { (client_limits server_limits : Limits) (client server : List Happening)
        → IsLawful client_limits → IsLawful server_limits → AreJoint client_limits server_limits client server
        → AreQuiet client_limits server_limits client server → HaveDeliveredAll client_limits server_limits client server }
{}
