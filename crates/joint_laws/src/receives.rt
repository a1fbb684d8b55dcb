//! The receives that the frames of two ends use.

ghost use Rattle.std.specs.Prelude.{List};
ghost use Rattle.smbd_base.specs.declared.event.Event.{Event as Happening};
ghost use Rattle.smbd_base.specs.Limits.{Limits, IsLawful};
ghost use Rattle.smbd_base.specs.Joint.{AreJoint};
ghost use Rattle.joint_laws.specs.Receives.{MeetReceives};

/// Each frame of two joint histories meets a receive that its taker had posted before it was sent.
pub fn frames_meet_receives()
    ensures client { (client_limits server_limits : Limits) (client server : List Happening)
        → IsLawful client_limits → IsLawful server_limits → AreJoint client_limits server_limits client server
        → MeetReceives client_limits client server }
    ensures server { (client_limits server_limits : Limits) (client server : List Happening)
        → IsLawful client_limits → IsLawful server_limits → AreJoint client_limits server_limits client server
        → MeetReceives server_limits server client }
{}
