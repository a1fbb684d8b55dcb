//! How joint histories begin, and how they go on.

ghost use Rattle.std.specs.Prelude.{[], ◌∷◌, List};
ghost use Rattle.smbd_base.specs.declared.end_id.EndId.TheVariants.{Client, Server};
ghost use Rattle.smbd_base.specs.declared.event.Event.{Event as Happening};
ghost use Rattle.smbd_base.specs.declared.event.Event.TheVariants.{Post};
ghost use Rattle.smbd_base.specs.Limits.{Limits, IsLawful};
ghost use Rattle.smbd_base.specs.Joint.{AreJoint};
ghost use Rattle.joint_laws.specs.Growth.{MayAdd};

/// Two ends that were just opened fit together.
pub fn opened_ends_are_joint()
    ensures { (client server : Limits) → IsLawful client → IsLawful server
        → AreJoint client server (Post client.credits ∷ []) (Post server.credits ∷ []) }
{}

/// Two histories that fit together still do so when one of the ends adds an event that it may add.
pub fn joint_histories_grow()
    ensures client { (client_limits server_limits : Limits) (client server : List Happening) (event : Happening)
        → IsLawful client_limits → IsLawful server_limits → AreJoint client_limits server_limits client server
        → MayAdd Client client_limits event client server → AreJoint client_limits server_limits (event ∷ client) server }
    ensures server { (client_limits server_limits : Limits) (client server : List Happening) (event : Happening)
        → IsLawful client_limits → IsLawful server_limits → AreJoint client_limits server_limits client server
        → MayAdd Server server_limits event server client → AreJoint client_limits server_limits client (event ∷ server) }
{}
