//! The one order of time into which two joint histories fit.

ghost use Rattle.std.specs.Prelude.{List};
ghost use Rattle.smbd_base.specs.declared.event.Event.{Event as Happening};
ghost use Rattle.smbd_base.specs.Limits.{Limits};
ghost use Rattle.smbd_base.specs.Joint.{AreJoint};
ghost use Rattle.joint_laws.specs.OrderOfTime.{Happened, IsOneOrder, HaveOneOrder, AreInTime};

/// Two joint histories have one order of time: one list of the events of both ends, in which each end's events stand in
/// their order and each Take stands after the Emit of its frame. The other way round, such a list is all that joint
/// histories say of the order.
pub fn joint_histories_have_one_order()
    ensures order { (client_limits server_limits : Limits) (client server : List Happening)
        → AreJoint client_limits server_limits client server → HaveOneOrder client server }
    ensures back { (client server : List Happening) (order : List Happened) → IsOneOrder client server order → AreInTime client server }
{}
