//! Worked examples of joint histories.

ghost use Rattle.joint_laws.specs.WorkedJoint.{JoinSo, JoinNotSo};

/// Worked joint histories: what fits together, and for each part of the definition a pair of histories that breaks it.
/// It does nothing. Its contract is proved by computation, and shows what the definition says.
pub fn worked_joint_histories()
    ensures joint { JoinSo }
    ensures unjoint { JoinNotSo }
{}
