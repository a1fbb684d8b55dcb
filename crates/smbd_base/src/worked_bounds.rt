//! Worked examples of one end, at the bounds of its rules.

ghost use Rattle.smbd_base.specs.WorkedBounds.{SizeSo, OwesSo, LenientSo, SendsSo, FaultOrderSo};

/// Worked histories of one end at the bounds of its rules, and the order of its faults.
/// It does nothing. Its contract is proved by computation, and shows what the definitions say.
pub fn worked_boundaries()
    ensures sizes { SizeSo }
    ensures responses { OwesSo }
    ensures leniency { LenientSo }
    ensures sending { SendsSo }
    ensures orders { FaultOrderSo }
{}
