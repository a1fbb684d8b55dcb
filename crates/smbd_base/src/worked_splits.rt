//! Worked examples of pieces that split into messages.

ghost use Rattle.smbd_base.specs.WorkedSplits.{SplitSo, SplitNotSo};

/// Worked splits: which pieces make which messages, and which do not.
/// It does nothing. Its contract shows what the definitions say.
pub fn worked_message_splits()
    ensures split { SplitSo }
    ensures unsplit { SplitNotSo }
{}
