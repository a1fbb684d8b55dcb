//! What a refused call of an end hands back.

use smbd_base::{Frame, Message, SubmitFault, TakeFault};

/// A message that was not accepted, handed back.
#[derive(Debug, Drop)]
pub struct SubmitRefused {
    pub fault: SubmitFault,
    pub message: Message,
}

/// A frame that was not accepted, handed back.
#[derive(Debug, Drop)]
pub struct TakeRefused {
    pub fault: TakeFault,
    pub frame: Frame,
}
