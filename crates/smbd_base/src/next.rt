//! What an end does next.

use crate::frame::Frame;

/// What an end does next.
#[derive(Clone, Debug, Drop)]
pub enum Next {
    /// It posts so many receives.
    Post(u16),
    /// It sends this frame.
    Emit(Frame),
    /// It has refused a frame, and can only be cut.
    Close,
    /// Nothing, until a message is submitted or a frame comes.
    Idle,
}
