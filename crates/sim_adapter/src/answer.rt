//! What the calls of a link answer.

use smbd_base::Frame;

/// What came of a frame that was to be sent.
#[derive(Debug, Drop)]
pub enum Emit {
    /// It is in flight.
    Sent,
    /// The link is cut, and the frame comes back.
    Cut(Frame),
}

/// What an end took.
#[derive(Debug, Drop)]
pub enum Taken {
    /// The oldest frame in flight.
    Got(Frame),
    /// None was in flight.
    Empty,
    /// The link is cut.
    Cut,
}
