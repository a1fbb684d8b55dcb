//! What the calls of an end on a link answer.

use smbd_base::Message;

/// What came next at an end, and was done (this project's own).
#[derive(Clone, Copy, Debug, PartialEq, Eq)]
pub enum Driven {
    /// Receives were posted.
    Posted,
    /// A frame was sent.
    Sent,
    /// A frame was to be sent, but the link is cut. The end is cut too.
    Cut,
    /// Nothing comes next.
    Idle,
}

/// What came over a link to an end that was ready (this project's own).
#[derive(Debug, Drop)]
pub enum Received {
    /// A frame, which ends this message, where it ends one.
    Frame(Option<Message>),
    /// No frame was in flight.
    Nothing,
    /// The link is cut, and now the end is too.
    Cut,
}
