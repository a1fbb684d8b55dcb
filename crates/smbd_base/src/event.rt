//! The events of a history.

use crate::frame::Frame;
use crate::message::Message;

/// What happens at an end: its history is the list of its events.
#[derive(Clone, Debug, Drop)]
pub enum Event {
    /// So many receives were posted (MS-SMBD 3.1.5.8, as the peer's credits are granted from them).
    Post(u16),
    /// The layer above submitted a message to be sent.
    Submit(Message),
    /// A frame was sent.
    Emit(Frame),
    /// A frame that the peer sent was received.
    Take(Frame),
    /// The connection was cut.
    Cut,
}
