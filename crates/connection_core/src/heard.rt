//! A frame of the peer, as it was read.

use crate::peer::Peer;
use smbd_base::{FrameFault, NegotiateFault};
use transfer_msg::DataView;

/// What a frame says to the end that takes it. It is read once.
#[derive(Clone, Copy, Debug)]
pub enum Heard<'a> {
    /// The first frame, as the peer's negotiation message (MS-SMBD 2.2.1 and 2.2.2), or why it is refused.
    Negotiation(Result<Peer, NegotiateFault>),
    /// A later frame, as a data transfer message (MS-SMBD 2.2.3), or why it is none.
    Data(Result<DataView<'a>, FrameFault>),
}
