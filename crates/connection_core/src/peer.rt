//! What the peer has said in its negotiation message.

use negotiate_msg::NegotiateRequest;
use smbd_base::Agreed;

/// What the peer's negotiation message has said.
#[derive(Clone, Copy, Debug)]
pub enum Peer {
    /// None was taken.
    Unheard,
    /// A server took this request.
    Requests(NegotiateRequest),
    /// A client took a response, by which this is settled.
    Responds(Agreed),
    /// It was refused.
    Refused,
}
