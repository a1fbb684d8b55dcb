//! What a negotiation has settled.

/// What the negotiation has settled for an end (MS-SMBD 3.1.5.6 and 3.1.5.7).
#[derive(Clone, Copy, Debug, PartialEq, Eq)]
pub struct Agreed {
    /// The longest frame that the end sends, in bytes.
    pub send_size: u32,
    /// The longest message that the peer gathers, in bytes.
    pub message_max: u32,
    /// The peer's MaxReadWriteSize in bytes, which only a client is told.
    pub read_write_max: Option<u32>,
    /// The credits that the peer asked for.
    pub credits_requested: u16,
}
