//! The header of a message that is written.

/// What stands before the payload of a data transfer message (MS-SMBD 2.2.3).
#[derive(Clone, Copy, Debug, PartialEq, Eq)]
pub struct Header {
    /// CreditsRequested: the send credits that the sender asks for.
    pub credits_requested: u16,
    /// CreditsGranted: the send credits that the message grants.
    pub credits_granted: u16,
    /// Whether Flags asks for a response. A message without a payload never asks.
    pub response_requested: bool,
    /// RemainingDataLength: so many bytes of the payload's message come after it. Not written without a payload.
    pub remaining: u32,
    /// DataLength: the bytes of the payload.
    pub length: u32,
}
