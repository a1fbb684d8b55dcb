//! What a message that was read says.

/// What a data transfer message says (MS-SMBD 2.2.3). The payload is a part of the bytes that were read.
#[derive(Clone, Copy, Debug, PartialEq, Eq)]
pub struct DataView<'a> {
    /// CreditsRequested: the send credits that the sender asks for.
    pub credits_requested: u16,
    /// CreditsGranted: the send credits that the message grants.
    pub credits_granted: u16,
    /// Flags, as they stand. 0x0001 (SMB_DIRECT_RESPONSE_REQUESTED) asks for a response.
    pub flags: u16,
    /// RemainingDataLength: so many bytes of the payload's message come after it. 0 for an empty payload.
    pub remaining: u32,
    /// The DataLength bytes from DataOffset on.
    pub payload: &'a [u8],
}
