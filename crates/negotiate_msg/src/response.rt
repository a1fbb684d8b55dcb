//! The fields of a response, and where they stand.

/// What a negotiate response says (MS-SMBD 2.2.2). Sizes are in bytes.
#[derive(Clone, Copy, Debug, PartialEq, Eq)]
pub struct NegotiateResponse {
    /// MinVersion: the oldest version that the server speaks.
    pub min_version: u16,
    /// MaxVersion: the newest version that the server speaks.
    pub max_version: u16,
    /// NegotiatedVersion: the version that both speak from now on.
    pub negotiated_version: u16,
    /// CreditsRequested: the send credits that the server asks for.
    pub credits_requested: u16,
    /// CreditsGranted: the send credits that the client is granted.
    pub credits_granted: u16,
    /// Status: 0 (STATUS_SUCCESS) where the request is accepted.
    pub status: u32,
    /// MaxReadWriteSize: the most bytes of one remote access.
    pub max_read_write_size: u32,
    /// PreferredSendSize: the longest frame that the server sends.
    pub preferred_send_size: u32,
    /// MaxReceiveSize: the longest frame that the server receives.
    pub max_receive_size: u32,
    /// MaxFragmentedSize: the longest message that the server gathers.
    pub max_fragmented_size: u32,
}
