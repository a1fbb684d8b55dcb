//! The fields of a request, and where they stand.

/// What a negotiate request says (MS-SMBD 2.2.1). Sizes are in bytes.
#[derive(Clone, Copy, Debug, PartialEq, Eq)]
pub struct NegotiateRequest {
    /// MinVersion: the oldest version that the client speaks.
    pub min_version: u16,
    /// MaxVersion: the newest version that the client speaks.
    pub max_version: u16,
    /// CreditsRequested: the send credits that the client asks for.
    pub credits_requested: u16,
    /// PreferredSendSize: the longest frame that the client would send.
    pub preferred_send_size: u32,
    /// MaxReceiveSize: the longest frame that the client receives.
    pub max_receive_size: u32,
    /// MaxFragmentedSize: the longest message that the client gathers.
    pub max_fragmented_size: u32,
}
