//! Where the fields of the negotiation messages stand, and the numbers that reading and writing share.

/// The version of SMB Direct (MS-SMBD 2.2.1).
pub const VERSION: u16 = 0x0100;

/// STATUS_SUCCESS (MS-SMBD 2.2.2).
pub const SUCCESS: u32 = 0;

/// The bytes of a request (MS-SMBD 2.2.1).
pub const REQUEST_SIZE: usize = 20;

/// The bytes of a response (MS-SMBD 2.2.2).
pub const RESPONSE_SIZE: usize = 32;

/// The fields of a request (MS-SMBD 2.2.1). Reserved stands at 4.
pub mod in_request {
    pub const MIN_VERSION: usize = 0;

    pub const MAX_VERSION: usize = 2;

    pub const CREDITS_REQUESTED: usize = 6;

    pub const PREFERRED_SEND_SIZE: usize = 8;

    pub const MAX_RECEIVE_SIZE: usize = 12;

    pub const MAX_FRAGMENTED_SIZE: usize = 16;
}

/// The fields of a response (MS-SMBD 2.2.2). Reserved stands at 6.
pub mod in_response {
    pub const MIN_VERSION: usize = 0;

    pub const MAX_VERSION: usize = 2;

    pub const NEGOTIATED_VERSION: usize = 4;

    pub const CREDITS_REQUESTED: usize = 8;

    pub const CREDITS_GRANTED: usize = 10;

    pub const STATUS: usize = 12;

    pub const MAX_READ_WRITE_SIZE: usize = 16;

    pub const PREFERRED_SEND_SIZE: usize = 20;

    pub const MAX_RECEIVE_SIZE: usize = 24;

    pub const MAX_FRAGMENTED_SIZE: usize = 28;
}
