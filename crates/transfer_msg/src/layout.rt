//! Where the fields of a data transfer message stand (MS-SMBD 2.2.3).

pub const CREDITS_REQUESTED: usize = 0;

pub const CREDITS_GRANTED: usize = 2;

pub const FLAGS: usize = 4;

pub const REMAINING_DATA_LENGTH: usize = 8;

pub const DATA_OFFSET: usize = 12;

pub const DATA_LENGTH: usize = 16;

/// Where the fields end, and with them a message without a payload.
pub const FIELDS_END: usize = 20;

/// The bytes before a payload, which begins at the first multiple of 8 after the fields.
pub const HEADER_SIZE: usize = 24;
