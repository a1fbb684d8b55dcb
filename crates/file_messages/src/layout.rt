//! Where the fields of a request and of a reply stand, and the numbers that they hold.

/// The op of a request that writes bytes.
pub const WRITE: u16 = 1;

/// The op of a request that reads bytes.
pub const READ: u16 = 2;

/// The op of a request that ends a copy.
pub const END: u16 = 3;

/// What a reply's op adds to that of its request.
pub const REPLY: u16 = 0x8000;

/// The channel of requests that carry their bytes (SMB2_CHANNEL_NONE).
pub const NO_CHANNEL: u16 = 0;

/// The channel of requests that name their bytes by descriptors (SMB2_CHANNEL_RDMA_V1).
pub const RDMA_V1: u16 = 1;

/// The bytes of a group: the most that a request writes or asks for.
pub const GROUP_SIZE: u32 = 65_536;

/// The most descriptors that a request names.
pub const MOST_DESCRIPTORS: u16 = 16;

/// The bytes of a request before what it carries.
pub const REQUEST_HEADER: usize = 24;

/// The bytes of a descriptor.
pub const DESCRIPTOR: usize = 16;

/// The bytes of a reply before what it carries.
pub const REPLY_HEADER: usize = 12;

pub const OP: usize = 0;

pub const CHANNEL: usize = 2;

pub const ID: usize = 4;

pub const OFFSET: usize = 8;

pub const LENGTH: usize = 16;

pub const DESCRIPTOR_COUNT: usize = 20;

pub const STATUS: usize = 2;

pub const COUNT: usize = 8;
