//! A record: what a token stands for.

use smbd_base::{Right, Token};

/// What a token stands for: `length` bytes from the place `base` of the pool on, and what a peer may do with them.
#[derive(Clone, Copy, Debug, PartialEq, Eq)]
pub struct Record {
    pub token: Token,
    pub right: Right,
    /// The place of the first byte in the pool: 4,096 times the page, plus the place in the page.
    pub base: u64,
    pub length: u32,
}
