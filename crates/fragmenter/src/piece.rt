//! A piece of a message.

/// A part of a message: where it begins, in bytes from the front, how many bytes it has, and how many bytes of the
/// message come after it (RemainingDataLength, MS-SMBD 2.2.3).
#[derive(Clone, Copy, Debug, PartialEq, Eq)]
pub struct Piece {
    pub from: u32,
    pub length: u32,
    pub remaining: u32,
}
