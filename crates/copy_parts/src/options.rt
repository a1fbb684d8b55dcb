//! How a copy is made.

use file_messages::{Channel, CopyKind};
use smbd_base::EndLimits;

/// How a copy is made (this project's own).
#[derive(Clone, Copy, Debug, PartialEq, Eq)]
pub struct CopyOptions {
    pub kind: CopyKind,
    pub channel: Channel,
    /// The workers of each end, 1 to 8.
    pub workers: u8,
    /// The limits of both ends.
    pub limits: EndLimits,
    /// Where it is told, the client cuts the link in the place of the frame of this number, from 1.
    pub cut: Option<u32>,
}
