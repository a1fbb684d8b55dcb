//! What a line tells.

use smbd_base::{Frame, Right, Token};

/// What a line of a log says, beside whose it is (this project's own). Lengths and places are counted in bytes.
#[derive(Debug, Drop)]
pub enum LogLine {
    /// So many receives were posted: 1 to 255.
    Post(u16),
    /// A message of this length was submitted: 1 to 4,294,967,295.
    Submit(u32),
    /// This frame was sent: 1 to 8,192 bytes.
    Emit(Frame),
    /// The peer's frame of this number, from 1 to 2^62 - 1, was taken; it has 1 to 8,192 bytes.
    Take {
        number: u64,
        length: u32,
    },
    /// The connection was cut.
    Cut,
    /// The page was loaded with so many bytes, 1 to 4,096.
    Load {
        token: Token,
        right: Right,
        length: u32,
    },
    /// So many bytes, at least one, were copied out of the page from this place on; they end within its 4,096.
    Fetch {
        token: Token,
        at: u32,
        length: u32,
    },
    /// So many bytes were copied into the page, as for `Fetch`; `order` counts the token's places: 0 to 65,534.
    Place {
        token: Token,
        order: u32,
        at: u32,
        length: u32,
    },
    /// The page was given back.
    Unload {
        token: Token,
    },
}
