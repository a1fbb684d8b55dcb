//! The events of a page.

use crate::message::Message;
use crate::right::Right;
use crate::token::Token;

/// What happens to a page of a pool: its life is the list of these.
#[derive(Debug, Drop)]
pub enum PageEvent {
    /// The page was loaded with these bytes, and zeros after them, for a peer with this right.
    Load {
        token: Token,
        right: Right,
        bytes: Message,
    },
    /// These bytes were copied out of the loaded page, from the place `at` on.
    Fetch {
        token: Token,
        at: u32,
        bytes: Message,
    },
    /// These bytes were copied into the loaded page, from the place `at` on; `order` counts the token's places, from 0.
    Place {
        token: Token,
        order: u32,
        at: u32,
        bytes: Message,
    },
    /// The loaded page was given back with these 4,096 bytes.
    Unload {
        token: Token,
        bytes: Message,
    },
}
