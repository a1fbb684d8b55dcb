//! What the calls of a pool answer.

use smbd_base::Token;

/// What came of a load. The refusals stand in the order in which they are looked for.
#[derive(Clone, Copy, Debug, PartialEq, Eq)]
pub enum Load {
    /// The page is loaded under this token.
    Loaded(Token),
    /// Nothing was done: the page is loaded already, under this token.
    Live(Token),
    /// Nothing was done: another thread has the page in hand.
    Busy,
    /// Nothing was done: the page has had its last generation.
    Spent,
}

/// What came of an access by a token. The refusals stand in the order in which they are looked for; each leaves the
/// page and the caller's buffer as they were.
#[derive(Clone, Copy, Debug, PartialEq, Eq)]
pub enum Access {
    Done,
    /// The page isn't loaded under this token.
    Stale,
    /// The token gives the other right.
    WrongRight,
    /// The token has had its 65,535 places.
    Worn,
    /// Another thread has the page in hand.
    Busy,
}

/// What came of a place, with its order.
#[derive(Clone, Copy, Debug, PartialEq, Eq)]
pub struct Placed {
    pub answer: Access,
    /// Where the place was done, how many places its token had had before, from 0 to 65,534; else 0.
    pub order: u16,
}
