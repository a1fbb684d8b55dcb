//! What the calls of a region answer.

use buffer_descriptor::Descriptor;
use shared_pages::Access;
use shared_records::Issue;
use smbd_base::Token;

/// What came of registering a page.
#[derive(Clone, Copy, Debug, PartialEq, Eq)]
pub enum Register {
    /// The page is loaded, and its record can be claimed by this descriptor.
    Registered(Descriptor),
    /// Nothing was done: the page is loaded already, under this token.
    Live(Token),
    /// Nothing was done: another thread has the page in hand.
    Busy,
    /// Nothing was done: the page has had its last generation.
    Spent,
    /// The page is loaded under this token, and its record is still to be issued.
    Unissued { token: Token, issue: Issue },
}

/// What came of releasing a page.
#[derive(Clone, Copy, Debug, PartialEq, Eq)]
pub enum Release {
    /// The record is gone, and the page is unloaded.
    Released,
    /// Nothing was done: the token names no page of the region.
    Unknown,
    /// Nothing was done: the page has no record, or one of another token.
    Stale,
    /// Nothing was done: so many hold the record; with no reader, another thread is bringing or taking a record.
    Busy { readers: u32 },
    /// Nothing was done: others changed the record's place, which was seen as one word and found as another.
    Again { seen: u64, found: u64 },
    /// The record is gone, and the page is still to be unloaded.
    Withdrawn(Access),
}

/// What came of a remote access. Every answer but `Done` leaves the page and the caller's buffer as they were. The refusals
/// stand in the order in which they are looked for, but for the last three: the record's place or the page answers them when
/// it is asked, before the record is looked at and after it.
#[derive(Clone, Copy, Debug, PartialEq, Eq)]
pub enum Remote {
    Done,
    /// The token names no page of the region, or has generation 0.
    Unknown,
    /// The page has no record of this token, or isn't loaded under it.
    Stale,
    /// The record, or the page, gives the other right.
    WrongRight,
    /// The record doesn't cover the descriptor.
    Outside,
    /// The token has had its 65,535 places.
    Worn,
    /// The record has as many holds as can be counted.
    Crowded,
    /// Another thread has the page in hand.
    Busy,
    /// Others changed the record's place meanwhile: it was seen as one word, and found as another.
    Again { seen: u64, found: u64 },
}

/// What came of a remote write, with the order of its place.
#[derive(Clone, Copy, Debug, PartialEq, Eq)]
pub struct Written {
    pub answer: Remote,
    /// Where the write was done, how many places the descriptor's token had had before, from 0 to 65,534; else 0.
    pub order: u16,
}
