//! What the calls of a region answer.

use buffer_descriptor::Descriptor;
use page_slots::Access;
use smbd_base::Token;
use token_table::Issue;

/// What came of registering a page.
#[derive(Clone, Copy, Debug, PartialEq, Eq)]
pub enum Register {
    /// The page is loaded, and its record can be claimed by this descriptor.
    Registered(Descriptor),
    /// Nothing was done: the page is loaded already, under this token.
    Live(Token),
    /// Nothing was done: another thread has the page in hand.
    Busy,
    /// Nothing was done: the page has had its last generation.
    Spent,
    /// The page is loaded under this token, and its record is still to be issued.
    Unissued { token: Token, issue: Issue },
}

/// What came of releasing a page.
#[derive(Clone, Copy, Debug, PartialEq, Eq)]
pub enum Release {
    /// The record is gone, and the page is unloaded.
    Released,
    /// Nothing was done: the token names no page of the region.
    Unknown,
    /// Nothing was done: the page has no record, or one of another token.
    Stale,
    /// Nothing was done: so many hold the record.
    Busy { readers: u32 },
    /// Nothing was done: others changed the record's place, which was seen as one word and found as another.
    Again { seen: u64, found: u64 },
    /// The record is gone, and the page is still to be unloaded.
    Withdrawn(Access),
}
