//! What the calls of a table answer.

use crate::hold::Hold;
use crate::record::Record;
use smbd_base::Token;

/// What came of issuing a record. Every answer but `Done` leaves the table as it was.
#[derive(Clone, Copy, Debug, PartialEq, Eq)]
pub enum Issue {
    Done,
    /// The place has a record already, of this token.
    Present(Token),
    /// Another thread is bringing or taking a record.
    Busy,
    /// Others changed the place meanwhile: it was seen as one word, and found as another.
    Again { seen: u64, found: u64 },
}

/// What came of claiming a record. Every answer but `Held` leaves the table as it was.
pub enum Claimed<'a> {
    /// The record is held until `TokenTable::leave`.
    Held(Hold<'a>),
    /// The token names no page of the table.
    Unknown,
    /// The page has no record, or one of another token.
    Stale,
    /// Others changed the place meanwhile: it was seen as one word, and found as another.
    Again { seen: u64, found: u64 },
    /// The record has as many holds as can be counted, 1,073,741,823.
    Crowded,
}

/// What came of withdrawing a record. Every answer but `Done` leaves the table as it was.
#[derive(Clone, Copy, Debug, PartialEq, Eq)]
pub enum Withdraw {
    /// The record is no longer in the table.
    Done(Record),
    /// The token names no page of the table.
    Unknown,
    /// The page has no record, or one of another token.
    Stale,
    /// So many hold the record; with no reader, another thread is bringing or taking a record.
    Busy { readers: u32 },
    /// Others changed the place meanwhile: it was seen as one word, and found as another.
    Again { seen: u64, found: u64 },
}
