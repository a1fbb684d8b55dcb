//! What the calls of a table answer.

use crate::hold::Hold;
use crate::record::Record;
use smbd_base::Token;

/// What came of issuing a record.
#[derive(Clone, Copy, Debug, PartialEq, Eq)]
pub enum Issue {
    Done,
    /// The place has a record already, of this token.
    Present(Token),
    /// The record is being withdrawn.
    Busy,
    /// Others changed the place meanwhile: it was seen as one word, and found as another.
    Again { seen: u64, found: u64 },
}

/// What came of claiming a record. The refusals stand in the order in which they are looked for.
#[derive(Debug)]
pub enum Claimed {
    /// The record is held until `TokenTable::leave`.
    Held(Hold),
    /// The token names no page of the table.
    Unknown,
    /// The page has no record, or one of another token.
    Stale,
    /// Others changed the place meanwhile: it was seen as one word, and found as another.
    Again { seen: u64, found: u64 },
    /// The record has as many holds as can be counted, 4,294,967,295.
    Crowded,
}

/// What came of withdrawing a record. The refusals stand in the order in which they are looked for.
#[derive(Clone, Copy, Debug, PartialEq, Eq)]
pub enum Withdraw {
    /// The record is no longer in the table.
    Done(Record),
    /// The token names no page of the table.
    Unknown,
    /// The page has no record, or one of another token.
    Stale,
    /// So many hold the record.
    Busy { readers: u32 },
    /// Others changed the place meanwhile: it was seen as one word, and found as another.
    Again { seen: u64, found: u64 },
}
