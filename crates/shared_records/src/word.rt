//! The word of a place. Its low two bits are 0 where there is no record, 3 where someone is bringing or taking one, and 1 where
//! there is one; the next 30 count its holds; the high half is its generation, counted from 0.

ghost use Rattle.std.specs.Prelude.{◌≡◌, ◌+◌, ◌%◌, ◌<◌, ◌≤◌};
ghost use Rattle.counted_slot.specs.Counting.{readers, IsTurn};
ghost use Rattle.smbd_base.specs.declared.token.TheConstants.{LAST_GENERATION};
ghost use Rattle.shared_records.specs.Words.{IsShown, IsListed};
ghost use Rattle.shared_records.specs.Calls.{most_holds};

use counted_slot::{FREE, MOST_READERS, ONE_READER, PRESENT, TAKEN};
use smbd_base::LAST_GENERATION;

/// What stands before a word's high half.
const HALF: u64 = 4_294_967_296;

/// What the word of a place shows.
#[derive(Clone, Copy, Debug, PartialEq, Eq)]
pub enum Shown {
    /// No record.
    Nothing,
    /// Someone who brings or takes a record.
    Writer,
    /// The record of this generation, which so many hold.
    Listed { generation: u32, holds: u32 },
}

/// What the word shows.
pub fn read(word: u64) -> Shown
    ensures { IsShown word result }
{
    match word % 4 {
        0 => Shown::Nothing,
        3 => Shown::Writer,
        _ => Shown::Listed {
            generation: (word / HALF) as u32 % LAST_GENERATION + 1,
            holds: (word % HALF / 4) as u32,
        },
    }
}

/// The word of a record of this generation that nobody holds.
pub fn listed(generation: u32) -> u64
    requires least { 1 ≤ generation }
    requires most { generation ≤ LAST_GENERATION }
    ensures listed { IsListed result generation }
    ensures free { readers result ≡ 0 }
{
    u64::from(generation - 1) * HALF + PRESENT
}

/// The same record with one hold more.
pub fn once_more(word: u64) -> u64
    requires listed { (0 < word % 4) × (word % 4 < 3) }
    requires few { readers word < most_holds }
    ensures turn { IsTurn word result }
    ensures more { (result % 4 < 3) × (readers word < readers result) }
{
    word + ONE_READER
}

/// The same place, while someone brings or takes a record.
pub fn taken(word: u64) -> u64
    requires open { word % 4 < 3 }
    requires free { 0 < word % 4 → readers word ≡ 0 }
    ensures { IsTurn word result × (result % 4 ≡ 3) }
{
    word - word % 4 + TAKEN
}
