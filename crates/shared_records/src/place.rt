//! The places of a table.

ghost use Rattle.std.specs.Prelude.{◌≡◌};
ghost use Rattle.shared_records.specs.Records.{FitsPage, IsInPage};

use crate::record::Record;
use atomic_table::{Badge, TableRule};
use counted_slot::Fits;
use smbd_base::{Right, Token};

/// A table of no words and no slots, made for its identity: no other table has the same.
pub struct Alone;

impl TableRule<u8, u8, u8> for Alone {
    ghost holds = { λ _ _. Unit {0} };

    ghost first = { λ _. 0 };
}

/// Where a record stands: at this page, in the table of this name.
#[derive(Drop)]
pub struct Place {
    pub page: u8,
    pub table: Badge<u8>,
}

impl Fits for Record {
    type Tag = Place;

    ghost fits = { λ place entry. FitsPage place.page entry };
}

/// What stands in the place of a page that has no record: a record of no bytes, which the place's word doesn't show.
pub fn nothing(page: u8) -> Record
    ensures { FitsPage page result }
{
    let token = Token::new(page, 1);
    Record {
        token,
        right: Right::Fetch,
        base: token.start(),
        length: 0,
    }
}
