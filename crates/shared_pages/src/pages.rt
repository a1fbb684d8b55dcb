//! The pool of pages.

ghost use Rattle.std.specs.Prelude.{◌≡◌, ◌<◌};

use crate::plays::Order;
use crate::slot::Slot;
use crate::view::{Opening, View};
use atomic_table::Table;
use std::alloc::Global;

/// A pool of pages of 4,096 bytes, which its passes share: no call waits for another pass.
#[derive(Drop)]
pub struct Pages {
    pub(crate) table: Table<Option<Slot>, View, Opening, Order, Global>,
    ghost sized: { (table.shared.table_id.words ≡ table.shared.key.pages) × (table.shared.table_id.slots ≡ table.shared.key.pages) × (0 < table.shared.key.pages) },
}
