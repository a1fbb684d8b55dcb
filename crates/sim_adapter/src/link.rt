//! A link between two ends.

ghost use Rattle.std.specs.Prelude.{◌≡◌, ◌+◌};

use crate::plays::Order;
use crate::view::{Ends, View};
use atomic_table::Table;
use smbd_base::Frame;
use std::alloc::Global;

/// Both directions of a link. Each end steps on it with a pass of its own, and no call waits for the other end.
#[derive(Drop)]
pub struct Link {
    pub(crate) table: Table<Option<Frame>, View, Ends, Order, Global>,
    ghost sized: { (table.shared.table_id.words ≡ 7) × (table.shared.table_id.slots ≡ table.shared.key.client.credits + table.shared.key.server.credits) },
}
