//! The end at which items go in.

ghost use Rattle.std.specs.Prelude.{◌≡◌, ◌+◌, ◌<◌, ◌≤◌, [], ◌∷◌, ◌++◌, IsOk, OnOk, IfErr};
ghost use Rattle.completion_ring.specs.Rings.{sent, free, SameJobs};

use crate::full::Full;
use rtrb::{Producer, PushError};

/// The end of a ring at which items are offered (this project's own).
#[derive(Drop)]
pub struct Jobs<T> {
    pub(crate) producer: Producer<T>,
}

impl<T> Jobs<T> {
    /// Offers an item. It comes back only where the items that were offered since the last `beside`, or since the start, fill what was
    /// free there.
    pub fn offer(&mut self, item: T) -> Result<(), Full<T>>
        ensures ring { SameJobs self.old self.new }
        ensures ok { OnOk result ((sent self.new ≡ sent self.old ++ item ∷ []) × (free self.old ≤ free self.new + 1)) }
        ensures full { IfErr result (λ e. (e.0 ≡ item) × (sent self.new ≡ sent self.old) × (free self.new ≡ 0)) }
        ensures succeeds { 0 < free self.old → IsOk result }
    {
        match self.producer.push(item) {
            Ok(()) => Ok(()),
            Err(PushError::Full(back)) => Err(Full(back)),
        }
    }
}
