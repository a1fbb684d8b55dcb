//! The end at which items come out.

ghost use Rattle.std.specs.Prelude.{◌≡◌, ◌<◌, [], ◌∷◌, ◌++◌, length, IfSome, IfNone};
ghost use mathlib.Core.List.{IsPrefix};
ghost use Rattle.completion_ring.specs.Rings.{received, known, SameDone};

use rtrb::Consumer;

/// The end of a ring at which items come out (this project's own).
#[derive(Drop)]
pub struct Done<T> {
    pub(crate) consumer: Consumer<T>,
}

impl<T> Done<T> {
    /// The next item. None comes only where no item is left that was known at the last `beside`.
    pub fn next(&mut self) -> Option<T>
        ensures ring { SameDone self.old self.new }
        ensures some { IfSome result (λ x. (received self.new ≡ received self.old ++ x ∷ []) × IsPrefix (known self.old) (x ∷ known self.new)) }
        ensures known { IfSome result (λ x. 0 < length (known self.old) → known self.old ≡ x ∷ known self.new) }
        ensures none { IfNone result ((received self.new ≡ received self.old) × (known self.old ≡ []) × (known self.new ≡ [])) }
    {
        if self.consumer.cached_slots() == 0 {
            return self.consumer.pop().ok();
        }
        Some(self.consumer.pop_known())
    }

    /// How many items are known to come.
    pub fn count(&self) -> usize
        ensures { result ≡ length (known self.now) }
    {
        self.consumer.cached_slots()
    }
}
