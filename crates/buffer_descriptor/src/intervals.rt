//! Which bytes descriptors name: what covers one, and whether they are apart.

ghost use Rattle.std.specs.Prelude.{◌≡◌, ◌↔◌, ◌+◌, ◌^◌, ◌<◌, ◌≤◌, ℕ, IsTrue, true};
ghost use Rattle.buffer_descriptor.specs.Descriptors.{IsSound, IsCovered, AreDisjoint, names};

use crate::descriptor::Descriptor;
use crate::descriptors::Descriptors;

/// Whether the descriptor's bytes lie among the `length` bytes from `base` on.
pub fn covers(base: u64, length: u32, descriptor: &Descriptor) -> bool
    requires fits { base + length < 2 ^ 64 }
    requires sound { IsSound descriptor.now }
    ensures ends { IsTrue result ↔ IsCovered base length descriptor.now }
    ensures places { IsTrue result ↔ ((x : ℕ) → names x descriptor.now ≡ true → (base ≤ x) × (x < base + length)) }
{
    base <= descriptor.offset
        && descriptor.offset + u64::from(descriptor.length) <= base + u64::from(length)
}

/// Whether no byte place lies in two of the descriptors, counted by their places in the list.
pub fn disjoint(list: &Descriptors) -> bool
    ensures { IsTrue result ↔ AreDisjoint list.now }
{
    list.is_disjoint()
}
