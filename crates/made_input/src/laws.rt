//! What a made input is, byte by byte.

ghost use Rattle.std.specs.Prelude.{◌≡◌, ◌<◌, ℕ, Some, length, slice_get};
ghost use Rattle.made_input.specs.Made.{made_byte, made_bytes};

/// A made input has as many bytes as it was asked for, and byte `k` is that of the formula, whatever the length.
pub fn made_inputs_are_so()
    ensures long { (first size : ℕ) → length (made_bytes first size) ≡ size }
    ensures byte { (first size k : ℕ) → k < size → slice_get (made_bytes first size) k ≡ Some (made_byte first k) }
{}
