//! What a sink is.

ghost use Rattle.std.specs.Prelude.{ℕ, ◌<◌, List, length, Option};
ghost use Rattle.std.specs.Io.KnownBytes.{WriteAppends};
ghost use Rattle.smbd_outside.specs.Causes.{HasCause};
ghost use Rattle.smbd_outside.specs.Streams.{TakesSome};

use crate::failed::Failed;

/// Where bytes go, with a count of its faults.
pub trait Sink {
    /// The bytes that the sink holds, where it tells them.
    ghost written: { Self → Option (List ℕ) };

    /// How often the sink has failed, which stays at 2^64 - 1.
    ghost faults: { Self → ℕ };

    /// Takes bytes from the start of `piece`, which isn't empty, and answers how many: at least one.
    /// `Failed` comes only where the count of faults rose, and leaves the bytes that the sink holds as they were.
    fn write(&mut self, piece: &[u8]) -> Result<usize, Failed>
        requires { 0 < length piece.now }
        ensures bound { TakesSome result piece.now }
        ensures bytes { WriteAppends (written self.old) (written self.new) result piece.now }
        ensures cause { HasCause (faults self.old) (faults self.new) result };
}
