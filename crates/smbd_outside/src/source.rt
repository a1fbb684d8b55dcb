//! What a source is.

ghost use Rattle.std.specs.Prelude.{ℕ, ◌<◌, List, length, Option};
ghost use Rattle.std.specs.Io.{ReadsAtMost};
ghost use Rattle.std.specs.Io.KnownBytes.{ReadConsumes};
ghost use Rattle.smbd_outside.specs.Causes.{HasCause};

use crate::failed::Failed;

/// Where bytes come from, with a count of its faults.
pub trait Source {
    /// The bytes that reads will give from here on, where the source tells them.
    ghost left: { Self → Option (List ℕ) };

    /// How often the source has failed, which stays at 2^64 - 1.
    ghost faults: { Self → ℕ };

    /// Puts bytes at the start of `buf`, which isn't empty, and answers how many: 0 exactly at the source's end.
    /// `Failed` comes only where the count of faults rose, and leaves the bytes that are left as they were.
    /// Past the bytes that were read, `buf` may hold anything.
    fn read(&mut self, buf: &mut [u8]) -> Result<usize, Failed>
        requires { 0 < length buf.old }
        ensures bound { ReadsAtMost result buf.new }
        ensures bytes { ReadConsumes (left self.old) (left self.new) result buf.new }
        ensures cause { HasCause (faults self.old) (faults self.new) result };
}
