//! A source in memory, which fails where it is told to.

ghost use Rattle.std.specs.Prelude.{◌≡◌, ℕ, ◌<◌, ◌≤◌, ◌++◌, length, take, drop, Some, IfOk, OnErr, is_err};
ghost use Rattle.std.specs.Io.{ReadsAtMost};
ghost use Rattle.std.specs.Io.KnownBytes.{ReadConsumes};
ghost use Rattle.smbd_outside.specs.Causes.{HasCause};
ghost use Rattle.smbd_outside.specs.Memory as spec;

use crate::failed::Failed;
use crate::source::Source;
use smbd_base::NoMemory;
use std::alloc::Global;
use std::marker::Model;

/// A source over bytes in memory, which fails at listed calls.
/// Contracts see the bytes that are left and the rest of its state.
#[derive(Debug, Drop)]
pub struct MemorySource {
    bytes: Vec<u8>,
    given: usize,
    most: u32,
    fail: Vec<u32>,
    calls: u64,
    faults: u64,
}

impl Model for MemorySource {
    ghost use Rattle.std.specs.Prelude.{◌≤◌, length, drop};
    ghost use Rattle.smbd_outside.specs.Memory.{SourceState};

    ghost Value = { SourceState };

    ghost view = { λ s. record { left = drop s.given s.bytes.items; most = s.most; fail = s.fail.items; calls = s.calls; faults = s.faults } };

    ghost invariant = { λ s. (s.given ≤ length s.bytes.items) × (1 ≤ s.most) };
}

/// Whether the call of this number is one of those that fail.
pub(crate) fn is_listed(call: u64, fail: &[u32]) -> bool
    ensures { result ≡ spec.is_listed call fail.now }
{
    fail.iter().any(|&number| u64::from(number) == call)
}

impl MemorySource {
    /// A source of these bytes, which gives at most `most` at a time, and fails exactly at the calls whose numbers,
    /// from 1, are in `fail`. Reads take no memory.
    pub fn open(
        alloc: Global,
        bytes: &[u8],
        most: u32,
        fail: &[u32],
    ) -> Result<MemorySource, NoMemory>
        requires { 1 ≤ most }
        ensures { IfOk result (λ source. source ≡ record { left = bytes.now; most = most; fail = fail.now; calls = 0; faults = 0 }) }
    {
        Ok(MemorySource {
            bytes: Vec::from_slice(alloc, bytes)?,
            given: 0,
            most,
            fail: Vec::from_slice(alloc, fail)?,
            calls: 0,
            faults: 0,
        })
    }
}

impl Source for MemorySource {
    ghost left = { λ source. Some source.left };

    ghost faults = { λ source. source.faults };

    /// The smallest of the room, `most` and what is left.
    fn read(&mut self, buf: &mut [u8]) -> Result<usize, Failed>
        requires { 0 < length buf.old }
        ensures bound { ReadsAtMost result buf.new }
        ensures bytes { ReadConsumes (Some self.old.left) (Some self.new.left) result buf.new }
        ensures cause { HasCause self.old.faults self.new.faults result }

        // It fails exactly at the listed calls, and else gives a front of what is left.
        ensures failed { is_err result ≡ spec.read_fails self.old }
        ensures count { IfOk result (λ count. count ≡ spec.read_count self.old (length buf.old)) }
        ensures given { IfOk result (λ count. buf.new ≡ take count self.old.left ++ drop count buf.old) }
        ensures kept { OnErr result (buf.new ≡ buf.old) }
        ensures after { self.new ≡ spec.after_read result self.old }
    {
        self.calls = self.calls.saturating_add(1);
        if is_listed(self.calls, self.fail.as_slice()) {
            self.faults = self.faults.saturating_add(1);
            return Err(Failed);
        }
        let rest = &self.bytes.as_slice()[self.given..];
        let count = buf.len().min(self.most as usize).min(rest.len());
        buf[..count].copy_from_slice(&rest[..count]);
        self.given += count;
        Ok(count)
    }
}
