//! A sink in memory, which fails where it is told to.

ghost use Rattle.std.specs.Prelude.{◌≡◌, ℕ, ◌<◌, ◌≤◌, [], length, Some, IfOk, is_err};
ghost use Rattle.std.specs.Io.KnownBytes.{WriteAppends};
ghost use Rattle.smbd_outside.specs.Causes.{HasCause};
ghost use Rattle.smbd_outside.specs.Memory as spec;
ghost use Rattle.smbd_outside.specs.Streams.{TakesSome};

use crate::failed::Failed;
use crate::memory_source::is_listed;
use crate::sink::Sink;
use smbd_base::NoMemory;
use std::alloc::Global;
use std::marker::Model;

/// A sink into memory, which fails at listed calls and where it is full.
/// Contracts see the bytes that it has taken and the rest of its state.
#[derive(Debug, Drop)]
pub struct MemorySink {
    bytes: Vec<u8>,
    free: usize,
    most: u32,
    fail: Vec<u32>,
    calls: u64,
    faults: u64,
}

impl Model for MemorySink {
    ghost use Rattle.std.specs.Prelude.{ℕ, ◌≤◌, ◌+◌, length, vec_len, vec_capacity};
    ghost use Rattle.smbd_outside.specs.Memory.{SinkState};

    ghost Value = { SinkState };

    ghost view = { λ s. record { taken = s.bytes.items; free = s.free; most = s.most; fail = s.fail.items; calls = s.calls; faults = s.faults } };

    ghost invariant = { λ s. (vec_len s.bytes + s.free ≤ vec_capacity s.bytes) × (1 ≤ s.most) };
}

impl MemorySink {
    /// A sink with room for `room` bytes, which takes at most `most` at a time. It fails exactly at the calls whose
    /// numbers, from 1, are in `fail`, and where nothing is free. Writes take no memory.
    pub fn open(alloc: Global, room: u32, most: u32, fail: &[u32]) -> Result<MemorySink, NoMemory>
        requires { 1 ≤ most }
        ensures { IfOk result (λ sink. sink ≡ record { taken = []; free = room; most = most; fail = fail.now; calls = 0; faults = 0 }) }
    {
        Ok(MemorySink {
            bytes: Vec::with_capacity(alloc, room as usize)?,
            free: room as usize,
            most,
            fail: Vec::from_slice(alloc, fail)?,
            calls: 0,
            faults: 0,
        })
    }

    /// The bytes that were taken, the first one first.
    pub fn taken(&self) -> &[u8]
        ensures { result.now ≡ self.now.taken }
    {
        self.bytes.as_slice()
    }
}

impl Sink for MemorySink {
    ghost written = { λ sink. Some sink.taken };

    ghost faults = { λ sink. sink.faults };

    /// The smallest of the piece, `most` and what is free.
    fn write(&mut self, piece: &[u8]) -> Result<usize, Failed>
        requires { 0 < length piece.now }
        ensures bound { TakesSome result piece.now }
        ensures bytes { WriteAppends (Some self.old.taken) (Some self.new.taken) result piece.now }
        ensures cause { HasCause self.old.faults self.new.faults result }

        // It fails exactly at the listed calls and where nothing is free.
        ensures failed { is_err result ≡ spec.write_fails self.old }
        ensures count { IfOk result (λ count. count ≡ spec.write_count self.old (length piece.now)) }
        ensures after { self.new ≡ spec.after_write result piece.now self.old }
    {
        self.calls = self.calls.saturating_add(1);
        if is_listed(self.calls, self.fail.as_slice()) || self.free == 0 {
            self.faults = self.faults.saturating_add(1);
            return Err(Failed);
        }
        let count = piece.len().min(self.most as usize).min(self.free);
        self.bytes.extend_from_slice(&piece[..count]).unwrap();
        self.free -= count;
        Ok(count)
    }
}
