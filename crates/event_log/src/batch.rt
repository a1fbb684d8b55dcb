//! Bytes that are collected and written in large pieces.

ghost use Rattle.std.specs.Prelude.{◌≡◌, ◌↔◌, ◌+◌, ◌≤◌, ◌++◌, [], length, IsTrue, OnOk, OnErr};
ghost use Rattle.smbd_outside.specs.Causes.{HasCause};
ghost use Rattle.smbd_outside.specs.Streams.{AppendsFront};
ghost use Rattle.event_log.specs.Batches.{IsBatched};

use smbd_outside::{Failed, Sink, write_whole};
use std::marker::Model;

/// How many bytes are collected at most.
const ROOM: usize = 16_384;

/// Bytes that are not yet written. Contracts see their list.
#[derive(Drop)]
pub(crate) struct Batch {
    bytes: [u8; ROOM],
    len: usize,
}

impl Model for Batch {
    ghost use Rattle.std.specs.Prelude.{List, ℕ, ◌≤◌, take};

    ghost Value = { List ℕ };

    ghost view = { λ b. take b.len b.bytes };

    ghost invariant = { λ b. b.len ≤ 16384 };
}

impl Batch {
    /// A batch of no bytes.
    pub(crate) fn new() -> Batch
        ensures { result ≡ [] }
    {
        Batch {
            bytes: [0; ROOM],
            len: 0,
        }
    }

    /// The bytes that were collected.
    pub(crate) fn bytes(&self) -> &[u8]
        ensures { result.now ≡ self.now }
    {
        &self.bytes[..self.len]
    }

    /// Whether so many bytes more can be collected.
    fn has_room(&self, size: usize) -> bool
        ensures { IsTrue result ↔ (length self.now + size ≤ ROOM) }
    {
        size <= ROOM - self.len
    }

    /// Collects these bytes too.
    fn push(&mut self, more: &[u8])
        requires { length self.old + length more.now ≤ ROOM }
        ensures { self.new ≡ self.old ++ more.now }
    {
        let end = self.len + more.len();
        self.bytes[self.len..end].copy_from_slice(more);
        self.len = end;
    }

    /// Forgets the bytes.
    fn clear(&mut self)
        ensures { self.new ≡ [] }
    {
        self.len = 0;
    }
}

/// Collects these bytes too, and writes what was collected before where there is no room for them.
pub(crate) fn add<L: Sink>(batch: &mut Batch, log: &mut L, more: &[u8]) -> Result<(), Failed>
    ensures held { OnOk result (IsBatched (L.written log.old) (L.written log.new) (batch.old ++ more.now) batch.new) }
    ensures front { OnErr result (AppendsFront (L.written log.old) (L.written log.new) (batch.old ++ more.now)) }
    ensures cause { HasCause (L.faults log.old) (L.faults log.new) result }
{
    if !batch.has_room(more.len()) {
        write_whole(log, batch.bytes())?;
        batch.clear();
        if !batch.has_room(more.len()) {
            return write_whole(log, more);
        }
    }
    batch.push(more);
    Ok(())
}
