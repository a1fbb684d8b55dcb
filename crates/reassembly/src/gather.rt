//! The gatherer of one message after another.

ghost use Rattle.std.specs.Prelude.{◌≡◌, ◌<◌, ◌≤◌, None, length, IfOk, IfErr, OnOk};
ghost use Rattle.smbd_base.specs.declared.limits.TheConstants.{LEAST_FRAGMENTED_SIZE, MOST_FRAGMENTED_SIZE};
ghost use Rattle.smbd_base.specs.Pieces.{gather_fault};
ghost use Rattle.reassembly.specs.Gathering.{opened, piece_of, piece_fault, with_accepted, message_of, IsRefused};

use crate::fault::GatherFault;
use smbd_base::{Broken, Message};
use std::alloc::Global;
use std::marker::Model;
use std::mem::replace;

/// Gathers pieces into messages. Contracts see the most bytes of a message, the bytes that have come of the one that is
/// begun, how many are still expected of it, and why the gatherer has failed, where it has.
#[derive(Drop)]
pub struct Gather {
    alloc: Global,
    max: u32,
    buffer: Vec<u8>,
    left: u64,
    broken: Option<Broken>,
}

impl Model for Gather {
    ghost use Rattle.std.specs.Prelude.{vec_capacity};
    ghost use Rattle.reassembly.specs.Gathering.{Gathering, IsGathering};

    ghost Value = { Gathering };

    ghost view = { λ g. record { max = g.max; begun = g.buffer.items; expected = g.left; broken = g.broken } };

    ghost invariant = { λ g. IsGathering g.max g.buffer.items g.left (vec_capacity g.buffer) };
}

impl Gather {
    /// A gatherer of messages of at most `max` bytes. Nothing is begun.
    pub fn open(alloc: Global, max: u32) -> Gather
        requires least { LEAST_FRAGMENTED_SIZE ≤ max }
        requires most { max ≤ MOST_FRAGMENTED_SIZE }
        ensures { result ≡ opened max }
    {
        Gather {
            alloc,
            max,
            buffer: Vec::new(alloc),
            left: 0,
            broken: None,
        }
    }

    /// Takes the next piece, after which `remaining` bytes of its message come, and gives the message where it ends one:
    /// just where nothing remains. A piece that does not fit is refused, and then every later one for the same. Only a piece
    /// that begins a message can be refused for want of memory, which changes nothing.
    pub fn add(&mut self, bytes: &[u8], remaining: u32) -> Result<Option<Message>, GatherFault>
        requires { 0 < length bytes.now }
        ensures accepted { OnOk result (piece_fault self.old (piece_of bytes.now remaining) ≡ None) }
        ensures message { IfOk result (λ m. m ≡ message_of self.old (piece_of bytes.now remaining)) }
        ensures added { OnOk result (self.new ≡ with_accepted self.old (piece_of bytes.now remaining)) }
        ensures refused { IfErr result (λ fault. IsRefused self.old (piece_of bytes.now remaining) fault self.new) }
        ensures memory { IfErr result (λ fault. fault ≡ GatherFault.NoMemory → self.old.expected ≡ 0) }
    {
        if let Some(broken) = self.broken {
            return Err(GatherFault::Failed(broken));
        }
        if let Some(broken) = self.fault(bytes, remaining) {
            self.broken = Some(broken);
            return Err(GatherFault::from(broken));
        }
        // The first piece tells the length of its whole message. For a later one the room is there.
        self.buffer.reserve_exact(bytes.len() + remaining as usize)?;
        self.buffer.extend_from_slice(bytes)?;
        self.left = remaining as u64;
        if remaining > 0 {
            return Ok(None);
        }
        let whole = replace(&mut self.buffer, Vec::new(self.alloc));
        Ok(Some(Message::owned(whole)))
    }

    /// Why a piece would be refused, where no earlier one was.
    pub fn fault(&self, bytes: &[u8], remaining: u32) -> Option<Broken>
        ensures { result ≡ gather_fault self.now.max self.now.expected (length bytes.now) remaining }
    {
        let found = bytes.len() as u64 + remaining as u64;
        if self.left == 0 {
            (found > self.max as u64).then_some(Broken::TooLong {
                total: found,
                max: self.max,
            })
        } else {
            (found != self.left).then_some(Broken::Total {
                expected: self.left,
                found,
            })
        }
    }

    /// How many bytes are still expected of the message that is begun; 0 where none is.
    pub fn left(&self) -> u64
        ensures { result ≡ self.now.expected }
    {
        self.left
    }
}
