//! A message of the layer above.

ghost use Rattle.std.specs.Prelude.{◌≡◌, ◌==◌, length, IfOk};

use crate::no_memory::NoMemory;
use std::alloc::Global;
use std::marker::Model;
use std::sync::ArcSlice;

/// The bytes of one message of the layer above, which data transfer messages carry in one piece or several
/// (MS-SMBD 3.1.5.1). Contracts see the list of the bytes.
#[derive(Clone, Debug, Drop)]
pub struct Message {
    bytes: Bytes,
}

/// Bytes that a message shares with its clones, or has for itself.
#[derive(Clone, Debug, Drop)]
enum Bytes {
    Shared(ArcSlice<u8>),
    Owned(Vec<u8>),
}

impl Model for Message {
    ghost use Rattle.std.specs.Prelude.{List, ℕ};
    ghost use Rattle.smbd_base.specs.MessageBytes.{bytes_of};

    ghost Value = { List ℕ };

    ghost view = { λ m. bytes_of m.bytes };
}

impl Message {
    /// A message of the same bytes.
    pub fn copy_of(alloc: Global, bytes: &[u8]) -> Result<Message, NoMemory>
        ensures { IfOk result (λ m. m ≡ bytes.now) }
    {
        Message::of_bytes(Vec::from_slice(alloc, bytes)?)
    }

    /// A message of these bytes, which are moved and not copied. What is made shares them: a clone takes no bytes.
    pub fn of_bytes(bytes: Vec<u8>) -> Result<Message, NoMemory>
        ensures { IfOk result (λ m. m ≡ bytes.items) }
    {
        Ok(Message {
            bytes: Bytes::Shared(ArcSlice::from_vec(bytes)?),
        })
    }

    /// A message of these bytes, which are moved and not copied. Making it takes no memory; each clone copies the bytes.
    pub fn owned(bytes: Vec<u8>) -> Message
        ensures { result ≡ bytes.items }
    {
        Message {
            bytes: Bytes::Owned(bytes),
        }
    }

    /// The same message, which shares the bytes that are shared.
    pub fn share(&self) -> Result<Message, NoMemory>
        ensures { IfOk result (λ m. m ≡ self.now) }
    {
        Ok(self.clone()?)
    }

    pub fn bytes(&self) -> &[u8]
        ensures { result.now ≡ self.now }
    {
        match &self.bytes {
            Bytes::Shared(bytes) => bytes.as_slice(),
            Bytes::Owned(bytes) => bytes.as_slice(),
        }
    }

    pub fn len(&self) -> usize
        ensures { result ≡ length self.now }
    {
        self.bytes().len()
    }

    pub fn is_empty(&self) -> bool
        ensures { result ≡ (length self.now == 0) }
    {
        self.bytes().is_empty()
    }
}
