//! A frame, and the credits that it grants.

ghost use Rattle.std.specs.Prelude.{◌≡◌, ◌==◌, length, IfOk};
ghost use Rattle.smbd_base.specs.Grant.{credits_in};

use crate::bytes::u16_at;
use crate::end_id::EndId;
use crate::no_memory::NoMemory;
use std::alloc::Global;
use std::marker::Model;
use std::sync::ArcSlice;

/// The bytes of one RDMA send: a negotiation message or a data transfer message (MS-SMBD 2.2).
/// Contracts see the list of the bytes.
#[derive(Clone, Debug, Drop)]
pub struct Frame {
    bytes: ArcSlice<u8>,
}

impl Model for Frame {
    ghost use Rattle.std.specs.Prelude.{List, ℕ};
    ghost use Rattle.std.specs.Arc.{arc_slice_items};

    ghost Value = { List ℕ };

    ghost view = { λ f. arc_slice_items f.bytes };
}

impl Frame {
    /// A frame of the same bytes.
    pub fn copy_of(alloc: Global, bytes: &[u8]) -> Result<Frame, NoMemory>
        ensures { IfOk result (λ f. f ≡ bytes.now) }
    {
        Frame::of_bytes(Vec::from_slice(alloc, bytes)?)
    }

    /// A frame of these bytes, which are moved and not copied. What is made shares them: a clone takes no bytes.
    pub fn of_bytes(bytes: Vec<u8>) -> Result<Frame, NoMemory>
        ensures { IfOk result (λ f. f ≡ bytes.items) }
    {
        Ok(Frame {
            bytes: ArcSlice::from_vec(bytes)?,
        })
    }

    /// The same frame, which shares its bytes.
    pub fn share(&self) -> Result<Frame, NoMemory>
        ensures { IfOk result (λ f. f ≡ self.now) }
    {
        Ok(self.clone()?)
    }

    pub fn bytes(&self) -> &[u8]
        ensures { result.now ≡ self.now }
    {
        self.bytes.as_slice()
    }

    pub fn len(&self) -> usize
        ensures { result ≡ length self.now }
    {
        self.bytes.len()
    }

    pub fn is_empty(&self) -> bool
        ensures { result ≡ (length self.now == 0) }
    {
        self.bytes.is_empty()
    }

    /// The credits that the frame grants to the peer of `from`, which sent it, `first` of all or later:
    /// none by a negotiate request, CreditsGranted of a negotiate response (MS-SMBD 2.2.2) or of a data
    /// transfer message (2.2.3), and 0 where the frame ends before that field.
    pub fn granted(&self, from: EndId, first: bool) -> u16
        ensures { result ≡ credits_in from first self.now }
    {
        match (from, first) {
            (EndId::Client, true) => 0,
            (EndId::Server, true) => u16_at(self.bytes.as_slice(), 10),
            (_, false) => u16_at(self.bytes.as_slice(), 2),
        }
    }
}
