//! Lists of descriptors.

ghost use Rattle.std.specs.Prelude.{◌≡◌, ◌↔◌, IsTrue, IfOk, IfErr};
ghost use Rattle.buffer_descriptor.specs.Descriptors.{ListsAs, FailsAsList, AreDisjoint};

use crate::descriptor::{Descriptor, DescriptorFault, read};
use smbd_base::NoMemory;
use std::alloc::{AllocError, AllocFailed, Global};
use std::marker::Model;
use thiserror::Error;

/// A list of descriptors, as a file request carries it. Contracts see the list.
#[derive(Debug, Drop)]
pub struct Descriptors {
    list: Vec<Descriptor>,
    by_offset: Vec<Descriptor>,
}

impl Model for Descriptors {
    ghost use Rattle.std.specs.Prelude.{List};
    ghost use Rattle.buffer_descriptor.specs.declared.descriptor.Descriptor.{Descriptor};
    ghost use Rattle.buffer_descriptor.specs.Descriptors.{IsByOffset};

    ghost Value = { List Descriptor };

    ghost view = { λ d. d.list.items };

    ghost invariant = { λ d. IsByOffset d.list.items d.by_offset.items };
}

/// Why bytes are no list of descriptors.
#[derive(Clone, Copy, Debug, PartialEq, Eq, Error)]
pub enum ListFault {
    /// The descriptor at this place, counted from 0, is the first that can't be read.
    #[error("descriptor {place}: {fault}")]
    At { place: u16, fault: DescriptorFault },
    /// No memory could be had.
    #[error("no memory")]
    NoMemory,
}

impl From<NoMemory> for ListFault {
    ghost use Rattle.std.specs.Prelude.{◌≡◌};
    ghost use Rattle.buffer_descriptor.specs.declared.descriptors.ListFault.TheVariants as faults;

    ghost from_gives = { λ _ e. e ≡ faults.NoMemory };

    fn from(_refused: NoMemory) -> ListFault {
        ListFault::NoMemory
    }
}

impl Descriptors {
    /// A list of the same descriptors.
    pub fn copy_of(alloc: Global, list: &[Descriptor]) -> Result<Descriptors, NoMemory>
        ensures { IfOk result (λ d. d ≡ list.now) }
    {
        Descriptors::of_list(alloc, Vec::from_slice(alloc, list)?)
    }

    fn of_list(alloc: Global, list: Vec<Descriptor>) -> Result<Descriptors, NoMemory>
        ensures { IfOk result (λ d. d ≡ list.items) }
    {
        let mut by_offset = Vec::from_slice(alloc, list.as_slice())?;
        by_offset.sort_unstable_by_key(|d| d.offset);
        Ok(Descriptors { list, by_offset })
    }

    pub fn list(&self) -> &[Descriptor]
        ensures { result.now ≡ self.now }
    {
        self.list.as_slice()
    }

    /// Whether no byte place lies in two of the descriptors. In the order of the offsets a descriptor meets an
    /// earlier one just where it begins before the end of the last one that isn't empty.
    pub(crate) fn is_disjoint(&self) -> bool
        ensures { IsTrue result ↔ AreDisjoint self.now }
    {
        let mut last = Descriptor {
            offset: 0,
            token: 0,
            length: 0,
        };
        for next in &self.by_offset {
            if next.length == 0 {
                continue;
            }
            if next.offset - last.offset < u64::from(last.length) {
                return false;
            }
            last = *next;
        }
        true
    }
}

/// The first `count` descriptors of these bytes, 16 bytes each, or the first of them that can't be read.
pub fn read_list(alloc: Global, bytes: &[u8], count: u16) -> Result<Descriptors, ListFault>
    ensures ok { IfOk result (ListsAs bytes.now count) }
    ensures err { IfErr result (FailsAsList bytes.now count) }
{
    let mut list = Vec::with_capacity(alloc, usize::from(count)).map_err(NoMemory::from)?;
    for place in 0..count {
        let from = (16 * usize::from(place)).min(bytes.len());
        match read(&bytes[from..]) {
            Ok(descriptor) => list.push(descriptor).unwrap(),
            Err(fault) => return Err(ListFault::At { place, fault }),
        }
    }
    Ok(Descriptors::of_list(alloc, list)?)
}
