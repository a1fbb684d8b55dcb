//! A pool of pages between a client and a server: what the client loads, the server fetches and fills.

ghost use Rattle.std.specs.Prelude.{◌≡◌, ◌*◌, ◌%◌, ◌≤◌, length};
ghost use Rattle.file_pasts.specs.ClientPast.{IsOfKind};
ghost use Rattle.file_pasts.specs.ServerDue.{Fits};

use crate::MEMORY;
use buffer_descriptor::Descriptor;
use file_messages::{Work, WorkResult};
use smbd_base::{Message, Token};
use std::alloc::Global;
use std::process::Abort;

const PAGE: usize = 4_096;

/// A page of the pool.
#[derive(Drop)]
struct Slot {
    /// How often it was loaded.
    loads: u32,
    /// It was loaded and not unloaded.
    is_loaded: bool,
    bytes: Vec<u8>,
}

#[derive(Drop)]
pub struct Pages {
    alloc: Global,
    slots: Vec<Slot>,
    /// The status of each access of a server, if they are refused.
    refused: Option<u16>,
}

impl Pages {
    pub fn new(rt: &impl Abort, alloc: Global, count: u16) -> Pages {
        let mut slots = Vec::new(alloc);
        for _page in 0..count {
            let slot = Slot {
                loads: 0,
                is_loaded: false,
                bytes: Vec::new(alloc),
            };
            slots.push(slot).expect(rt, MEMORY);
        }
        Pages {
            alloc,
            slots,
            refused: None,
        }
    }

    /// From now on each access of a server is refused with this status.
    pub fn refuse(&mut self, status: u16) {
        self.refused = Some(status);
    }

    /// How often the page was loaded, if it is one of the pool and not loaded now.
    pub fn loads_of(&self, page: usize) -> Option<u32> {
        match self.slots.get(page) {
            Some(slot) if !slot.is_loaded => Some(slot.loads),
            _ => None,
        }
    }

    /// What comes of a job of a client.
    pub fn do_for_client(&mut self, rt: &impl Abort, work: &Work) -> WorkResult
        ensures { IsOfKind work.now result }
    {
        match work {
            Work::Load {
                page,
                right: _,
                bytes,
            } => WorkResult::Loaded(self.load(rt, *page, bytes.bytes())),
            Work::Unload { token } => WorkResult::Unloaded(self.unload(rt, *token)),
            Work::Fetch { descriptor: _ } => panic!(rt; "a client fetches nothing"),
            Work::Place {
                descriptor: _,
                bytes: _,
            } => { panic!(rt; "a client places nothing") }
        }
    }

    /// What comes of a job of a server.
    pub fn do_for_server(&mut self, rt: &impl Abort, work: &Work) -> WorkResult
        ensures { Fits work.now result }
    {
        if let Some(status) = self.refused {
            assert!(rt; 1 <= status && status <= 6);
            return WorkResult::Refused(status);
        }
        match work {
            Work::Fetch { descriptor } => WorkResult::Fetched(self.fetch(rt, descriptor)),
            Work::Place { descriptor, bytes } => {
                self.place(rt, descriptor, bytes.bytes());
                WorkResult::Placed
            }
            Work::Load {
                page: _,
                right: _,
                bytes: _,
            } => { panic!(rt; "a server loads nothing") }
            Work::Unload { token: _ } => panic!(rt; "a server unloads nothing"),
        }
    }

    /// Loads the page, under the generation after that of the load before.
    pub fn load(&mut self, rt: &impl Abort, page: u8, bytes: &[u8]) -> Descriptor
        ensures offset { result.offset ≡ page * 4096 }
        ensures page { result.token % 256 ≡ page }
        ensures token { 256 ≤ result.token }
        ensures length { result.length ≡ length bytes.now }
    {
        let alloc = self.alloc;
        let Some(slot) = self.slots.get_mut(usize::from(page)) else {
            panic!(rt; "no such page")
        };
        assert!(rt; !slot.is_loaded && slot.loads < 1_000);
        assert!(rt; bytes.len() <= PAGE);
        slot.loads += 1;
        slot.is_loaded = true;
        slot.bytes = whole_page(rt, alloc, bytes);
        descriptor_of(page, slot.loads, bytes.len() as u32)
    }

    /// Unloads the page of the token: its bytes.
    pub fn unload(&mut self, rt: &impl Abort, token: Token) -> Message
        ensures { length result ≡ 4096 }
    {
        let Some(slot) = self.slots.get_mut(usize::from(token.page())) else {
            panic!(rt; "no such page")
        };
        assert!(rt; slot.is_loaded && slot.loads == token.generation());
        slot.is_loaded = false;
        let bytes = Message::copy_of(self.alloc, slot.bytes.as_slice()).expect(rt, MEMORY);
        assert!(rt; bytes.len() == PAGE);
        bytes
    }

    fn fetch(&self, rt: &impl Abort, descriptor: &Descriptor) -> Message
        ensures { length result ≡ descriptor.now.length }
    {
        let Some(slot) = self.slots.get(page_of(descriptor)) else {
            panic!(rt; "no such page")
        };
        assert!(rt; names(descriptor, slot));
        let count = descriptor.length as usize;
        assert!(rt; count <= slot.bytes.len());
        let bytes = Message::copy_of(self.alloc, &slot.bytes[..count]).expect(rt, MEMORY);
        assert!(rt; bytes.len() == count);
        bytes
    }

    fn place(&mut self, rt: &impl Abort, descriptor: &Descriptor, bytes: &[u8]) {
        let alloc = self.alloc;
        let Some(slot) = self.slots.get_mut(page_of(descriptor)) else {
            panic!(rt; "no such page")
        };
        assert!(rt; names(descriptor, slot));
        assert!(rt; bytes.len() == descriptor.length as usize);
        slot.bytes = whole_page(rt, alloc, bytes);
    }
}

/// The descriptor of so many bytes of a page in this load of it.
fn descriptor_of(page: u8, loads: u32, length: u32) -> Descriptor
    requires least { 1 ≤ loads }
    requires most { loads ≤ 1000 }
    ensures offset { result.offset ≡ page * 4096 }
    ensures page { result.token % 256 ≡ page }
    ensures token { 256 ≤ result.token }
    ensures length { result.length ≡ length }
{
    Descriptor {
        offset: u64::from(page) * 4_096,
        token: loads * 256 + u32::from(page),
        length,
    }
}

/// The page of a descriptor.
fn page_of(descriptor: &Descriptor) -> usize {
    (descriptor.token % 256) as usize
}

/// Whether a descriptor names its page by the page's last load.
fn names(descriptor: &Descriptor, slot: &Slot) -> bool {
    let page = (descriptor.token % 256) as u8;
    slot.is_loaded
        && slot.loads == descriptor.token / 256
        && descriptor.offset == u64::from(page) * 4_096
}

/// The bytes, and zeros after them.
pub fn whole_page(rt: &impl Abort, alloc: Global, bytes: &[u8]) -> Vec<u8> {
    let mut page = Vec::from_slice(alloc, bytes).expect(rt, MEMORY);
    page.resize(PAGE, 0).expect(rt, MEMORY);
    page
}
