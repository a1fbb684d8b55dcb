//! The groups of a get: those that came and were not given, and the room for the next one.

ghost use Rattle.std.specs.Prelude.{◌≡◌, ◌+◌, ◌<◌, ◌≤◌, ◌++◌, false, List, [], take, length, map, OnOk, vec_len, vec_capacity};
ghost use Rattle.std.specs.List.{flat_map};
ghost use Rattle.std.specs.VecDeque.{deque_len, deque_capacity};
ghost use Rattle.file_messages.specs.declared.layout.TheConstants.{GROUP_SIZE};
ghost use Rattle.file_messages.specs.declared.kind.Channel.{Channel};
ghost use Rattle.file_pasts.specs.ClientPast.{ClientEvent, has_failed};
ghost use Rattle.file_pasts.specs.GetDue.{some_bytes, next_group};
ghost use Rattle.file_transfer.specs.GetPagesStand.{back_in, same_bytes, sizes};
ghost use Rattle.file_transfer.specs.GetStands.{GroupsStand, HasRoom, after_receiving};

use crate::get_pages::Page;
use file_messages::GROUP_SIZE;
use smbd_base::{Message, NoMemory};
use std::alloc::Global;
use std::collections::VecDeque;

/// The groups that came and were not given.
#[derive(Drop)]
pub struct GetGroups {
    came: VecDeque<Message>,
    /// Where the bytes of the group are put that was asked for.
    room: Option<Vec<u8>>,
}

impl GetGroups {
    pub fn new(alloc: Global) -> GetGroups
        ensures { (channel : Channel) → GroupsStand channel [] result }
    {
        GetGroups {
            came: VecDeque::new(alloc),
            room: None,
        }
    }

    /// Makes room for one more group.
    pub fn make_room(&mut self, alloc: Global) -> Result<(), NoMemory>
        ensures ok { OnOk result (HasRoom self.new) }
        ensures same { self.new.came.items ≡ self.old.came.items }
    {
        self.came.reserve(1)?;
        self.room = Some(Vec::with_capacity(alloc, GROUP_SIZE as usize)?);
        Ok(())
    }

    /// The bytes of the group that was asked for came.
    pub fn take(&mut self, bytes: &[u8])
        requires short { length bytes.now ≤ GROUP_SIZE }
        requires room { HasRoom self.old }
        ensures { self.new.came.items ≡ self.old.came.items ++ some_bytes bytes.now }
    {
        let Some(mut room) = self.room.take() else {
            unreachable!();
        };
        room.extend_from_slice(bytes).unwrap();
        self.put(room);
    }

    /// The pages of the group that was asked for are back: so many bytes of what is in them came.
    pub fn take_pages(&mut self, slots: &Vec<Page>, count: usize)
        requires room { HasRoom self.old }
        requires short { sizes (map back_in slots.now.items) ≤ GROUP_SIZE }
        ensures { self.new.came.items ≡ self.old.came.items ++ some_bytes (take count (flat_map same_bytes (map back_in slots.now.items))) }
    {
        let Some(room) = self.room.take() else {
            unreachable!();
        };
        let mut group = joined(room, slots);
        group.truncate(count);
        self.put(group);
    }

    /// A group came, unless it has no bytes.
    fn put(&mut self, group: Vec<u8>)
        requires { deque_len self.old.came < deque_capacity self.old.came }
        ensures { self.new.came.items ≡ self.old.came.items ++ some_bytes group.items }
    {
        if !group.is_empty() {
            self.came.push_back_reserved(Message::owned(group));
        }
    }

    /// The next group that came.
    pub fn next(&mut self) -> Option<Message>
        ensures due { (channel : Channel) (past : List ClientEvent) → GroupsStand channel past self.old → has_failed past ≡ false → result ≡ next_group channel past }
        ensures after { (channel : Channel) (past : List ClientEvent) → GroupsStand channel past self.old → has_failed past ≡ false
            → GroupsStand channel (after_receiving (next_group channel past) past) self.new }
    {
        self.came.pop_front()
    }
}

/// What is in the pages, one after another, put into the room that was made for it.
fn joined(mut room: Vec<u8>, slots: &Vec<Page>) -> Vec<u8>
    requires { vec_len room + sizes (map back_in slots.now.items) ≤ vec_capacity room }
    ensures { result.items ≡ room.items ++ flat_map same_bytes (map back_in slots.now.items) }
{
    for slot in slots {
        if let Some(bytes) = &slot.back {
            room.extend_from_slice(bytes.bytes()).unwrap();
        }
    }
    room
}
