//! The events of an end. Only this module knows that they are kept in the order of time, and that definitions
//! read them from the newest one on.

ghost use Rattle.std.specs.Prelude.{◌≡◌, ◌-◌, ◌<◌, ◌≤◌, [], ◌∷◌, reverse, IfOk, OnOk};
ghost use Rattle.smbd_base.specs.declared.event.Event.{Event as Happening};

use smbd_base::{Event, NoMemory};
use std::alloc::Global;
use std::marker::Model;

/// The events so far, and room for some more. Contracts see the past, the newest event first, and that room.
#[derive(Drop)]
pub struct History {
    events: Vec<Event>,
}

impl Model for History {
    ghost use Rattle.std.specs.Prelude.{◌-◌, reverse, vec_len, vec_capacity};
    ghost use Rattle.connection_core.specs.Recorded.{Recorded};

    ghost Value = { Recorded };

    ghost view = { λ h. record { past = reverse h.events.items; room = vec_capacity h.events - vec_len h.events } };
}

impl History {
    /// No event, and room for so many.
    pub fn open(alloc: Global, room: usize) -> Result<History, NoMemory>
        ensures past { IfOk result (λ h. h.past ≡ []) }
        ensures room { IfOk result (λ h. room ≤ h.room) }
    {
        Ok(History {
            events: Vec::with_capacity(alloc, room)?,
        })
    }

    /// Makes room for so many events more.
    pub fn reserve(&mut self, room: usize) -> Result<(), NoMemory>
        ensures past { self.new.past ≡ self.old.past }
        ensures room { OnOk result (room ≤ self.new.room) }
        ensures kept { self.old.room ≤ self.new.room }
    {
        self.events.reserve(room)?;
        Ok(())
    }

    /// Adds an event, for which there is room.
    pub fn push(&mut self, event: Event)
        requires { 0 < self.old.room }
        ensures { self.new ≡ record { past = event ∷ self.old.past; room = self.old.room - 1 } }
    {
        self.events.push_reserved(event);
    }

    /// The events in the order of time.
    pub fn events(&self) -> &[Event]
        ensures { reverse result.now ≡ self.now.past }
    {
        self.events.as_slice()
    }
}
