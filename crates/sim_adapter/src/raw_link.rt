//! A plain adapter before one end, for peers that may send anything.

ghost use Rattle.std.specs.Prelude.{◌≡◌, ◌+◌, ◌≤◌, ◌++◌, [], None, length, option_to_list, IfOk};
ghost use Rattle.sim_adapter.specs.Raw as spec;

use smbd_base::{Frame, NoMemory};
use std::alloc::Global;
use std::collections::VecDeque;
use std::marker::Model;

/// What comes of a frame that arrives (this project's own).
#[derive(Debug, Drop)]
pub enum Arrive {
    /// It waits in a receive.
    Placed,
    /// It found no receive: as many frames were placed as receives were posted. It is handed back.
    Unposted(Frame),
}

/// The receives of an end, and the frames that wait in them, on one thread. Contracts see for how many frames there is room,
/// how many posted receives are free, and the frames that wait, the oldest one first. `open` alone takes memory.
#[derive(Drop)]
pub struct RawLink {
    receives: u16,
    free: u16,
    waiting: VecDeque<Frame>,
}

impl Model for RawLink {
    ghost use Rattle.std.specs.Prelude.{◌+◌, ◌≤◌};
    ghost use Rattle.std.specs.VecDeque.{deque_len, deque_capacity};
    ghost use Rattle.sim_adapter.specs.Raw.{Adapter};

    ghost Value = { Adapter };

    ghost view = { λ l. record { receives = l.receives; free = l.free; waiting = l.waiting.items } };

    ghost invariant = { λ l. (deque_len l.waiting + l.free ≤ l.receives) × (l.receives ≤ deque_capacity l.waiting) };
}

impl RawLink {
    /// An adapter with room for `receives` frames, all of whose receives are posted.
    pub fn open(alloc: Global, receives: u16) -> Result<RawLink, NoMemory>
        requires { 1 ≤ receives }
        ensures { IfOk result (λ l. l ≡ spec.opened_adapter receives) }
    {
        Ok(RawLink {
            receives,
            free: receives,
            waiting: VecDeque::with_capacity(alloc, usize::from(receives))?,
        })
    }

    /// Posts `n` receives more, for which there is room.
    pub fn post(&mut self, n: u16)
        requires { length self.old.waiting + self.old.free + n ≤ self.old.receives }
        ensures posted { self.new ≡ spec.with_receives n self.old }
        ensures room { spec.HasRoom self.new }
    {
        self.free += n;
    }

    /// Places a frame in a receive, where one is free. Else it hands the frame back, and nothing changes.
    pub fn arrive(&mut self, frame: Frame) -> Arrive
        ensures answer { result ≡ spec.arrival frame self.old }
        ensures placed { self.new ≡ spec.with_arrival frame self.old }
        ensures room { spec.HasRoom self.new }
    {
        if self.free == 0 {
            return Arrive::Unposted(frame);
        }
        self.free -= 1;
        self.waiting.push_back_reserved(frame);
        Arrive::Placed
    }

    /// The oldest frame that waits, which then waits no longer; `None` exactly where none waits.
    pub fn take(&mut self) -> Option<Frame>
        ensures taken { self.old.waiting ≡ option_to_list result ++ self.new.waiting }
        ensures some { result ≡ None → self.old.waiting ≡ [] }
        ensures same { self.new ≡ record self.old { waiting = self.new.waiting } }
        ensures room { spec.HasRoom self.new }
    {
        self.waiting.pop_front()
    }
}
