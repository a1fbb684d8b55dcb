//! The messages that an end has still to send.

ghost use Rattle.std.specs.Prelude.{◌≡◌, ◌≤◌, ◌==◌, [], None, OnOk, OnErr, length, not, is_some, is_none, option_copied, ◌&&◌};
ghost use Rattle.connection_core.specs.Queue.{queue_after_sending, begun_with, with_message, IsSendable};

use fragmenter::Cutter;
use smbd_base::{Message, NoMemory};
use std::alloc::Global;
use std::collections::VecDeque;
use std::marker::Model;

/// The message that is being divided into pieces, where one is, and those that wait behind it. A message is begun only once
/// the size of its pieces is known.
#[derive(Drop)]
pub struct Outgoing {
    cutter: Option<Cutter>,
    waiting: VecDeque<Message>,
}

impl Model for Outgoing {
    ghost use Rattle.connection_core.specs.Queue.{Queued, AreSendable};

    ghost Value = { Queued };

    ghost view = { λ o. record { begun = o.cutter; behind = o.waiting.items } };

    ghost invariant = { λ o. AreSendable o.waiting.items };
}

impl Outgoing {
    pub fn new(alloc: Global) -> Outgoing
        ensures { result ≡ record { begun = None; behind = [] } }
    {
        Outgoing {
            cutter: None,
            waiting: VecDeque::new(alloc),
        }
    }

    /// Whether no message waits, and none is begun.
    pub fn is_empty(&self) -> bool
        ensures { result ≡ (is_none self.now.begun && length self.now.behind == 0) }
    {
        self.cutter.is_none() && self.waiting.is_empty()
    }

    /// Whether a message waits behind the first one.
    pub fn has_more(&self) -> bool
        ensures { result ≡ not (length self.now.behind == 0) }
    {
        !self.waiting.is_empty()
    }

    /// The message that is being divided.
    pub fn first(&self) -> Option<&Cutter>
        ensures { option_copied result ≡ self.now.begun }
    {
        self.cutter.as_ref()
    }

    /// Keeps a message behind those that wait.
    pub fn keep(&mut self, message: Message) -> Result<(), NoMemory>
        requires { IsSendable message }
        ensures kept { OnOk result (self.new ≡ with_message self.old message) }
        ensures same { OnErr result (self.new ≡ self.old) }
    {
        self.waiting.push_back(message)?;
        Ok(())
    }

    /// Begins to divide the next message into pieces of `payload` bytes, where none is begun and one waits.
    pub fn begin(&mut self, payload: u32)
        requires { 104 ≤ payload }
        ensures { self.new ≡ begun_with payload self.old }
    {
        if self.cutter.is_some() {
            return;
        }
        if let Some(message) = self.waiting.pop_front() {
            self.cutter = Some(Cutter::start(message, payload));
        }
    }

    /// Gives the next piece of the message that is begun, and lets go of it with its last piece.
    pub fn sent(&mut self)
        ensures { self.new ≡ queue_after_sending self.old }
    {
        let Some(cutter) = &mut self.cutter else {
            return;
        };
        let _ = cutter.next();
        if cutter.rest() == 0 {
            self.cutter = None;
        }
    }
}
