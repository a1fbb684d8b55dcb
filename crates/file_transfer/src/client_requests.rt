//! The requests that a client's machine gave, of a put or of a get, and their replies.

ghost use Rattle.std.specs.Prelude.{◌≡◌, ◌+◌, ◌<◌, ℕ, List, [], ◌∷◌, Option, None, Some, IfOk, OnOk, OnErr, IfSome, IsNone, length};
ghost use Rattle.std.specs.VecDeque.{deque_len, deque_capacity};
ghost use Rattle.file_messages.specs.declared.message.Request.{Request};
ghost use Rattle.file_messages.specs.Messages.{request_bytes, reply_of};
ghost use Rattle.file_messages.specs.Runs.{end_request};
ghost use Rattle.file_pasts.specs.ClientPast.{ClientEvent, Sent, Replied, reply_fault as refusal_of, answers, has_failed, fault_of_reading};
ghost use Rattle.file_transfer.specs.ClientStands.{AskedStand, awaited_in, awaited_by, pages_named, first_named, first_asked, with_error};

use crate::loaded_page::LoadedPage;
use crate::writing::write_end;
use file_messages::{Asked, END, FileFault, ReplyFault, reply_fault};
use smbd_base::{Message, NoMemory, u16_at};
use std::alloc::Global;
use std::collections::VecDeque;

/// A request without a reply: what its reply has to answer, and the pages that it named.
#[derive(Drop)]
pub struct Unanswered {
    pub asked: Asked,
    pub pages: Vec<LoadedPage>,
}

/// The requests that were given.
#[derive(Drop)]
pub struct ClientRequests {
    unanswered: VecDeque<Unanswered>,
    /// How many were given.
    sent: u32,
    /// How a reply was refused.
    fault: Option<ReplyFault>,
}

impl ClientRequests {
    pub fn new(alloc: Global) -> ClientRequests
        ensures { AskedStand [] result }
    {
        ClientRequests {
            unanswered: VecDeque::new(alloc),
            sent: 0,
            fault: None,
        }
    }

    /// A reply was refused.
    pub fn has_failed(&self) -> bool
        ensures { (past : List ClientEvent) → AskedStand past self.now → result ≡ has_failed past }
    {
        self.fault.is_some()
    }

    /// How many requests have no reply.
    pub fn unanswered(&self) -> usize
        ensures { (past : List ClientEvent) → AskedStand past self.now → result ≡ length (answers past).unanswered }
    {
        self.unanswered.len()
    }

    /// How many requests were given.
    pub fn sent(&self) -> u32
        ensures { result ≡ self.now.sent }
    {
        self.sent
    }

    /// Makes room for one more request.
    pub fn reserve(&mut self) -> Result<(), NoMemory>
        ensures ok { OnOk result (deque_len self.new.unanswered < deque_capacity self.new.unanswered) }
        ensures same { (past : List ClientEvent) → AskedStand past self.old → AskedStand past self.new }
        ensures count { self.new.sent ≡ self.old.sent }
    {
        self.unanswered.reserve(1)?;
        Ok(())
    }

    /// A request is given.
    pub fn ask(&mut self, request: Unanswered)
        requires room { deque_len self.old.unanswered < deque_capacity self.old.unanswered }
        requires numbered { self.old.sent < 4294967295 }
        ensures { (past : List ClientEvent) (r : Request) → AskedStand past self.old → awaited_in request ≡ awaited_by r → AskedStand (Sent r ∷ past) self.new }
    {
        self.sent += 1;
        self.unanswered.push_back_reserved(request);
    }

    /// Gives END, so many bytes of the copy standing before it.
    pub fn ask_end(&mut self, alloc: Global, offset: u64) -> Result<Message, NoMemory>
        requires { self.old.sent < 4294967295 }
        ensures message { IfOk result (λ m. m ≡ request_bytes (end_request (self.old.sent + 1) offset)) }
        ensures after { (past : List ClientEvent) → AskedStand past self.old → OnOk result (AskedStand (Sent (end_request (self.old.sent + 1) offset) ∷ past) self.new) }
        ensures same { (past : List ClientEvent) → AskedStand past self.old → OnErr result (AskedStand past self.new) }
    {
        let asked = Asked {
            op: END,
            channel: 0,
            id: self.sent + 1,
            length: 0,
        };
        let message = write_end(alloc, self.sent + 1, offset)?;
        self.reserve()?;
        self.ask(Unanswered {
            asked,
            pages: Vec::new(alloc),
        });
        Ok(message)
    }

    /// Takes a reply: the pages that the request named which it answers.
    pub fn reply(&mut self, message: &Message) -> Result<Vec<LoadedPage>, ReplyFault>
        ensures answer { (past : List ClientEvent) → AskedStand past self.old → with_error result ≡ refusal_of (answers past) message.now }
        ensures named { (past : List ClientEvent) → AskedStand past self.old → IfOk result (λ pages. pages_named pages ≡ first_named (answers past).unanswered) }
        ensures after { (past : List ClientEvent) → AskedStand past self.old → AskedStand (Replied message.now ∷ past) self.new }
    {
        if let Some(fault) = self.fault_of(message) {
            self.fault = Some(fault);
            return Err(fault);
        }
        let Some(answered) = self.unanswered.pop_front() else {
            unreachable!();
        };
        Ok(answered.pages)
    }

    /// How a message is refused as a reply.
    fn fault_of(&self, message: &Message) -> Option<ReplyFault>
        ensures value { (past : List ClientEvent) → AskedStand past self.now → result ≡ refusal_of (answers past) message.now }
        ensures none { IsNone result → 0 < length self.now.unanswered.items }
    {
        if let Some(fault) = self.fault {
            return Some(fault);
        }
        match self.oldest() {
            Some(asked) => fault_in(message.bytes(), &asked),
            None => Some(ReplyFault::File(FileFault::Order)),
        }
    }

    /// What the next reply has to answer.
    fn oldest(&self) -> Option<Asked>
        ensures some { IfSome result (λ asked. first_asked self.now.unanswered.items ≡ Some asked) }
        ensures none { IsNone result → self.now.unanswered.items ≡ [] }
    {
        match self.unanswered.front() {
            Some(request) => Some(request.asked),
            None => None,
        }
    }
}

/// Why a message is no reply of success to what was asked.
fn fault_in(bytes: &[u8], asked: &Asked) -> Option<ReplyFault>
    ensures { result ≡ fault_of_reading (reply_of asked.now bytes.now) }
{
    match reply_fault(bytes, asked) {
        Some(fault) => Some(ReplyFault::File(fault)),
        None if u16_at(bytes, 2) != 0 => Some(ReplyFault::Status(u16_at(bytes, 2))),
        None => None,
    }
}
