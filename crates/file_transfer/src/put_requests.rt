//! The requests of a put, and their replies.

ghost use Rattle.std.specs.Prelude.{◌≡◌, ◌==◌, ◌&&◌, ◌+◌, ◌^◌, ◌<◌, ◌≤◌, ℕ, Bool, true, false, List, [], ◌∷◌, Option, None, Some, IfOk, OnOk, OnErr, IfSome, IsNone, option_map, map, length, drop};
ghost use Rattle.std.specs.VecDeque.{deque_len, deque_capacity};
ghost use Rattle.file_messages.specs.declared.layout.TheConstants.{GROUP_SIZE};
ghost use Rattle.file_messages.specs.declared.message.Request.{Request};
ghost use Rattle.file_messages.specs.Messages.{request_bytes, reply_of};
ghost use Rattle.file_pasts.specs.ClientPast.{ClientEvent, Group, End, Sent, Replied, groups_in, requests_sent, reply_fault as refusal_of, answers, has_failed, fault_of_reading};
ghost use Rattle.file_pasts.specs.PutDue.{Setup, Follows, next_request, is_finished};
ghost use Rattle.file_transfer.specs.ClientStands.{past_after_sending, awaited_in, awaited_by, pages_named, first_named, first_asked, with_error};
ghost use Rattle.file_transfer.specs.PutStands.{RequestsStand, AllSent, takes_groups, is_over as is_over_by};

use crate::client_requests::{ClientRequests, Unanswered};
use crate::loaded_page::LoadedPage;
use file_messages::{END, GROUP_SIZE, ReplyFault};
use smbd_base::{Message, NoMemory};
use std::alloc::Global;

/// The requests of a put that were given, and what is known of those to come.
#[derive(Drop)]
pub struct PutRequests {
    asked: ClientRequests,
    /// The bytes of the groups that they carry.
    offset: u64,
    ended: bool,
    /// No group was shorter than 65,536 bytes.
    whole: bool,
    end_sent: bool,
}

impl PutRequests {
    pub fn new(alloc: Global) -> PutRequests
        ensures { (s : Setup) → RequestsStand s [] result }
    {
        PutRequests {
            asked: ClientRequests::new(alloc),
            offset: 0,
            ended: false,
            whole: true,
            end_sent: false,
        }
    }

    /// A reply was refused.
    pub fn has_failed(&self) -> bool
        ensures { (s : Setup) (past : List ClientEvent) → RequestsStand s past self.now → result ≡ has_failed past }
    {
        self.asked.has_failed()
    }

    /// No group was shorter than 65,536 bytes, and their end was not told.
    pub fn goes_on(&self) -> bool
        ensures { (s : Setup) (past : List ClientEvent) → RequestsStand s past self.now → result ≡ takes_groups past }
    {
        !self.ended && self.whole
    }

    /// The requests without a reply.
    pub fn unanswered(&self) -> usize
        ensures { (s : Setup) (past : List ClientEvent) → RequestsStand s past self.now → result ≡ length (answers past).unanswered }
    {
        self.asked.unanswered()
    }

    /// The bytes before the next request.
    pub fn offset(&self) -> u64
        ensures { result ≡ self.now.offset }
    {
        self.offset
    }

    /// The requests that were given.
    pub fn sent(&self) -> u32
        ensures { result ≡ self.now.asked.sent }
    {
        self.asked.sent()
    }

    /// A group of so many bytes was handed in.
    pub fn take_group(&mut self, count: usize)
        ensures { (s : Setup) (past : List ClientEvent) (bytes : List ℕ) → RequestsStand s past self.old → Follows s (Group bytes) past
            → count ≡ length bytes → RequestsStand s (Group bytes ∷ past) self.new }
    {
        self.whole = self.whole_with(count);
    }

    fn whole_with(&self, count: usize) -> bool
        ensures { result ≡ (self.now.whole && count == GROUP_SIZE) }
    {
        self.whole && count == GROUP_SIZE as usize
    }

    /// No more groups come.
    pub fn end(&mut self)
        ensures { (s : Setup) (past : List ClientEvent) → RequestsStand s past self.old → RequestsStand s (End ∷ past) self.new }
    {
        self.ended = true;
    }

    /// Makes room for one more request.
    pub fn reserve(&mut self) -> Result<(), NoMemory>
        ensures ok { OnOk result (deque_len self.new.asked.unanswered < deque_capacity self.new.asked.unanswered) }
        ensures same { (s : Setup) (past : List ClientEvent) → RequestsStand s past self.old → RequestsStand s past self.new }
        ensures counts { (self.new.asked.sent ≡ self.old.asked.sent) × (self.new.offset ≡ self.old.offset) }
    {
        self.asked.reserve()
    }

    /// The request that was due is given.
    pub fn ask(&mut self, request: Unanswered)
        requires room { deque_len self.old.asked.unanswered < deque_capacity self.old.asked.unanswered }
        requires numbered { self.old.asked.sent < 4294967295 }
        requires fits { self.old.offset + request.asked.length < 2 ^ 64 }
        ensures { (s : Setup) (past : List ClientEvent) (r : Request) → RequestsStand s past self.old → next_request s past ≡ Some r
            → awaited_in request ≡ awaited_by r → RequestsStand s (Sent r ∷ past) self.new }
    {
        self.offset += u64::from(request.asked.length);
        self.end_sent = request.asked.op == END;
        self.asked.ask(request);
    }

    /// END, if it is due, where each group was sent.
    pub fn next_end(&mut self, alloc: Global) -> Result<Option<Message>, NoMemory>
        requires numbered { self.old.asked.sent < 4294967295 }
        requires fits { self.old.offset < 2 ^ 64 }
        ensures due { (s : Setup) (past : List ClientEvent) → RequestsStand s past self.old → AllSent past
            → IfOk result (λ m. m ≡ option_map request_bytes (next_request s past)) }
        ensures after { (s : Setup) (past : List ClientEvent) → RequestsStand s past self.old → AllSent past
            → OnOk result (RequestsStand s (past_after_sending (next_request s past) past) self.new) }
        ensures same { (s : Setup) (past : List ClientEvent) → RequestsStand s past self.old → OnErr result (RequestsStand s past self.new) }
    {
        if self.asked.has_failed() || !self.is_over() {
            return Ok(None);
        }
        let message = self.asked.ask_end(alloc, self.offset)?;
        self.end_sent = true;
        Ok(Some(message))
    }

    /// The groups have ended, END was not given, and each request has its reply.
    fn is_over(&self) -> bool
        ensures { (s : Setup) (past : List ClientEvent) → RequestsStand s past self.now → result ≡ is_over_by past }
    {
        self.ended && !self.end_sent && self.asked.unanswered() == 0
    }

    /// Takes a reply: the pages that the request named which it answers.
    pub fn reply(&mut self, message: &Message) -> Result<Vec<LoadedPage>, ReplyFault>
        ensures answer { (s : Setup) (past : List ClientEvent) → RequestsStand s past self.old → with_error result ≡ refusal_of (answers past) message.now }
        ensures named { (s : Setup) (past : List ClientEvent) → RequestsStand s past self.old → IfOk result (λ pages. pages_named pages ≡ first_named (answers past).unanswered) }
        ensures after { (s : Setup) (past : List ClientEvent) → RequestsStand s past self.old → RequestsStand s (Replied message.now ∷ past) self.new }
    {
        self.asked.reply(message)
    }

    /// Whether the reply to END was taken.
    pub fn finished(&self) -> bool
        ensures { (s : Setup) (past : List ClientEvent) → RequestsStand s past self.now → result ≡ is_finished past }
    {
        self.end_sent && self.asked.unanswered() == 0
    }
}
