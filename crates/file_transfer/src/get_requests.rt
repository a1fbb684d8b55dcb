//! The requests of a get, and their replies.

ghost use Rattle.std.specs.Prelude.{◌≡◌, ◌==◌, ◌<◌, ◌≤◌, ℕ, List, [], ◌∷◌, Option, Some, IfOk, OnOk, OnErr, length};
ghost use Rattle.file_messages.specs.Messages.{request_bytes};
ghost use Rattle.file_pasts.specs.ClientPast.{ClientEvent, Sent, Replied, reply_fault as refusal_of, answers, has_failed};
ghost use Rattle.file_pasts.specs.GetDue.{next_request, is_finished, goes_on as goes_on_by};
ghost use Rattle.file_transfer.specs.ClientStands.{pages_named, first_named, with_error};
ghost use Rattle.file_transfer.specs.GetStands.{GetStands, IsOfAGet, may_ask as may_ask_by, read_after, end_after};

use crate::client_requests::{ClientRequests, Unanswered};
use crate::loaded_page::LoadedPage;
use crate::writing::write_over_pages;
use file_messages::{Asked, Channel, GROUP_SIZE, READ, ReplyFault};
use smbd_base::{Message, NoMemory, u32_at};
use std::alloc::Global;

/// The requests of a get that were given, and what their replies told.
#[derive(Drop)]
pub struct GetRequests {
    asked: ClientRequests,
    /// The bytes that came.
    offset: u64,
    /// The count of the last reply, and that of a whole READ before the first.
    last: u32,
    end_sent: bool,
}

impl GetRequests {
    ghost use Rattle.file_messages.specs.declared.kind.Channel.{Channel};

    pub fn new(alloc: Global) -> GetRequests
        ensures { (channel : Channel) → GetStands channel [] result }
    {
        GetRequests {
            asked: ClientRequests::new(alloc),
            offset: 0,
            last: GROUP_SIZE,
            end_sent: false,
        }
    }

    /// A reply was refused.
    pub fn has_failed(&self) -> bool
        ensures { (channel : Channel) (past : List ClientEvent) → GetStands channel past self.now → result ≡ has_failed past }
    {
        self.asked.has_failed()
    }

    /// How many requests were given.
    pub fn sent(&self) -> u32
        ensures { result ≡ self.now.asked.sent }
    {
        self.asked.sent()
    }

    /// The count of the last reply.
    pub fn last(&self) -> u32
        ensures { result ≡ self.now.last }
    {
        self.last
    }

    /// The last READ gave its whole length, or there was none.
    pub fn goes_on(&self) -> bool
        ensures { (channel : Channel) (past : List ClientEvent) → GetStands channel past self.now → result ≡ goes_on_by past }
    {
        self.last == GROUP_SIZE
    }

    /// No reply was refused, END was not given, and each request has its reply.
    pub fn may_ask(&self) -> bool
        ensures { (channel : Channel) (past : List ClientEvent) → GetStands channel past self.now → result ≡ may_ask_by past }
    {
        !self.asked.has_failed() && !self.end_sent && self.asked.unanswered() == 0
    }

    /// Gives the next READ, whose bytes are to travel so.
    pub fn read(
        &mut self,
        alloc: Global,
        channel: Channel,
        pages: Vec<LoadedPage>,
    ) -> Result<Message, NoMemory>
        requires few { length pages.items ≤ 16 }
        requires numbered { self.old.asked.sent < 4294967295 }
        ensures message { IfOk result (λ m. m ≡ request_bytes (read_after self.old channel pages)) }
        ensures after { (past : List ClientEvent) → GetStands channel past self.old → next_request channel past ≡ Some (read_after self.old channel pages)
            → OnOk result (GetStands channel (Sent (read_after self.old channel pages) ∷ past) self.new) }
        ensures same { (past : List ClientEvent) → GetStands channel past self.old → OnErr result (GetStands channel past self.new) }
    {
        let asked = Asked {
            op: READ,
            channel: channel.number(),
            id: self.asked.sent() + 1,
            length: GROUP_SIZE,
        };
        let message = write_over_pages(alloc, &asked, self.offset, pages.as_slice())?;
        self.asked.reserve()?;
        self.asked.ask(Unanswered { asked, pages });
        Ok(message)
    }

    /// Gives END.
    pub fn end(&mut self, alloc: Global) -> Result<Message, NoMemory>
        requires { self.old.asked.sent < 4294967295 }
        ensures message { IfOk result (λ m. m ≡ request_bytes (end_after self.old)) }
        ensures after { (channel : Channel) (past : List ClientEvent) → GetStands channel past self.old → next_request channel past ≡ Some (end_after self.old)
            → OnOk result (GetStands channel (Sent (end_after self.old) ∷ past) self.new) }
        ensures same { (channel : Channel) (past : List ClientEvent) → GetStands channel past self.old → OnErr result (GetStands channel past self.new) }
    {
        let message = self.asked.ask_end(alloc, self.offset)?;
        self.end_sent = true;
        Ok(message)
    }

    /// Takes a reply: the pages that the request named which it answers.
    pub fn reply(&mut self, message: &Message) -> Result<Vec<LoadedPage>, ReplyFault>
        requires { IsOfAGet self.old }
        ensures answer { (channel : Channel) (past : List ClientEvent) → GetStands channel past self.old → with_error result ≡ refusal_of (answers past) message.now }
        ensures named { (channel : Channel) (past : List ClientEvent) → GetStands channel past self.old → IfOk result (λ pages. pages_named pages ≡ first_named (answers past).unanswered) }
        ensures after { (channel : Channel) (past : List ClientEvent) → GetStands channel past self.old → GetStands channel (Replied message.now ∷ past) self.new }
    {
        let _sent = self.asked.sent();
        let pages = self.asked.reply(message)?;
        let count = u32_at(message.bytes(), 8);
        self.offset += u64::from(count);
        self.last = count;
        Ok(pages)
    }

    /// Whether the reply to END was taken.
    pub fn finished(&self) -> bool
        ensures { (channel : Channel) (past : List ClientEvent) → GetStands channel past self.now → result ≡ is_finished past }
    {
        self.end_sent && self.asked.unanswered() == 0
    }
}
