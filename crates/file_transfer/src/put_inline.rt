//! The groups of a put without registered pages: each travels in its WRITE.

ghost use Rattle.std.specs.Prelude.{◌≡◌, ◌+◌, ◌-◌, ◌^◌, ◌<◌, ◌≤◌, ◌%◌, ℕ, List, [], ◌∷◌, Option, None, Some, IfOk, OnOk, OnErr, option_map, length};
ghost use Rattle.file_messages.specs.declared.layout.TheConstants.{GROUP_SIZE};
ghost use Rattle.file_messages.specs.Messages.{request_bytes};
ghost use Rattle.file_pasts.specs.ClientPast.{ClientEvent, Group, groups_in, requests_sent};
ghost use Rattle.file_pasts.specs.PutDue.{next_request};
ghost use Rattle.file_transfer.specs.ClientStands.{past_after_sending};
ghost use Rattle.file_transfer.specs.PutInlineStands.{InlineStands, InlinePutStands, MayAskInline, without_pages};

use crate::client_requests::Unanswered;
use crate::put_requests::PutRequests;
use crate::writing::{REQUEST_HEADER, write_inline};
use file_messages::{Asked, WRITE};
use smbd_base::{Message, NoMemory};
use std::alloc::Global;
use std::collections::VecDeque;

/// The groups that were handed in, each in its WRITE: the number and the offset of a WRITE are known when its group comes.
#[derive(Drop)]
pub struct InlineGroups {
    /// The WRITEs that were not given.
    waiting: VecDeque<Message>,
    /// The groups that were handed in, and their bytes.
    count: u64,
    bytes: u64,
}

impl InlineGroups {
    pub fn new(alloc: Global) -> InlineGroups
        ensures { InlineStands [] result }
    {
        InlineGroups {
            waiting: VecDeque::new(alloc),
            count: 0,
            bytes: 0,
        }
    }

    /// The groups whose WRITE was not given.
    pub fn waiting(&self) -> usize
        ensures { (past : List ClientEvent) → InlineStands past self.now → result ≡ length (groups_in past) - length (requests_sent past) }
    {
        self.waiting.len()
    }

    /// Takes the next group: its bytes are copied once, into the WRITE.
    pub fn hand(&mut self, alloc: Global, bytes: &[u8]) -> Result<(), NoMemory>
        requires short { length bytes.now ≤ GROUP_SIZE }
        requires counted { self.old.count < 2 ^ 40 }
        requires fits { self.old.bytes < 2 ^ 60 }
        ensures taken { (past : List ClientEvent) → InlineStands past self.old → length (requests_sent past) ≤ length (groups_in past)
            → OnOk result (InlineStands (Group bytes.now ∷ past) self.new) }
        ensures same { (past : List ClientEvent) → InlineStands past self.old → OnErr result (InlineStands past self.new) }
    {
        let id = ((self.count + 1) % 0x1_0000_0000) as u32;
        let message = write_inline(alloc, id, self.bytes, bytes)?;
        self.waiting.push_back(message)?;
        self.count += 1;
        self.bytes += bytes.len() as u64;
        Ok(())
    }
}

/// The next request that is due.
pub fn next_inline(
    alloc: Global,
    requests: &mut PutRequests,
    groups: &mut InlineGroups,
) -> Result<Option<Message>, NoMemory>
    requires { MayAskInline requests.old groups.old }
    ensures due { (w : ℕ) (past : List ClientEvent) → InlinePutStands w past requests.old groups.old
        → IfOk result (λ m. m ≡ option_map request_bytes (next_request (without_pages w) past)) }
    ensures after { (w : ℕ) (past : List ClientEvent) → InlinePutStands w past requests.old groups.old
        → OnOk result (InlinePutStands w (past_after_sending (next_request (without_pages w) past) past) requests.new groups.new) }
    ensures same { (w : ℕ) (past : List ClientEvent) → InlinePutStands w past requests.old groups.old
        → OnErr result (InlinePutStands w past requests.new groups.new) }
{
    if requests.has_failed() {
        return Ok(None);
    }
    requests.reserve()?;
    let Some(message) = groups.waiting.pop_front() else {
        return requests.next_end(alloc);
    };
    let asked = Asked {
        op: WRITE,
        channel: 0,
        id: requests.sent() + 1,
        length: (message.len() - REQUEST_HEADER) as u32,
    };
    requests.ask(Unanswered {
        asked,
        pages: Vec::new(alloc),
    });
    Ok(Some(message))
}
