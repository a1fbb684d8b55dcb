//! A get without registered pages: each group comes in the reply to its READ.

ghost use Rattle.std.specs.Prelude.{◌≡◌, ◌<◌, ◌≤◌, ◌+◌, ◌++◌, ℕ, List, [], ◌∷◌, Option, None, IfOk, OnOk, OnErr, option_map, length, drop, take};
ghost use Rattle.file_messages.specs.declared.kind.Channel.TheVariants as channels;
ghost use Rattle.file_messages.specs.Messages.{request_bytes};
ghost use Rattle.file_pasts.specs.ClientPast.{ClientEvent, Replied, answers, reply_fault};
ghost use Rattle.file_pasts.specs.GetDue.{IsGet, next_request};
ghost use Rattle.file_transfer.specs.ClientStands.{past_after_sending};
ghost use Rattle.file_transfer.specs.GetStands.{GroupsStand};
ghost use Rattle.file_transfer.specs.GetClientStands.{InlineGetStands, MayAskInline, MayTakeReply};

use crate::get_groups::GetGroups;
use crate::get_requests::GetRequests;
use file_messages::Channel;
use smbd_base::{Message, NoMemory, u32_at};
use std::alloc::Global;

/// The bytes of a reply before what it carries.
const REPLY_HEADER: usize = 12;

/// The next request that is due.
pub fn next_inline(
    alloc: Global,
    requests: &mut GetRequests,
    groups: &mut GetGroups,
) -> Result<Option<Message>, NoMemory>
    requires { MayAskInline requests.old groups.old }
    ensures due { (past : List ClientEvent) → InlineGetStands past requests.old groups.old
        → IfOk result (λ m. m ≡ option_map request_bytes (next_request channels.None past)) }
    ensures after { (past : List ClientEvent) → InlineGetStands past requests.old groups.old
        → OnOk result (InlineGetStands (past_after_sending (next_request channels.None past) past) requests.new groups.new) }
    ensures same { (past : List ClientEvent) → InlineGetStands past requests.old groups.old
        → OnErr result (InlineGetStands past requests.new groups.new) }
{
    if !requests.may_ask() {
        return Ok(None);
    }
    if !requests.goes_on() {
        let message = requests.end(alloc)?;
        return Ok(Some(message));
    }
    groups.make_room(alloc)?;
    let message = requests.read(alloc, Channel::None, Vec::new(alloc))?;
    Ok(Some(message))
}

/// The reply was taken: the bytes that it carries came.
pub fn take_carried(groups: &mut GetGroups, message: &Message)
    requires { MayTakeReply groups.old message.now }
    ensures { (past : List ClientEvent) → IsGet channels.None past → GroupsStand channels.None past groups.old → reply_fault (answers past) message.now ≡ None
        → GroupsStand channels.None (Replied message.now ∷ past) groups.new }
{
    let bytes = message.bytes();
    let count = u32_at(bytes, 8) as usize;
    if count > 0 {
        groups.take(carried(bytes, count));
    }
}

/// So many bytes after the header of a reply.
fn carried(reply: &[u8], count: usize) -> &[u8]
    requires { 12 + count ≤ length reply.now }
    ensures { result.now ≡ take count (drop 12 reply.now) }
{
    &reply[REPLY_HEADER..][..count]
}
