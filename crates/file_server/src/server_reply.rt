//! Replies, written.

ghost use Rattle.std.specs.Prelude.{◌≡◌, ◌<◌, ◌≤◌, [], length, IfOk};
ghost use Rattle.file_messages.specs.declared.layout.TheConstants.{GROUP_SIZE};
ghost use Rattle.file_messages.specs.Messages.{reply_bytes, success, refusal};
ghost use Rattle.file_server.specs.ServerTurn.{header_in};

use file_messages::Request;
use smbd_base::{Message, NoMemory};
use std::alloc::Global;

/// What a reply has before the bytes of a READ.
#[derive(Clone, Copy)]
pub(crate) struct ReplyHeader {
    pub(crate) op: u16,
    pub(crate) status: u16,
    pub(crate) id: u32,
    pub(crate) count: u32,
}

const HEADER: usize = 12;

/// What the op of a reply has beside that of its request.
const REPLY: u16 = 0x8000;

impl ReplyHeader {
    /// The reply of success to a request, with this count.
    pub(crate) fn success(request: &Request, count: u32) -> ReplyHeader
        requires { request.now.op < 32768 }
        ensures { result ≡ header_in (success request.now count []) }
    {
        ReplyHeader {
            op: request.op + REPLY,
            status: 0,
            id: request.id,
            count,
        }
    }

    /// The reply that refuses a request with this status.
    pub(crate) fn refusal(request: &Request, status: u16) -> ReplyHeader
        requires { request.now.op < 32768 }
        ensures { result ≡ header_in (refusal request.now status) }
    {
        ReplyHeader {
            op: request.op + REPLY,
            status,
            id: request.id,
            count: 0,
        }
    }
}

/// The reply of this header with these bytes, which are copied once.
pub(crate) fn reply_of(
    alloc: Global,
    header: ReplyHeader,
    bytes: &[u8],
) -> Result<Message, NoMemory>
    requires { length bytes.now ≤ GROUP_SIZE }
    ensures { IfOk result (λ m. m ≡ reply_bytes (record { op = header.op; status = header.status; id = header.id; count = header.count; inline = bytes.now })) }
{
    let mut reply = Vec::with_capacity(alloc, HEADER + bytes.len())?;
    reply.extend_from_slice(&header.op.to_le_bytes())?;
    reply.extend_from_slice(&header.status.to_le_bytes())?;
    reply.extend_from_slice(&header.id.to_le_bytes())?;
    reply.extend_from_slice(&header.count.to_le_bytes())?;
    reply.extend_from_slice(bytes)?;
    Message::of_bytes(reply)
}
