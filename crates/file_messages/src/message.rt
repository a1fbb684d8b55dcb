//! Requests and replies.

ghost use Rattle.std.specs.Prelude.{◌≡◌};
ghost use Rattle.file_messages.specs.Messages.{asked_by};

use buffer_descriptor::Descriptors;
use smbd_base::Message;

/// A request of a client: a WRITE or a READ of some bytes of the copy, or the END of the copy (the layout is this
/// project's own, after MS-SMB2 2.2.19 and 2.2.21).
#[derive(Debug, Drop)]
pub struct Request {
    /// 1 WRITE, 2 READ, 3 END.
    pub op: u16,
    /// 0 none, 1 registered pages (RDMA_V1).
    pub channel: u16,
    /// The number of the request, from 1, one more at each.
    pub id: u32,
    /// The bytes of the copy before this request.
    pub offset: u64,
    /// How many bytes are written or asked for, from 1 to 65,536; 0 for END.
    pub length: u32,
    /// From 1 to 16 with registered pages, else none.
    pub descriptors: Descriptors,
    /// The bytes of a WRITE without registered pages, else none.
    pub inline: Message,
}

impl Request {
    /// What its reply is to answer.
    pub fn asked(&self) -> Asked
        ensures { result ≡ asked_by self.now }
    {
        Asked {
            op: self.op,
            channel: self.channel,
            id: self.id,
            length: self.length,
        }
    }
}

/// A reply of a server (the layout is this project's own, after MS-SMB2 2.2.20 and 2.2.22).
#[derive(Debug, Drop)]
pub struct Reply {
    /// That of the request, with 0x8000 added.
    pub op: u16,
    /// 0, or from 1 to 6 the number of the cause for which an access to a registered page was refused.
    pub status: u16,
    /// The number of the request.
    pub id: u32,
    /// How many bytes were written or read; 0 for END and where the status is not 0.
    pub count: u32,
    /// The bytes of a READ without registered pages, else none.
    pub inline: Message,
}

/// What a reply is to answer: the fields of its request that it is read by.
#[derive(Clone, Copy, Debug, PartialEq, Eq)]
pub struct Asked {
    pub op: u16,
    pub channel: u16,
    pub id: u32,
    pub length: u32,
}
