//! Why a request or a reply is refused.

use smbd_base::NoMemory;
use thiserror::Error;

/// Why bytes are no request, or no reply to what was asked. The faults stand in the order in which they are looked for
/// (this project's own).
#[derive(Clone, Copy, Debug, PartialEq, Eq, Error)]
pub enum FileFault {
    /// Fewer bytes than the header, or than the descriptors that it counts.
    #[error("the message is too short")]
    Short,
    /// Of a request: no op. Of a reply: not the op of what was asked, with 0x8000 added.
    #[error("no such op")]
    Op,
    /// Neither no channel nor RDMA_V1.
    #[error("no such channel")]
    Channel,
    /// Not from 1 to 16 descriptors where the op and the channel ask for some, or any where they ask for none.
    #[error("the wrong number of descriptors")]
    Count,
    /// A length or a count that is out of range, or is not that of the bytes or descriptors that it tells of; or a
    /// descriptor that names nothing, or passes 2^64.
    #[error("a wrong length")]
    Length,
    /// Two descriptors have a byte in common.
    #[error("two descriptors overlap")]
    Overlap,
    /// The message does not come in its turn.
    #[error("the message is out of turn")]
    Order,
    /// No memory could be had. No clause says when this comes.
    #[error("no memory")]
    NoMemory,
}

impl From<NoMemory> for FileFault {
    ghost use Rattle.std.specs.Prelude.{◌≡◌};
    ghost use Rattle.file_messages.specs.declared.fault.FileFault.TheVariants as faults;

    ghost from_gives = { λ _ e. e ≡ faults.NoMemory };

    fn from(_refused: NoMemory) -> FileFault {
        FileFault::NoMemory
    }
}

/// Why a client does not take a reply (this project's own).
#[derive(Clone, Copy, Debug, PartialEq, Eq)]
pub enum ReplyFault {
    /// It is no reply to the oldest request that has none.
    File(FileFault),
    /// The server refused the request with this status, from 1 to 6: the number of the cause for which an access to a
    /// registered page was refused.
    Status(u16),
}
