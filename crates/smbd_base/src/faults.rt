//! Why an end refuses what it is given. Each enum has its faults in the order in which they are looked for.

use thiserror::Error;

/// Why bytes are no negotiation message that an end accepts (MS-SMBD 2.2.1 and 2.2.2; the bounds are this project's own).
/// `Status` is looked for right after `Short`.
#[derive(Clone, Copy, Debug, PartialEq, Eq, Error)]
pub enum NegotiateFault {
    /// Fewer than 20 bytes of a request, or than 32 of a response.
    #[error("the negotiation message is too short")]
    Short,
    /// A request's versions leave out 0x0100, or a response's NegotiatedVersion is another.
    #[error("the version is not 0x0100")]
    Version,
    /// CreditsRequested is 0.
    #[error("no credits are requested")]
    Credits,
    /// CreditsGranted is 0, or more than the client requested.
    #[error("no credits are granted, or more than were requested")]
    Granted,
    /// A response's PreferredSendSize is above the client's MaxReceiveSize.
    #[error("PreferredSendSize is above the client's MaxReceiveSize")]
    SendSize,
    /// MaxReceiveSize is below 128.
    #[error("MaxReceiveSize is below 128")]
    ReceiveSize,
    /// MaxFragmentedSize is below 131,072.
    #[error("MaxFragmentedSize is below 131072")]
    FragmentedSize,
    /// A response's Status is not STATUS_SUCCESS.
    #[error("the server refused the negotiation")]
    Status,
}

/// Why bytes are no data transfer message (MS-SMBD 2.2.3 and 3.1.5.8).
#[derive(Clone, Copy, Debug, PartialEq, Eq, Error)]
pub enum FrameFault {
    /// Fewer than 20 bytes.
    #[error("a data transfer message has at least 20 bytes")]
    Short,
    /// There is a payload, and DataOffset is below 24 or no multiple of 8.
    #[error("DataOffset is below 24 or no multiple of 8")]
    Offset,
    /// There is a payload, and it passes the end of the bytes.
    #[error("the payload passes the end of the message")]
    Length,
}

/// Why a piece does not go on with the message that is begun, or can't begin one (MS-SMBD 3.1.5.8).
#[derive(Clone, Copy, Debug, PartialEq, Eq, Error)]
pub enum Broken {
    /// A message is begun, and the piece and the bytes after it are not just the bytes that were left of it.
    #[error("{found} bytes of the message where {expected} were left")]
    Total { expected: u64, found: u64 },
    /// No message is begun, and this one would have more bytes than may be gathered.
    #[error("a message of {total} bytes is longer than {max}")]
    TooLong { total: u64, max: u32 },
}

/// Why an end refuses a frame.
#[derive(Clone, Copy, Debug, PartialEq, Eq, Error)]
pub enum TakeFault {
    /// The peer has used each credit that it was granted, or it spoke before the client's request.
    #[error("no receive was promised for this frame")]
    OutOfTurn,
    /// The frame has more bytes than the end's MaxReceiveSize.
    #[error("a frame of {length} bytes is longer than {limit}")]
    Oversize { length: u64, limit: u32 },
    /// The first frame is no negotiation message that the end accepts.
    #[error("{0}")]
    Negotiate(NegotiateFault),
    /// It can't be read as a data transfer message.
    #[error("{0}")]
    Frame(FrameFault),
    /// It carries a piece that does not fit.
    #[error("{0}")]
    Gather(Broken),
    /// No memory could be had.
    #[error("no memory")]
    NoMemory,
}

/// Why an end refuses a message.
#[derive(Clone, Copy, Debug, PartialEq, Eq, Error)]
pub enum SubmitFault {
    /// The end was cut, or it has refused a frame.
    #[error("the end is closed")]
    Closed,
    /// The message has no byte.
    #[error("the message is empty")]
    Empty,
    /// The message is longer than may be sent.
    #[error("the message is too long")]
    TooLong,
    /// No memory could be had.
    #[error("no memory")]
    NoMemory,
}
