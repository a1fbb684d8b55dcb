//! What a machine of the file layer asks of the workers of its end, and what comes of it.

use buffer_descriptor::Descriptor;
use smbd_base::{Message, Right, Token};

/// Work on registered pages.
#[derive(Debug, Drop)]
pub enum Work {
    /// Register the page with these bytes, for the peer to use by this right.
    Load {
        page: u8,
        right: Right,
        bytes: Message,
    },
    /// Read the peer's bytes that the descriptor names (RDMA Read).
    Fetch {
        descriptor: Descriptor,
    },
    /// Write the bytes where the peer's descriptor says (RDMA Write).
    Place {
        descriptor: Descriptor,
        bytes: Message,
    },
    /// Take back the page of this token, with what is in it.
    Unload {
        token: Token,
    },
}

/// A piece of work with its number. A machine numbers its jobs from 0, in the order in which it gives them.
#[derive(Debug, Drop)]
pub struct Job {
    pub number: u64,
    pub work: Work,
}

/// What came of a job.
#[derive(Debug, Drop)]
pub enum WorkResult {
    /// Of a Load: the descriptor of the loaded bytes.
    Loaded(Descriptor),
    /// Of a Fetch: the bytes, as many as its descriptor names.
    Fetched(Message),
    /// Of a Place.
    Placed,
    /// Of an Unload: the 4,096 bytes of the page.
    Unloaded(Message),
    /// Of any job: the access was refused, for the cause of this number, from 1 to 6.
    Refused(u16),
}

/// What came of the job with this number.
#[derive(Debug, Drop)]
pub struct Completion {
    pub number: u64,
    pub result: WorkResult,
}
