//! What a worker keeps of a job, and what one try of it came to.

use file_messages::{Completion, Job};
use smbd_base::{Right, Token};

/// What is left to be done of a job.
#[derive(Drop)]
pub enum Kept {
    /// All of it.
    Fresh(Job),
    /// Of a Load, its page is loaded under this token with so many bytes, and its record is still to be issued.
    Loaded {
        number: u64,
        token: Token,
        right: Right,
        length: u32,
    },
    /// Of an Unload, the record of its token is gone, and the page is still to be unloaded.
    Withdrawn {
        number: u64,
        token: Token,
    },
}

/// What one try of a job came to.
#[derive(Drop)]
pub enum Tried {
    /// It is finished.
    Finished(Completion),
    /// A part of it was done, and this is left.
    Begun(Kept),
    /// Nothing was done.
    Refused,
}
