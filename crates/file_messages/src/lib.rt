//! File requests and replies, laid out after SMB2 READ and WRITE (MS-SMB2 2.2.19 to 2.2.22; the layout is this project's
//! own), the jobs on registered pages that carry their bytes, and the requests and replies of a whole put and a whole get.
//!
//! What bytes say as a request or a reply, their one written form, and the lists of a put and of a get are definitions in
//! `specs/`. Nothing here keeps a state.
#![tactic(auto)]

mod descriptors;
mod fault;
mod job;
mod kind;
mod laws;
mod layout;
mod message;
mod reading;
mod worked;
mod writing;

pub use fault::{FileFault, ReplyFault};
pub use job::{Completion, Job, Work, WorkResult};
pub use kind::{Channel, CopyKind};
pub use laws::{requests_of_copies_are_read, written_replies_are_read, written_requests_are_read};
pub use layout::{END, GROUP_SIZE, READ, REPLY, WRITE};
pub use message::{Asked, Reply, Request};
pub use reading::{read_reply, read_request, reply_fault, request_fault};
pub use worked::{worked_copies, worked_messages};
pub use writing::{request_header, write_reply, write_request};
