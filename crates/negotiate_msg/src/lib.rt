//! Negotiation messages (MS-SMBD 2.2.1 and 2.2.2): reading a request or a response from bytes, writing one, answering a
//! request, and what the two ends have agreed.
//!
//! What the bytes of a message say, which numbers an end accepts, the answer and the one form in which a message is
//! written are definitions of `smbd_base`. No call takes memory.
#![tactic(auto)]

mod answering;
mod layout;
mod reading;
mod request;
mod response;
mod writing;

pub use answering::{answer, refusal, settle, settle_with_client};
pub use layout::{REQUEST_SIZE, RESPONSE_SIZE};
pub use reading::{read_request, read_response};
pub use request::NegotiateRequest;
pub use response::NegotiateResponse;
pub use smbd_base::{Agreed, NegotiateFault};
pub use writing::{write_request, write_response};
