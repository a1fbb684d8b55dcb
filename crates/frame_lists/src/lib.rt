//! Lists of frames of any SMB Direct stack, and what each frame says (this project's own).
//!
//! Each line has one frame: `C` for the client that sent it or `S` for the server, one space, and the frame in hex. The
//! digits are of either case, an even number of them, from 2 to 16,384. Lines are ended by line feeds. The last one may
//! lack its own.
//!
//! A list is described by one line a frame, which begins with the same `C` or `S` and a space. The first line of the client
//! is read as a negotiate request, the first line of the server as a negotiate response to a client of the usual limits,
//! and every other line as a data transfer message. Each is read by itself.
//!
//! | Read | Text |
//! |---|---|
//! | a request | `request asked` CreditsRequested `send` PreferredSendSize `receive` MaxReceiveSize `fragmented` MaxFragmentedSize |
//! | a response | `response asked` CreditsRequested `granted` CreditsGranted `readwrite` MaxReadWriteSize `send` PreferredSendSize `receive` MaxReceiveSize `fragmented` MaxFragmentedSize |
//! | a data transfer message | `data asked` CreditsRequested `granted` CreditsGranted `flags` Flags `remaining` RemainingDataLength `payload` the payload's length |
//! | none of these | `fault` and the fault's name, as `fault Offset` |
//!
//! Numbers are decimal. What remains is 0 where there is no payload.
#![tactic(auto)]

mod awaited;
mod fault;
mod list;
mod message;
mod reading;

pub use fault::FrameListFault;
pub use list::{describe, first_bad_line};
