//! Data transfer messages (MS-SMBD 2.2.3): reading one from bytes, and writing the header of one.
//!
//! What the bytes of a message say, and the one form in which a message is written, are definitions of
//! `smbd_base`. No call takes memory.
#![tactic(auto)]

mod header;
mod laws;
mod layout;
mod reading;
mod view;
mod writing;

pub use header::Header;
pub use laws::written_messages_are_read;
pub use layout::HEADER_SIZE;
pub use reading::read;
pub use smbd_base::FrameFault;
pub use view::DataView;
pub use writing::write;
