//! One end of an SMB Direct connection: what it sends, what it takes and what it delivers (MS-SMBD 3.1).
//!
//! An end has no adapter, no lock and no clock. Whoever owns it asks what comes `next`, `commit`s that, and lends
//! it the frames that the peer sent. Contracts see its side, its limits, its history and the event that is prepared;
//! what each call answers is a definition of `smbd_base` over that history.
#![tactic(auto)]

mod end;
mod frames;
mod heard;
mod history;
mod outgoing;
mod peer;
mod refused;
mod track;

pub use end::End;
pub use refused::{SubmitRefused, TakeRefused};
pub use smbd_base::{Agreed, Next, SubmitFault, TakeFault};
