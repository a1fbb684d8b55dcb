//! An end of a connection beside its pass of a link (this project's own): what comes next at the end is done on the link too, and
//! what comes over the link is taken by the end. Both ends of a link may go on at the same time, each on a thread of its own.
//!
//! Contracts see what the pass knows (`sim_adapter`): its end's side, limits and history, and what it has seen of the peer. The
//! history of the end is that of the pass, unless memory was wanting as a frame was taken: then the end is over for good.
#![tactic(auto)]

mod answer;
mod calls;
mod link_end;
mod meeting;

pub use answer::{Driven, Received};
pub use link_end::LinkEnd;
pub use meeting::meet;
