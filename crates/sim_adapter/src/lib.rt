//! Adapters between two ends, or before one (this project's own).
//!
//! `Link` lies between two ends: words and slots that both step on at the same time, without a lock. For each direction there are
//! as many slots as the receiver has credits, and the frame after `n` others lies in slot `n` modulo these credits. For each end
//! there are three counts, of the receives that it posted and of the frames that it sent and took, and for both one word that
//! says whether the link is cut. `RawLink` lies before one end, whose peer may send anything.
#![tactic(auto)]

mod answer;
mod calls;
mod link;
mod pass;
mod place;
mod plays;
mod raw_link;
mod view;

pub use answer::{Emit, Taken};
pub use link::Link;
pub use pass::Pass;
pub use raw_link::{Arrive, RawLink};
pub use view::{EndView, Ends, Turn, View};
