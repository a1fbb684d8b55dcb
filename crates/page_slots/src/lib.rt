//! A pool of pages that a remote peer may fetch from or place into, under tokens.
//!
//! Each page is a machine with four steps: load, fetch, place and unload. A call either does one step or changes
//! nothing.
#![tactic(auto)]

mod answers;
mod page_pass;
mod pages;
mod slot;

pub use answers::{Access, Load};
pub use page_pass::{PagePass, Passes};
pub use pages::Pages;
