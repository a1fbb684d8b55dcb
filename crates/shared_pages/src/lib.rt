//! A pool of pages that many threads share, without a lock.
//!
//! Each page has a word, which counts the entries of its life or says that a pass has it in hand, and a slot with its
//! content. A call takes the page out with one swap, does its step, and gives it back; none waits.
#![tactic(auto)]

mod answers;
mod calls;
mod laws;
mod page_pass;
mod pages;
mod plays;
mod slot;
mod sweeps;
mod view;

pub use answers::{Access, Load, Placed};
pub use laws::{answers_follow_the_steps, passes_that_met_fit, passes_that_met_have_one_past};
pub use page_pass::{PagePass, Passes};
pub use pages::Pages;
pub use sweeps::meet_all;
pub use view::{Hold, Made, Opening, Sight, View};
