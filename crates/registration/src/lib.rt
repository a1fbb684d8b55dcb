//! Pages together with their records: a page is loaded and its record issued, and the record is withdrawn before the
//! page is unloaded.
#![tactic(auto)]

mod answers;
mod region;

pub use answers::{Register, Release};
pub use region::Region;
