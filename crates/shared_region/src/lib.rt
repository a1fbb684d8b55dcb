//! Registered pages that threads share without a lock: pages together with their records, and remote reads and writes of them
//! by descriptor (RDMA Read and RDMA Write). A page is loaded before its record is issued, and the record is withdrawn
//! before the page is unloaded; an access is done only while a record that covers the descriptor is held.
#![tactic(auto)]

mod access;
mod answers;
mod region;

pub use access::{read_from, write_in_order, write_to};
pub use answers::{Register, Release, Remote, Written};
pub use region::Region;
