//! Remote reads and writes of registered pages by descriptor (RDMA Read and RDMA Write): an access is done only while
//! a record that covers the descriptor is held.
#![tactic(auto)]

mod access;

pub use access::{Remote, read_from, write_to};
