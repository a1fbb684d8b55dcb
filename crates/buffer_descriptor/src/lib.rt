//! Buffer Descriptor V1, by which a peer names registered bytes (MS-SMBD 2.2.3.1), and lists of descriptors.
#![tactic(auto)]

mod descriptor;
mod descriptors;
mod intervals;

pub use descriptor::{Descriptor, DescriptorFault, read, write};
pub use descriptors::{Descriptors, ListFault, read_list};
pub use intervals::{covers, disjoint};
