//! Laws on two ends at which nothing can happen any more: they have come to no dead end, and all was delivered (MS-SMBD 3.1.1:
//! send credits and receive credits). Each is the contract of a function that does nothing.
#![tactic(auto)]

mod dead_ends;
mod quiet;
mod worked_quiet;

pub use dead_ends::credits_come_to_no_dead_end;
pub use quiet::quiet_ends_have_delivered_all;
pub use worked_quiet::worked_quiet_ends;
