//! What a copy by file requests does, told by what happened: the pasts of the client's and the server's machine, what is
//! due after each, and the laws that tie these pasts to the requests and replies of a whole put and a whole get.
//!
//! A past is a list of events, the newest first. No machine keeps one: the contracts of the machines say for which pasts
//! they stand so. What is due stands in `specs/` as lists that only grow, of which what was given is the front. All this
//! is this project's own. Each function here is a law: it does nothing, and its contract is the law.
#![tactic(auto)]

mod get_laws;
mod put_laws;
mod server_laws;
mod worked;

pub use get_laws::{
    gets_ask_for_their_bytes, gets_receive_what_was_read, pages_come_back, rounds_load_and_unload,
};
pub use put_laws::{
    loads_carry_their_parts, pages_go_in_step, puts_ask_for_their_bytes, unloads_follow_replies,
    writes_name_loaded_parts,
};
pub use server_laws::{
    servers_accept, servers_fetch_what_is_named, servers_reply, servers_store_what_was_written,
};
pub use worked::{worked_gets, worked_groups, worked_pages, worked_puts, worked_servers};
