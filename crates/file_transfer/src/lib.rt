//! The file layer's machines (this project's own): the client of a put, the client of a get, and the server of both, which `file_server`
//! has. They take and give messages, and jobs for whoever works on registered pages; they keep no history, and no clock or thread
//! drives them.
//!
//! What each answer means is told by the past: what was handed to the machine and what it gave, the newest first
//! (`file_pasts`). A contract holds for every past by which the machine came to stand as it does.
#![tactic(auto)]

mod client_jobs;
mod client_requests;
mod get_client;
mod get_groups;
mod get_inline;
mod get_pages;
mod get_registered;
mod get_requests;
mod loaded_page;
mod put_client;
mod put_inline;
mod put_pages;
mod put_registered;
mod put_requests;
mod writing;

pub use file_server::FileServer;
pub use get_client::GetClient;
pub use put_client::PutClient;
