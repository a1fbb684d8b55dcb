//! The parts of a copy.

use copy_ends::ClientMachine;
use file_server::FileServer;
use page_crew::Crew;
use world_core::World;

/// Both ends of a copy on their link, the machine of each, and the workers of both with their pages.
#[derive(Drop)]
pub struct Parts {
    pub(crate) world: World,
    pub(crate) client: ClientMachine,
    pub(crate) server: FileServer,
    pub(crate) crew: Crew,
    /// How many frames the client may send before it cuts the link, where it is to cut it.
    pub(crate) left: Option<u32>,
}
