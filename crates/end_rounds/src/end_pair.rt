//! Both ends of a connection on one link.

ghost use Rattle.std.specs.Prelude.{◌≡◌};
ghost use Rattle.smbd_base.specs.declared.end_id.EndId.TheVariants.{Client, Server};
ghost use Rattle.link_ends.specs.Ends.{view_of, IsOf};

use link_ends::LinkEnd;
use sim_adapter::Link;

/// Both ends of a connection on one link (this project's own). Contracts see what each of them knows.
#[derive(Drop)]
pub struct EndPair {
    pub(crate) link: Link,
    pub(crate) client: LinkEnd,
    pub(crate) server: LinkEnd,
    ghost own: { IsOf link client × IsOf link server },
    ghost sides: { ((view_of client).side ≡ Client) × ((view_of server).side ≡ Server) },
}
