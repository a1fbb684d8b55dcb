//! Both ends of a link beside each other.

ghost use Rattle.std.specs.Prelude.{◌≡◌, length};
ghost use Rattle.smbd_base.specs.declared.end_id.EndId.TheVariants.{Client, Server};
ghost use Rattle.smbd_base.specs.Joint.{emitted_frames};
ghost use Rattle.sim_adapter.specs.Plays.{learned, AreMet};
ghost use Rattle.link_ends.specs.Ends.{view_of, past_of, IsOf, is_over};

use crate::link_end::LinkEnd;
use sim_adapter::Link;

/// Both ends meet: their histories fit together, and each has then seen all that the other sent. Neither history changes.
pub fn meet(link: &Link, client: &mut LinkEnd, server: &mut LinkEnd)
    requires own { IsOf link.now client.old × IsOf link.now server.old }
    requires sides { ((view_of client.old).side ≡ Client) × ((view_of server.old).side ≡ Server) }
    ensures own { IsOf link.now client.new × IsOf link.now server.new }
    ensures over { (is_over client.new ≡ is_over client.old) × (is_over server.new ≡ is_over server.old) }
    ensures client { view_of client.new ≡ learned (view_of client.old) (length (emitted_frames (past_of server.old))) }
    ensures server { view_of server.new ≡ learned (view_of server.old) (length (emitted_frames (past_of client.old))) }
    ensures met { AreMet (view_of client.new) (view_of server.new) }
{
    link.meet(&mut client.pass, &mut server.pass);
}
