//! A pair of ends is opened, and looked at.

ghost use Rattle.std.specs.Prelude.{◌≡◌, IfOk, reverse};
ghost use Rattle.smbd_base.specs.declared.end_id.EndId.TheVariants.{Client, Server};
ghost use Rattle.smbd_base.specs.History.{is_cut};
ghost use Rattle.sim_adapter.specs.Rule.{opened};
ghost use Rattle.link_ends.specs.Ends.{view_of, past_of};
ghost use Rattle.end_rounds.specs.Pairs.{AreUp, HaveMet};

use crate::end_pair::EndPair;
use link_ends::{LinkEnd, meet};
use sim_adapter::Link;
use smbd_base::{EndId, EndLimits, Event, NoMemory};
use std::alloc::Global;

impl EndPair {
    /// Two ends of these limits, which have posted their receives and have met. This call alone takes memory for the link.
    pub fn open(alloc: Global, client: &EndLimits, server: &EndLimits) -> Result<EndPair, NoMemory>
        ensures client { IfOk result (λ p. view_of p.client ≡ opened (record { client = client.now; server = server.now }) Client) }
        ensures server { IfOk result (λ p. view_of p.server ≡ opened (record { client = client.now; server = server.now }) Server) }
        ensures met { IfOk result HaveMet }
        ensures up { IfOk result AreUp }
    {
        let (link, client_pass, server_pass) = Link::open(alloc, client, server)?;
        let mut client = LinkEnd::open(alloc, EndId::Client, *client, client_pass)?;
        let mut server = LinkEnd::open(alloc, EndId::Server, *server, server_pass)?;
        meet(&link, &mut client, &mut server);
        Ok(EndPair {
            link,
            client,
            server,
        })
    }

    /// The events of an end so far, in the order of time.
    pub fn history(&self, end: EndId) -> &[Event]
        requires { HaveMet self.now }
        ensures client { end ≡ Client → reverse result.now ≡ past_of self.now.client }
        ensures server { end ≡ Server → reverse result.now ≡ past_of self.now.server }
    {
        match end {
            EndId::Client => self.client.history(),
            EndId::Server => self.server.history(),
        }
    }

    /// Whether the client is cut: it has cut the link then.
    pub fn is_cut(&self) -> bool
        requires { HaveMet self.now }
        ensures { result ≡ is_cut (past_of self.now.client) }
    {
        self.client.is_cut()
    }
}
