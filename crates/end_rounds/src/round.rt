//! A round of both ends.

ghost use Rattle.std.specs.Prelude.{◌≡◌, ℕ, List, Option, IfOk, OnOk};
ghost use Rattle.smbd_base.specs.declared.end_id.EndId.TheVariants as side;
ghost use Rattle.file_messages.specs.declared.kind.Channel.{Channel};
ghost use Rattle.file_messages.specs.declared.kind.CopyKind.{CopyKind};
ghost use Rattle.file_pasts.specs.ClientPast.{ClientEvent};
ghost use Rattle.file_pasts.specs.ServerDue.{ServerEvent};
ghost use Rattle.copy_ends.specs.Cuts.{AreLeft, frames_sent};
ghost use Rattle.link_ends.specs.Ends.{view_of, past_of};
ghost use Rattle.end_shares.specs.Turns.{IsOn};
ghost use Rattle.end_shares.specs.Clients.{ClientStands, MayTalk};
ghost use Rattle.end_shares.specs.Servers.{ServerStands, MayServe};
ghost use Rattle.end_rounds.specs.Pairs.{AreUp, HaveMet};
ghost use Rattle.end_rounds.specs.Rounds.{AreLinked, ClientHasRun, ClientRan, HaveGrown, ServerHasRun, ServerRan};

use crate::end_pair::EndPair;
use copy_ends::ClientMachine;
use end_shares::{Share, run_client, run_server};
use file_server::FileServer;
use link_ends::{LinkEnd, meet};
use sim_adapter::Link;
use smbd_base::NoMemory;
use smbd_outside::Gate;
use std::thread::{Threads, join_mut};

/// Each end of a copy does its share of a round, on a thread of its own. Both shares are answered, the client's first.
fn run_ends<R: Threads + Sync, G: Gate + Sync>(
    rt: &R,
    gate: &G,
    link: &Link,
    client_end: &mut LinkEnd,
    client: &mut ClientMachine,
    left: &mut Option<u32>,
    server_end: &mut LinkEnd,
    server: &mut FileServer,
) -> (Result<Share, NoMemory>, Result<Share, NoMemory>)
    requires client { IsOn link.now side.Client client_end.old × MayTalk 64 client.old (view_of client_end.old) }
    requires server { IsOn link.now side.Server server_end.old × MayServe server.old (view_of server_end.old) }
    ensures client { ClientRan link.now result.0 left.old left.new client.old client.new client_end.old client_end.new }
    ensures server { ServerRan link.now result.1 server.old server.new server_end.old server_end.new }
{
    join_mut(
        rt,
        &mut || -> Result<Share, NoMemory>
            requires { IsOn link.now side.Client client_end.now × MayTalk 64 client.now (view_of client_end.now) }
            ensures { ClientRan link.entry.now result left.entry.now left.exit.now client.entry.now client.exit.now client_end.entry.now client_end.exit.now }
        { run_client(client_end, client, left, gate, link) },
        &mut || -> Result<Share, NoMemory>
            requires { IsOn link.now side.Server server_end.now × MayServe server.now (view_of server_end.now) }
            ensures { ServerRan link.entry.now result server.entry.now server.exit.now server_end.entry.now server_end.exit.now }
        { run_server(server_end, server, gate, link) },
    )
}

impl EndPair {
    /// Each end does its share of a round with its machine, at most 64 events, and both at the same time; then they meet. Where the client
    /// comes to a frame and none is left to be sent, it cuts the link instead. Where no thread can be made, the shares are done one
    /// after the other. Where memory is wanting at an end, the other one does its share all the same, and the copy is over.
    pub fn round<R: Threads + Sync, G: Gate + Sync>(
        &mut self,
        rt: &R,
        gate: &G,
        client: &mut ClientMachine,
        left: &mut Option<u32>,
        server: &mut FileServer,
    ) -> Result<(), NoMemory>
        requires met { HaveMet self.old }
        requires up { AreUp self.old }
        requires talk { MayTalk 64 client.old (view_of self.old.client) }
        requires serve { MayServe server.old (view_of self.old.server) }
        ensures grown { HaveGrown self.old self.new }
        ensures met { OnOk result (HaveMet self.new) }
        ensures client { (kind : CopyKind) (channel : Channel) (pages : ℕ) (past : List ClientEvent) → ClientStands kind channel pages past client.old (view_of self.old.client)
            → OnOk result (ClientHasRun kind channel pages past client.new (view_of self.old.client) (view_of self.new.client)) }
        ensures server { (kind : CopyKind) (past : List ServerEvent) → ServerStands kind past server.old (view_of self.old.server)
            → OnOk result (ServerHasRun kind past server.new (view_of self.old.server) (view_of self.new.server)) }
        ensures left { (number : Option ℕ) → AreLeft number (frames_sent (past_of self.old.client)) left.old
            → OnOk result (AreLeft number (frames_sent (past_of self.new.client)) left.new) }
        ensures linked { OnOk result (AreLinked left.new self.new) }
    {
        let (client_share, server_share) = run_ends(
            rt,
            gate,
            &self.link,
            &mut self.client,
            client,
            left,
            &mut self.server,
            server,
        );
        client_share?;
        server_share?;
        meet(&self.link, &mut self.client, &mut self.server);
        Ok(())
    }
}
