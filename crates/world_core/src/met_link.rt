//! A link with the passes of both of its ends, which meet after each event.

ghost use Rattle.std.specs.Prelude.{◌≡◌, ◌<◌, [], ◌∷◌, false, length, IfOk};
ghost use Rattle.smbd_base.specs.declared.event.Event.TheVariants as events;
ghost use Rattle.smbd_base.specs.Counts.{peer_of};
ghost use Rattle.smbd_base.specs.History.{is_cut, is_post_due, MayFollow};
ghost use Rattle.smbd_base.specs.Joint.{emitted_frames, taken_frames};
ghost use Rattle.joint_laws.specs.Growth.{IsNextFrame};
ghost use Rattle.sim_adapter.specs.Passes.{known_by, IsOf};
ghost use Rattle.sim_adapter.specs.Rule.{limits_of, MayGrow};
ghost use Rattle.smbd_base.specs.declared.end_id.EndId.TheVariants.{Client, Server};
ghost use Rattle.world_core.specs.Met.{history_at, with_event_at, seen_of, HaveMet, IsWhole};

use sim_adapter::{Emit, Link, Pass, Taken};
use smbd_base::{EndId, EndLimits, Frame, Message, NoMemory};
use std::alloc::Global;
use std::marker::Model;

/// A link, and both of its passes, on one thread. Contracts see the limits and the history of both ends, the newest event first.
///
/// Each call adds one event to the history of an end. Then both ends meet, and each has seen all that the other sent. So no look
/// of a call finds anything else than what the two histories say.
#[derive(Drop)]
pub struct MetLink {
    link: Link,
    client: Pass,
    server: Pass,
}

impl Model for MetLink {
    ghost use Rattle.world_core.specs.Met.{Met, seen_of, HaveMet};

    ghost Value = { Met };

    ghost view = { λ l. seen_of l.client l.server };

    ghost invariant = { λ l. HaveMet l.link l.client l.server };
}

impl MetLink {
    /// A link at which both ends have posted their receives, and have met.
    pub fn open(alloc: Global, client: &EndLimits, server: &EndLimits) -> Result<MetLink, NoMemory>
        ensures { IfOk result (λ l. l ≡ record {
          ends = record { client = client.now; server = server.now };
          client = events.Post client.now.credits ∷ [];
          server = events.Post server.now.credits ∷ [];
        }) }
    {
        let (link, mut client, mut server) = Link::open(alloc, client, server)?;
        meet(&link, &mut client, &mut server);
        Ok(MetLink {
            link,
            client,
            server,
        })
    }

    /// The end has posted so many receives.
    pub fn post(&mut self, end: EndId, n: u16)
        requires legal { MayFollow end (limits_of self.old.ends end) (events.Post n) (history_at end self.old) }
        requires few { MayGrow (history_at end self.old) }
        ensures { self.new ≡ with_event_at end (events.Post n) self.old }
    {
        match end {
            EndId::Client => {
                self.link.post(&mut self.client, n);
                meet(&self.link, &mut self.client, &mut self.server);
            }
            EndId::Server => {
                self.link.post(&mut self.server, n);
                meet(&self.link, &mut self.client, &mut self.server);
            }
        }
    }

    /// The message was submitted at the end.
    pub fn submitted(&mut self, end: EndId, message: &Message)
        requires legal { MayFollow end (limits_of self.old.ends end) (events.Submit message.now) (history_at end self.old) }
        requires few { MayGrow (history_at end self.old) }
        ensures { self.new ≡ with_event_at end (events.Submit message.now) self.old }
    {
        match end {
            EndId::Client => {
                self.link.submitted(&mut self.client, message);
                meet(&self.link, &mut self.client, &mut self.server);
            }
            EndId::Server => {
                self.link.submitted(&mut self.server, message);
                meet(&self.link, &mut self.client, &mut self.server);
            }
        }
    }

    /// Sends the frame that comes next, where neither end is cut.
    pub fn emit(&mut self, end: EndId, frame: Frame)
        requires whole { IsWhole self.old }
        requires legal { MayFollow end (limits_of self.old.ends end) (events.Emit frame) (history_at end self.old) }
        requires few { MayGrow (history_at end self.old) }
        ensures { self.new ≡ with_event_at end (events.Emit frame) self.old }
    {
        match end {
            EndId::Client => {
                let sent = self.link.emit(&mut self.client, frame);
                meet(&self.link, &mut self.client, &mut self.server);
                match sent {
                    Emit::Sent => {}
                    Emit::Cut(_) => unreachable!(),
                }
            }
            EndId::Server => {
                let sent = self.link.emit(&mut self.server, frame);
                meet(&self.link, &mut self.client, &mut self.server);
                match sent {
                    Emit::Sent => {}
                    Emit::Cut(_) => unreachable!(),
                }
            }
        }
    }

    /// Takes the oldest frame in flight to the end, where there is one and neither end is cut.
    pub fn take(&mut self, end: EndId) -> Frame
        requires whole { IsWhole self.old }
        requires reposted { is_post_due (history_at end self.old) ≡ false }
        requires flies { length (taken_frames (history_at end self.old)) < length (emitted_frames (history_at (peer_of end) self.old)) }
        requires few { MayGrow (history_at end self.old) }
        ensures added { self.new ≡ with_event_at end (events.Take result) self.old }
        ensures next { IsNextFrame result (history_at end self.old) (history_at (peer_of end) self.old) }
    {
        match end {
            EndId::Client => {
                let taken = self.link.take(&mut self.client);
                meet(&self.link, &mut self.client, &mut self.server);
                match taken {
                    Taken::Got(frame) => frame,
                    Taken::Empty => unreachable!(),
                    Taken::Cut => unreachable!(),
                }
            }
            EndId::Server => {
                let taken = self.link.take(&mut self.server);
                meet(&self.link, &mut self.client, &mut self.server);
                match taken {
                    Taken::Got(frame) => frame,
                    Taken::Empty => unreachable!(),
                    Taken::Cut => unreachable!(),
                }
            }
        }
    }

    /// Cuts the end, and the link with it.
    pub fn cut(&mut self, end: EndId)
        requires uncut { is_cut (history_at end self.old) ≡ false }
        requires few { MayGrow (history_at end self.old) }
        ensures { self.new ≡ with_event_at end events.Cut self.old }
    {
        match end {
            EndId::Client => {
                self.link.cut(&mut self.client);
                meet(&self.link, &mut self.client, &mut self.server);
            }
            EndId::Server => {
                self.link.cut(&mut self.server);
                meet(&self.link, &mut self.client, &mut self.server);
            }
        }
    }
}

/// Both ends meet.
fn meet(link: &Link, client: &mut Pass, server: &mut Pass)
    requires own { IsOf link.now client.old × IsOf link.now server.old }
    requires sides { ((known_by client.old).side ≡ Client) × ((known_by server.old).side ≡ Server) }
    ensures met { HaveMet link.now client.new server.new }
    ensures same { seen_of client.new server.new ≡ seen_of client.old server.old }
    ensures client_told { (known_by client.new).told_cut ≡ (known_by client.old).told_cut }
    ensures server_told { (known_by server.new).told_cut ≡ (known_by server.old).told_cut }
{
    link.meet(client, server);
}
