//! Two ends on one link, and the run of a script.

ghost use Rattle.std.specs.Prelude.{◌≡◌, ◌∷◌, ◌||◌, Some, None, List, IfOk, OnOk, OnErr, option_copied, reverse};
ghost use Rattle.smbd_base.specs.declared.end_id.EndId.TheVariants as side;
ghost use Rattle.smbd_base.specs.Delivery.{messages_delivered};
ghost use Rattle.smbd_base.specs.Limits.{IsLawful};
ghost use Rattle.smbd_base.specs.History.{is_cut, next_event};
ghost use Rattle.world_core.specs.Choices.{answer_of, cuts_link, end_of, is_emit};
ghost use Rattle.world_core.specs.Attached.{linked_to, AreTied};
ghost use Rattle.world_core.specs.Linked.{event_at, own_after, peer_after};
ghost use Rattle.world_core.specs.Paired.{IsPair};
ghost use Rattle.world_core.specs.Newest.{newest_brought};
ghost use Rattle.world_core.specs.Run.{State, past_of, limits_of, event_chosen, step_of, opened_world, run_of, link_after, order_after, AreJointIn, AreDelivered, SendFewEmptyIn, DeliverAllOnceQuietIn};

use crate::choice::{Choice, Step};
use crate::linked_end::{LinkedEnd, act};
use crate::met_link::MetLink;
use smbd_base::{EndId, EndLimits, Event, Message, NoMemory};
use std::alloc::Global;
use std::marker::Model;

/// A client and a server on one link, which meet after each event. Contracts see the limits and the past of both, the newest event
/// first, whether the link is cut, and whose event each one was, the newest one first.
#[derive(Drop)]
pub struct World {
    link: MetLink,
    client: LinkedEnd,
    server: LinkedEnd,
    link_cut: bool,
    order: Vec<EndId>,
}

impl Model for World {
    ghost use Rattle.std.specs.Prelude.{reverse};
    ghost use Rattle.world_core.specs.Run.{State};
    ghost use Rattle.world_core.specs.Attached.{linked_to, AreTied};
    ghost use Rattle.world_core.specs.Paired.{state_of, ArePaired};

    ghost Value = { State };

    ghost view = { λ w. state_of (linked_to w.client w.server) (linked_to w.server w.client) w.link_cut (reverse w.order.items) };

    ghost invariant = { λ w. ArePaired (linked_to w.client w.server) (linked_to w.server w.client) × AreTied w.link w.client w.server w.link_cut };
}

impl World {
    /// Two ends that have posted their receives, the client first.
    pub fn open(alloc: Global, client: EndLimits, server: EndLimits) -> Result<World, NoMemory>
        ensures opened { IfOk result (λ w. w ≡ opened_world client server) }
        ensures joint { IfOk result (λ w. AreJointIn w) }
        ensures delivered { IfOk result (λ w. AreDelivered w) }
    {
        let mut order = Vec::with_capacity(alloc, 2)?;
        order.push_reserved(EndId::Client);
        order.push_reserved(EndId::Server);
        let link = MetLink::open(alloc, &client, &server)?;
        let client = LinkedEnd::open(alloc, EndId::Client, client)?;
        let server = LinkedEnd::open(alloc, EndId::Server, server)?;
        let _ = client.history();
        let _ = server.history();
        Ok(World {
            link,
            client,
            server,
            link_cut: false,
            order,
        })
    }

    /// Does what a choice says, which is nothing where no event may be added. Want of memory changes nothing.
    pub fn step(&mut self, choice: &Choice) -> Result<Step, NoMemory>
        ensures step { OnOk result (self.new ≡ step_of self.old choice.now) }
        ensures answer { IfOk result (λ s. s ≡ answer_of (event_chosen self.old choice.now)) }
        ensures same { OnErr result (self.new ≡ self.old) }
        ensures joint { AreJointIn self.new }
        ensures delivered { AreDelivered self.new }
        ensures few_empty { SendFewEmptyIn self.new }
        ensures quiet { DeliverAllOnceQuietIn self.new }
    {
        match choice.end() {
            EndId::Client => record_act(
                &mut self.link,
                &mut self.client,
                &mut self.server,
                &mut self.link_cut,
                &mut self.order,
                choice,
            ),
            EndId::Server => record_act(
                &mut self.link,
                &mut self.server,
                &mut self.client,
                &mut self.link_cut,
                &mut self.order,
                choice,
            ),
        }
    }

    /// Whether an end is cut.
    pub fn is_cut(&self, end: EndId) -> bool
        ensures { result ≡ is_cut (past_of end self.now) }
    {
        match end {
            EndId::Client => self.client.is_cut(),
            EndId::Server => self.server.is_cut(),
        }
    }

    /// Whether a frame is what comes next at an end. Nothing changes.
    pub fn emits_next(&mut self, end: EndId) -> Result<bool, NoMemory>
        ensures answer { IfOk result (λ emits. emits ≡ is_emit (next_event end (limits_of end self.old) (past_of end self.old))) }
        ensures same { self.new ≡ self.old }
    {
        match end {
            EndId::Client => self.client.emits_next(),
            EndId::Server => self.server.emits_next(),
        }
    }

    /// The events of an end, in the order of time.
    pub fn history(&self, end: EndId) -> &[Event]
        ensures past { reverse result.now ≡ past_of end self.now }
        ensures joint { AreJointIn self.now }
        ensures delivered { AreDelivered self.now }
    {
        match end {
            EndId::Client => self.client.history(),
            EndId::Server => self.server.history(),
        }
    }

    /// The messages that an end has delivered, the oldest one first.
    pub fn delivered(&self, end: EndId) -> &[Message]
        ensures { result.now ≡ messages_delivered end (limits_of end self.now) (past_of end self.now) }
    {
        match end {
            EndId::Client => self.client.delivered(),
            EndId::Server => self.server.delivered(),
        }
    }

    /// The message that the newest event of an end has delivered, where it is the Take of a frame that ends one.
    pub fn newest_delivered(&self, end: EndId) -> Option<&Message>
        ensures { option_copied result ≡ newest_brought end (limits_of end self.now) (past_of end self.now) }
    {
        match end {
            EndId::Client => self.client.newest_delivered(),
            EndId::Server => self.server.newest_delivered(),
        }
    }

    /// Whose event each one was, in the order of time.
    pub fn order(&self) -> &[EndId]
        ensures { reverse result.now ≡ self.now.order }
    {
        self.order.as_slice()
    }
}

/// Does what a choice says at one end, and records whose event it was.
fn record_act(
    link: &mut MetLink,
    own: &mut LinkedEnd,
    peer: &mut LinkedEnd,
    link_cut: &mut bool,
    order: &mut Vec<EndId>,
    choice: &Choice,
) -> Result<Step, NoMemory>
    requires pair { IsPair (linked_to own.old peer.old) (linked_to peer.old own.old) }
    requires tied { AreTied link.old own.old peer.old link_cut.old }
    ensures answer { IfOk result (λ s. s ≡ answer_of (event_at (linked_to own.old peer.old) link_cut.old choice.now)) }
    ensures own { OnOk result (linked_to own.new peer.new ≡ own_after (linked_to own.old peer.old) (event_at (linked_to own.old peer.old) link_cut.old choice.now)) }
    ensures peer { OnOk result (linked_to peer.new own.new ≡ peer_after (linked_to peer.old own.old) (event_at (linked_to own.old peer.old) link_cut.old choice.now)) }
    ensures link { OnOk result (link_cut.new ≡ link_after link_cut.old choice.now (event_at (linked_to own.old peer.old) link_cut.old choice.now)) }
    ensures order { OnOk result (reverse order.new.items ≡ order_after (reverse order.old.items) choice.now (event_at (linked_to own.old peer.old) link_cut.old choice.now)) }
    ensures own_same { OnErr result (linked_to own.new peer.new ≡ linked_to own.old peer.old) }
    ensures peer_same { OnErr result (linked_to peer.new own.new ≡ linked_to peer.old own.old) }
    ensures link_same { OnErr result (link_cut.new ≡ link_cut.old) }
    ensures order_same { OnErr result (order.new.items ≡ order.old.items) }
    ensures tied { AreTied link.new own.new peer.new link_cut.new }
{
    order.reserve(1)?;
    let step = act(link, own, peer, *link_cut, choice)?;
    match step {
        Step::Did => {
            order.push_reserved(choice.end());
            *link_cut = is_cut_after(*link_cut, choice);
        }
        Step::Nothing => {}
    }
    Ok(step)
}

/// Whether the link is cut once a choice was made.
fn is_cut_after(link_cut: bool, choice: &Choice) -> bool
    ensures { result ≡ (link_cut || cuts_link choice.now) }
{
    link_cut || choice.cuts_link()
}

/// The world after these choices, one after another.
pub fn run_script(
    alloc: Global,
    client: EndLimits,
    server: EndLimits,
    choices: &[Choice],
) -> Result<World, NoMemory>
    ensures run { IfOk result (λ w. w ≡ run_of client server choices.now) }
    ensures joint { IfOk result (λ w. AreJointIn w) }
    ensures delivered { IfOk result (λ w. AreDelivered w) }
{
    let mut world = World::open(alloc, client, server)?;
    for choice in choices {
        world.step(choice)?;
    }
    Ok(world)
}
