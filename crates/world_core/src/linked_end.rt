//! An end on a link, with the messages that it has delivered, and is still to deliver.

ghost use Rattle.std.specs.Prelude.{◌≡◌, [], ◌∷◌, ◌++◌, ◌<◌, ◌≤◌, true, false, Some, None, List, IfOk, OnOk, OnErr, IfSome, length, take, slice_get, option_copied, option_to_list, reverse};
ghost use Rattle.smbd_base.specs.declared.event.Event.TheVariants as events;
ghost use Rattle.smbd_base.specs.Delivery.{message_brought, messages_delivered};
ghost use Rattle.smbd_base.specs.History as spec;
ghost use Rattle.smbd_base.specs.Joint.{emitted_frames};
ghost use Rattle.smbd_base.specs.Limits.{IsLawful};
ghost use Rattle.sim_adapter.specs.Rule.{MayGrow};
ghost use Rattle.world_core.specs.Attached.{linked_to, attached_after, attached_peer, HasLooked, IsToldOf, AreTied};
ghost use Rattle.world_core.specs.Choices.{answer_of, is_emit};
ghost use Rattle.world_core.specs.Kept.{newest_in};
ghost use Rattle.world_core.specs.Met.{with_event_at, with_event_if, IsWhole};
ghost use Rattle.world_core.specs.Newest.{newest_brought};
ghost use Rattle.world_core.specs.Linked.{submission, driven, carried, event_at, still_undelivered, StandsFirst, TakesNext};

use crate::choice::{Choice, Step};
use crate::met_link::MetLink;
use connection_core::{End, SubmitRefused, TakeRefused};
use smbd_base::{EndId, EndLimits, Event, Frame, Message, Next, NoMemory, SubmitFault, TakeFault};
use std::alloc::Global;
use std::collections::VecDeque;
use std::marker::Model;

/// An end on a link. Contracts see its side, its limits, its past, how many of its peer's events it has looked through, and the
/// messages that it has not delivered yet.
///
/// The next frame in flight to it stands in its peer's history, after those events. So it is shared with the end, which may want
/// memory, before it is taken off the link, which wants none. No event is looked at twice.
///
/// What an end delivers is, byte for byte, what its peer submitted. So the list of its messages holds clones of those of the
/// peer, which share their bytes, and the bytes that were gathered are let go.
#[derive(Drop)]
pub struct LinkedEnd {
    side: EndId,
    end: End,
    /// How many of the peer's events it has looked through. It has taken the frames that these sent.
    looked: usize,
    /// What the peer has submitted, and this end has not delivered.
    undelivered: VecDeque<Message>,
    delivered: Vec<Message>,
    /// Whether the newest event has delivered the last of these messages.
    is_newest: bool,
}

impl Model for LinkedEnd {
    ghost use Rattle.world_core.specs.Attached.{Attached};
    ghost use Rattle.world_core.specs.Kept.{IsKept};

    ghost Value = { Attached };

    ghost view = { λ l. record { side = l.end.side; limits = l.end.limits; past = l.end.past; looked = l.looked; undelivered = l.undelivered.items } };

    ghost invariant = { λ l. IsKept l.side l.end l.delivered.items l.is_newest };
}

impl LinkedEnd {
    /// An end that has posted its receives. No message is kept for it.
    pub fn open(alloc: Global, side: EndId, limits: EndLimits) -> Result<LinkedEnd, NoMemory>
        ensures { IfOk result (λ l. l ≡ record { side = side; limits = limits; past = events.Post limits.credits ∷ []; looked = 0; undelivered = [] }) }
    {
        let end = match side {
            EndId::Client => End::open_client(alloc, limits)?,
            EndId::Server => End::open_server(alloc, limits)?,
        };
        Ok(LinkedEnd {
            side,
            end,
            looked: 0,
            undelivered: VecDeque::new(alloc),
            delivered: Vec::new(alloc),
            is_newest: false,
        })
    }

    fn side(&self) -> EndId
        ensures { result ≡ self.now.side }
    {
        self.side
    }

    /// Whether the end is cut.
    pub fn is_cut(&self) -> bool
        ensures { result ≡ spec.is_cut self.now.past }
    {
        self.end.is_cut()
    }

    /// Cuts the end, and the link with it.
    pub fn cut(&mut self, link: &mut MetLink)
        requires uncut { spec.is_cut self.old.past ≡ false }
        requires told { IsToldOf link.old self.old }
        ensures cut { self.new ≡ attached_after self.old (Some events.Cut) }
        ensures link { link.new ≡ with_event_at self.old.side events.Cut link.old }
    {
        let side = self.side();
        see_room(&self.end);
        self.end.cut();
        link.cut(side);
        self.is_newest = false;
    }

    /// Whether a frame is what comes next. Nothing changes.
    pub fn emits_next(&mut self) -> Result<bool, NoMemory>
        ensures answer { IfOk result (λ emits. emits ≡ is_emit (spec.next_event self.old.side self.old.limits self.old.past)) }
        ensures same { self.new ≡ self.old }
    {
        match self.end.next()? {
            Next::Emit(_) => Ok(true),
            Next::Post(_) | Next::Close | Next::Idle => Ok(false),
        }
    }

    /// Submits a message, where the end does not refuse it, and keeps it for the peer to deliver.
    pub fn submit(
        &mut self,
        link: &mut MetLink,
        peer: &mut LinkedEnd,
        message: &Message,
    ) -> Result<Step, NoMemory>
        requires told { IsToldOf link.old self.old }
        ensures answer { IfOk result (λ s. s ≡ answer_of (submission (linked_to self.old peer.old) message.now)) }
        ensures added { OnOk result (self.new ≡ attached_after self.old (submission (linked_to self.old peer.old) message.now)) }
        ensures kept { OnOk result (peer.new ≡ attached_peer peer.old (submission (linked_to self.old peer.old) message.now)) }
        ensures link { OnOk result (link.new ≡ with_event_if self.old.side (submission (linked_to self.old peer.old) message.now) link.old) }
        ensures same { OnErr result (self.new ≡ self.old) }
        ensures peer_same { OnErr result (peer.new ≡ peer.old) }
        ensures link_same { OnErr result (link.new ≡ link.old) }
    {
        let side = self.side();
        peer.undelivered.reserve(1)?;
        let copy = message.share()?;
        let shared = message.share()?;
        see_room(&self.end);
        let Err(refused) = self.end.submit(copy) else {
            link.submitted(side, message);
            peer.undelivered.push_back_reserved(shared);
            self.is_newest = false;
            return Ok(Step::Did);
        };
        match fault_of(refused) {
            SubmitFault::NoMemory => Err(NoMemory),
            _ => Ok(Step::Nothing),
        }
    }

    /// Does what comes next. A frame is sent on the link; where that is cut, the end is cut instead.
    pub fn drive(&mut self, link: &mut MetLink, link_cut: bool) -> Result<Step, NoMemory>
        requires open { spec.is_cut self.old.past ≡ false }
        requires told { IsToldOf link.old self.old }
        requires whole { link_cut ≡ false → IsWhole link.old }
        ensures answer { IfOk result (λ s. s ≡ answer_of (driven link_cut (spec.next_event self.old.side self.old.limits self.old.past))) }
        ensures added { OnOk result (self.new ≡ attached_after self.old (driven link_cut (spec.next_event self.old.side self.old.limits self.old.past))) }
        ensures link { OnOk result (link.new ≡ with_event_if self.old.side (driven link_cut (spec.next_event self.old.side self.old.limits self.old.past)) link.old) }
        ensures same { OnErr result (self.new ≡ self.old) }
        ensures link_same { OnErr result (link.new ≡ link.old) }
    {
        let side = self.side();
        see_room(&self.end);
        match self.end.next()? {
            Next::Post(receives) => {
                link.post(side, receives);
                self.end.commit();
                self.is_newest = false;
                Ok(Step::Did)
            }
            Next::Emit(_) if link_cut => {
                self.cut(link);
                Ok(Step::Did)
            }
            Next::Emit(frame) => {
                link.emit(side, frame);
                self.end.commit();
                self.is_newest = false;
                Ok(Step::Did)
            }
            Next::Close => {
                self.cut(link);
                Ok(Step::Did)
            }
            Next::Idle => Ok(Step::Nothing),
        }
    }

    /// Takes the oldest frame in flight, where the end may take one and there is one, and delivers the message that it ends.
    /// Where the link is cut, the end is cut instead.
    pub fn carry(
        &mut self,
        link: &mut MetLink,
        peer: &LinkedEnd,
        link_cut: bool,
    ) -> Result<Step, NoMemory>
        requires open { spec.is_cut self.old.past ≡ false }
        requires next { TakesNext (linked_to self.old peer.now) }
        requires tied { AreTied link.old self.old peer.now link_cut }
        ensures answer { IfOk result (λ s. s ≡ answer_of (carried link_cut (linked_to self.old peer.now))) }
        ensures added { OnOk result (self.new ≡ record (attached_after self.old (carried link_cut (linked_to self.old peer.now))) { looked = self.new.looked }) }
        ensures link { OnOk result (link.new ≡ with_event_if self.old.side (carried link_cut (linked_to self.old peer.now)) link.old) }
        ensures looked { HasLooked self.new peer.now.past }
        ensures same { OnErr result (self.new ≡ record self.old { looked = self.new.looked }) }
        ensures link_same { OnErr result (link.new ≡ link.old) }
    {
        let side = self.side();
        if !self.end.ready() {
            return Ok(Step::Nothing);
        }
        if link_cut {
            self.cut(link);
            return Ok(Step::Did);
        }
        let Some(first) = next_sent(peer.history(), &mut self.looked) else {
            return Ok(Step::Nothing);
        };
        let frame = first.share()?;
        see_room(&self.end);
        self.is_newest = take(
            &mut self.end,
            &mut self.undelivered,
            &mut self.delivered,
            frame,
        )?;
        drop(link.take(side));
        self.looked += 1;
        Ok(Step::Did)
    }

    /// The events so far, in the order of time.
    pub fn history(&self) -> &[Event]
        ensures past { reverse result.now ≡ self.now.past }
        ensures lawful { IsLawful self.now.limits }
    {
        self.end.history()
    }

    /// The messages that the end has delivered, the oldest one first.
    pub fn delivered(&self) -> &[Message]
        ensures { result.now ≡ messages_delivered self.now.side self.now.limits self.now.past }
    {
        self.delivered.as_slice()
    }

    /// The message that the newest event has delivered, where it is the Take of a frame that ends one.
    pub fn newest_delivered(&self) -> Option<&Message>
        ensures { option_copied result ≡ newest_brought self.now.side self.now.limits self.now.past }
    {
        if self.is_newest {
            self.delivered.last()
        } else {
            None
        }
    }
}

/// A history has fewer events than a link counts, as each takes some bytes of memory.
fn see_room(end: &End)
    ensures { MayGrow end.now.past }
{
    let _ = end.history().len();
}

/// The next frame that was sent after the events that were looked through. Those before it are looked through then.
fn next_sent<'a>(history: &'a [Event], looked: &mut usize) -> Option<&'a Frame>
    requires { looked.old ≤ length history.now }
    ensures within { looked.new ≤ length history.now }
    ensures same { emitted_frames (reverse (take looked.new history.now)) ≡ emitted_frames (reverse (take looked.old history.now)) }
    ensures found { IfSome result (λ frame. slice_get history.now looked.new ≡ Some (events.Emit frame.now)) }
    ensures all { result ≡ None → looked.new ≡ length history.now }
{
    while let Some(event) = history.get(*looked) {
        if let Event::Emit(frame) = event {
            return Some(frame);
        }
        *looked += 1;
    }
    None
}

/// Takes a frame that is not refused, and delivers the message that it ends, as the peer submitted it. Answers whether it ends
/// one.
fn take(
    end: &mut End,
    undelivered: &mut VecDeque<Message>,
    delivered: &mut Vec<Message>,
    frame: Frame,
) -> Result<bool, NoMemory>
    requires ready { spec.is_ready end.old.side end.old.limits end.old.past ≡ true }
    requires fault { spec.take_fault end.old.side end.old.limits end.old.past frame ≡ None }
    requires first { StandsFirst (message_brought end.old.side end.old.limits end.old.past frame) undelivered.old.items }
    requires kept { delivered.old.items ≡ messages_delivered end.old.side end.old.limits end.old.past }
    ensures added { OnOk result (end.new ≡ record end.old { past = events.Take frame ∷ end.old.past; prepared = None }) }
    ensures delivered { OnOk result (delivered.new.items ≡ messages_delivered end.new.side end.new.limits end.new.past) }
    ensures left { OnOk result (undelivered.new.items ≡ still_undelivered (message_brought end.old.side end.old.limits end.old.past frame) undelivered.old.items) }
    ensures newest { IfOk result (λ ends. newest_in ends delivered.new.items ≡ message_brought end.old.side end.old.limits end.old.past frame) }
    ensures same { OnErr result (end.new ≡ end.old) }
    ensures left_same { OnErr result (undelivered.new.items ≡ undelivered.old.items) }
    ensures none { OnErr result (delivered.new.items ≡ delivered.old.items) }
{
    delivered.reserve(1)?;
    match end.take(frame) {
        Ok(None) => Ok(false),
        Ok(Some(_)) => {
            let Some(message) = undelivered.pop_front() else {
                unreachable!();
            };
            delivered.push_reserved(message);
            Ok(true)
        }
        Err(
            TakeRefused {
                fault: TakeFault::NoMemory,
                ..
            },
        ) => Err(NoMemory),
        Err(_) => unreachable!(),
    }
}

/// Why a submission was refused. The message is let go.
fn fault_of(refused: SubmitRefused) -> SubmitFault
    ensures { result ≡ refused.fault }
{
    refused.fault
}

/// Does what a choice says at one end.
pub fn act(
    link: &mut MetLink,
    own: &mut LinkedEnd,
    peer: &mut LinkedEnd,
    link_cut: bool,
    choice: &Choice,
) -> Result<Step, NoMemory>
    requires next { TakesNext (linked_to own.old peer.old) }
    requires tied { AreTied link.old own.old peer.old link_cut }
    ensures answer { IfOk result (λ s. s ≡ answer_of (event_at (linked_to own.old peer.old) link_cut choice.now)) }
    ensures own { OnOk result (own.new ≡ record (attached_after own.old (event_at (linked_to own.old peer.old) link_cut choice.now)) { looked = own.new.looked }) }
    ensures peer { OnOk result (peer.new ≡ attached_peer peer.old (event_at (linked_to own.old peer.old) link_cut choice.now)) }
    ensures link { OnOk result (link.new ≡ with_event_if own.old.side (event_at (linked_to own.old peer.old) link_cut choice.now) link.old) }
    ensures looked { HasLooked own.new peer.old.past }
    ensures own_same { OnErr result (own.new ≡ record own.old { looked = own.new.looked }) }
    ensures peer_same { OnErr result (peer.new ≡ peer.old) }
    ensures link_same { OnErr result (link.new ≡ link.old) }
{
    if own.is_cut() {
        return Ok(Step::Nothing);
    }
    match choice {
        Choice::Submit(_, message) => own.submit(link, peer, message),
        Choice::Drive(_) => own.drive(link, link_cut),
        Choice::Carry(_) => own.carry(link, peer, link_cut),
        Choice::Cut(_) => {
            own.cut(link);
            Ok(Step::Did)
        }
    }
}
