//! An end whose peer may send any frames, and the frames that wait for it.

ghost use Rattle.std.specs.Prelude.{◌≡◌, ◌+◌, ◌<◌, ◌≤◌, [], ◌∷◌, ℕ, true, nat_lt, is_some, length, Option, Some, None, List, IfOk, OnOk, OnErr, slice_get};
ghost use Rattle.smbd_base.specs.declared.event.Event.TheVariants as events;
ghost use Rattle.smbd_base.specs.Counts.{frames_sent, receives_posted};
ghost use Rattle.smbd_base.specs.Delivery.{messages_delivered};
ghost use Rattle.smbd_base.specs.History.{is_ready, next_event, due_event, take_fault, IsLegal};
ghost use Rattle.world_core.specs.Raw as spec;

use crate::raw::RawRun;
use connection_core::{End, TakeRefused};
use sim_adapter::{Arrive, RawLink};
use smbd_base::{EndId, EndLimits, Frame, Message, Next, NoMemory, TakeFault};
use std::alloc::Global;
use std::marker::Model;

/// An end that faces a peer which may send any frames. Contracts see its side, its limits, its past and the frames that wait.
#[derive(Drop)]
pub(crate) struct RawEnd {
    end: End,
    link: RawLink,
    delivered: Vec<Message>,
    emitted: u32,
    taken: u32,
}

impl Model for RawEnd {
    ghost use Rattle.world_core.specs.Raw.{Facing, IsFacing};

    ghost Value = { Facing };

    ghost view = { λ r. record { side = r.end.side; limits = r.end.limits; past = r.end.past; waiting = r.link.waiting } };

    ghost invariant = { λ r. IsFacing r.end r.link r.delivered.items r.emitted r.taken };
}

impl RawEnd {
    /// An end that has posted its receives. No frame has arrived.
    pub(crate) fn open(alloc: Global, side: EndId, limits: EndLimits) -> Result<RawEnd, NoMemory>
        ensures { IfOk result (λ r. r ≡ record { side = side; limits = limits; past = events.Post limits.credits ∷ []; waiting = [] }) }
    {
        let end = match side {
            EndId::Client => End::open_client(alloc, limits)?,
            EndId::Server => End::open_server(alloc, limits)?,
        };
        // said for the contracts: the history is legal
        let _ = end.history();
        Ok(RawEnd {
            end,
            link: RawLink::open(alloc, limits.credits())?,
            delivered: Vec::new(alloc),
            emitted: 0,
            taken: 0,
        })
    }

    /// Does what comes next, and tells whether something did.
    fn step(&mut self) -> Result<bool, NoMemory>
        requires { spec.frames_met self.old.past ≤ 2147483647 }
        ensures more { IfOk result (λ more. more ≡ is_some (due_event (next_event self.old.side self.old.limits self.old.past))) }
        ensures added { OnOk result (self.new ≡ spec.with_event self.old (due_event (next_event self.old.side self.old.limits self.old.past))) }
        ensures few { spec.SendsFew self.old.side self.old.limits self.old.past }
    {
        match self.end.next()? {
            Next::Post(receives) => {
                self.end.commit();
                self.link.post(receives);
                Ok(true)
            }
            Next::Emit(_) => {
                self.end.commit();
                self.emitted += 1;
                Ok(true)
            }
            Next::Close | Next::Idle => Ok(false),
        }
    }

    /// Does what comes next, until it is idle or only a cut may follow.
    pub(crate) fn settle(&mut self) -> Result<(), NoMemory>
        requires { spec.frames_met self.old.past ≤ 2147483647 }
        ensures settled { OnOk result (spec.Settles self.old.side self.old.limits self.old.past self.new.past) }
        ensures same { OnOk result (self.new ≡ record self.old { past = self.new.past }) }
        ensures met { OnOk result (spec.frames_met self.new.past ≡ spec.frames_met self.old.past) }
    {
        while self.step()? {}
        Ok(())
    }

    /// Whether a frame that arrives finds a receive. It then waits.
    fn arrive(&mut self, frame: Frame) -> bool
        ensures answer { result ≡ nat_lt (spec.frames_met self.old.past + length self.old.waiting) (receives_posted self.old.past) }
        ensures placed { self.new ≡ spec.with_arrived self.old frame }
        ensures room { spec.frames_met self.old.past + length self.old.waiting ≤ receives_posted self.old.past }
    {
        match self.link.arrive(frame) {
            Arrive::Placed => true,
            Arrive::Unposted(_) => false,
        }
    }

    /// All frames of a burst arrive, where none waits. Answers the number of the first one that finds no receive, if one does.
    pub(crate) fn arrive_all(&mut self, frames: &[Frame]) -> Result<Option<u32>, NoMemory>
        requires empty { self.old.waiting ≡ [] }
        requires few { spec.frames_met self.old.past + length frames.now ≤ 2147483647 }
        ensures unposted { IfOk result (λ unposted. unposted ≡ spec.first_unposted self.old.past (length frames.now)) }
        ensures waiting { IfOk result (λ unposted. unposted ≡ None → self.new ≡ record self.old { waiting = frames.now }) }
        ensures same { self.new ≡ record self.old { waiting = self.new.waiting } }
    {
        let mut number = self.taken;
        for frame in frames {
            number += 1;
            if !self.arrive(frame.share()?) {
                return Ok(Some(number));
            }
        }
        Ok(None)
    }

    /// Takes the oldest frame that waits, which is this one, and answers why it is refused, if it is.
    fn take(&mut self, frame: &Frame) -> Result<Option<TakeFault>, NoMemory>
        requires ready { is_ready self.old.side self.old.limits self.old.past ≡ true }
        requires first { slice_get self.old.waiting 0 ≡ Some frame.now }
        requires few { spec.frames_met self.old.past ≤ 2147483647 }
        ensures fault { IfOk result (λ fault. fault ≡ take_fault self.old.side self.old.limits self.old.past frame.now) }
        ensures taken { OnOk result (self.new ≡ spec.with_taken self.old frame.now) }
    {
        let fault = take(&mut self.end, &mut self.delivered, frame.share()?)?;
        drop(self.link.take());
        self.taken += 1;
        Ok(fault)
    }

    /// Takes the frames that wait, which are these, one by one, and does after each what comes next. The first one that is
    /// refused is the last: it is answered by its number and its fault.
    pub(crate) fn take_all(
        &mut self,
        frames: &[Frame],
    ) -> Result<Option<(u32, TakeFault)>, NoMemory>
        requires ready { is_ready self.old.side self.old.limits self.old.past ≡ true }
        requires arrived { self.old.waiting ≡ frames.now }
        requires few { spec.frames_met self.old.past + length frames.now ≤ 2147483647 }
        ensures taken { IfOk result (λ refused. spec.Takes self.old.side self.old.limits self.old.past frames.now refused self.new.past) }
        ensures all { IfOk result (λ refused. refused ≡ None → spec.HasTakenAll self.old self.new) }
        ensures same { OnOk result (self.new ≡ record self.old { past = self.new.past; waiting = self.new.waiting }) }
    {
        for frame in frames {
            let fault = self.take(frame)?;
            self.settle()?;
            if let Some(fault) = fault {
                return Ok(Some((self.taken, fault)));
            }
        }
        Ok(None)
    }

    /// What is told of a run that ends here, at a frame that was refused or found no receive, or at neither.
    pub(crate) fn told(self, refused: Option<(u32, TakeFault)>, unposted: Option<u32>) -> RawRun
        ensures { result ≡ spec.told_of self.side self.limits (record { past = self.past; refused = refused; unposted = unposted }) }
    {
        RawRun::new(self.delivered, self.emitted, refused, unposted)
    }
}

/// Takes a frame, and answers why it is refused, if it is. The message that it ends is delivered.
fn take(
    end: &mut End,
    delivered: &mut Vec<Message>,
    frame: Frame,
) -> Result<Option<TakeFault>, NoMemory>
    requires ready { is_ready end.old.side end.old.limits end.old.past ≡ true }
    requires kept { delivered.old.items ≡ messages_delivered end.old.side end.old.limits end.old.past }
    ensures fault { IfOk result (λ fault. fault ≡ take_fault end.old.side end.old.limits end.old.past frame) }
    ensures added { OnOk result (end.new ≡ record end.old { past = events.Take frame ∷ end.old.past; prepared = None }) }
    ensures delivered { OnOk result (delivered.new.items ≡ messages_delivered end.new.side end.new.limits end.new.past) }
    ensures same { OnErr result (end.new ≡ end.old) }
    ensures none { OnErr result (delivered.new.items ≡ delivered.old.items) }
    ensures legal { OnOk result (IsLegal end.new.side end.new.limits end.new.past) }
{
    delivered.reserve(1)?;
    match end.take(frame) {
        Ok(message) => {
            if let Some(message) = message {
                delivered.push_reserved(message);
            }
            Ok(None)
        }
        Err(refused) => match fault_of(refused) {
            TakeFault::NoMemory => Err(NoMemory),
            fault => Ok(Some(fault)),
        },
    }
}

/// Why a frame was refused. The frame is let go.
fn fault_of(refused: TakeRefused) -> TakeFault
    ensures { result ≡ refused.fault }
{
    refused.fault
}
