//! What an end does on a link.

ghost use Rattle.std.specs.Prelude.{◌≡◌, ◌∷◌, ◌++◌, true, false, None, Some, List, ℕ, reverse, length, option_to_list, IfOk, IfErr, OnOk, OnErr};
ghost use Rattle.connection_core.specs.Answered.{IsSubmitFault};
ghost use Rattle.smbd_base.specs.declared.event.Event.TheVariants as events;
ghost use Rattle.smbd_base.specs.declared.next.Next.TheVariants as due;
ghost use Rattle.smbd_base.specs.Delivery.{messages_delivered};
ghost use Rattle.smbd_base.specs.History as spec;
ghost use Rattle.smbd_base.specs.Limits.{IsLawful};
ghost use Rattle.sim_adapter.specs.Passes.{known_by, history_of};
ghost use Rattle.sim_adapter.specs.Passes as passes;
ghost use Rattle.sim_adapter.specs.Rule.{opened, limits_of, MayGrow};
ghost use Rattle.sim_adapter.specs.Plays.{with_event};
ghost use Rattle.link_ends.specs.Beside.{limits_in, IsSubmitted};
ghost use Rattle.link_ends.specs.Ends.{view_of, past_of, IsOf, GoesOnAt, is_over, next_of, is_emit};
ghost use Rattle.link_ends.specs.Answers.{HasDriven, HasReceived, HasTakenFrame};

use crate::answer::{Driven, Received};
use crate::link_end::LinkEnd;
use connection_core::{End, SubmitRefused, TakeRefused};
use sim_adapter::{Emit, Link, Pass, Taken};
use smbd_base::{Agreed, EndId, EndLimits, Event, Frame, Message, Next, NoMemory, TakeFault};
use smbd_outside::Gate;
use std::alloc::Global;

/// The steps at the gate.
const POST: u32 = 1;

const EMIT: u32 = 2;

const TAKE: u32 = 3;

const SUBMIT: u32 = 8;

const CUT: u32 = 9;

impl LinkEnd {
    /// An end of these limits, with the pass of an end that has posted its receives.
    pub fn open(
        alloc: Global,
        side: EndId,
        limits: EndLimits,
        pass: Pass,
    ) -> Result<LinkEnd, NoMemory>
        requires opened { known_by pass ≡ opened (known_by pass).ends side }
        requires limits { limits ≡ limits_of (known_by pass).ends side }
        ensures pass { IfOk result (λ e. e.pass ≡ pass) }
        ensures on { IfOk result (λ e. is_over e ≡ false) }
    {
        let end = match side {
            EndId::Client => End::open_client(alloc, limits)?,
            EndId::Server => End::open_server(alloc, limits)?,
        };
        Ok(LinkEnd {
            side,
            end,
            pass,
            over: false,
        })
    }

    /// Which end it is.
    pub fn side(&self) -> EndId
        ensures { result ≡ (view_of self.now).side }
    {
        self.side
    }

    /// Whether memory was wanting as the end took a frame. Then nothing can be asked of it any more.
    pub fn is_over(&self) -> bool
        ensures { result ≡ is_over self.now }
    {
        self.over
    }

    /// Whether the end is cut.
    pub fn is_cut(&self) -> bool
        requires { is_over self.now ≡ false }
        ensures { result ≡ spec.is_cut (past_of self.now) }
    {
        self.end.is_cut()
    }

    /// Whether a frame may be taken: the end is open, and no receive is due.
    pub fn is_ready(&self) -> bool
        requires { is_over self.now ≡ false }
        ensures { result ≡ spec.is_ready (view_of self.now).side (limits_in (view_of self.now)) (past_of self.now) }
    {
        self.end.ready()
    }

    /// What the negotiation has settled.
    pub fn agreed(&self) -> Option<Agreed>
        requires { is_over self.now ≡ false }
        ensures { result ≡ spec.agreed_of (view_of self.now).side (limits_in (view_of self.now)) (past_of self.now) }
    {
        self.end.agreed()
    }

    /// The events so far, in the order of time. Their memory bounds how many they are.
    pub fn history(&self) -> &[Event]
        requires { is_over self.now ≡ false }
        ensures past { reverse result.now ≡ past_of self.now }
        ensures lawful { IsLawful (limits_in (view_of self.now)) }
        ensures legal { spec.IsLegal (view_of self.now).side (limits_in (view_of self.now)) (past_of self.now) }
        ensures few { MayGrow (past_of self.now) }
    {
        self.end.history()
    }

    /// Whether a frame is what comes next. The end stays as it is.
    pub fn emits_next(&mut self) -> Result<bool, NoMemory>
        requires { is_over self.old ≡ false }
        ensures answer { IfOk result (λ emits. emits ≡ is_emit (next_of (view_of self.old))) }
        ensures same { self.new.pass ≡ self.old.pass }
        ensures on { is_over self.new ≡ false }
    {
        match self.end.next()? {
            Next::Emit(_) => Ok(true),
            Next::Post(_) | Next::Close | Next::Idle => Ok(false),
        }
    }

    /// Accepts a message to be sent, as `End::submit` does: it is refused, and handed back, after a cut or a refused frame, where it
    /// has no byte, and where it is longer than may be sent. A refusal changes nothing.
    pub fn submit<G: Gate>(
        &mut self,
        gate: &G,
        link: &Link,
        message: Message,
    ) -> Result<(), SubmitRefused>
        requires { GoesOnAt link.now self.old }
        ensures on { GoesOnAt link.now self.new }
        ensures accepted { OnOk result (spec.submit_fault (view_of self.old).side (limits_in (view_of self.old)) (past_of self.old) message ≡ None) }
        ensures added { OnOk result (view_of self.new ≡ with_event (view_of self.old) (events.Submit message)) }
        ensures fault { IfErr result (λ r. IsSubmitFault (spec.submit_fault (view_of self.old).side (limits_in (view_of self.old)) (past_of self.old) message) r.fault) }
        ensures returned { IfErr result (λ r. r.message ≡ message) }
        ensures same { OnErr result (self.new.pass ≡ self.old.pass) }
    {
        let part = self.part();
        self.end.submit(message)?;
        gate.pass(part, SUBMIT);
        tell_submitted(link, &mut self.pass, &self.end);
        Ok(())
    }

    /// Does what comes next at the end: posts receives, or sends a frame. Where a frame can't be sent since the link is cut, the end is
    /// cut. No frame is refused on a link, so that to close never comes next. Want of memory changes nothing.
    pub fn drive<G: Gate>(&mut self, gate: &G, link: &Link) -> Result<Driven, NoMemory>
        requires { GoesOnAt link.now self.old }
        ensures on { GoesOnAt link.now self.new }
        ensures done { IfOk result (λ d. HasDriven d (next_of (view_of self.old)) (view_of self.old) (view_of self.new)) }
        ensures same { OnErr result (self.new.pass ≡ self.old.pass) }
    {
        match self.end.next()? {
            Next::Post(n) => {
                self.post(gate, link, n);
                Ok(Driven::Posted)
            }
            Next::Emit(frame) => Ok(self.emit(gate, link, frame)),
            Next::Close => unreachable!(),
            Next::Idle => Ok(Driven::Idle),
        }
    }

    /// Posts the receives that come next.
    fn post<G: Gate>(&mut self, gate: &G, link: &Link, n: u16)
        requires on { GoesOnAt link.now self.old }
        requires next { next_of (view_of self.old) ≡ due.Post n }
        requires prepared { self.old.end.prepared ≡ Some (events.Post n) }
        ensures on { GoesOnAt link.now self.new }
        ensures posted { view_of self.new ≡ with_event (view_of self.old) (events.Post n) }
    {
        let _ = self.history();
        gate.pass(self.part(), POST);
        link.post(&mut self.pass, n);
        self.end.commit();
    }

    /// Sends the frame that comes next; or the link is cut, and the end with it.
    fn emit<G: Gate>(&mut self, gate: &G, link: &Link, frame: Frame) -> Driven
        requires on { GoesOnAt link.now self.old }
        requires next { next_of (view_of self.old) ≡ due.Emit frame }
        requires prepared { self.old.end.prepared ≡ Some (events.Emit frame) }
        ensures on { GoesOnAt link.now self.new }
        ensures done { HasDriven result (next_of (view_of self.old)) (view_of self.old) (view_of self.new) }
    {
        let _ = self.history();
        gate.pass(self.part(), EMIT);
        match link.emit(&mut self.pass, frame) {
            Emit::Sent => {
                self.end.commit();
                Driven::Sent
            }
            Emit::Cut(_) => {
                self.cut(gate, link);
                Driven::Cut
            }
        }
    }

    /// Takes the peer's next frame, where one is in flight and the link is not cut, and gives the message that it ends. The end is
    /// ready. Where the link is cut the end is cut too. Where memory is wanting, its pass has taken a frame, and the end is over.
    pub fn take<G: Gate>(&mut self, gate: &G, link: &Link) -> Result<Received, NoMemory>
        requires on { GoesOnAt link.now self.old }
        requires ready { spec.is_ready (view_of self.old).side (limits_in (view_of self.old)) (past_of self.old) ≡ true }
        ensures own { IsOf link.now self.new }
        ensures on { OnOk result (is_over self.new ≡ false) }
        ensures received { IfOk result (λ r. HasReceived r (view_of self.old) (view_of self.new)) }
        ensures over { OnErr result (is_over self.new ≡ true) }
        ensures lost { OnErr result (HasTakenFrame (view_of self.old) (view_of self.new)) }
    {
        let _ = self.history();
        gate.pass(self.part(), TAKE);
        match link.take(&mut self.pass) {
            Taken::Got(frame) => {
                let Ok(message) = take_accepted(&mut self.end, frame) else {
                    self.over = true;
                    return Err(NoMemory);
                };
                Ok(Received::Frame(message))
            }
            Taken::Empty => Ok(Received::Nothing),
            Taken::Cut => {
                self.cut(gate, link);
                Ok(Received::Cut)
            }
        }
    }

    /// Cuts the link and the end.
    pub fn cut<G: Gate>(&mut self, gate: &G, link: &Link)
        requires on { GoesOnAt link.now self.old }
        requires uncut { spec.is_cut (past_of self.old) ≡ false }
        ensures on { GoesOnAt link.now self.new }
        ensures cut { view_of self.new ≡ with_event (view_of self.old) events.Cut }
    {
        let _ = self.history();
        gate.pass(self.part(), CUT);
        link.cut(&mut self.pass);
        self.end.cut();
    }

    /// The number at the gate.
    fn part(&self) -> u8 {
        match self.side {
            EndId::Client => 0,
            EndId::Server => 1,
        }
    }
}

/// Takes a frame that is not refused, so that memory alone can be wanting. Then nothing has changed.
fn take_accepted(end: &mut End, frame: Frame) -> Result<Option<Message>, NoMemory>
    requires ready { spec.is_ready end.old.side end.old.limits end.old.past ≡ true }
    requires fault { spec.take_fault end.old.side end.old.limits end.old.past frame ≡ None }
    ensures added { OnOk result (end.new ≡ record end.old { past = events.Take frame ∷ end.old.past; prepared = None }) }
    ensures delivered { IfOk result (λ m. messages_delivered end.old.side end.old.limits (events.Take frame ∷ end.old.past)
        ≡ messages_delivered end.old.side end.old.limits end.old.past ++ option_to_list m) }
    ensures same { OnErr result (end.new ≡ end.old) }
{
    match end.take(frame) {
        Ok(message) => Ok(message),
        Err(
            TakeRefused {
                fault: TakeFault::NoMemory,
                ..
            },
        ) => Err(NoMemory),
        Err(_) => unreachable!(),
    }
}

/// Tells the link of the message that was submitted last at the end, whose pass does not have it yet.
fn tell_submitted(link: &Link, pass: &mut Pass, end: &End)
    requires own { passes.IsOf link.now pass.old }
    requires newest { IsSubmitted end.now (known_by pass.old) }
    ensures own { passes.IsOf link.now pass.new }
    ensures told { (message : List ℕ) → end.now.past ≡ events.Submit message ∷ history_of pass.old → known_by pass.new ≡ with_event (known_by pass.old) (events.Submit message) }
{
    let Some(Event::Submit(message)) = end.history().last() else {
        unreachable!();
    };
    link.submitted(pass, message);
}
