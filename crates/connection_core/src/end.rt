//! One end of a connection.

ghost use Rattle.std.specs.Prelude.{◌≡◌, ◌++◌, [], ◌∷◌, ◌<◌, ◌≤◌, ◌^◌, length, true, false, is_some, reverse, IfOk, IfErr, OnOk, OnErr, option_to_list};
ghost use Rattle.smbd_base.specs.declared.end_id.EndId.TheVariants as side;
ghost use Rattle.smbd_base.specs.declared.event.Event.{Event as Happening};
ghost use Rattle.smbd_base.specs.declared.event.Event.TheVariants as events;
ghost use Rattle.smbd_base.specs.Counts as count;
ghost use Rattle.smbd_base.specs.Delivery.{messages_delivered, message_brought};
ghost use Rattle.smbd_base.specs.History as spec;
ghost use Rattle.smbd_base.specs.Limits.{IsLawful};
ghost use Rattle.smbd_base.specs.Counts.{is_silent};
ghost use Rattle.connection_core.specs.Gatherer.{gatherer_of};
ghost use Rattle.connection_core.specs.Heard.{IsHeard};
ghost use Rattle.connection_core.specs.Queue.{begun_by, sent_from, with_message, IsSendable};
ghost use Rattle.connection_core.specs.Answered.{IsSubmitFault, IsTakeRefused};

use crate::frames;
use crate::heard::Heard;
use crate::outgoing::Outgoing;
use crate::refused::{SubmitRefused, TakeRefused};
use crate::track::Track;
use reassembly::Gather;
use smbd_base::{
    Agreed, EndId, EndLimits, Event, Frame, Message, Next, NoMemory, SubmitFault, TakeFault,
};
use std::alloc::Global;
use std::marker::Model;
use transfer_msg::HEADER_SIZE;

/// One end of an SMB Direct connection (MS-SMBD 3.1). Contracts see its side, its limits, its past, the newest event
/// first, and the event that is prepared.
///
/// The calls, and their order:
/// - `open_client` or `open_server` first;
/// - `submit` at any time;
/// - `next`, and `commit` after it where it answered a Post or an Emit: no other call that changes the end comes between;
/// - `take` of the peer's next frame, where `ready`;
/// - `cut` at any time, and where `next` answers Close: nothing follows it;
/// - the readers (`agreed`, `held`, `outstanding`, `grantable`, `history`, `is_cut`) at any time.
#[derive(Drop)]
pub struct End {
    alloc: Global,
    track: Track,
    outgoing: Outgoing,
    gather: Gather,
    prepared: Option<Event>,
}

impl Model for End {
    ghost use Rattle.connection_core.specs.Shown.{Shown};

    ghost Value = { Shown };

    ghost use Rattle.connection_core.specs.Holds.{Holds};

    ghost view = { λ e. record { side = e.track.side; limits = e.track.limits; past = e.track.past; prepared = e.prepared } };

    ghost invariant = { λ e. Holds e.track e.outgoing e.gather e.prepared };
}

impl End {
    /// A client that has posted its receives.
    pub fn open_client(alloc: Global, limits: EndLimits) -> Result<End, NoMemory>
        ensures { IfOk result (λ e. e ≡ record { side = side.Client; limits = limits; past = events.Post limits.credits ∷ []; prepared = None }) }
    {
        End::open(alloc, EndId::Client, limits)
    }

    /// A server that has posted its receives.
    pub fn open_server(alloc: Global, limits: EndLimits) -> Result<End, NoMemory>
        ensures { IfOk result (λ e. e ≡ record { side = side.Server; limits = limits; past = events.Post limits.credits ∷ []; prepared = None }) }
    {
        End::open(alloc, EndId::Server, limits)
    }

    fn open(alloc: Global, side: EndId, limits: EndLimits) -> Result<End, NoMemory>
        ensures { IfOk result (λ e. e ≡ record { side = side; limits = limits; past = events.Post limits.credits ∷ []; prepared = None }) }
    {
        Ok(End {
            alloc,
            track: Track::open(alloc, side, limits)?,
            outgoing: Outgoing::new(alloc),
            gather: Gather::open(alloc, limits.fragmented_size()),
            prepared: None,
        })
    }

    /// Accepts a message to be sent, in as many frames as it takes. It is refused, and handed back, after a cut or a
    /// refused frame (`Closed`), where it has no byte (`Empty`), and where it is longer than may be sent (`TooLong`):
    /// than 131,072 bytes before the end is agreed, and than the peer's MaxFragmentedSize after. A refusal changes nothing.
    pub fn submit(&mut self, message: Message) -> Result<(), SubmitRefused>
        ensures accepted { OnOk result (spec.submit_fault self.old.side self.old.limits self.old.past message ≡ None) }
        ensures added { OnOk result (self.new ≡ record self.old { past = events.Submit message ∷ self.old.past; prepared = None }) }
        ensures fault { IfErr result (λ r. IsSubmitFault (spec.submit_fault self.old.side self.old.limits self.old.past message) r.fault) }
        ensures returned { IfErr result (λ r. r.message ≡ message) }
        ensures same { OnErr result (self.new ≡ self.old) }
        ensures legal { spec.IsLegal self.new.side self.new.limits self.new.past }
    {
        if let Some(fault) = self.track.submit_fault(&message) {
            return Err(SubmitRefused { fault, message });
        }
        match keep(&mut self.track, &mut self.outgoing, &message) {
            Ok(()) => {
                self.track.add_submit(message);
                begin_next(&self.track, &mut self.outgoing);
                self.prepared = None;
                Ok(())
            }
            Err(NoMemory) => Err(SubmitRefused {
                fault: SubmitFault::NoMemory,
                message,
            }),
        }
    }

    /// Tells what comes next, and adds no event. A Post or an Emit is prepared, with the room that it needs, for
    /// `commit`; after any other answer nothing is prepared.
    pub fn next(&mut self) -> Result<Next, NoMemory>
        ensures next { IfOk result (λ n. n ≡ spec.next_event self.old.side self.old.limits self.old.past) }
        ensures prepared { IfOk result (λ n. self.new ≡ record self.old { prepared = spec.due_event n }) }
        ensures none { OnErr result (self.new ≡ record self.old { prepared = None }) }
    {
        self.prepared = None;
        let next = self.track.next(self.alloc, &self.outgoing)?;
        if let Some(event) = due_event(&next)? {
            self.track.reserve(2)?;
            self.prepared = Some(event);
        }
        Ok(next)
    }

    /// Adds the prepared event to the history.
    pub fn commit(&mut self)
        requires { is_some self.old.prepared ≡ true }
        ensures added { (e : Happening) → self.old.prepared ≡ Some e → self.new ≡ record self.old { past = e ∷ self.old.past; prepared = None } }
        ensures legal { spec.IsLegal self.new.side self.new.limits self.new.past }
    {
        match self.prepared.take() {
            Some(Event::Post(_)) => self.track.add_post(),
            Some(Event::Emit(frame)) => {
                send_first(&self.track, &mut self.outgoing);
                self.track.add_emit(frame);
                begin_next(&self.track, &mut self.outgoing);
            }
            _ => unreachable!(),
        }
    }

    /// Whether a frame may be taken: the end is open, and no receive is due.
    pub fn ready(&self) -> bool
        ensures { result ≡ spec.is_ready self.now.side self.now.limits self.now.past }
    {
        self.track.is_ready()
    }

    /// Takes a frame that the peer sent, and gives the message that it ends; a piece that ends none is kept. A frame that
    /// is refused is handed back; but for want of memory, its Take is then in the history, and the end can only be cut, once
    /// a server has sent the refusing response to a request of another version.
    pub fn take(&mut self, frame: Frame) -> Result<Option<Message>, TakeRefused>
        requires { spec.is_ready self.old.side self.old.limits self.old.past ≡ true }
        ensures accepted { OnOk result (spec.take_fault self.old.side self.old.limits self.old.past frame ≡ None) }
        ensures added { OnOk result (self.new ≡ record self.old { past = events.Take frame ∷ self.old.past; prepared = None }) }
        ensures delivered { IfOk result (λ m. messages_delivered self.old.side self.old.limits (events.Take frame ∷ self.old.past)
            ≡ messages_delivered self.old.side self.old.limits self.old.past ++ option_to_list m) }
        ensures refused { IfErr result (λ r. IsTakeRefused self.old frame r.fault self.new) }
        ensures returned { IfErr result (λ r. r.frame ≡ frame) }
        ensures legal { spec.IsLegal self.new.side self.new.limits self.new.past }
    {
        let heard = self.track.hear(&frame);
        let refusal = self.track.take_fault(&frame, &heard, &self.gather);
        let peer = self.track.peer_after(&frame, &heard, refusal.is_some());
        let asks = frames::asks(&heard);
        match refusal {
            None => match brought(&mut self.track, &mut self.gather, &frame, &heard) {
                Ok(message) => {
                    self.track.add_take(frame, None, peer, asks);
                    begin_next(&self.track, &mut self.outgoing);
                    self.prepared = None;
                    Ok(message)
                }
                Err(NoMemory) => Err(no_memory(frame)),
            },
            Some(fault) => match copied(&mut self.track, &frame) {
                Ok(copy) => {
                    self.track.add_take(frame, Some(fault), peer, asks);
                    self.prepared = None;
                    Err(TakeRefused { fault, frame: copy })
                }
                Err(NoMemory) => Err(no_memory(frame)),
            },
        }
    }

    /// Cuts the end. It changes nothing where the end is cut already.
    pub fn cut(&mut self)
        ensures cut { spec.is_cut self.old.past ≡ false → self.new ≡ record self.old { past = events.Cut ∷ self.old.past; prepared = None } }
        ensures same { spec.is_cut self.old.past ≡ true → self.new ≡ self.old }
        ensures legal { spec.IsLegal self.new.side self.new.limits self.new.past }
    {
        if self.track.is_cut() {
            return;
        }
        self.track.add_cut();
        self.prepared = None;
    }

    /// Whether the end is cut.
    pub fn is_cut(&self) -> bool
        ensures { result ≡ spec.is_cut self.now.past }
    {
        self.track.is_cut()
    }

    /// What the negotiation has settled: a client is agreed once it has taken the response, and a server once it has
    /// sent it.
    pub fn agreed(&self) -> Option<Agreed>
        ensures { result ≡ spec.agreed_of self.now.side self.now.limits self.now.past }
    {
        self.track.agreed()
    }

    /// The credits with which the end may send.
    pub fn held(&self) -> u16
        ensures { result ≡ count.credits_held self.now.side self.now.past }
    {
        self.track.held()
    }

    /// The credits that the peer was granted and has not used.
    pub fn outstanding(&self) -> u16
        ensures { result ≡ count.receives_outstanding self.now.side self.now.past }
    {
        self.track.outstanding()
    }

    /// The receives that are posted and not yet granted.
    pub fn grantable(&self) -> u16
        ensures { result ≡ count.receives_grantable self.now.side self.now.past }
    {
        self.track.grantable()
    }

    /// The events so far, in the order of time.
    pub fn history(&self) -> &[Event]
        ensures past { reverse result.now ≡ self.now.past }
        ensures lawful { IsLawful self.now.limits }
        ensures legal { spec.IsLegal self.now.side self.now.limits self.now.past }
    {
        self.track.events()
    }
}

/// Keeps a copy of a message that was accepted, to be divided and sent, with room for its Submit and for a Cut.
fn keep(track: &mut Track, outgoing: &mut Outgoing, message: &Message) -> Result<(), NoMemory>
    requires { IsSendable message.now }
    ensures kept { OnOk result (outgoing.new ≡ with_message outgoing.old message.now) }
    ensures same { OnErr result (outgoing.new ≡ outgoing.old) }
    ensures track { track.new ≡ record track.old { room = track.new.room } }
    ensures room { OnOk result (2 ≤ track.new.room) }
    ensures more { track.old.room ≤ track.new.room }
{
    track.reserve(2)?;
    outgoing.keep(message.share()?)
}

/// Gives the piece that the next frame carries. The first frame of an end carries none.
fn send_first(track: &Track, outgoing: &mut Outgoing)
    ensures { outgoing.new ≡ sent_from (is_silent track.now.past) outgoing.old }
{
    if !track.is_silent() {
        outgoing.sent();
    }
}

/// Begins to divide the next message, once the end is agreed.
fn begin_next(track: &Track, outgoing: &mut Outgoing)
    ensures { outgoing.new ≡ begun_by (spec.agreed_of track.now.side track.now.limits track.now.past) outgoing.old }
{
    if let Some(agreed) = track.agreed() {
        outgoing.begin(agreed.send_size - HEADER_SIZE as u32);
    }
}

/// The message that a frame ends that says this and is not refused, with room for its Take and for a Cut. Its piece is then gathered.
fn brought(
    track: &mut Track,
    gather: &mut Gather,
    frame: &Frame,
    heard: &Heard,
) -> Result<Option<Message>, NoMemory>
    requires begun { gather.old ≡ gatherer_of track.old.side track.old.limits track.old.past }
    requires heard { IsHeard track.old.side track.old.limits track.old.past frame.now heard.now }
    requires fault { spec.take_fault track.old.side track.old.limits track.old.past frame.now ≡ None }
    ensures message { IfOk result (λ m. m ≡ message_brought track.old.side track.old.limits track.old.past frame.now) }
    ensures added { OnOk result (gather.new ≡ gatherer_of track.old.side track.old.limits (events.Take frame.now ∷ track.old.past)) }
    ensures same { OnErr result (gather.new ≡ gather.old) }
    ensures track { track.new ≡ record track.old { room = track.new.room } }
    ensures room { OnOk result (2 ≤ track.new.room) }
    ensures more { track.old.room ≤ track.new.room }
{
    track.reserve(2)?;
    frames::gathered(heard, gather)
}

/// A copy of a frame that is refused, with room for its Take and for a Cut.
fn copied(track: &mut Track, frame: &Frame) -> Result<Frame, NoMemory>
    ensures copy { IfOk result (λ f. f ≡ frame.now) }
    ensures track { track.new ≡ record track.old { room = track.new.room } }
    ensures room { OnOk result (2 ≤ track.new.room) }
    ensures more { track.old.room ≤ track.new.room }
{
    track.reserve(2)?;
    frame.share()
}

fn no_memory(frame: Frame) -> TakeRefused
    ensures fault { result.fault ≡ TakeFault.NoMemory }
    ensures frame { result.frame ≡ frame }
{
    TakeRefused {
        fault: TakeFault::NoMemory,
        frame,
    }
}

/// The event that comes next, where one does.
fn due_event(next: &Next) -> Result<Option<Event>, NoMemory>
    ensures { IfOk result (λ e. e ≡ spec.due_event next.now) }
{
    match next {
        Next::Post(n) => Ok(Some(Event::Post(*n))),
        Next::Emit(frame) => Ok(Some(Event::Emit(frame.share()?))),
        Next::Close | Next::Idle => Ok(None),
    }
}
