//! What an end knows of its history without reading it again: its credits, its peer, and what it waits for.

ghost use Rattle.std.specs.Prelude.{◌≡◌, ◌-◌, ◌<◌, ◌≤◌, ◌==◌, true, false, not, ◌&&◌, ◌||◌, nat_lt, nat_le, [], ◌∷◌, is_some, is_none, length, reverse, Some, None, IfNone, IfOk, IfSome, OnOk};
ghost use Rattle.smbd_base.specs.declared.end_id.EndId.TheVariants as ends;
ghost use Rattle.smbd_base.specs.declared.event.Event.TheVariants as events;
ghost use Rattle.smbd_base.specs.declared.next.Next.TheVariants as due;
ghost use Rattle.smbd_base.specs.Counts as count;
ghost use Rattle.smbd_base.specs.DataFrame.{data_frame_of};
ghost use Rattle.smbd_base.specs.Grant.{credits_in};
ghost use Rattle.smbd_base.specs.History as spec;
ghost use Rattle.smbd_base.specs.Limits.{IsLawful};
ghost use Rattle.smbd_base.specs.NegotiateMessages.{IsLawfulAgreement};
ghost use Rattle.credit_ledger.specs.Credits.{may_spend};
ghost use Rattle.fragmenter.specs.Cut.{next_place, piece_at};
ghost use Rattle.connection_core.specs.Gatherer.{gatherer_of};
ghost use Rattle.connection_core.specs.Heard.{IsHeard};
ghost use Rattle.connection_core.specs.Ledgered.{credits_after_sending, credits_after_taking};
ghost use Rattle.connection_core.specs.Peers.{Knows};
ghost use Rattle.connection_core.specs.Queue.{IsSendable, Queues};
ghost use Rattle.connection_core.specs.Standing.{sent_standing, standing_of, taken_standing};

use crate::frames;
use crate::heard::Heard;
use crate::history::History;
use crate::outgoing::Outgoing;
use crate::peer::Peer;
use credit_ledger::Ledger;
use fragmenter::{Cutter, Piece};
use negotiate_msg::settle_with_client;
use reassembly::Gather;
use smbd_base::{
    Agreed, EndId, EndLimits, Event, Frame, LEAST_FRAGMENTED_SIZE, Message, NegotiateFault, Next,
    NoMemory, SubmitFault, TakeFault,
};
use std::alloc::Global;
use std::marker::Model;
use transfer_msg::{Header, read};

/// Whether an end goes on.
#[derive(Clone, Copy, Debug, PartialEq, Eq)]
pub enum Standing {
    /// It was neither cut nor has it refused a frame.
    Open,
    /// It has refused a version, and still sends the refusing response.
    Declining,
    /// Only a cut can follow.
    Closed,
    /// It was cut.
    Cut,
}

/// The history of an end, beside the little that says all that the next step needs of it.
/// Contracts see the side, the limits, the past and the room for events.
#[derive(Drop)]
pub struct Track {
    side: EndId,
    limits: EndLimits,
    history: History,
    ledger: Ledger,
    standing: Standing,
    spoken: bool,
    peer: Peer,
    post_due: bool,
    response_owed: bool,
}

impl Model for Track {
    ghost use Rattle.connection_core.specs.Tracked.{Tracked};

    ghost Value = { Tracked };

    ghost use Rattle.connection_core.specs.Keeps.{Keeps};

    ghost view = { λ t. record { side = t.side; limits = t.limits; past = t.history.past; room = t.history.room } };

    ghost invariant = { λ t. Keeps t };
}

impl Track {
    /// An end that has posted its receives, with room for one event more.
    pub fn open(alloc: Global, side: EndId, limits: EndLimits) -> Result<Track, NoMemory>
        ensures opened { IfOk result (λ t. t ≡ record { side = side; limits = limits; past = events.Post limits.credits ∷ []; room = t.room }) }
        ensures room { IfOk result (λ t. 0 < t.room) }
        ensures lawful { OnOk result (IsLawful limits) }
        ensures legal { spec.IsLegal side limits (events.Post limits.credits ∷ []) }
    {
        let credits = limits.credits();
        let mut history = History::open(alloc, 2)?;
        history.push(Event::Post(credits));
        let ledger = Ledger::open(credits);
        Ok(Track {
            side,
            limits,
            history,
            ledger,
            standing: Standing::Open,
            spoken: false,
            peer: Peer::Unheard,
            post_due: false,
            response_owed: false,
        })
    }

    pub fn held(&self) -> u16
        ensures { result ≡ count.credits_held self.now.side self.now.past }
    {
        self.ledger.held()
    }

    pub fn outstanding(&self) -> u16
        ensures { result ≡ count.receives_outstanding self.now.side self.now.past }
    {
        self.ledger.outstanding()
    }

    pub fn grantable(&self) -> u16
        ensures { result ≡ count.receives_grantable self.now.side self.now.past }
    {
        self.ledger.grantable()
    }

    pub fn events(&self) -> &[Event]
        ensures { reverse result.now ≡ self.now.past }
    {
        self.history.events()
    }

    pub fn is_cut(&self) -> bool
        ensures { result ≡ spec.is_cut self.now.past }
    {
        self.standing == Standing::Cut
    }

    pub fn is_open(&self) -> bool
        ensures { result ≡ spec.is_open self.now.side self.now.limits self.now.past }
    {
        self.standing == Standing::Open
    }

    pub fn is_ready(&self) -> bool
        ensures { result ≡ spec.is_ready self.now.side self.now.limits self.now.past }
    {
        self.is_open() && !self.post_due
    }

    pub fn is_silent(&self) -> bool
        ensures { result ≡ count.is_silent self.now.past }
    {
        !self.spoken
    }

    pub fn is_unheard(&self) -> bool
        ensures { result ≡ count.is_unheard self.now.past }
    {
        matches!(self.peer, Peer::Unheard)
    }

    fn is_out_of_turn(&self) -> bool
        ensures { result ≡ count.is_out_of_turn self.now.side self.now.past }
    {
        let early = match self.side {
            EndId::Client => !self.spoken,
            EndId::Server => false,
        };
        early || self.ledger.outstanding() == 0
    }

    /// What the negotiation has settled, once it has.
    pub fn agreed(&self) -> Option<Agreed>
        ensures agreed { result ≡ spec.agreed_of self.now.side self.now.limits self.now.past }
        ensures lawful { IfSome result (λ agreed. IsLawfulAgreement agreed) }
    {
        if !self.spoken {
            return None;
        }
        match &self.peer {
            Peer::Unheard => None,
            Peer::Refused => None,
            Peer::Requests(request) => Some(settle_with_client(request, &self.limits)),
            Peer::Responds(agreed) => Some(*agreed),
        }
    }

    /// Why a message is refused, if it is.
    pub fn submit_fault(&self, message: &Message) -> Option<SubmitFault>
        ensures fault { result ≡ spec.submit_fault self.now.side self.now.limits self.now.past message.now }
        ensures sendable { IfNone result (IsSendable message.now) }
    {
        if !self.is_open() {
            return Some(SubmitFault::Closed);
        }
        if message.is_empty() {
            return Some(SubmitFault::Empty);
        }
        if message.len() > self.message_limit() as usize {
            return Some(SubmitFault::TooLong);
        }
        None
    }

    /// The bytes of the longest message that may be submitted.
    fn message_limit(&self) -> u32
        ensures { result ≡ spec.message_limit self.now.side self.now.limits self.now.past }
    {
        match self.agreed() {
            Some(agreed) => agreed.message_max,
            None => LEAST_FRAGMENTED_SIZE,
        }
    }

    /// Reads a frame.
    pub fn hear<'a>(&self, frame: &'a Frame) -> Heard<'a>
        ensures { IsHeard self.now.side self.now.limits self.now.past frame.now result }
    {
        if self.is_unheard() {
            Heard::Negotiation(frames::negotiation(frame.bytes(), self.side, &self.limits))
        } else {
            Heard::Data(read(frame.bytes()))
        }
    }

    /// Why a frame that says this is refused, if it is, by the gatherer of this past.
    #[tactic(auto, unfolding(smbd_base::specs::History::take_fault, smbd_base::specs::History::fault_expecting))]
    pub fn take_fault(&self, frame: &Frame, heard: &Heard, gather: &Gather) -> Option<TakeFault>
        requires begun { gather.now ≡ gatherer_of self.now.side self.now.limits self.now.past }
        requires heard { IsHeard self.now.side self.now.limits self.now.past frame.now heard.now }
        ensures { result ≡ spec.take_fault self.now.side self.now.limits self.now.past frame.now }
    {
        if self.is_out_of_turn() {
            return Some(TakeFault::OutOfTurn);
        }
        let limit = self.limits.receive_size();
        let length = frame.len();
        if length > limit as usize {
            return Some(TakeFault::Oversize {
                length: length as u64,
                limit,
            });
        }
        frames::fault(heard, gather)
    }

    /// The event that comes next, while these messages wait to be sent.
    pub fn next(&self, alloc: Global, outgoing: &Outgoing) -> Result<Next, NoMemory>
        requires queue { Queues self.now.side self.now.limits self.now.past outgoing.now }
        ensures { IfOk result (λ n. n ≡ spec.next_event self.now.side self.now.limits self.now.past) }
    {
        match self.standing() {
            Standing::Cut => return Ok(Next::Idle),
            Standing::Closed => return Ok(Next::Close),
            Standing::Declining | Standing::Open => {}
        }
        if self.is_post_due() {
            return Ok(Next::Post(1));
        }
        if self.is_negotiating() {
            return Ok(Next::Emit(self.negotiation_frame(alloc)?));
        }
        if self.is_sending(outgoing) {
            return Ok(Next::Emit(self.frame_due(alloc, outgoing)?));
        }
        Ok(Next::Idle)
    }

    fn standing(&self) -> Standing
        ensures standing { result ≡ standing_of self.now.side self.now.limits self.now.past }
        ensures opened { spec.is_new self.now.past ≡ false }
    {
        self.standing
    }

    fn is_post_due(&self) -> bool
        ensures { result ≡ spec.is_post_due self.now.past }
    {
        self.post_due
    }

    /// Whether the negotiation message of this end is due.
    fn is_negotiating(&self) -> bool
        ensures { result ≡ spec.is_negotiating self.now.side self.now.past }
    {
        match self.side {
            EndId::Client => !self.spoken,
            EndId::Server => !self.spoken && !self.is_unheard(),
        }
    }

    /// The negotiation message that is due.
    fn negotiation_frame(&self, alloc: Global) -> Result<Frame, NoMemory>
        requires uncut { spec.is_cut self.now.past ≡ false }
        requires going { spec.is_closed self.now.side self.now.limits self.now.past ≡ false }
        requires reposted { spec.is_post_due self.now.past ≡ false }
        requires opening { spec.is_negotiating self.now.side self.now.past ≡ true }
        ensures { IfOk result (λ f. f ≡ spec.negotiation_frame self.now.side self.now.limits self.now.past) }
    {
        match &self.peer {
            Peer::Requests(request) => {
                frames::response(alloc, request, &self.limits, self.ledger.grantable())
            }
            Peer::Refused => frames::refusing(alloc),
            Peer::Unheard | Peer::Responds(_) => frames::request(alloc, &self.limits),
        }
    }

    /// Whether a data transfer message is due, while these messages wait to be sent.
    fn is_sending(&self, outgoing: &Outgoing) -> bool
        requires queue { Queues self.now.side self.now.limits self.now.past outgoing.now }
        ensures { result ≡ spec.is_sending self.now.side self.now.limits self.now.past }
    {
        self.is_agreed() && self.sends(!outgoing.is_empty())
    }

    fn is_agreed(&self) -> bool
        ensures { result ≡ spec.is_agreed self.now.side self.now.limits self.now.past }
    {
        match &self.peer {
            Peer::Unheard => false,
            Peer::Refused => false,
            Peer::Requests(_) => self.spoken,
            Peer::Responds(_) => self.spoken,
        }
    }

    /// Whether an agreed end sends, where a piece waits or none does.
    fn sends(&self, waits: bool) -> bool
        ensures { result ≡ spec.sends (count.credits_held self.now.side self.now.past) (count.receives_outstanding self.now.side self.now.past)
            (count.receives_grantable self.now.side self.now.past) waits (spec.is_response_owed self.now.past) }
    {
        let grantable = self.ledger.grantable();
        (waits || self.response_owed || (self.ledger.outstanding() <= 1 && grantable >= 1))
            && self.ledger.may_spend(grantable)
    }

    /// The data transfer message that is due, while these messages wait to be sent.
    fn frame_due(&self, alloc: Global, outgoing: &Outgoing) -> Result<Frame, NoMemory>
        requires queue { Queues self.now.side self.now.limits self.now.past outgoing.now }
        requires agreed { spec.is_agreed self.now.side self.now.limits self.now.past ≡ true }
        ensures { IfOk result (λ f. f ≡ spec.frame_due self.now.side self.now.limits self.now.past) }
    {
        let Some(cutter) = outgoing.first() else {
            return frames::data_frame(alloc, &self.header(false, 0, 0), &[]);
        };
        let Some(piece) = cutter.peek() else {
            unreachable!()
        };
        let asks = self.asks_for_response(piece.remaining, outgoing.has_more());
        let header = self.header(asks, piece.remaining, piece.length);
        frames::data_frame(alloc, &header, bytes_of(cutter, &piece))
    }

    /// Whether the next frame asks for a response, where so many bytes of its message come after it, and more messages
    /// wait or none does: a piece waits after it, and it leaves one credit or none.
    fn asks_for_response(&self, remaining: u32, more: bool) -> bool
        ensures { result ≡ ((nat_lt 0 remaining || more) && nat_le (count.credits_held self.now.side self.now.past) 2) }
    {
        (remaining > 0 || more) && self.ledger.held() <= 2
    }

    /// The header of a data transfer message with a piece of so many bytes, after which so many come. It grants all
    /// that can be granted.
    fn header(&self, response_requested: bool, remaining: u32, length: u32) -> Header
        ensures { result ≡ record {
          credits_requested = self.now.limits.credits;
          credits_granted = count.receives_grantable self.now.side self.now.past;
          response_requested = response_requested;
          remaining = remaining;
          length = length;
        } }
    {
        Header {
            credits_requested: self.limits.credits(),
            credits_granted: self.ledger.grantable(),
            response_requested,
            remaining,
            length,
        }
    }

    /// Makes room for so many events more.
    pub fn reserve(&mut self, room: usize) -> Result<(), NoMemory>
        ensures same { self.new ≡ record self.old { room = self.new.room } }
        ensures room { OnOk result (room ≤ self.new.room) }
        ensures kept { self.old.room ≤ self.new.room }
    {
        self.history.reserve(room)
    }

    /// Adds the Post of the one receive that is due.
    pub fn add_post(&mut self)
        requires room { 0 < self.old.room }
        requires due { spec.next_event self.old.side self.old.limits self.old.past ≡ due.Post 1 }
        ensures { self.new ≡ record self.old { past = events.Post 1 ∷ self.old.past; room = self.old.room - 1 } }
    {
        self.history.push(Event::Post(1));
        self.ledger.posted(1);
        self.post_due = false;
    }

    /// Adds the Submit of a message that is not refused.
    pub fn add_submit(&mut self, message: Message)
        requires room { 0 < self.old.room }
        requires follows { spec.submit_fault self.old.side self.old.limits self.old.past message ≡ None }
        ensures { self.new ≡ record self.old { past = events.Submit message ∷ self.old.past; room = self.old.room - 1 } }
    {
        self.history.push(Event::Submit(message));
    }

    /// Adds the Emit of the frame that is due.
    pub fn add_emit(&mut self, frame: Frame)
        requires room { 0 < self.old.room }
        requires due { spec.next_event self.old.side self.old.limits self.old.past ≡ due.Emit frame }
        ensures { self.new ≡ record self.old { past = events.Emit frame ∷ self.old.past; room = self.old.room - 1 } }
    {
        let granted = frame.granted(self.side, !self.spoken);
        let standing = self.standing_after_sending();
        self.history.push(Event::Emit(frame));
        spend(&mut self.ledger, !self.spoken, granted);
        self.standing = standing;
        self.spoken = true;
        self.response_owed = false;
    }

    /// An end that was declining is closed once it has sent its response.
    fn standing_after_sending(&self) -> Standing
        ensures { result ≡ sent_standing (standing_of self.now.side self.now.limits self.now.past) }
    {
        match self.standing {
            Standing::Declining => Standing::Closed,
            standing => standing,
        }
    }

    /// Adds the Take of a frame, which is refused for this fault or is not. It leaves this known of the peer, and asks for a
    /// response or doesn't.
    pub fn add_take(&mut self, frame: Frame, fault: Option<TakeFault>, peer: Peer, asks: bool)
        requires room { 0 < self.old.room }
        requires ready { spec.is_ready self.old.side self.old.limits self.old.past ≡ true }
        requires fault { fault ≡ spec.take_fault self.old.side self.old.limits self.old.past frame }
        requires peer { Knows self.old.side self.old.limits (events.Take frame ∷ self.old.past) peer }
        requires asks { asks ≡ (not (count.is_unheard self.old.past) && spec.asks (data_frame_of frame)) }
        ensures { self.new ≡ record self.old { past = events.Take frame ∷ self.old.past; room = self.old.room - 1 } }
    {
        let in_turn = !self.is_out_of_turn();
        let granted = self.grant_in(&frame);
        let standing = self.standing_after_taking(fault);
        let response_owed = self.response_owed_after(asks);
        self.history.push(Event::Take(frame));
        earn(&mut self.ledger, in_turn, granted);
        self.standing = standing;
        self.peer = peer;
        self.post_due = true;
        self.response_owed = response_owed;
    }

    /// The credits that a frame of the peer grants.
    fn grant_in(&self, frame: &Frame) -> u16
        ensures { result ≡ credits_in (count.peer_of self.now.side) (count.is_unheard self.now.past) frame.now }
    {
        let peer = match self.side {
            EndId::Client => EndId::Server,
            EndId::Server => EndId::Client,
        };
        frame.granted(peer, self.is_unheard())
    }

    /// How an open end stands after a frame that is refused for this fault, or is not.
    fn standing_after_taking(&self, fault: Option<TakeFault>) -> Standing
        ensures { result ≡ taken_standing self.now.side (count.is_silent self.now.past) fault }
    {
        match (fault, self.side) {
            (None, _) => Standing::Open,
            (Some(TakeFault::Negotiate(NegotiateFault::Version)), EndId::Server) if !self.spoken =>
                { Standing::Declining }
            (Some(_), _) => Standing::Closed,
        }
    }

    /// What is known of the peer after a frame that says this, and is refused or is not.
    pub fn peer_after(&self, frame: &Frame, heard: &Heard, refused: bool) -> Peer
        requires heard { IsHeard self.now.side self.now.limits self.now.past frame.now heard.now }
        requires refused { refused ≡ is_some (spec.take_fault self.now.side self.now.limits self.now.past frame.now) }
        ensures { Knows self.now.side self.now.limits (events.Take frame.now ∷ self.now.past) result }
    {
        match heard {
            Heard::Data(_) => self.peer,
            Heard::Negotiation(_) if refused => Peer::Refused,
            Heard::Negotiation(Ok(peer)) => *peer,
            Heard::Negotiation(Err(_)) => unreachable!(),
        }
    }

    /// Whether a response is owed after a frame that asks for one or doesn't.
    fn response_owed_after(&self, asks: bool) -> bool
        ensures { result ≡ (asks || spec.is_response_owed self.now.past) }
    {
        asks || self.response_owed
    }

    /// Adds the Cut of an end that is not cut.
    pub fn add_cut(&mut self)
        requires room { 0 < self.old.room }
        requires uncut { spec.is_cut self.old.past ≡ false }
        ensures { self.new ≡ record self.old { past = events.Cut ∷ self.old.past; room = self.old.room - 1 } }
    {
        self.history.push(Event::Cut);
        self.standing = Standing::Cut;
        self.post_due = false;
    }
}

/// Spends a credit on a frame that grants so many. The one that opens spends the credit of the negotiation where it
/// grants none.
fn spend(ledger: &mut Ledger, opening: bool, granted: u16)
    requires one { (opening && granted == 0) ≡ true → ledger.old.held ≡ 1 }
    requires may { (opening && granted == 0) ≡ false → may_spend granted ledger.old ≡ true }
    ensures { ledger.new ≡ credits_after_sending opening granted ledger.old }
{
    if opening && granted == 0 {
        ledger.spend_request();
    } else {
        ledger.spend(granted);
    }
}

/// Earns what a frame grants that came in turn.
fn earn(ledger: &mut Ledger, in_turn: bool, granted: u16)
    requires turn { in_turn ≡ true → 1 ≤ ledger.old.outstanding }
    ensures { ledger.new ≡ credits_after_taking in_turn granted ledger.old }
{
    if in_turn {
        ledger.took(granted);
    }
}

/// The bytes of a piece of the message that is divided.
fn bytes_of<'a>(cutter: &'a Cutter, piece: &Piece) -> &'a [u8]
    requires { next_place cutter.now ≡ Some piece.now }
    ensures { result.now ≡ (piece_at cutter.now.message piece.now).payload }
{
    let from = piece.from as usize;
    &cutter.message().bytes()[from..from + piece.length as usize]
}
