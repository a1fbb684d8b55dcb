//! An end of a link that says numbered messages, and keeps what it hears.
//!
//! A test ends at once where memory is wanting.

ghost use Rattle.std.specs.Prelude.{◌≡◌};
ghost use Rattle.smbd_base.specs.declared.end_id.EndId.TheVariants.{Client, Server};
ghost use Rattle.sim_adapter.specs.Passes.{known_by};
ghost use Rattle.sim_adapter.specs.Rule.{opened, limits_of};
ghost use Rattle.link_ends.specs.Ends.{view_of, IsOf, GoesOnAt};

use link_ends::{Driven, LinkEnd, Received, meet};
use sim_adapter::{Link, Pass};
use smbd_base::{EndId, EndLimits, Event, Message};
use smbd_outside::Gate;
use std::alloc::Global;
use std::process::Abort;

/// What is said where memory is wanting.
pub const MEMORY: &str = "memory for a test";

/// What is said where limits are not lawful.
pub const LAWFUL: &str = "lawful limits";

/// The lengths of messages, in turn: of one frame and of several.
const LENGTHS: [usize; 5] = [4, 5, 100, 1_400, 3_000];

/// An end, with what it is to say and what it has heard.
#[derive(Drop)]
pub struct Talker {
    pub end: LinkEnd,
    /// The messages that it submits, in this order.
    pub words: Vec<Message>,
    /// How many of them it has submitted.
    pub said: usize,
    /// The messages that it delivered, in this order.
    pub heard: Vec<Message>,
    /// The frames that it took.
    pub taken: u64,
    /// How often it looked for a frame and none was in flight.
    pub empty: u64,
}

/// Message `number` of the end with this mark: both are in its bytes, and those after them count up from the number.
fn numbered(rt: &impl Abort, alloc: Global, mark: u8, number: u16) -> Message {
    let len = LENGTHS[usize::from(number) % 5];
    let mut bytes = Vec::new(alloc);
    bytes.push(mark).expect(rt, MEMORY);
    bytes.push((number % 256) as u8).expect(rt, MEMORY);
    bytes.push((number / 256) as u8).expect(rt, MEMORY);
    for i in 3..len {
        bytes
            .push(((usize::from(number) + i) % 256) as u8)
            .expect(rt, MEMORY);
    }
    Message::of_bytes(bytes).expect(rt, MEMORY)
}

/// So many messages of an end with this mark.
pub fn messages(rt: &impl Abort, alloc: Global, mark: u8, count: u16) -> Vec<Message> {
    let mut words = Vec::new(alloc);
    for number in 0..count {
        words
            .push(numbered(rt, alloc, mark, number))
            .expect(rt, MEMORY);
    }
    words
}

/// Whether these messages are the first of those, in order.
pub fn are_first(heard: &[Message], said: &[Message]) -> bool {
    heard.len() <= said.len()
        && heard
            .iter()
            .zip(said)
            .all(|(one, other)| one.bytes() == other.bytes())
}

/// Whether these messages are just those, in order.
pub fn are_same(heard: &[Message], said: &[Message]) -> bool {
    heard.len() == said.len() && are_first(heard, said)
}

impl Talker {
    /// An end that is to say these messages.
    pub fn open(
        rt: &impl Abort,
        alloc: Global,
        side: EndId,
        limits: EndLimits,
        pass: Pass,
        words: Vec<Message>,
    ) -> Talker
        requires opened { known_by pass ≡ opened (known_by pass).ends side }
        requires limits { limits ≡ limits_of (known_by pass).ends side }
        ensures { result.end.pass ≡ pass }
    {
        let end = LinkEnd::open(alloc, side, limits, pass).expect(rt, MEMORY);
        Talker {
            end,
            words,
            said: 0,
            heard: Vec::new(alloc),
            taken: 0,
            empty: 0,
        }
    }

    /// Does one thing: what comes next at the end, or else takes a frame, or else submits the next message. Answers whether there
    /// was anything to do.
    pub fn turn<G: Gate>(&mut self, rt: &impl Abort, gate: &G, link: &Link) -> bool
        requires own { IsOf link.now self.old.end }
        ensures own { IsOf link.now self.new.end }
    {
        assert!(rt; !self.end.is_over());
        self.drive(rt, gate, link) || self.take(rt, gate, link) || self.submit(rt, gate, link)
    }

    /// Whether the end is cut.
    pub fn is_cut(&self, rt: &impl Abort) -> bool {
        assert!(rt; !self.end.is_over());
        self.end.is_cut()
    }

    /// Cuts the link, and the end with it.
    pub fn cut<G: Gate>(&mut self, rt: &impl Abort, gate: &G, link: &Link)
        requires own { IsOf link.now self.old.end }
        ensures own { IsOf link.now self.new.end }
    {
        assert!(rt; !self.end.is_over());
        assert!(rt; !self.end.is_cut());
        self.end.cut(gate, link);
    }

    /// Does what comes next at the end, if anything does.
    fn drive<G: Gate>(&mut self, rt: &impl Abort, gate: &G, link: &Link) -> bool
        requires on { GoesOnAt link.now self.old.end }
        ensures on { GoesOnAt link.now self.new.end }
    {
        self.end.drive(gate, link).expect(rt, MEMORY) != Driven::Idle
    }

    /// Takes a frame, if one is in flight, and keeps the message that it ends; or finds out that the link is cut.
    fn take<G: Gate>(&mut self, rt: &impl Abort, gate: &G, link: &Link) -> bool
        requires on { GoesOnAt link.now self.old.end }
        ensures on { GoesOnAt link.now self.new.end }
    {
        if !self.end.is_ready() {
            return false;
        }
        match self.end.take(gate, link).expect(rt, MEMORY) {
            Received::Frame(message) => {
                self.taken = self.taken.saturating_add(1);
                if let Some(message) = message {
                    self.heard.push(message).expect(rt, MEMORY);
                }
                true
            }
            Received::Nothing => {
                self.empty = self.empty.saturating_add(1);
                false
            }
            Received::Cut => true,
        }
    }

    /// Submits the next message, if there is one and the end isn't cut.
    fn submit<G: Gate>(&mut self, rt: &impl Abort, gate: &G, link: &Link) -> bool
        requires on { GoesOnAt link.now self.old.end }
        ensures on { GoesOnAt link.now self.new.end }
    {
        if self.end.is_cut() {
            return false;
        }
        let Some(message) = self.words.get(self.said) else {
            return false;
        };
        let message = message.share().expect(rt, MEMORY);
        assert!(rt; self.end.submit(gate, link, message).is_ok());
        self.said = self.said.saturating_add(1);
        true
    }
}

/// What each end took and submitted is what the other sent, and what it was to say.
pub fn assert_fit(rt: &impl Abort, client: &Talker, server: &Talker) {
    assert!(rt; !client.end.is_over() && !server.end.is_over());
    let one = client.end.history();
    let other = server.end.history();
    assert!(rt;
        are_sent(one, other),
        "the client took what the server sent"
    );
    assert!(rt;
        are_sent(other, one),
        "the server took what the client sent"
    );
    assert!(rt; are_submitted(one, &client.words, client.said));
    assert!(rt; are_submitted(other, &server.words, server.said));
}

/// Both ends meet.
pub fn meet_both(rt: &impl Abort, link: &Link, client: &mut Talker, server: &mut Talker)
    requires client { IsOf link.now client.old.end }
    requires server { IsOf link.now server.old.end }
    ensures client { IsOf link.now client.new.end }
    ensures server { IsOf link.now server.new.end }
{
    assert!(rt; client.end.side() == EndId::Client);
    assert!(rt; server.end.side() == EndId::Server);
    meet(link, &mut client.end, &mut server.end);
}

/// The bytes of a frame that was sent.
fn bytes_sent(event: &Event) -> Option<&[u8]> {
    match event {
        Event::Emit(frame) => Some(frame.bytes()),
        _ => None,
    }
}

/// The bytes of a frame that was taken.
fn bytes_taken(event: &Event) -> Option<&[u8]> {
    match event {
        Event::Take(frame) => Some(frame.bytes()),
        _ => None,
    }
}

/// The bytes of a message that was submitted.
fn bytes_submitted(event: &Event) -> Option<&[u8]> {
    match event {
        Event::Submit(message) => Some(message.bytes()),
        _ => None,
    }
}

/// Whether the frames that one end took are the first of those that the other sent, in order.
pub fn are_sent(taken: &[Event], sent: &[Event]) -> bool {
    taken.iter().filter_map(bytes_taken).count() <= sent.iter().filter_map(bytes_sent).count()
        && taken
            .iter()
            .filter_map(bytes_taken)
            .zip(sent.iter().filter_map(bytes_sent))
            .all(|(one, other)| one == other)
}

/// Whether just the first so many of these messages were submitted, in order.
pub fn are_submitted(history: &[Event], words: &[Message], said: usize) -> bool {
    history.iter().filter_map(bytes_submitted).count() == said
        && said <= words.len()
        && history
            .iter()
            .filter_map(bytes_submitted)
            .zip(words)
            .all(|(bytes, message)| bytes == message.bytes())
}
