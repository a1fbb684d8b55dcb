//! Each public call of an end on a link, and of a link, and what they refuse.

ghost use Rattle.std.specs.Prelude.{◌≡◌};
ghost use Rattle.link_ends.specs.Ends.{IsOf};

use crate::talker::{LAWFUL, MEMORY};
use EndId::{Client, Server};
use connection_core::SubmitRefused;
use link_ends::{Driven, LinkEnd, Received, meet};
use sim_adapter::Link;
use smbd_base::{EndId, EndLimits, Event, Message, SubmitFault};
use smbd_outside::OpenGate;
use std::alloc::Global;
use std::process::Abort;

mod passes;

/// What is asked of an end.
#[derive(Clone, Copy, Debug)]
enum Call {
    /// A message of so many bytes is submitted.
    Submit(usize),
    Drive,
    Take,
    Cut,
    /// The frames that were agreed on are asked for.
    Agree,
    /// Both ends meet.
    Meet,
}

/// What comes of it.
#[derive(Clone, Copy, Debug, PartialEq, Eq)]
enum Answer {
    /// The call gives nothing back.
    Done,
    Refused(SubmitFault),
    Drove(Driven),
    /// A frame came, which ends no message.
    Piece,
    /// A frame came, which ends a message of so many bytes.
    Whole(usize),
    Empty,
    /// The link is cut.
    IsCut,
    /// No frame may be taken.
    NotReady,
    /// Frames of so many bytes are agreed on.
    Agreed(u32),
    NotAgreed,
}

/// Submits a message of so many bytes. One that is refused comes back whole.
fn submit(rt: &impl Abort, alloc: Global, link: &Link, end: &mut LinkEnd, len: usize) -> Answer
    requires own { IsOf link.now end.old }
    ensures own { IsOf link.now end.new }
{
    assert!(rt; !end.is_over());
    let bytes = vec![in alloc; 5; len].expect(rt, MEMORY);
    let message = Message::of_bytes(bytes).expect(rt, MEMORY);
    match end.submit(&OpenGate, link, message) {
        Ok(()) => Answer::Done,
        Err(SubmitRefused { fault, message }) => {
            assert!(rt; message.len() == len);
            Answer::Refused(fault)
        }
    }
}

/// Takes a frame, if the end is ready.
fn take(rt: &impl Abort, link: &Link, end: &mut LinkEnd) -> Answer
    requires own { IsOf link.now end.old }
    ensures own { IsOf link.now end.new }
{
    assert!(rt; !end.is_over());
    if !end.is_ready() {
        return Answer::NotReady;
    }
    match end.take(&OpenGate, link).expect(rt, MEMORY) {
        Received::Frame(None) => Answer::Piece,
        Received::Frame(Some(message)) => Answer::Whole(message.len()),
        Received::Nothing => Answer::Empty,
        Received::Cut => Answer::IsCut,
    }
}

/// Does what comes next. A frame comes next where, and only where, one is sent, or would be if the link weren't cut.
fn drive(rt: &impl Abort, link: &Link, end: &mut LinkEnd) -> Answer
    requires own { IsOf link.now end.old }
    ensures own { IsOf link.now end.new }
{
    assert!(rt; !end.is_over());
    let emits = end.emits_next().expect(rt, MEMORY);
    let driven = end.drive(&OpenGate, link).expect(rt, MEMORY);
    assert!(rt; emits == (driven == Driven::Sent || driven == Driven::Cut));
    Answer::Drove(driven)
}

/// Cuts the link and the end.
fn cut(rt: &impl Abort, link: &Link, end: &mut LinkEnd) -> Answer
    requires own { IsOf link.now end.old }
    ensures own { IsOf link.now end.new }
{
    assert!(rt; !end.is_over());
    assert!(rt; !end.is_cut());
    end.cut(&OpenGate, link);
    Answer::Done
}

/// The longest frame that the end sends, once it is agreed.
fn agree(rt: &impl Abort, end: &LinkEnd) -> Answer {
    assert!(rt; !end.is_over());
    match end.agreed() {
        Some(agreed) => Answer::Agreed(agreed.send_size),
        None => Answer::NotAgreed,
    }
}

/// Both ends meet, in which their histories stay as they are.
fn meet_both(rt: &impl Abort, link: &Link, client: &mut LinkEnd, server: &mut LinkEnd) -> Answer
    requires client { IsOf link.now client.old }
    requires server { IsOf link.now server.old }
    ensures client { IsOf link.now client.new }
    ensures server { IsOf link.now server.new }
{
    assert!(rt; client.side() == Client);
    assert!(rt; server.side() == Server);
    meet(link, client, server);
    Answer::Done
}

/// Makes one call.
fn make(
    rt: &impl Abort,
    alloc: Global,
    link: &Link,
    client: &mut LinkEnd,
    server: &mut LinkEnd,
    whose: EndId,
    call: Call,
) -> Answer
    requires client { IsOf link.now client.old }
    requires server { IsOf link.now server.old }
    ensures client { IsOf link.now client.new }
    ensures server { IsOf link.now server.new }
{
    if let Call::Meet = call {
        return meet_both(rt, link, client, server);
    }
    match whose {
        Client => make_one(rt, alloc, link, client, call),
        Server => make_one(rt, alloc, link, server, call),
    }
}

/// Makes one call of an end.
fn make_one(rt: &impl Abort, alloc: Global, link: &Link, end: &mut LinkEnd, call: Call) -> Answer
    requires own { IsOf link.now end.old }
    ensures own { IsOf link.now end.new }
{
    match call {
        Call::Submit(len) => submit(rt, alloc, link, end, len),
        Call::Drive => drive(rt, link, end),
        Call::Take => take(rt, link, end),
        Call::Cut => cut(rt, link, end),
        Call::Agree => agree(rt, end),
        Call::Meet => Answer::Done,
    }
}

/// The first letter of an event's kind.
fn letter_of(event: &Event) -> u8 {
    match event {
        Event::Post(_) => b'P',
        Event::Submit(_) => b'S',
        Event::Emit(_) => b'E',
        Event::Take(_) => b'T',
        Event::Cut => b'C',
    }
}

/// Whether the end has a history of events of these kinds, and says that it is cut where the last of them is a cut.
fn has_done(rt: &impl Abort, end: &LinkEnd, letters: &[u8]) -> bool {
    assert!(rt; !end.is_over());
    end.history().len() == letters.len()
        && end
            .history()
            .iter()
            .zip(letters)
            .all(|(event, letter)| letter_of(event) == *letter)
        && end.is_cut() == (letters.last() == Some(&b'C'))
}

/// Makes each call in turn, and sees what comes of it, and then what both ends have done.
fn follow(
    rt: &impl Abort,
    alloc: Global,
    calls: &[(EndId, Call, Answer)],
    client_did: &[u8],
    server_did: &[u8],
) {
    let limits = EndLimits::check(4, 1_364, 1_364, 131_072, 64).expect(rt, LAWFUL);
    let (link, client_pass, server_pass) = Link::open(alloc, &limits, &limits).expect(rt, MEMORY);
    let mut client = LinkEnd::open(alloc, Client, limits, client_pass).expect(rt, MEMORY);
    let mut server = LinkEnd::open(alloc, Server, limits, server_pass).expect(rt, MEMORY);
    for (whose, call, answer) in calls {
        let found = make(rt, alloc, &link, &mut client, &mut server, *whose, *call);
        assert!(rt; found == *answer, "{whose:?} {call:?}");
    }
    assert!(rt; has_done(rt, &client, client_did), "what the client did");
    assert!(rt; has_done(rt, &server, server_did), "what the server did");
}

#[test]
fn a_message_crosses_in_two_frames(rt: HostRuntime) {
    const CALLS: &[(EndId, Call, Answer)] = &[
        (Client, Call::Take, Answer::Empty),
        (Server, Call::Take, Answer::Empty),
        (Server, Call::Drive, Answer::Drove(Driven::Idle)),
        (Client, Call::Drive, Answer::Drove(Driven::Sent)),
        (Client, Call::Drive, Answer::Drove(Driven::Idle)),
        (Server, Call::Take, Answer::Piece),
        (Server, Call::Take, Answer::NotReady),
        (Server, Call::Drive, Answer::Drove(Driven::Posted)),
        (Server, Call::Take, Answer::Empty),
        (Server, Call::Agree, Answer::NotAgreed),
        (Server, Call::Drive, Answer::Drove(Driven::Sent)),
        (Server, Call::Agree, Answer::Agreed(1_364)),
        (Client, Call::Agree, Answer::NotAgreed),
        (Client, Call::Meet, Answer::Done),
        (Client, Call::Take, Answer::Piece),
        (Client, Call::Agree, Answer::Agreed(1_364)),
        (Client, Call::Drive, Answer::Drove(Driven::Posted)),
        (Client, Call::Submit(2_000), Answer::Done),
        (Client, Call::Drive, Answer::Drove(Driven::Sent)),
        (Client, Call::Drive, Answer::Drove(Driven::Sent)),
        (Server, Call::Take, Answer::Piece),
        (Server, Call::Drive, Answer::Drove(Driven::Posted)),
        (Server, Call::Take, Answer::Whole(2_000)),
        (Client, Call::Meet, Answer::Done),
        (Server, Call::Drive, Answer::Drove(Driven::Posted)),
        (Server, Call::Take, Answer::Empty),
    ];
    follow(&rt, rt.alloc(), CALLS, b"PETPSEE", b"PTPETPTP");
}

#[test]
fn messages_that_are_refused_come_back(rt: HostRuntime) {
    const CALLS: &[(EndId, Call, Answer)] = &[
        (Client, Call::Submit(0), Answer::Refused(SubmitFault::Empty)),
        (
            Client,
            Call::Submit(131_073),
            Answer::Refused(SubmitFault::TooLong),
        ),
        (Client, Call::Submit(131_072), Answer::Done),
        (Server, Call::Submit(1), Answer::Done),
        (Client, Call::Cut, Answer::Done),
        (
            Client,
            Call::Submit(1),
            Answer::Refused(SubmitFault::Closed),
        ),
    ];
    follow(&rt, rt.alloc(), CALLS, b"PSC", b"PS");
}

#[test]
fn both_ends_find_out_a_cut(rt: HostRuntime) {
    const AT_A_TAKE: &[(EndId, Call, Answer)] = &[
        (Client, Call::Drive, Answer::Drove(Driven::Sent)),
        (Client, Call::Cut, Answer::Done),
        (Client, Call::Take, Answer::NotReady),
        (Client, Call::Drive, Answer::Drove(Driven::Idle)),
        (Client, Call::Meet, Answer::Done),
        (Server, Call::Drive, Answer::Drove(Driven::Idle)),
        (Server, Call::Submit(1), Answer::Done),
        (Server, Call::Take, Answer::IsCut),
        (Server, Call::Take, Answer::NotReady),
        (
            Server,
            Call::Submit(1),
            Answer::Refused(SubmitFault::Closed),
        ),
        (Server, Call::Meet, Answer::Done),
    ];
    follow(&rt, rt.alloc(), AT_A_TAKE, b"PEC", b"PSC");
    const AT_A_DRIVE: &[(EndId, Call, Answer)] = &[
        (Server, Call::Cut, Answer::Done),
        (Client, Call::Drive, Answer::Drove(Driven::Cut)),
        (Client, Call::Drive, Answer::Drove(Driven::Idle)),
        (Client, Call::Meet, Answer::Done),
    ];
    follow(&rt, rt.alloc(), AT_A_DRIVE, b"PC", b"PC");
}
