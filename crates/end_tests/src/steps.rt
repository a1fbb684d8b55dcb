//! What one end does, step by step, as tables.
//!
//! A test ends at once where memory is wanting: with a `?` beside values that are let go its proof would be dear.

mod long;
mod negotiation;
mod sizes;

use connection_core::{Agreed, End, Next, SubmitFault, SubmitRefused, TakeFault, TakeRefused};
use smbd_base::{Broken, EndId, EndLimits, Frame, Message, NegotiateFault};
use std::alloc::Global;
use std::process::Abort;

/// What is said where memory is wanting.
const MEMORY: &str = "memory for a test";

/// What is said where limits are not lawful.
const LAWFUL: &str = "lawful limits";

/// The negotiate request and response of the usual limits.
const REQUEST: &[u8] =
    b"\x00\x01\x00\x01\x00\x00\xff\x00\x54\x05\x00\x00\x00\x20\x00\x00\x00\x00\x10\x00";

const RESPONSE: &[u8] =
    b"\x00\x01\x00\x01\x00\x01\x00\x00\xff\x00\xff\x00\x00\x00\x00\x00\x00\x00\x10\x00\x54\x05\x00\x00\x00\x20\x00\x00\x00\x00\x10\x00";

/// The same with 3 credits.
const REQUEST_3: &[u8] =
    b"\x00\x01\x00\x01\x00\x00\x03\x00\x54\x05\x00\x00\x00\x20\x00\x00\x00\x00\x10\x00";

const RESPONSE_3: &[u8] =
    b"\x00\x01\x00\x01\x00\x01\x00\x00\x03\x00\x03\x00\x00\x00\x00\x00\x00\x00\x10\x00\x54\x05\x00\x00\x00\x20\x00\x00\x00\x00\x10\x00";

/// What an end of 3 credits sends: with no payload, and with a message of one letter.
const GRANTS_0: &[u8] =
    b"\x03\x00\x00\x00\x00\x00\x00\x00\x00\x00\x00\x00\x00\x00\x00\x00\x00\x00\x00\x00";

const GRANTS_1: &[u8] =
    b"\x03\x00\x01\x00\x00\x00\x00\x00\x00\x00\x00\x00\x00\x00\x00\x00\x00\x00\x00\x00";

const GRANTS_2: &[u8] =
    b"\x03\x00\x02\x00\x00\x00\x00\x00\x00\x00\x00\x00\x00\x00\x00\x00\x00\x00\x00\x00";

const GRANTS_3: &[u8] =
    b"\x03\x00\x03\x00\x00\x00\x00\x00\x00\x00\x00\x00\x00\x00\x00\x00\x00\x00\x00\x00";

const A_GRANTS_3: &[u8] =
    b"\x03\x00\x03\x00\x00\x00\x00\x00\x00\x00\x00\x00\x18\x00\x00\x00\x01\x00\x00\x00\x00\x00\x00\x00a";

const B_ASKS: &[u8] =
    b"\x03\x00\x00\x00\x01\x00\x00\x00\x00\x00\x00\x00\x18\x00\x00\x00\x01\x00\x00\x00\x00\x00\x00\x00b";

const C_GRANTS_1: &[u8] =
    b"\x03\x00\x01\x00\x00\x00\x00\x00\x00\x00\x00\x00\x18\x00\x00\x00\x01\x00\x00\x00\x00\x00\x00\x00c";

/// What stands before the payload in the frames of a message of 3,000 bytes: 1,340, 1,340 and 320.
const HEAD_1: &[u8] =
    b"\x03\x00\x03\x00\x00\x00\x00\x00\x7c\x06\x00\x00\x18\x00\x00\x00\x3c\x05\x00\x00\x00\x00\x00\x00";

const HEAD_2: &[u8] =
    b"\x03\x00\x00\x00\x01\x00\x00\x00\x40\x01\x00\x00\x18\x00\x00\x00\x3c\x05\x00\x00\x00\x00\x00\x00";

const HEAD_3: &[u8] =
    b"\x03\x00\x01\x00\x00\x00\x00\x00\x00\x00\x00\x00\x18\x00\x00\x00\x40\x01\x00\x00\x00\x00\x00\x00";

/// The second with one byte too few after it.
const HEAD_2_SHORT: &[u8] =
    b"\x03\x00\x00\x00\x01\x00\x00\x00\x3f\x01\x00\x00\x18\x00\x00\x00\x3c\x05\x00\x00\x00\x00\x00\x00";

/// One byte of a message, with 1,048,576 and with 1,048,575 after it.
const TOO_LONG: &[u8] =
    b"\x03\x00\x03\x00\x00\x00\x00\x00\x00\x00\x10\x00\x18\x00\x00\x00\x01\x00\x00\x00\x00\x00\x00\x00a";

const LONGEST: &[u8] =
    b"\x03\x00\x03\x00\x00\x00\x00\x00\xff\xff\x0f\x00\x18\x00\x00\x00\x01\x00\x00\x00\x00\x00\x00\x00a";

/// What a client of the usual limits sends first for `abc`, and the same with five bytes of the message left.
const ABC: &[u8] =
    b"\xff\x00\xff\x00\x00\x00\x00\x00\x00\x00\x00\x00\x18\x00\x00\x00\x03\x00\x00\x00\x00\x00\x00\x00abc";

const FIVE_LEFT: &[u8] =
    b"\xff\x00\xff\x00\x00\x00\x00\x00\x05\x00\x00\x00\x18\x00\x00\x00\x03\x00\x00\x00\x00\x00\x00\x00abc";

/// What is done to an end, and what it answers.
#[derive(Clone, Copy)]
enum Step<'a> {
    /// It does what comes next, and posts so many receives.
    Posts(u16),
    /// It does what comes next, and sends this frame.
    Sends(&'a [u8]),
    /// Nothing comes next.
    Idles,
    /// Only a cut can follow.
    Closes,
    /// It accepts this message.
    Accepts(&'a [u8]),
    /// It hands this message back.
    Declines(&'a [u8], SubmitFault),
    /// It takes this frame, and delivers nothing.
    Takes(&'a [u8]),
    /// It takes this frame, and delivers this message.
    Delivers(&'a [u8], &'a [u8]),
    /// It hands this frame back.
    Refuses(&'a [u8], TakeFault),
    /// It is cut.
    Cuts,
    /// It holds, has outstanding and can grant so many credits.
    Counts(u16, u16, u16),
    /// The negotiation has settled this.
    Settles(Option<Agreed>),
    /// So many events have happened.
    Lasts(usize),
}

/// Whether an event comes next.
fn is_event(next: &Next) -> bool {
    matches!(next, Next::Post(_) | Next::Emit(_))
}

/// Whether what comes next is this step.
fn is_next(next: &Next, step: &Step<'_>) -> bool {
    match step {
        Step::Posts(n) => matches!(next, Next::Post(count) if count == n),
        Step::Sends(bytes) => matches!(next, Next::Emit(frame) if frame.bytes() == *bytes),
        Step::Idles => matches!(next, Next::Idle),
        Step::Closes => matches!(next, Next::Close),
        _ => false,
    }
}

/// Does what comes next.
fn drive(rt: &impl Abort, end: &mut End) -> Next {
    let next = end.next().expect(rt, MEMORY);
    if let Next::Post(_) | Next::Emit(_) = &next {
        end.commit();
    }
    next
}

/// Whether the message was accepted, or handed back with this fault.
fn is_accepted(
    answer: &Result<(), SubmitRefused>,
    bytes: &[u8],
    expected: Option<SubmitFault>,
) -> bool {
    match answer {
        Ok(()) => expected.is_none(),
        Err(refused) => Some(refused.fault) == expected && refused.message.bytes() == bytes,
    }
}

/// Whether the end accepts the message, or hands it back with this fault.
fn submits(
    rt: &impl Abort,
    alloc: Global,
    end: &mut End,
    bytes: &[u8],
    expected: Option<SubmitFault>,
) -> bool {
    let answer = end.submit(Message::copy_of(alloc, bytes).expect(rt, MEMORY));
    is_accepted(&answer, bytes, expected)
}

/// Whether the frame was taken and this message delivered, or the frame handed back with this fault.
fn is_taken(
    answer: &Result<Option<Message>, TakeRefused>,
    bytes: &[u8],
    expected: Result<Option<&[u8]>, TakeFault>,
) -> bool {
    match answer {
        Ok(Some(message)) => expected == Ok(Some(message.bytes())),
        Ok(None) => expected == Ok(None),
        Err(refused) => expected == Err(refused.fault) && refused.frame.bytes() == bytes,
    }
}

/// Whether the end takes the frame and delivers this message, or hands the frame back with this fault.
fn takes(
    rt: &impl Abort,
    alloc: Global,
    end: &mut End,
    bytes: &[u8],
    expected: Result<Option<&[u8]>, TakeFault>,
) -> bool {
    assert!(rt; end.ready());
    let answer = end.take(Frame::copy_of(alloc, bytes).expect(rt, MEMORY));
    is_taken(&answer, bytes, expected)
}

fn does(rt: &impl Abort, alloc: Global, end: &mut End, step: &Step<'_>) -> bool {
    match *step {
        Step::Posts(_) | Step::Sends(_) | Step::Idles | Step::Closes => {
            is_next(&drive(rt, end), step)
        }
        Step::Accepts(bytes) => submits(rt, alloc, end, bytes, None),
        Step::Declines(bytes, fault) => submits(rt, alloc, end, bytes, Some(fault)),
        Step::Takes(bytes) => takes(rt, alloc, end, bytes, Ok(None)),
        Step::Delivers(bytes, message) => takes(rt, alloc, end, bytes, Ok(Some(message))),
        Step::Refuses(bytes, fault) => takes(rt, alloc, end, bytes, Err(fault)),
        Step::Cuts => {
            end.cut();
            true
        }
        Step::Counts(held, outstanding, grantable) => {
            (end.held(), end.outstanding(), end.grantable()) == (held, outstanding, grantable)
        }
        Step::Settles(expected) => end.agreed() == expected,
        Step::Lasts(events) => end.history().len() == events,
    }
}

/// Has the end do each step in turn.
fn go(rt: &impl Abort, alloc: Global, name: &str, end: &mut End, steps: &[Step<'_>]) {
    for (i, step) in steps.iter().enumerate() {
        assert!(rt; does(rt, alloc, end, step), "{name}: step {i}");
    }
}

fn open(rt: &impl Abort, alloc: Global, side: EndId, limits: EndLimits) -> End {
    match side {
        EndId::Client => End::open_client(alloc, limits).expect(rt, MEMORY),
        EndId::Server => End::open_server(alloc, limits).expect(rt, MEMORY),
    }
}

/// Has an end with these limits do each step in turn.
fn follow(
    rt: &impl Abort,
    alloc: Global,
    name: &str,
    side: EndId,
    limits: EndLimits,
    steps: &[Step<'_>],
) {
    let mut end = open(rt, alloc, side, limits);
    go(rt, alloc, name, &mut end, steps);
}

/// Limits of 3 credits, with the usual sizes.
fn three_credits(rt: &impl Abort) -> EndLimits {
    EndLimits::check(3, 1_364, 8_192, 1_048_576, 64).expect(rt, LAWFUL)
}

/// How a server of the usual limits negotiates.
const OPENING: &[Step] = &[Step::Takes(REQUEST), Step::Posts(1), Step::Sends(RESPONSE)];

/// What a server of the usual limits has agreed with a client of them.
const AGREED: Agreed = Agreed {
    send_size: 1_364,
    message_max: 1_048_576,
    read_write_max: None,
    credits_requested: 255,
};

/// What the client has agreed then.
const CLIENT_AGREED: Agreed = Agreed {
    read_write_max: Some(1_048_576),
    ..AGREED
};

#[test]
fn an_end_of_the_usual_limits(rt: HostRuntime) {
    use EndId::{Client, Server};
    use Step::*;
    const CASES: &[(&str, EndId, &[Step])] = &[
        (
            "negotiates and is cut",
            Client,
            &[
                Accepts(&[7; 1_341]),
                Declines(&[], SubmitFault::Empty),
                Sends(REQUEST),
                Idles,
                Settles(None),
                Lasts(3),
                Takes(RESPONSE),
                Posts(1),
                Counts(255, 0, 255),
                Settles(Some(CLIENT_AGREED)),
                Cuts,
                Idles,
                Declines(b"abc", SubmitFault::Closed),
            ],
        ),
        (
            "takes nothing before its request",
            Client,
            &[Refuses(RESPONSE, TakeFault::OutOfTurn), Closes],
        ),
        (
            "negotiates and takes a message",
            Server,
            &[
                Idles,
                Takes(REQUEST),
                Posts(1),
                Sends(RESPONSE),
                Counts(0, 255, 0),
                Settles(Some(AGREED)),
                Delivers(ABC, b"abc"),
                Posts(1),
                Idles,
                Counts(255, 254, 1),
            ],
        ),
        (
            "refuses a piece that does not go on",
            Server,
            &[
                Takes(REQUEST),
                Posts(1),
                Sends(RESPONSE),
                Takes(FIVE_LEFT),
                Posts(1),
                Refuses(
                    ABC,
                    TakeFault::Gather(Broken::Total {
                        expected: 5,
                        found: 3,
                    }),
                ),
                Closes,
                Declines(b"abc", SubmitFault::Closed),
                Cuts,
                Idles,
            ],
        ),
        (
            "refuses what is no request",
            Server,
            &[
                Refuses(b"abc", TakeFault::Negotiate(NegotiateFault::Short)),
                Declines(b"abc", SubmitFault::Closed),
                Closes,
                Cuts,
                Idles,
            ],
        ),
    ];
    for &(name, side, steps) in CASES {
        follow(&rt, rt.alloc(), name, side, EndLimits::usual(), steps);
    }
}

#[test]
fn an_end_of_three_credits(rt: HostRuntime) {
    use EndId::{Client, Server};
    use Step::*;
    const CASES: &[(&str, EndId, &[Step])] = &[
        (
            "grants with nothing to send",
            Client,
            &[
                Sends(REQUEST_3),
                Takes(RESPONSE_3),
                Posts(1),
                Sends(GRANTS_3),
                Idles,
                Counts(2, 3, 0),
            ],
        ),
        (
            "asks for a response, and keeps the last credit",
            Client,
            &[
                Sends(REQUEST_3),
                Takes(RESPONSE_3),
                Posts(1),
                Accepts(b"a"),
                Accepts(b"b"),
                Accepts(b"c"),
                Sends(A_GRANTS_3),
                Sends(B_ASKS),
                Idles,
                Counts(1, 3, 0),
                Takes(GRANTS_2),
                Posts(1),
                Sends(C_GRANTS_1),
                Counts(2, 3, 0),
            ],
        ),
        (
            "responds where it is asked",
            Server,
            &[
                Takes(REQUEST_3),
                Posts(1),
                Sends(RESPONSE_3),
                Delivers(A_GRANTS_3, b"a"),
                Posts(1),
                Idles,
                Delivers(B_ASKS, b"b"),
                Posts(1),
                Sends(GRANTS_2),
                Idles,
                Delivers(C_GRANTS_1, b"c"),
                Posts(1),
                Idles,
            ],
        ),
        (
            "takes as many frames as it granted",
            Server,
            &[
                Takes(REQUEST_3),
                Posts(1),
                Sends(RESPONSE_3),
                Takes(GRANTS_0),
                Posts(1),
                Takes(GRANTS_0),
                Posts(1),
                Takes(GRANTS_0),
                Posts(1),
                Refuses(GRANTS_0, TakeFault::OutOfTurn),
                Closes,
            ],
        ),
        (
            "refuses a frame that is too long",
            Server,
            &[
                Takes(REQUEST_3),
                Posts(1),
                Sends(RESPONSE_3),
                Refuses(
                    &[0; 8_193],
                    TakeFault::Oversize {
                        length: 8_193,
                        limit: 8_192,
                    },
                ),
                Closes,
            ],
        ),
    ];
    let limits = three_credits(&rt);
    for &(name, side, steps) in CASES {
        follow(&rt, rt.alloc(), name, side, limits, steps);
    }
}

/// The bytes of a frame.
fn framed(rt: &impl Abort, alloc: Global, head: &[u8], payload: &[u8]) -> Vec<u8> {
    let mut frame = Vec::from_slice(alloc, head).expect(rt, MEMORY);
    frame.extend_from_slice(payload).expect(rt, MEMORY);
    frame
}

/// A message of 3,000 bytes, and the frames in which an end of 3 credits sends it.
#[derive(Drop)]
struct Pieces {
    message: Vec<u8>,
    first: Vec<u8>,
    second: Vec<u8>,
    third: Vec<u8>,
    /// The second with one byte too few after it.
    short: Vec<u8>,
}

fn cut_in_three(rt: &impl Abort, alloc: Global) -> Pieces {
    let (one, two, three) = ([1; 1_340], [2; 1_340], [3; 320]);
    let mut message = framed(rt, alloc, &one, &two);
    message.extend_from_slice(&three).expect(rt, MEMORY);
    Pieces {
        message,
        first: framed(rt, alloc, HEAD_1, &one),
        second: framed(rt, alloc, HEAD_2, &two),
        third: framed(rt, alloc, HEAD_3, &three),
        short: framed(rt, alloc, HEAD_2_SHORT, &two),
    }
}

/// How a server of 3 credits negotiates.
const OPENING_3: &[Step] = &[
    Step::Takes(REQUEST_3),
    Step::Posts(1),
    Step::Sends(RESPONSE_3),
];

/// Has a server of 3 credits negotiate, and then do each step in turn.
fn serve(rt: &impl Abort, alloc: Global, name: &str, steps: &[Step<'_>]) {
    let mut end = open(rt, alloc, EndId::Server, three_credits(rt));
    go(rt, alloc, "negotiates", &mut end, OPENING_3);
    go(rt, alloc, name, &mut end, steps);
}

#[test]
fn a_message_is_sent_in_three_frames(rt: HostRuntime) {
    use Step::*;
    let given = cut_in_three(&rt, rt.alloc());
    let (message, first, second, third) = (
        given.message.as_slice(),
        given.first.as_slice(),
        given.second.as_slice(),
        given.third.as_slice(),
    );
    assert!(&rt;
        (message.len(), first.len(), second.len(), third.len()) == (3_000, 1_364, 1_364, 344)
    );
    let steps = [
        Sends(REQUEST_3),
        Takes(RESPONSE_3),
        Posts(1),
        Accepts(message),
        Sends(first),
        Counts(2, 3, 0),
        Sends(second),
        Idles,
        Counts(1, 3, 0),
        Takes(GRANTS_2),
        Posts(1),
        Sends(third),
        Counts(2, 3, 0),
        Idles,
    ];
    let limits = three_credits(&rt);
    follow(&rt, rt.alloc(), "sends", EndId::Client, limits, &steps);
}

#[test]
fn a_message_is_delivered_once(rt: HostRuntime) {
    use Step::*;
    let given = cut_in_three(&rt, rt.alloc());
    let (message, first, second, third) = (
        given.message.as_slice(),
        given.first.as_slice(),
        given.second.as_slice(),
        given.third.as_slice(),
    );
    let steps = [
        Takes(first),
        Posts(1),
        Idles,
        Takes(second),
        Posts(1),
        Sends(GRANTS_2),
        Idles,
        Delivers(third, message),
        Posts(1),
        Idles,
    ];
    serve(&rt, rt.alloc(), "delivers", &steps);
    let steps = [
        Takes(first),
        Posts(1),
        Takes(GRANTS_0),
        Posts(1),
        Sends(GRANTS_2),
        Takes(second),
        Posts(1),
        Sends(GRANTS_1),
        Delivers(third, message),
        Posts(1),
    ];
    serve(&rt, rt.alloc(), "an empty frame between", &steps);
}

#[test]
fn a_piece_that_does_not_fit(rt: HostRuntime) {
    use Step::*;
    let given = cut_in_three(&rt, rt.alloc());
    let steps = [
        Takes(given.first.as_slice()),
        Posts(1),
        Refuses(
            given.short.as_slice(),
            TakeFault::Gather(Broken::Total {
                expected: 1_660,
                found: 1_659,
            }),
        ),
        Closes,
    ];
    serve(&rt, rt.alloc(), "one byte lacks", &steps);
    let steps = [
        Refuses(
            TOO_LONG,
            TakeFault::Gather(Broken::TooLong {
                total: 1_048_577,
                max: 1_048_576,
            }),
        ),
        Closes,
    ];
    serve(&rt, rt.alloc(), "too long", &steps);
    let steps = [Takes(LONGEST), Posts(1), Idles];
    serve(&rt, rt.alloc(), "the longest", &steps);
}

/// Has the end accept a message of so many bytes, or hand it back with this fault.
fn submit_length(
    rt: &impl Abort,
    alloc: Global,
    end: &mut End,
    length: usize,
    expected: Option<SubmitFault>,
) {
    let bytes = vec![in alloc; 7; length].expect(rt, MEMORY);
    assert!(rt; submits(rt, alloc, end, &bytes, expected), "{length} bytes");
}

#[test]
fn the_longest_messages(rt: HostRuntime) {
    let mut end = open(&rt, rt.alloc(), EndId::Client, three_credits(&rt));
    submit_lengths(&rt, rt.alloc(), &mut end);
}

fn submit_lengths(rt: &impl Abort, alloc: Global, end: &mut End) {
    use SubmitFault::{Closed, Empty, TooLong};
    submit_length(rt, alloc, end, 0, Some(Empty));
    submit_length(rt, alloc, end, 131_072, None);
    submit_length(rt, alloc, end, 131_073, Some(TooLong));
    go(rt, alloc, "requests", end, &[Step::Sends(REQUEST_3)]);
    submit_length(rt, alloc, end, 131_073, Some(TooLong));
    go(rt, alloc, "negotiates", end, &[Step::Takes(RESPONSE_3)]);
    submit_length(rt, alloc, end, 0, Some(Empty));
    submit_length(rt, alloc, end, 1_048_576, None);
    submit_length(rt, alloc, end, 1_048_577, Some(TooLong));
    end.cut();
    submit_length(rt, alloc, end, 1, Some(Closed));
    go(rt, alloc, "is cut", end, &[Step::Idles]);
}
