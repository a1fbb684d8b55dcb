//! What is refused: requests and replies, each fault to the end; and accesses to pages.

use crate::pages::Pages;
use crate::puts::pass;
use crate::putting::Putting;
use crate::serving::Serving;
use crate::{MEMORY, asking};
use file_messages::{Asked, Channel, CopyKind, END, FileFault, READ, ReplyFault, WRITE};
use smbd_base::Message;
use std::alloc::Global;
use std::process::Abort;

/// A request without registered pages: its op, id, offset and length, and the bytes that it carries.
type Asks = (u16, u32, u64, u32, &'static [u8]);

/// What the server answers to the request.
fn ask(rt: &impl Abort, alloc: Global, server: &mut Serving, asks: Asks) -> Result<(), FileFault> {
    let (op, id, offset, length, carries) = asks;
    let asked = Asked {
        op,
        channel: 0,
        id,
        length,
    };
    asking::ask(rt, alloc, server, &asked, offset, &[], carries)
}

/// The request is refused, and again, and one that was in its turn after it.
fn refuse(
    rt: &impl Abort,
    alloc: Global,
    server: &mut Serving,
    asks: Asks,
    next: Asks,
    fault: FileFault,
) {
    assert!(rt;
        ask(rt, alloc, server, asks) == Err(fault),
        "at id {} and offset {}",
        asks.1,
        asks.2
    );
    assert!(rt; ask(rt, alloc, server, asks) == Err(fault));
    assert!(rt; ask(rt, alloc, server, next) == Err(fault));
}

#[test]
fn a_put_refuses_requests(rt: HostRuntime) {
    const FIRST: Asks = (WRITE, 1, 0, 3, b"abc");
    const NEXT: Asks = (WRITE, 2, 3, 3, b"abc");
    const CASES: &[(Asks, FileFault)] = &[
        ((WRITE, 3, 3, 3, b"abc"), FileFault::Order),
        ((WRITE, 1, 3, 3, b"abc"), FileFault::Order),
        ((WRITE, 2, 2, 3, b"abc"), FileFault::Order),
        ((WRITE, 2, 4, 3, b"abc"), FileFault::Order),
        ((READ, 2, 3, 3, b""), FileFault::Order),
        ((END, 3, 3, 0, b""), FileFault::Order),
        ((END, 2, 0, 0, b""), FileFault::Order),
        ((WRITE, 2, 3, 4, b"abc"), FileFault::Length),
        ((WRITE, 2, 3, 0, b""), FileFault::Length),
        ((END, 2, 3, 1, b""), FileFault::Length),
        ((4, 2, 3, 0, b""), FileFault::Op),
    ];
    for &(asks, fault) in CASES {
        let mut server = Serving::open(&rt, rt.alloc(), CopyKind::Put);
        assert!(rt; ask(&rt, rt.alloc(), &mut server, FIRST) == Ok(()));
        refuse(&rt, rt.alloc(), &mut server, asks, NEXT, fault);
    }
}

/// The first READ of a get.
const READ_FIRST: Asks = (READ, 1, 0, 3, b"");

#[test]
fn a_get_refuses_requests(rt: HostRuntime) {
    const NEXT: Asks = (READ, 2, 3, 3, b"");
    const CASES: &[(Asks, FileFault)] = &[
        ((READ, 1, 3, 3, b""), FileFault::Order),
        ((READ, 3, 3, 3, b""), FileFault::Order),
        ((READ, 2, 0, 3, b""), FileFault::Order),
        ((READ, 2, 4, 3, b""), FileFault::Order),
        ((WRITE, 2, 3, 3, b"abc"), FileFault::Order),
        ((END, 2, 2, 0, b""), FileFault::Order),
        ((READ, 2, 3, 65_537, b""), FileFault::Length),
    ];
    for &(asks, fault) in CASES {
        let mut server = Serving::open(&rt, rt.alloc(), CopyKind::Get);
        assert!(rt; ask(&rt, rt.alloc(), &mut server, READ_FIRST) == Ok(()));
        server.source(&rt, b"abc");
        assert!(rt; server.replies(&rt));
        refuse(&rt, rt.alloc(), &mut server, asks, NEXT, fault);
    }
}

#[test]
fn a_get_takes_one_request_at_a_time(rt: HostRuntime) {
    const SECOND: Asks = (READ, 2, 0, 3, b"");
    let mut server = Serving::open(&rt, rt.alloc(), CopyKind::Get);
    assert!(rt; ask(&rt, rt.alloc(), &mut server, READ_FIRST) == Ok(()));
    refuse(
        &rt,
        rt.alloc(),
        &mut server,
        SECOND,
        SECOND,
        FileFault::Order,
    );
}

/// The reply to the WRITE of `abc`.
const DONE: &[u8; 12] = b"\x01\x80\x00\x00\x01\x00\x00\x00\x03\x00\x00\x00";

#[test]
fn a_put_refuses_replies(rt: HostRuntime) {
    const CASES: &[(&[u8], ReplyFault)] = &[
        (
            b"\x01\x80\x00\x00\x01\x00\x00\x00\x03\x00\x00",
            ReplyFault::File(FileFault::Short),
        ),
        (
            b"\x02\x80\x00\x00\x01\x00\x00\x00\x03\x00\x00\x00",
            ReplyFault::File(FileFault::Op),
        ),
        (
            b"\x01\x80\x00\x00\x01\x00\x00\x00\x02\x00\x00\x00",
            ReplyFault::File(FileFault::Length),
        ),
        (
            b"\x01\x80\x03\x00\x01\x00\x00\x00\x03\x00\x00\x00",
            ReplyFault::File(FileFault::Length),
        ),
        (
            b"\x01\x80\x00\x00\x02\x00\x00\x00\x03\x00\x00\x00",
            ReplyFault::File(FileFault::Order),
        ),
        (
            b"\x01\x80\x00\x00\x00\x00\x00\x00\x03\x00\x00\x00",
            ReplyFault::File(FileFault::Order),
        ),
        (
            b"\x01\x80\x03\x00\x01\x00\x00\x00\x00\x00\x00\x00",
            ReplyFault::Status(3),
        ),
    ];
    for &(bytes, fault) in CASES {
        let mut client = Putting::open(&rt, rt.alloc(), Channel::None, 16);
        prepare(&rt, &mut client);
        assert!(rt; requests(&rt, &mut client));
        fail(&rt, rt.alloc(), &mut client, bytes, fault);
    }
}

#[test]
fn a_reply_to_nothing_is_refused(rt: HostRuntime) {
    let mut client = Putting::open(&rt, rt.alloc(), Channel::None, 16);
    prepare(&rt, &mut client);
    fail(
        &rt,
        rt.alloc(),
        &mut client,
        DONE,
        ReplyFault::File(FileFault::Order),
    );
}

/// Hands in `abc`, and no more.
fn prepare(rt: &impl Abort, client: &mut Putting) {
    assert!(rt; client.hand(rt, b"abc"));
    client.end();
}

/// Whether a request is due, which is taken.
fn requests(rt: &impl Abort, client: &mut Putting) -> bool {
    client.next_message(rt).is_some()
}

/// What the client says to the reply.
fn reply(
    rt: &impl Abort,
    alloc: Global,
    client: &mut Putting,
    bytes: &[u8],
) -> Result<(), ReplyFault> {
    let message = Message::copy_of(alloc, bytes).expect(rt, MEMORY);
    client.reply(&message)
}

/// The reply is refused, and a good one after it; nothing is given any more.
fn fail(rt: &impl Abort, alloc: Global, client: &mut Putting, bytes: &[u8], fault: ReplyFault) {
    assert!(rt; reply(rt, alloc, client, bytes) == Err(fault));
    assert!(rt; reply(rt, alloc, client, DONE) == Err(fault));
    assert!(rt; !requests(rt, client));
    assert!(rt; !client.finished());
}

#[test]
fn a_refused_access_is_told(rt: HostRuntime) {
    let mut client = Putting::open(&rt, rt.alloc(), Channel::V1, 16);
    let mut server = Serving::open(&rt, rt.alloc(), CopyKind::Put);
    let mut pages = Pages::new(&rt, rt.alloc(), 16);
    write_pages(&rt, &mut client, &mut server, &mut pages);
    tell(&rt, rt.alloc(), &mut client, &mut server, &mut pages);
    assert!(rt; !client.work(&rt, &mut pages));
}

/// The client asks the server to fetch two pages.
fn write_pages(rt: &impl Abort, client: &mut Putting, server: &mut Serving, pages: &mut Pages) {
    const GROUP: &[u8] = &[7; 5000];
    assert!(rt; client.hand(rt, GROUP));
    assert!(rt; client.work(rt, pages));
    assert!(rt; client.work(rt, pages));
    pass(rt, client, server);
}

/// The server is refused both, and tells of the first in each reply.
fn tell(
    rt: &impl Abort,
    alloc: Global,
    client: &mut Putting,
    server: &mut Serving,
    pages: &mut Pages,
) {
    // To the WRITE whose pages are refused, and to the WRITE and the END after it.
    const REFUSED: &[&[u8; 12]] = &[
        b"\x01\x80\x05\x00\x01\x00\x00\x00\x00\x00\x00\x00",
        b"\x01\x80\x05\x00\x02\x00\x00\x00\x00\x00\x00\x00",
        b"\x03\x80\x05\x00\x03\x00\x00\x00\x00\x00\x00\x00",
    ];
    pages.refuse(5);
    assert!(rt; server.work(rt, pages));
    assert!(rt; !server.replies(rt));
    pages.refuse(2);
    assert!(rt; server.work(rt, pages));
    assert!(rt; !server.work(rt, pages));
    assert!(rt; ask(rt, alloc, server, (WRITE, 2, 5000, 3, b"abc")) == Ok(()));
    assert!(rt; ask(rt, alloc, server, (END, 3, 5003, 0, b"")) == Ok(()));
    for &expected in REFUSED {
        assert!(rt; server.stored().is_none());
        assert!(rt; reply_is(rt, server, expected));
    }
    assert!(rt; reply(rt, alloc, client, REFUSED[0]) == Err(ReplyFault::Status(5)));
}

fn reply_is(rt: &impl Abort, server: &mut Serving, expected: &[u8]) -> bool {
    match server.next_message(rt) {
        Some(reply) => reply.bytes() == expected,
        None => false,
    }
}
