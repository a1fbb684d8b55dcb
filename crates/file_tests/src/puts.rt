//! Whole puts: a client and a server, with a table in place of pages between them.

use crate::MEMORY;
use crate::pages::Pages;
use crate::putting::Putting;
use crate::serving::Serving;
use file_messages::{Channel, CopyKind};
use std::alloc::Global;
use std::process::Abort;

const GROUP: usize = 65_536;

/// A put, and what is to be seen of it.
#[derive(Clone, Copy)]
struct PutCase {
    channel: Channel,
    /// The pages of the pool, from 16.
    pages: u16,
    bytes: usize,
    /// How many groups are wanted before a request is given.
    at_first: usize,
    /// How often page 0 and the last page of its window are loaded.
    loads: (u32, u32),
}

#[test]
fn puts_arrive(rt: HostRuntime) {
    /// Bytes, and groups at first.
    const INLINE: &[(usize, usize)] = &[(0, 0), (3, 1), (196_608, 3), (400_000, 4)];
    /// Pages, bytes, groups at first, and loads.
    const REGISTERED: &[(u16, usize, usize, (u32, u32))] = &[
        (16, 3, 1, (1, 0)),
        (16, 10_000, 1, (1, 0)),
        (16, 196_608, 1, (3, 3)),
        (47, 200_000, 2, (2, 2)),
        (48, 200_000, 3, (2, 1)),
    ];
    for &(bytes, at_first) in INLINE {
        let case = PutCase {
            channel: Channel::None,
            pages: 16,
            bytes,
            at_first,
            loads: (0, 0),
        };
        arrive(&rt, rt.alloc(), &case);
    }
    for &(pages, bytes, at_first, loads) in REGISTERED {
        let case = PutCase {
            channel: Channel::V1,
            pages,
            bytes,
            at_first,
            loads,
        };
        arrive(&rt, rt.alloc(), &case);
    }
}

fn arrive(rt: &impl Abort, alloc: Global, case: &PutCase) {
    assert!(rt; 16 <= case.pages && case.pages <= 255);
    let source = bytes_of(rt, alloc, case.bytes);
    let mut client = Putting::open(rt, alloc, case.channel, case.pages);
    let mut server = Serving::open(rt, alloc, CopyKind::Put);
    let mut pages = Pages::new(rt, alloc, case.pages);
    let mut stored = Vec::new(alloc);
    let mut handed = hand_on(rt, &mut client, source.as_slice(), 0);
    assert!(rt; handed == case.at_first);
    for _turn in 0..16 {
        ask(rt, &mut client, &mut server, &mut pages);
        serve(rt, &mut client, &mut server, &mut pages, &mut stored);
        handed = hand_on(rt, &mut client, source.as_slice(), handed);
    }
    assert!(rt; client.finished());
    assert!(rt; stored == source);
    assert!(rt; pages.loads_of(0) == Some(case.loads.0));
    assert!(rt; pages.loads_of(15) == Some(case.loads.1));
}

/// 101 bytes.
fn text() -> &'static [u8] {
    b"abcdefghijklmnopqrstuvwxyzABCDEFGHIJKLMNOPQRSTUVWXYZ0123456789the quick brown fox jumps over the lazy"
}

/// The same 101 bytes again and again, so that no two of the first 101 pages are the same: so many of them, at most 400,061.
pub fn bytes_of(rt: &impl Abort, alloc: Global, count: usize) -> Vec<u8> {
    let mut bytes = Vec::with_capacity(alloc, 400_061).expect(rt, MEMORY);
    for _turn in 0..3_961 {
        bytes.extend_from_slice(text()).expect(rt, MEMORY);
    }
    bytes.truncate(count);
    assert!(rt; bytes.len() == count);
    bytes
}

/// Hands in the groups after so many, as long as they are wanted: how many were handed in then. The last one is followed by
/// their end.
fn hand_on(rt: &impl Abort, client: &mut Putting, source: &[u8], before: usize) -> usize {
    let mut handed = before;
    for group in source.chunks(GROUP).skip(before) {
        if !client.hand(rt, group) {
            return handed;
        }
        assert!(rt; handed < 1_000);
        handed += 1;
    }
    client.end();
    handed
}

/// The client's jobs are done, and its requests accepted.
fn ask(rt: &impl Abort, client: &mut Putting, server: &mut Serving, pages: &mut Pages) {
    for _job in 0..1_000 {
        if !client.work(rt, pages) {
            break;
        }
    }
    for _request in 0..8 {
        pass(rt, client, server);
    }
}

/// The client's next request, if one is due, is accepted.
pub fn pass(rt: &impl Abort, client: &mut Putting, server: &mut Serving) {
    if let Some(request) = client.next_message(rt) {
        assert!(rt; server.request(&request) == Ok(()));
    }
}

/// The server's jobs are done, its replies taken and its groups stored.
fn serve(
    rt: &impl Abort,
    client: &mut Putting,
    server: &mut Serving,
    pages: &mut Pages,
    stored: &mut Vec<u8>,
) {
    for _job in 0..1_000 {
        if !server.work(rt, pages) {
            answer(rt, client, server);
            store(rt, server, stored);
        }
    }
}

/// The server's next reply, if one is due, is taken.
fn answer(rt: &impl Abort, client: &mut Putting, server: &mut Serving) {
    if let Some(reply) = server.next_message(rt) {
        assert!(rt; client.reply(&reply) == Ok(()));
    }
}

/// The server's next group, if there is one, is stored.
fn store(rt: &impl Abort, server: &mut Serving, stored: &mut Vec<u8>) {
    if let Some(group) = server.stored() {
        stored.extend_from_slice(group.bytes()).expect(rt, MEMORY);
    }
}
