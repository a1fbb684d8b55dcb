//! Gets on both channels: whole ones, by a client and a server, and READs that are answered by the bytes that were handed in for
//! each.

use crate::MEMORY;
use crate::asking::ask;
use crate::getting::Getting;
use crate::pages::{Pages, whole_page};
use crate::puts::bytes_of;
use crate::serving::Serving;
use buffer_descriptor::Descriptor;
use file_messages::{Asked, Channel, CopyKind, END, FileFault, READ, read_reply};
use smbd_base::Token;
use std::alloc::Global;
use std::process::Abort;

const LENGTH: u32 = 65_536;

#[test]
fn gets_come(rt: HostRuntime) {
    for bytes in [0, 3, 65_536, 100_000, 131_072] {
        for channel in [Channel::None, Channel::V1] {
            come(&rt, rt.alloc(), channel, bytes);
        }
    }
}

/// A get of so many bytes by client and server, with a table in place of pages between them.
fn come(rt: &impl Abort, alloc: Global, channel: Channel, bytes: usize) {
    let source = bytes_of(rt, alloc, bytes);
    let mut rest = source.as_slice();
    let mut client = Getting::open(rt, alloc, channel);
    let mut server = Serving::open(rt, alloc, CopyKind::Get);
    let mut pages = Pages::new(rt, alloc, 16);
    let mut came = Vec::new(alloc);
    for _turn in 0..5 {
        work(rt, &mut client, &mut pages);
        pass(rt, &mut client, &mut server);
        rest = feed(rt, &mut server, rest);
        serve(rt, &mut server, &mut pages);
        answer(rt, &mut client, &mut server);
        work(rt, &mut client, &mut pages);
        take(rt, &mut client, &mut came);
        assert!(rt; client.received().is_none());
    }
    assert!(rt; client.finished());
    assert!(rt; came == source);
}

/// The client's jobs are done.
fn work(rt: &impl Abort, client: &mut Getting, pages: &mut Pages) {
    for _job in 0..33 {
        let _ = client.work(rt, pages);
    }
}

/// The client's next request, if one is due, is accepted.
fn pass(rt: &impl Abort, client: &mut Getting, server: &mut Serving) {
    if let Some(request) = client.next_message(rt) {
        assert!(rt; server.request(&request) == Ok(()));
    }
}

/// Hands in as many bytes as are wanted: those after them.
fn feed<'a>(rt: &impl Abort, server: &mut Serving, rest: &'a [u8]) -> &'a [u8] {
    let Some(most) = server.wants_source() else {
        return rest;
    };
    let (part, later) = cut(rest, most as usize);
    server.source(rt, part);
    later
}

/// At most so many of the first bytes, and those after them.
fn cut(bytes: &[u8], most: usize) -> (&[u8], &[u8]) {
    bytes.split_at(bytes.len().min(most))
}

/// The server's jobs are done.
fn serve(rt: &impl Abort, server: &mut Serving, pages: &mut Pages) {
    for _job in 0..17 {
        let _ = server.work(rt, pages);
    }
}

/// The server's next reply, if one is due, is taken.
fn answer(rt: &impl Abort, client: &mut Getting, server: &mut Serving) {
    if let Some(reply) = server.next_message(rt) {
        assert!(rt; client.reply(&reply) == Ok(()));
    }
}

/// The group that came, if one did, is kept.
fn take(rt: &impl Abort, client: &mut Getting, came: &mut Vec<u8>) {
    if let Some(group) = client.received() {
        came.extend_from_slice(group.bytes()).expect(rt, MEMORY);
    }
}

#[test]
fn reads_are_answered(rt: HostRuntime) {
    let whole = bytes_of(&rt, rt.alloc(), 65_536);
    let parts: [&[u8]; 3] = [whole.as_slice(), b"abc", b""];
    read_all(&rt, rt.alloc(), Channel::None, &parts);
    read_all(&rt, rt.alloc(), Channel::V1, &parts);
    read_all(&rt, rt.alloc(), Channel::None, &[b""]);
    read_all(&rt, rt.alloc(), Channel::V1, &[b""]);
}

/// A get whose READs get these parts, one after another.
fn read_all(rt: &impl Abort, alloc: Global, channel: Channel, parts: &[&[u8]]) {
    let mut server = Serving::open(rt, alloc, CopyKind::Get);
    let mut pages = Pages::new(rt, alloc, 16);
    let mut id = 0;
    let mut offset = 0;
    for part in parts {
        assert!(rt; id < 1_000 && offset < 1_000_000 && part.len() <= 65_536);
        id += 1;
        let asked = asked_to_read(channel, id);
        read_part(rt, alloc, &mut server, &mut pages, &asked, offset, part);
        offset += part.len() as u64;
    }
    end(rt, alloc, &mut server, id, offset);
}

/// A READ at this offset, which gets the part.
fn read_part(
    rt: &impl Abort,
    alloc: Global,
    server: &mut Serving,
    pages: &mut Pages,
    asked: &Asked,
    offset: u64,
    part: &[u8],
) {
    let loaded = load_all(rt, alloc, asked, pages);
    let answer = ask(rt, alloc, server, asked, offset, loaded.as_slice(), b"");
    assert!(rt; answer == Ok(()));
    answer_with(rt, alloc, server, pages, asked, part);
    check_pages(rt, alloc, asked, pages, loaded.as_slice(), part);
}

/// The READ is answered by the part.
fn answer_with(
    rt: &impl Abort,
    alloc: Global,
    server: &mut Serving,
    pages: &mut Pages,
    asked: &Asked,
    part: &[u8],
) {
    fill(rt, server, pages, part);
    check_reply(rt, alloc, server, asked, part);
}

fn asked_to_read(channel: Channel, id: u32) -> Asked {
    Asked {
        op: READ,
        channel: channel.number(),
        id,
        length: LENGTH,
    }
}

/// With registered pages loads 16 of them, for the server to place in.
fn load_all(rt: &impl Abort, alloc: Global, asked: &Asked, pages: &mut Pages) -> Vec<Descriptor> {
    let mut loaded = Vec::new(alloc);
    if asked.channel != 0 {
        for page in 0..16 {
            let descriptor = pages.load(rt, page, &[0; 4096]);
            loaded.push(descriptor).expect(rt, MEMORY);
        }
    }
    loaded
}

/// The bytes are wanted once and handed in, and the jobs done.
fn fill(rt: &impl Abort, server: &mut Serving, pages: &mut Pages, part: &[u8]) {
    assert!(rt; server.wants_source() == Some(LENGTH));
    assert!(rt; !server.replies(rt));
    server.source(rt, part);
    assert!(rt; server.wants_source().is_none());
    for _job in 0..16 {
        let _ = server.work(rt, pages);
    }
    assert!(rt; !server.work(rt, pages));
}

/// The reply counts the bytes, and carries them without registered pages.
fn check_reply(rt: &impl Abort, alloc: Global, server: &mut Serving, asked: &Asked, part: &[u8]) {
    let message = server.next_message(rt).expect(rt, "no reply");
    assert!(rt; is_reply(rt, alloc, message.bytes(), asked, part));
    assert!(rt; !server.replies(rt));
    assert!(rt; server.stored().is_none());
}

fn is_reply(rt: &impl Abort, alloc: Global, bytes: &[u8], asked: &Asked, part: &[u8]) -> bool {
    let reply = read_reply(alloc, bytes, asked).expect(rt, "a reply");
    let carried = if asked.channel == 0 { part } else { b"" };
    reply.status == 0 && reply.count as usize == part.len() && reply.inline.bytes() == carried
}

/// The pages hold the part and zeros after it; they are unloaded.
fn check_pages(
    rt: &impl Abort,
    alloc: Global,
    asked: &Asked,
    pages: &mut Pages,
    loaded: &[Descriptor],
    part: &[u8],
) {
    let mut left = part;
    for descriptor in loaded {
        let (here, later) = cut(left, 4_096);
        left = later;
        assert!(rt; page_holds(rt, alloc, pages, descriptor.token, here));
    }
    assert!(rt; asked.channel == 0 || left.is_empty());
}

/// Unloads the page: whether it holds these bytes, and zeros after them.
fn page_holds(
    rt: &impl Abort,
    alloc: Global,
    pages: &mut Pages,
    token: u32,
    expected: &[u8],
) -> bool {
    let token = Token::from_number(token).expect(rt, "no token");
    let page = whole_page(rt, alloc, expected);
    pages.unload(rt, token).bytes() == page.as_slice()
}

/// END is answered, and nothing is accepted after it.
fn end(rt: &impl Abort, alloc: Global, server: &mut Serving, reads: u32, offset: u64) {
    assert!(rt; reads < 1_000);
    let asked = Asked {
        op: END,
        channel: 0,
        id: reads + 1,
        length: 0,
    };
    assert!(rt; ask(rt, alloc, server, &asked, offset, &[], b"") == Ok(()));
    check_reply(rt, alloc, server, &asked, b"");
    let again = asked_to_read(Channel::None, reads + 2);
    assert!(rt; ask(rt, alloc, server, &again, offset, &[], b"") == Err(FileFault::Order));
}
