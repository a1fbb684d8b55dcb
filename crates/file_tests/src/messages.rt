//! Tests of what no clause says: bytes from outside, and each public call once on its way to success.

use crate::MEMORY;
use buffer_descriptor::{Descriptor, Descriptors};
use file_messages::{
    Asked, Channel, FileFault, READ, Reply, Request, WRITE, read_reply, read_request, reply_fault,
    request_fault, request_header, write_reply, write_request,
};
use smbd_base::Message;
use std::alloc::Global;
use std::process::Abort;

/// The WRITE of `abc` without registered pages.
const INLINE: &[u8; 27] =
    b"\x01\x00\x00\x00\x01\x00\x00\x00\x00\x00\x00\x00\x00\x00\x00\x00\x03\x00\x00\x00\x00\x00\x00\x00abc";

/// The same over page 0, which is loaded under token 256.
const REGISTERED: &[u8; 40] =
    b"\x01\x00\x01\x00\x01\x00\x00\x00\x00\x00\x00\x00\x00\x00\x00\x00\x03\x00\x00\x00\x01\x00\x00\x00\x00\x00\x00\x00\x00\x00\x00\x00\x00\x01\x00\x00\x03\x00\x00\x00";

/// The END after it.
const LAST: &[u8; 24] =
    b"\x03\x00\x00\x00\x02\x00\x00\x00\x03\x00\x00\x00\x00\x00\x00\x00\x00\x00\x00\x00\x00\x00\x00\x00";

/// Two descriptors of the same three bytes, with length 6.
const TWICE: &[u8; 56] =
    b"\x01\x00\x01\x00\x01\x00\x00\x00\x00\x00\x00\x00\x00\x00\x00\x00\x06\x00\x00\x00\x02\x00\x00\x00\x00\x00\x00\x00\x00\x00\x00\x00\x00\x01\x00\x00\x03\x00\x00\x00\x00\x00\x00\x00\x00\x00\x00\x00\x00\x01\x00\x00\x03\x00\x00\x00";

/// The reply to a READ of a get of `abc`.
const GIVEN: &[u8; 15] = b"\x02\x80\x00\x00\x01\x00\x00\x00\x03\x00\x00\x00abc";

#[test]
fn finds_faults(rt: HostRuntime) {
    assert!(rt; fault_of(&INLINE[..23]) == Some(FileFault::Short));
    assert!(rt; fault_of(TWICE) == Some(FileFault::Overlap));
    assert!(rt; fault_of(LAST).is_none());
    assert!(rt; fault_of_reply(2) == Some(FileFault::Length));
    assert!(rt; fault_of_reply(3).is_none());
}

fn fault_of(bytes: &[u8]) -> Option<FileFault> {
    request_fault(bytes)
}

/// The fault of the reply to a READ of so many bytes.
fn fault_of_reply(length: u32) -> Option<FileFault> {
    reply_fault(GIVEN, &asked_to_read(length))
}

fn asked_to_read(length: u32) -> Asked {
    Asked {
        op: READ,
        channel: Channel::None.number(),
        id: 1,
        length,
    }
}

#[test]
fn reads_bytes_in_a_request(rt: HostRuntime) {
    let inline = request_of(&rt, rt.alloc(), INLINE);
    assert!(rt; inline.inline.bytes() == b"abc".as_slice());
}

fn request_of(rt: &impl Abort, alloc: Global, bytes: &[u8]) -> Request {
    read_request(alloc, bytes).expect(rt, MEMORY)
}

#[test]
fn reads_descriptors_in_a_request(rt: HostRuntime) {
    let registered = request_of(&rt, rt.alloc(), REGISTERED);
    assert!(rt; registered.descriptors.list() == [page_0()].as_slice());
    assert!(rt; registered.asked() == asked_to_write());
}

#[test]
fn reads_bytes_in_a_reply(rt: HostRuntime) {
    let given = read_reply(rt.alloc(), GIVEN, &asked_to_read(3)).expect(&rt, MEMORY);
    assert!(rt; given.inline.bytes() == b"abc".as_slice());
}

#[test]
fn writes_a_request(rt: HostRuntime) {
    let request = Request {
        op: WRITE,
        channel: Channel::V1.number(),
        id: 1,
        offset: 0,
        length: 3,
        descriptors: Descriptors::copy_of(rt.alloc(), &[page_0()]).expect(&rt, MEMORY),
        inline: Message::copy_of(rt.alloc(), b"").expect(&rt, MEMORY),
    };
    let written = write_request(rt.alloc(), &request).expect(&rt, MEMORY);
    assert!(rt; written.bytes() == REGISTERED.as_slice());
}

#[test]
fn writes_a_header(rt: HostRuntime) {
    assert!(rt; REGISTERED.starts_with(&request_header(&asked_to_write(), 0, 1)));
}

#[test]
fn writes_a_reply(rt: HostRuntime) {
    const REFUSED: &[u8; 12] = b"\x01\x80\x02\x00\x01\x00\x00\x00\x00\x00\x00\x00";
    let reply = Reply {
        op: 0x8001,
        status: 2,
        id: 1,
        count: 0,
        inline: Message::copy_of(rt.alloc(), b"").expect(&rt, MEMORY),
    };
    let refused = write_reply(rt.alloc(), &reply).expect(&rt, MEMORY);
    assert!(rt; refused.bytes() == REFUSED.as_slice());
}

fn asked_to_write() -> Asked {
    Asked {
        op: WRITE,
        channel: Channel::V1.number(),
        id: 1,
        length: 3,
    }
}

fn page_0() -> Descriptor {
    Descriptor {
        offset: 0,
        token: 256,
        length: 3,
    }
}
