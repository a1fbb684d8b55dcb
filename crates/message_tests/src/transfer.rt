//! Data transfer messages, whole and broken.

use std::process::Abort;
use transfer_msg::{DataView, FrameFault, Header, read, write};

/// A message that asks for 255 credits, grants one and carries `abc`, and two bytes after it.
const MESSAGE: &[u8; 29] =
    b"\xff\x00\x01\x00\x00\x00\x00\x00\x00\x00\x00\x00\x18\x00\x00\x00\x03\x00\x00\x00\x00\x00\x00\x00abc\x07\x07";

/// The message's view, with this payload.
fn view_of(payload: &[u8]) -> DataView<'_> {
    DataView {
        credits_requested: 255,
        credits_granted: 1,
        flags: 0,
        remaining: 0,
        payload,
    }
}

/// Reads the first bytes of the message, with another number in one of them.
fn read_with(
    rt: &impl Abort,
    at: usize,
    number: u8,
    length: usize,
    expected: Result<&[u8], FrameFault>,
) {
    let mut bytes = *MESSAGE;
    assert!(rt; at < 29 && length <= 29);
    bytes[at] = number;
    let view = match expected {
        Ok(payload) => Ok(view_of(payload)),
        Err(fault) => Err(fault),
    };
    assert_eq!(rt;
        read(&bytes[..length]),
        view,
        "{number} at {at}, {length} bytes"
    );
}

#[test]
fn reads_a_message_or_its_first_fault(rt: HostRuntime) {
    // the number of a byte, so many bytes of it, and their payload or their fault
    const CASES: &[(usize, u8, usize, Result<&[u8], FrameFault>)] = &[
        // as it is, and with two bytes after it
        (0, 0xff, 27, Ok(b"abc")),
        (0, 0xff, 29, Ok(b"abc")),
        // DataOffset
        (12, 20, 27, Err(FrameFault::Offset)),
        (12, 28, 27, Err(FrameFault::Offset)),
        (12, 32, 27, Err(FrameFault::Length)),
        // DataLength
        (16, 4, 27, Err(FrameFault::Length)),
        (16, 0, 27, Ok(b"")),
        (16, 0, 20, Ok(b"")),
        (0, 0xff, 19, Err(FrameFault::Short)),
    ];
    for &(at, number, length, expected) in CASES {
        read_with(&rt, at, number, length, expected);
    }
}

/// What is written of a header that asks for 255 credits.
fn write_header(
    rt: &impl Abort,
    granted: u16,
    response_requested: bool,
    remaining: u32,
    length: u32,
    expected: &[u8],
) {
    let header = Header {
        credits_requested: 255,
        credits_granted: granted,
        response_requested,
        remaining,
        length,
    };
    let mut out = [7; 24];
    let written = write(&mut out, &header);
    assert_eq!(rt; &out[..written], expected, "{header:?}");
}

#[test]
fn writes_the_header_of_a_message(rt: HostRuntime) {
    write_header(&rt, 1, false, 0, 3, &MESSAGE[..24]);
    write_header(
        &rt,
        0,
        true,
        320,
        1_340,
        b"\xff\x00\x00\x00\x01\x00\x00\x00\x40\x01\x00\x00\x18\x00\x00\x00\x3c\x05\x00\x00\x00\x00\x00\x00",
    );
    write_header(
        &rt,
        3,
        true,
        320,
        0,
        b"\xff\x00\x03\x00\x00\x00\x00\x00\x00\x00\x00\x00\x00\x00\x00\x00\x00\x00\x00\x00",
    );
}
