//! Limits, frames and messages.

use crate::MEMORY;
use smbd_base::{EndId, EndLimits, Frame, LimitFault, Message};
use std::alloc::Global;
use std::process::Abort;

#[test]
fn limits_lie_in_their_ranges(rt: HostRuntime) {
    use LimitFault::*;
    const CASES: &[((u16, u32, u32, u32, u16), Option<LimitFault>)] = &[
        ((3, 128, 128, 131_072, 16), None),
        ((255, 8_192, 8_192, 1_048_576, 255), None),
        ((255, 1_364, 8_192, 1_048_576, 64), None),
        ((2, 1_364, 8_192, 1_048_576, 64), Some(Credits)),
        ((256, 1_364, 8_192, 1_048_576, 64), Some(Credits)),
        ((255, 127, 8_192, 1_048_576, 64), Some(SendSize)),
        ((255, 8_193, 8_192, 1_048_576, 64), Some(SendSize)),
        ((255, 1_364, 127, 1_048_576, 64), Some(ReceiveSize)),
        ((255, 1_364, 8_193, 1_048_576, 64), Some(ReceiveSize)),
        ((255, 1_364, 8_192, 131_071, 64), Some(FragmentedSize)),
        ((255, 1_364, 8_192, 1_048_577, 64), Some(FragmentedSize)),
        ((255, 1_364, 8_192, 1_048_576, 15), Some(Pages)),
        ((255, 1_364, 8_192, 1_048_576, 256), Some(Pages)),
        ((2, 127, 8_192, 1_048_576, 64), Some(Credits)),
        ((255, 8_193, 8_193, 1_048_576, 64), Some(SendSize)),
        ((255, 1_364, 8_192, 131_071, 15), Some(FragmentedSize)),
    ];
    for &(numbers, fault) in CASES {
        let (credits, send_size, receive_size, fragmented_size, pages) = numbers;
        let checked = EndLimits::check(credits, send_size, receive_size, fragmented_size, pages);
        assert_eq!(rt; checked.err(), fault, "{numbers:?}");
    }
    let usual = EndLimits::check(255, 1_364, 8_192, 1_048_576, 64);
    assert_eq!(rt; usual, Ok(EndLimits::usual()));
}

/// The credits that a frame of these bytes grants.
fn granted_by(rt: &impl Abort, alloc: Global, bytes: &[u8], from: EndId, first: bool) -> u16 {
    let frame = Frame::copy_of(alloc, bytes).expect(rt, MEMORY);
    assert!(rt; frame.bytes() == bytes);
    frame.granted(from, first)
}

#[test]
fn a_frame_grants_the_credits_of_its_kind(rt: HostRuntime) {
    const BYTES: &[u8; 13] = b"\x00\x01\x02\x03\x04\x05\x06\x07\x08\x09\x0a\x0b\x0c";
    const CASES: &[(EndId, bool, usize, u16)] = &[
        (EndId::Client, true, 13, 0),
        (EndId::Server, true, 13, 0x0b0a),
        (EndId::Server, true, 12, 0x0b0a),
        (EndId::Server, true, 11, 0),
        (EndId::Client, false, 13, 0x0302),
        (EndId::Server, false, 4, 0x0302),
        (EndId::Client, false, 3, 0),
        (EndId::Server, false, 0, 0),
    ];
    for &(from, first, length, granted) in CASES {
        assert!(rt; length <= 13);
        assert_eq!(rt;
            granted_by(&rt, rt.alloc(), &BYTES[..length], from, first),
            granted,
            "{from:?}, {length} bytes"
        );
    }
}

/// Makes a message of these bytes, and another of it.
fn keep(rt: &impl Abort, alloc: Global, bytes: &[u8]) {
    let message = Message::copy_of(alloc, bytes).expect(rt, MEMORY);
    let again = message.clone().expect(rt, MEMORY);
    assert!(rt; again.bytes() == bytes);
    assert!(rt; message.len() == bytes.len());
    assert!(rt; message.is_empty() == bytes.is_empty());
}

#[test]
fn a_message_keeps_its_bytes(rt: HostRuntime) {
    const CASES: &[&[u8]] = &[b"abc", b""];
    for &bytes in CASES {
        keep(&rt, rt.alloc(), bytes);
    }
}
