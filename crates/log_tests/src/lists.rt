//! Lists of frames, and lines that are none.

use frame_lists::{FrameListFault, describe, first_bad_line};
use std::alloc::Global;

/// Whether a text is described so, or has this first bad line.
fn is_described(alloc: Global, text: &[u8], expected: Result<&str, u64>) -> bool {
    match describe(alloc, text) {
        Ok(description) => expected == Ok(description.as_str()) && first_bad_line(text).is_none(),
        Err(FrameListFault::Line(number)) => {
            expected == Err(number) && first_bad_line(text) == Some(number)
        }
        Err(FrameListFault::NoMemory) => false,
    }
}

#[test]
fn lists_are_described_line_by_line(rt: HostRuntime) {
    const LISTS: &[(&[u8], &str)] = &[
        (b"", ""),
        // a second line of the client is no request
        (
            b"C 000100010000ff00540500000020000000001000\nC ff0001000000000000000000140000000300000000000000616263\n",
            "C request asked 255 send 1364 receive 8192 fragmented 1048576\nC fault Offset\n",
        ),
        // digits of either case, and a last line that lacks its line feed
        (
            b"S 0001000100010000FF00fE000000000000008000540500005405000056A70200\nC ff00FF0000000000000000000000000000000000\nS ff0000000100000003000000180000000300000000000000616263",
            "S response asked 255 granted 254 readwrite 8388608 send 1364 receive 1364 fragmented 173910\nC fault Version\nS data asked 255 granted 0 flags 1 remaining 3 payload 3\n",
        ),
        // what remains of an empty frame is not told
        (
            b"C 00\nC 0a0001000000000007000000000000000000000000\nC 0a00010000000000070000001400000000000000\n",
            "C fault Short\nC data asked 10 granted 1 flags 0 remaining 0 payload 0\nC data asked 10 granted 1 flags 0 remaining 0 payload 0\n",
        ),
        // each fault of a response, and of a data transfer message
        (b"S 00", "S fault Short\n"),
        (
            b"S 0001000100010000ff00ff00bb0000c000001000540500000020000000001000",
            "S fault Status\n",
        ),
        (
            b"S 0001000100020000ff00ff000000000000001000540500000020000000001000",
            "S fault Version\n",
        ),
        (
            b"S 00010001000100000000ff000000000000001000540500000020000000001000",
            "S fault Credits\n",
        ),
        (
            b"S 0001000100010000ff0000000000000000001000540500000020000000001000",
            "S fault Granted\n",
        ),
        (
            b"S 0001000100010000ff00ff000000000000001000012000000020000000001000",
            "S fault SendSize\n",
        ),
        (
            b"S 0001000100010000ff00ff000000000000001000540500007f00000000001000",
            "S fault ReceiveSize\n",
        ),
        (
            b"S 0001000100010000ff00fe000000000000008000000200000002000000ff0000\nS 00\nS ff0001000000000000000000180000000400000000000000616263",
            "S fault FragmentedSize\nS fault Short\nS fault Length\n",
        ),
    ];
    for &(text, description) in LISTS {
        assert!(rt; is_described(rt.alloc(), text, Ok(description)), "{text:?}");
    }
}

#[test]
fn lines_of_no_frame_are_bad(rt: HostRuntime) {
    // a text, and its first bad line
    const BAD: &[(&[u8], u64)] = &[
        (b"\n", 1),
        (b"C 0", 1),
        (b"C 000", 1),
        (b"C ", 1),
        (b"C", 1),
        (b"C  00", 1),
        (b"C 00 ", 1),
        (b"C 00 00", 1),
        (b" C 00", 1),
        (b"c 00", 1),
        (b"C1 00", 1),
        (b"X 00", 1),
        (b"C 0g", 1),
        (b"C 0x", 1),
        (b"C 00\r\n", 1),
        (b"C 00\nC 0\n", 2),
        (b"C 00\n\nS 00\n", 2),
        (b"C 00\nS 00\n\n", 3),
    ];
    for &(text, number) in BAD {
        assert!(rt; is_described(rt.alloc(), text, Err(number)), "{text:?}");
    }
}

/// Whether a line with a frame of so many digits is described.
fn is_line(alloc: Global, digits: usize) -> Option<bool> {
    let mut text = Vec::from_slice(alloc, b"S 00\nS ").ok()?;
    for _ in 0..digits {
        text.push(b'F').ok()?;
    }
    let described = describe(alloc, &text).is_ok();
    Some(described && first_bad_line(&text).is_none())
}

#[test]
fn frames_have_8192_bytes_at_most(rt: HostRuntime) {
    assert_eq!(rt; is_line(rt.alloc(), 16_384), Some(true));
    assert_eq!(rt; is_line(rt.alloc(), 16_386), Some(false));
}
