//! Lists of frames, and what each of them says.

use super::{FAIR, Outside, check_run};
use smbd_outside::Status;

const SHOW: [&str; 1] = ["show"];

/// A request of the usual limits, and a frame whose payload begins where none may.
const FRAMES: &[u8] = b"C 000100010000ff00540500000020000000001000
C ff0001000000000000000000140000000300000000000000616263
";

const DESCRIPTION: &[u8] = b"C request asked 255 send 1364 receive 8192 fragmented 1048576
C fault Offset
";

#[test]
fn frames_are_described(rt: HostRuntime) {
    const CASES: &[(&[u8], &[u8])] = &[
        (FRAMES, DESCRIPTION),
        (b"", b""),
        (
            b"S ff0001000000000000000000180000000300000000000000616263",
            b"S fault Short\n",
        ),
        (
            b"C 00\nS 00\nC FF0001000000000000000000180000000300000000000000616263\n",
            b"C fault Short\nS fault Short\nC data asked 255 granted 1 flags 0 remaining 0 payload 3\n",
        ),
    ];
    for &(list, description) in CASES {
        let done = Status::Done;
        check_run(&rt, rt.alloc(), &SHOW, list, FAIR, done, description, b"");
    }
}

#[test]
fn the_first_line_without_a_frame_is_named(rt: HostRuntime) {
    const CASES: &[(&[u8], u64)] = &[
        (b"C 000100010000ff00540500000020000000001000\nC 0\n", 2),
        (b"\n", 1),
        (b"C 00\n\nS 00\n", 2),
        (b"C 00\nS 0g\n", 2),
        (b"X 00\n", 1),
        (b"C 00 \n", 1),
        (b"C  00\n", 1),
    ];
    for &(list, line) in CASES {
        let bad = Status::BadInput { line };
        check_run(&rt, rt.alloc(), &SHOW, list, FAIR, bad, b"", b"");
    }
}

#[test]
fn a_description_tells_the_faults_of_its_streams(rt: HostRuntime) {
    let unread = Outside {
        source_fails: &[1],
        ..FAIR
    };
    let failed = Status::ReadFault;
    check_run(&rt, rt.alloc(), &SHOW, FRAMES, unread, failed, b"", b"");
    let full = Outside {
        sink_room: 7,
        ..FAIR
    };
    let front = &DESCRIPTION[..7];
    let failed = Status::WriteFault;
    check_run(&rt, rt.alloc(), &SHOW, FRAMES, full, failed, front, b"");
}
