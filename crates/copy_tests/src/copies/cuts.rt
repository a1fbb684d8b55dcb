//! Copies whose client cuts the link in the place of one of its frames.

use super::{
    FAIR, LOG_OF_ABC, Outside, PUT, Ran, WIDE, check_run, copied, copied_with, is_of_groups,
    is_of_lines, lines_that_are, lines_that_begin, some_bytes,
};
use smbd_outside::Status;
use std::alloc::Global;
use std::process::Abort;
use std::sync::Wait;

/// Whether the sink has groups of a copy of these bytes, of which the last one may be shorter.
fn is_of_whole_groups(bytes: &[u8], taken: &[u8]) -> bool {
    is_of_groups(bytes, taken) || taken == bytes
}

/// Whether the log tells what the whole one tells, up to the client's cut, which is its last line of the client.
fn is_cut_short(whole: &[u8], log: &[u8]) -> bool {
    let mut of_whole = whole.split(|byte| *byte == b'\n');
    let mut is_front = true;
    let mut is_cut = false;
    for line in log.split(|byte| *byte == b'\n') {
        if line == b"C cut".as_slice() {
            is_cut = true;
        } else if is_cut {
            is_front = is_front && !line.starts_with(b"C ");
        } else {
            is_front = is_front && of_whole.next() == Some(line);
        }
    }
    is_cut && is_front
}

/// A copy that is cut in the place of the client's frame of this number, beside the same copy that is not: so many frames before the cut,
/// groups in the sink, and the log up to the cut. Where there are fewer frames, nothing is cut.
fn check_cut(rt: &impl Abort, number: u32, bytes: &[u8], whole: &Ran, ran: &Ran) {
    let log = ran.log.taken();
    if (number as usize) <= lines_that_begin(whole.log.taken(), b"C emit ") {
        assert_eq!(rt; ran.status, Status::Cut, "frame {number}");
        let sent = lines_that_begin(log, b"C emit ");
        assert_eq!(rt; sent, number.saturating_sub(1) as usize, "frame {number}");
        let cuts = (lines_that_are(log, b"C cut"), lines_that_are(log, b"S cut"));
        assert_eq!(rt; cuts, (1, 1), "frame {number}");
        assert!(rt; is_cut_short(whole.log.taken(), log), "frame {number}");
        assert!(rt;
            is_of_whole_groups(bytes, ran.sink.taken()),
            "frame {number}"
        );
    } else {
        assert_eq!(rt; ran.status, Status::Done, "frame {number}");
        assert!(rt; log == whole.log.taken(), "frame {number}");
        assert!(rt; ran.sink.taken() == bytes, "frame {number}");
    }
}

/// Cuts in the place of the first frame to the fortieth: in the middle of a group, of its pages, of a reply.
fn check_cuts(rt: &(impl Abort + Wait), alloc: Global, texts: &[&str]) {
    let bytes = some_bytes(rt, alloc, 200_000);
    let whole = copied(rt, alloc, texts, &bytes, WIDE);
    for number in 1..=40u32 {
        let ran = copied_with(rt, alloc, texts, "--cut=", number, &bytes, WIDE);
        check_cut(rt, number, &bytes, &whole, &ran);
    }
}

#[test]
fn a_put_is_cut(rt: HostRuntime) {
    check_cuts(&rt, rt.alloc(), &PUT);
}

#[test]
fn a_put_over_pages_is_cut(rt: HostRuntime) {
    check_cuts(&rt, rt.alloc(), &["put"]);
}

#[test]
fn a_get_is_cut(rt: HostRuntime) {
    check_cuts(&rt, rt.alloc(), &["get", "--channel", "none"]);
}

#[test]
fn a_get_over_pages_is_cut(rt: HostRuntime) {
    check_cuts(&rt, rt.alloc(), &["get", "--workers", "2"]);
}

/// The client sends its request, a WRITE and END in one frame each.
#[test]
fn a_put_of_three_bytes_is_cut(rt: HostRuntime) {
    const CASES: &[(&str, &[u8])] = &[
        ("1", b"C post 255\nS post 255\nC cut\nS cut\n"),
        (
            "2",
            b"C post 255
S post 255
C emit 000100010000ff00540500000020000000001000
C submit 27
S take 1 20
S post 1
S emit 0001000100010000ff00ff000000000000001000540500000020000000001000
C take 1 32
C post 1
C cut
S cut
",
        ),
    ];
    for &(number, log) in CASES {
        let texts = ["put", "--channel", "none", "--cut", number];
        check_run(&rt, rt.alloc(), &texts, b"abc", FAIR, Status::Cut, b"", log);
    }
    for number in ["4", "100000", "4294967295"] {
        let texts = ["put", "--channel", "none", "--cut", number];
        check_run(
            &rt,
            rt.alloc(),
            &texts,
            b"abc",
            FAIR,
            Status::Done,
            b"abc",
            LOG_OF_ABC,
        );
    }
}

/// Two ends of three credits: the request, the three pieces of the WRITE and END are five of the client's frames, and it sends empty ones
/// besides.
#[test]
fn a_put_with_three_credits_is_cut(rt: HostRuntime) {
    let bytes = some_bytes(&rt, rt.alloc(), 3_000);
    let texts = ["put", "--channel", "none", "--credits", "3"];
    let whole = copied(&rt, rt.alloc(), &texts, &bytes, WIDE);
    let sent = lines_that_begin(whole.log.taken(), b"C emit ");
    assert!(rt; 5 <= sent && sent < 12, "{sent} frames");
    for number in 1..=12u32 {
        let ran = copied_with(&rt, rt.alloc(), &texts, "--cut=", number, &bytes, WIDE);
        check_cut(&rt, number, &bytes, &whole, &ran);
    }
}

/// A mebibyte that is cut before the request, and in the place of the ninth frame.
#[test]
fn a_long_put_is_cut(rt: HostRuntime) {
    let bytes = some_bytes(&rt, rt.alloc(), 1_048_576);
    let ran = copied(&rt, rt.alloc(), &["put", "--cut", "1"], &bytes, WIDE);
    assert_eq!(rt; ran.status, Status::Cut);
    assert_eq!(rt; lines_that_begin(ran.log.taken(), b"C emit "), 0);
    assert!(rt; ran.sink.taken().is_empty());
    let ran = copied(&rt, rt.alloc(), &["put", "--cut", "9"], &bytes, WIDE);
    assert_eq!(rt; ran.status, Status::Cut);
    assert_eq!(rt; lines_that_begin(ran.log.taken(), b"C emit "), 8);
    assert!(rt; is_of_groups(&bytes, ran.sink.taken()));
}

/// A fault of source, sink or log before the cut, or at its barrier, ends the copy as one without a cut.
#[test]
fn a_fault_comes_before_a_cut(rt: HostRuntime) {
    let bytes = some_bytes(&rt, rt.alloc(), 400_000);
    let texts = ["put", "--channel", "none", "--cut", "200"];
    let whole = copied(&rt, rt.alloc(), &texts, &bytes, WIDE);
    assert_eq!(rt; whole.status, Status::Cut);
    let faulty = Outside {
        source_fails: &[3],
        ..WIDE
    };
    let ran = copied(&rt, rt.alloc(), &texts, &bytes, faulty);
    assert_eq!(rt; ran.status, Status::ReadFault);
    assert!(rt; is_of_groups(&bytes, ran.sink.taken()));
    let faulty = Outside {
        sink_fails: &[2],
        ..WIDE
    };
    let ran = copied(&rt, rt.alloc(), &texts, &bytes, faulty);
    assert_eq!(rt; ran.status, Status::WriteFault);
    assert!(rt; is_of_lines(whole.log.taken(), ran.log.taken()));
    assert!(rt; is_of_groups(&bytes, ran.sink.taken()));
    let faulty = Outside {
        log_fails: &[4],
        ..WIDE
    };
    let ran = copied(&rt, rt.alloc(), &texts, &bytes, faulty);
    assert_eq!(rt; ran.status, Status::LogFault);
    assert!(rt; whole.log.taken().starts_with(ran.log.taken()));
    assert!(rt; is_of_groups(&bytes, ran.sink.taken()));
}
