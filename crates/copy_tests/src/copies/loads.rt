//! Puts of a made input into memory, and the line that sums them up.

use super::{
    FAIR, LOG_OF_NOTHING, Outside, WIDE, check_run, copied, is_of_lines, lines_that_begin,
};
use smbd_outside::Status;

/// An outside whose source is not to be read.
const UNREAD: Outside<'static> = Outside {
    source_fails: &[1],
    ..WIDE
};

const LINE_OF_ABC: &[u8] =
    b"length 3 requests 2 sha256 ba7816bf8f01cfea414140de5dae2223b00361a396177a9cb410ff61f20015ad\n";

const LINE_OF_NOTHING: &[u8] =
    b"length 0 requests 1 sha256 e3b0c44298fc1c149afbf4c8996fb92427ae41e4649b934ca495991b7852b855\n";

#[test]
fn a_load_sums_up_what_memory_got(rt: HostRuntime) {
    const CASES: &[(&[&str], &[u8])] = &[
        (&["load", "97", "3"], LINE_OF_ABC),
        (&["load", "97", "--channel", "none", "3"], LINE_OF_ABC),
        (
            &["load", "--credits=3", "97", "3", "--workers", "1"],
            LINE_OF_ABC,
        ),
        (&["load", "97", "0"], LINE_OF_NOTHING),
        (&["load", "255", "0", "--send-size=128"], LINE_OF_NOTHING),
    ];
    for &(texts, line) in CASES {
        let ran = copied(&rt, rt.alloc(), texts, b"not read", UNREAD);
        assert_eq!(rt; ran.status, Status::Done);
        assert_eq!(rt; ran.sink.taken(), line);
    }
    check_run(
        &rt,
        rt.alloc(),
        &["load", "97", "0"],
        b"",
        FAIR,
        Status::Done,
        LINE_OF_NOTHING,
        LOG_OF_NOTHING,
    );
}

#[test]
fn a_load_of_the_most_bytes_has_257_requests(rt: HostRuntime) {
    let ran = copied(&rt, rt.alloc(), &["load", "1", "16777216"], b"", UNREAD);
    assert_eq!(rt; ran.status, Status::Done);
    assert!(rt;
        ran.sink
            .taken()
            .starts_with(b"length 16777216 requests 257 sha256 ")
    );
    assert_eq!(rt; ran.sink.taken().len(), 101);
    assert_eq!(rt; lines_that_begin(ran.log.taken(), b"C submit "), 257);
}

/// A sink that has room for ten bytes of the line, and one that has none.
#[test]
fn a_sink_that_is_full_ends_a_load(rt: HostRuntime) {
    for (room, got) in [(10, &LINE_OF_ABC[..10]), (0, b"".as_slice())] {
        let full = Outside {
            sink_room: room,
            ..WIDE
        };
        let ran = copied(&rt, rt.alloc(), &["load", "97", "3"], b"", full);
        assert_eq!(rt; ran.status, Status::WriteFault);
        assert_eq!(rt; ran.sink.taken(), got);
    }
}

#[test]
fn a_log_that_fails_ends_a_load(rt: HostRuntime) {
    let whole = copied(&rt, rt.alloc(), &["load", "7", "200000"], b"", WIDE);
    assert_eq!(rt; whole.status, Status::Done);
    for call in 2..=6u32 {
        let faulty = Outside {
            log_fails: &[call],
            ..WIDE
        };
        let ran = copied(&rt, rt.alloc(), &["load", "7", "200000"], b"", faulty);
        assert_eq!(rt; ran.status, Status::LogFault, "call {call}");
        assert!(rt; ran.sink.taken().is_empty(), "call {call}");
        assert!(rt;
            is_of_lines(whole.log.taken(), ran.log.taken()),
            "call {call}"
        );
    }
}
