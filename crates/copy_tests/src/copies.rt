//! Copies over memory: the log byte for byte, faults of the outside, lengths at the bounds.
//!
//! A test ends at once where memory is wanting: with a `?` beside values that are let go its proof would be dear.

use smbd_cli::{Word, run};
use smbd_outside::{MemorySink, MemorySource, Status};
use std::alloc::Global;
use std::process::Abort;
use std::sync::Wait;

mod cuts;
mod frames;
mod limits;
mod loads;
mod sim;
mod words;

/// What is said where memory is wanting.
const MEMORY: &str = "memory for a test";

const PUT: [&str; 3] = ["put", "--channel", "none"];

/// The words of a copy of each kind, without registered pages and over them.
const WAYS: &[&[&str]] = &[
    &PUT,
    &["put"],
    &["get", "--channel", "none"],
    &["get", "--workers", "2"],
];

/// What the log has once both ends are open.
const OPENING: &[u8] = b"C post 255\nS post 255\n";

/// The log of a put of `abc` without registered pages.
const LOG_OF_ABC: &[u8] = b"C post 255
S post 255
C emit 000100010000ff00540500000020000000001000
C submit 27
S take 1 20
S post 1
S emit 0001000100010000ff00ff000000000000001000540500000020000000001000
C take 1 32
C post 1
C emit ff00ff000000000000000000180000001b00000000000000010000000100000000000000000000000300000000000000616263
S take 2 51
S post 1
S submit 12
S emit ff0001000000000000000000180000000c00000000000000018000000100000003000000
C take 2 36
C post 1
C submit 24
C emit ff0001000000000000000000180000001800000000000000030000000200000003000000000000000000000000000000
S take 3 48
S post 1
S submit 12
S emit ff0001000000000000000000180000000c00000000000000038000000200000000000000
C take 3 36
C post 1
";

/// The log of a put of nothing, with registered pages or without.
const LOG_OF_NOTHING: &[u8] = b"C post 255
S post 255
C emit 000100010000ff00540500000020000000001000
C submit 24
S take 1 20
S post 1
S emit 0001000100010000ff00ff000000000000001000540500000020000000001000
C take 1 32
C post 1
C emit ff00ff000000000000000000180000001800000000000000030000000100000000000000000000000000000000000000
S take 2 48
S post 1
S submit 12
S emit ff0001000000000000000000180000000c00000000000000038000000100000000000000
C take 2 36
C post 1
";

/// The log of a put of `abc` over registered pages, by 4 workers at each end.
const LOG_OVER_PAGES: &[u8] = b"C post 255
S post 255
C emit 000100010000ff00540500000020000000001000
S take 1 20
S post 1
S emit 0001000100010000ff00ff000000000000001000540500000020000000001000
C1 load 256 fetch 3
C take 1 32
C post 1
C emit ff00ff0000000000000000000000000000000000
C submit 40
C emit ff000000000000000000000018000000280000000000000001000100010000000000000000000000030000000100000000000000000000000001000003000000
S take 2 20
S post 1
S take 3 64
S post 1
S1 fetch 256 0 3
S submit 12
S emit ff0002000000000000000000180000000c00000000000000018000000100000003000000
C take 2 36
C post 1
C submit 24
C emit ff0001000000000000000000180000001800000000000000030000000200000003000000000000000000000000000000
S take 4 48
S post 1
S submit 12
S emit ff0001000000000000000000180000000c00000000000000038000000200000000000000
C take 3 36
C post 1
C1 unload 256
";

/// How the outside of a copy behaves: the most bytes that the source gives and the sink takes at once, the calls at
/// which each fails (from 1), and the room of the sink and of the log.
#[derive(Clone, Copy)]
struct Outside<'a> {
    most: u32,
    source_fails: &'a [u32],
    sink_fails: &'a [u32],
    log_fails: &'a [u32],
    sink_room: u32,
    log_room: u32,
}

const FAIR: Outside<'static> = Outside {
    most: 4_096,
    source_fails: &[],
    sink_fails: &[],
    log_fails: &[],
    sink_room: 4_096,
    log_room: 16_384,
};

/// A copy that was run: how it ended, and what the sink and the log got.
#[derive(Drop)]
struct Ran {
    status: Status,
    sink: MemorySink,
    log: MemorySink,
}

fn words_of(rt: &impl Abort, alloc: Global, texts: &[&str]) -> Vec<Word> {
    let mut words = Vec::new(alloc);
    for text in texts {
        let word = Word::copy_of(alloc, text).expect(rt, MEMORY);
        words.push(word).expect(rt, MEMORY);
    }
    words
}

fn sink_of(rt: &impl Abort, alloc: Global, room: u32, most: u32, fails: &[u32]) -> MemorySink {
    assert!(rt; 1 <= most);
    MemorySink::open(alloc, room, most, fails).expect(rt, MEMORY)
}

fn source_of(
    rt: &impl Abort,
    alloc: Global,
    bytes: &[u8],
    most: u32,
    fails: &[u32],
) -> MemorySource {
    assert!(rt; 1 <= most);
    MemorySource::open(alloc, bytes, most, fails).expect(rt, MEMORY)
}

/// Runs the program on these words.
fn copied(
    rt: &(impl Abort + Wait),
    alloc: Global,
    texts: &[&str],
    bytes: &[u8],
    outside: Outside<'_>,
) -> Ran {
    let words = words_of(rt, alloc, texts);
    ran_by(rt, alloc, &words, bytes, outside)
}

/// Runs the program on these words, and one more of this text and number.
fn copied_with(
    rt: &(impl Abort + Wait),
    alloc: Global,
    texts: &[&str],
    option: &str,
    number: u32,
    bytes: &[u8],
    outside: Outside<'_>,
) -> Ran {
    let mut words = words_of(rt, alloc, texts);
    let text = format!(in alloc; "{option}{number}").expect(rt, MEMORY);
    let word = Word::copy_of(alloc, text.as_str()).expect(rt, MEMORY);
    words.push(word).expect(rt, MEMORY);
    ran_by(rt, alloc, &words, bytes, outside)
}

fn ran_by(
    rt: &(impl Abort + Wait),
    alloc: Global,
    words: &[Word],
    bytes: &[u8],
    outside: Outside<'_>,
) -> Ran {
    let mut source = source_of(rt, alloc, bytes, outside.most, outside.source_fails);
    let (room, fails) = (outside.sink_room, outside.sink_fails);
    let mut sink = sink_of(rt, alloc, room, outside.most, fails);
    let (room, fails) = (outside.log_room, outside.log_fails);
    let mut log = sink_of(rt, alloc, room, outside.most, fails);
    let status = run(rt, alloc, words, &mut source, &mut sink, &mut log);
    Ran { status, sink, log }
}

/// Runs the program: it ends so, and the sink and the log get this.
fn check_run(
    rt: &(impl Abort + Wait),
    alloc: Global,
    texts: &[&str],
    bytes: &[u8],
    outside: Outside<'_>,
    status: Status,
    sink: &[u8],
    log: &[u8],
) {
    let ran = copied(rt, alloc, texts, bytes, outside);
    assert_eq!(rt; ran.status, status);
    assert_eq!(rt; ran.sink.taken(), sink);
    assert_eq!(rt; ran.log.taken(), log);
}

#[test]
fn a_copy_tells_what_it_did(rt: HostRuntime) {
    const BY_ONE: Outside<'static> = Outside { most: 1, ..FAIR };
    const CASES: &[(&[&str], &[u8], Outside<'static>, &[u8])] = &[
        (&PUT, b"", FAIR, LOG_OF_NOTHING),
        (&["put"], b"", FAIR, LOG_OF_NOTHING),
        (&PUT, b"abc", FAIR, LOG_OF_ABC),
        (&PUT, b"abc", BY_ONE, LOG_OF_ABC),
        (&["put"], b"abc", FAIR, LOG_OVER_PAGES),
        (
            &["put", "--channel", "v1", "--workers", "4"],
            b"abc",
            FAIR,
            LOG_OVER_PAGES,
        ),
    ];
    for &(texts, bytes, outside, log) in CASES {
        check_run(
            &rt,
            rt.alloc(),
            texts,
            bytes,
            outside,
            Status::Done,
            bytes,
            log,
        );
    }
}

/// A log that takes 30 bytes of its first lines.
#[test]
fn a_full_log_ends_a_copy(rt: HostRuntime) {
    let full = Outside {
        log_room: 30,
        ..FAIR
    };
    check_run(
        &rt,
        rt.alloc(),
        &PUT,
        b"abc",
        full,
        Status::LogFault,
        b"",
        &LOG_OF_ABC[..30],
    );
}

/// So many bytes, of which no two neighbours are equal.
fn some_bytes(rt: &impl Abort, alloc: Global, length: u32) -> Vec<u8> {
    let mut bytes = Vec::with_capacity(alloc, length as usize).expect(rt, MEMORY);
    for number in 0..length {
        bytes.push((number % 251) as u8).expect(rt, MEMORY);
    }
    bytes
}

/// An outside with room for a long copy, which gives and takes up to a group at once.
const WIDE: Outside<'static> = Outside {
    most: 65_536,
    source_fails: &[],
    sink_fails: &[],
    log_fails: &[],
    sink_room: 16_777_216,
    log_room: 41_943_040,
};

/// How many lines of a log begin so.
fn lines_that_begin(log: &[u8], start: &[u8]) -> usize {
    log.split(|byte| *byte == b'\n')
        .filter(|line| line.starts_with(start))
        .count()
}

/// How many lines of a log are this one.
fn lines_that_are(log: &[u8], text: &[u8]) -> usize {
    log.split(|byte| *byte == b'\n')
        .filter(|line| *line == text)
        .count()
}

#[test]
fn a_copy_has_a_request_for_each_group(rt: HostRuntime) {
    // the words, the bytes, the requests, and a line with how often it comes
    const CASES: &[(&[&str], u32, usize, &[u8], usize)] = &[
        (&PUT, 1_316, 2, b"C submit 1340", 1),
        (&PUT, 65_536, 2, b"C submit 65560", 1),
        (&PUT, 65_537, 3, b"C submit 25", 1),
        (&PUT, 100_000, 3, b"C submit 34488", 1),
        (&PUT, 600_000, 11, b"C submit 65560", 9),
        (&["put"], 100_000, 3, b"C submit 168", 1),
        (&["put"], 600_000, 11, b"C submit 280", 9),
        (
            &["put", "--workers", "8"],
            65_536,
            2,
            b"S8 fetch 271 0 4096",
            1,
        ),
        (
            &["get", "--channel", "none"],
            100_000,
            3,
            b"S submit 34476",
            1,
        ),
        (&["get", "--channel", "none"], 65_536, 3, b"S submit 12", 2),
        (&["get", "--workers", "4"], 196_608, 5, b"C submit 280", 4),
        (&["get"], 196_608, 5, b"C submit 24", 1),
    ];
    for &(texts, length, requests, line, times) in CASES {
        let bytes = some_bytes(&rt, rt.alloc(), length);
        let ran = copied(&rt, rt.alloc(), texts, &bytes, WIDE);
        assert_eq!(rt; ran.status, Status::Done, "{length} bytes");
        assert!(rt; ran.sink.taken() == bytes.as_slice(), "{length} bytes");
        let log = ran.log.taken();
        let submitted = lines_that_begin(log, b"C submit ");
        assert_eq!(rt; submitted, requests, "{length} bytes");
        let replied = lines_that_begin(log, b"S submit ");
        assert_eq!(rt; replied, requests, "{length} bytes");
        let found = lines_that_are(log, line);
        assert_eq!(rt; found, times, "{length} bytes");
    }
}

/// The most bytes are copied. One more is too many: the sink has whole groups, and the log whole lines.
fn check_most(rt: &(impl Abort + Wait), alloc: Global, texts: &[&str]) {
    let mut bytes = some_bytes(rt, alloc, 16_777_216);
    let ran = copied(rt, alloc, texts, &bytes, WIDE);
    assert_eq!(rt; ran.status, Status::Done);
    assert!(rt; ran.sink.taken() == bytes.as_slice());
    bytes.push(7).expect(rt, MEMORY);
    let ran = copied(rt, alloc, texts, &bytes, WIDE);
    assert_eq!(rt; ran.status, Status::TooLong);
    assert!(rt; is_of_groups(&bytes, ran.sink.taken()));
    assert!(rt; ran.log.taken().ends_with(b"\n"));
}

#[test]
fn a_put_carries_16777216_bytes_and_not_one_more(rt: HostRuntime) {
    check_most(&rt, rt.alloc(), &PUT);
}

#[test]
fn a_put_over_pages_carries_16777216_bytes_and_not_one_more(rt: HostRuntime) {
    check_most(&rt, rt.alloc(), &["put"]);
}

#[test]
fn a_get_carries_16777216_bytes_and_not_one_more(rt: HostRuntime) {
    check_most(&rt, rt.alloc(), &["get", "--channel", "none"]);
}

#[test]
fn a_get_over_pages_carries_16777216_bytes_and_not_one_more(rt: HostRuntime) {
    check_most(&rt, rt.alloc(), &["get"]);
}

/// Whether the sink has a front of these bytes, of whole groups.
fn is_of_groups(bytes: &[u8], taken: &[u8]) -> bool {
    bytes.starts_with(taken) && taken.len() % 65_536 == 0
}

/// Whether the log tells whole lines of those that a copy without a fault tells.
fn is_of_lines(whole: &[u8], log: &[u8]) -> bool {
    whole.starts_with(log) && log.ends_with(b"\n")
}

/// A source that fails at its first call to its sixth: the sink has a front of whole groups, and the log whole lines.
#[test]
fn a_source_that_fails_ends_a_copy(rt: HostRuntime) {
    let bytes = some_bytes(&rt, rt.alloc(), 400_000);
    for &texts in WAYS {
        let whole = copied(&rt, rt.alloc(), texts, &bytes, WIDE);
        for call in 1..=6u32 {
            let faulty = Outside {
                source_fails: &[call],
                ..WIDE
            };
            let ran = copied(&rt, rt.alloc(), texts, &bytes, faulty);
            assert_eq!(rt; ran.status, Status::ReadFault, "call {call}");
            assert!(rt; is_of_groups(&bytes, ran.sink.taken()), "call {call}");
            assert!(rt;
                ran.sink.taken().len() < 65_536 * call as usize,
                "call {call}"
            );
            assert!(rt;
                is_of_lines(whole.log.taken(), ran.log.taken()),
                "call {call}"
            );
        }
    }
}

/// A sink that fails at its first call to its sixth: it has what it took before, and the log whole lines.
#[test]
fn a_sink_that_fails_ends_a_copy(rt: HostRuntime) {
    let bytes = some_bytes(&rt, rt.alloc(), 400_000);
    for &texts in WAYS {
        let whole = copied(&rt, rt.alloc(), texts, &bytes, WIDE);
        for call in 1..=6u32 {
            let faulty = Outside {
                sink_fails: &[call],
                ..WIDE
            };
            let ran = copied(&rt, rt.alloc(), texts, &bytes, faulty);
            assert_eq!(rt; ran.status, Status::WriteFault, "call {call}");
            assert!(rt; is_of_groups(&bytes, ran.sink.taken()), "call {call}");
            assert_eq!(rt;
                ran.sink.taken().len(),
                65_536 * (call as usize - 1),
                "call {call}"
            );
            assert!(rt;
                is_of_lines(whole.log.taken(), ran.log.taken()),
                "call {call}"
            );
        }
        let full = Outside {
            sink_room: 100_000,
            ..WIDE
        };
        let ran = copied(&rt, rt.alloc(), texts, &bytes, full);
        assert_eq!(rt; ran.status, Status::WriteFault);
        assert!(rt; bytes.starts_with(ran.sink.taken()));
        assert_eq!(rt; ran.sink.taken().len(), 100_000);
        assert!(rt; is_of_lines(whole.log.taken(), ran.log.taken()));
    }
}

/// A log that fails at its first call to its sixth: it has what it took before, and the sink whole groups that were told.
#[test]
fn a_log_that_fails_ends_a_copy(rt: HostRuntime) {
    let bytes = some_bytes(&rt, rt.alloc(), 400_000);
    for &texts in WAYS {
        let whole = copied(&rt, rt.alloc(), texts, &bytes, WIDE);
        for call in 1..=6u32 {
            let faulty = Outside {
                log_fails: &[call],
                ..WIDE
            };
            let ran = copied(&rt, rt.alloc(), texts, &bytes, faulty);
            assert_eq!(rt; ran.status, Status::LogFault, "call {call}");
            assert!(rt; is_of_groups(&bytes, ran.sink.taken()), "call {call}");
            assert!(rt;
                whole.log.taken().starts_with(ran.log.taken()),
                "call {call}"
            );
        }
    }
}

/// The outside of a copy of 200,000 bytes that takes and gives 65,536 at once, and fails once.
#[test]
fn a_fault_comes_where_it_was_asked_for(rt: HostRuntime) {
    const CASES: &[(Outside<'static>, Status, usize)] = &[
        (
            Outside {
                source_fails: &[2],
                ..WIDE
            },
            Status::ReadFault,
            0,
        ),
        (
            Outside {
                sink_fails: &[2],
                ..WIDE
            },
            Status::WriteFault,
            65_536,
        ),
        (
            Outside {
                log_fails: &[1],
                ..WIDE
            },
            Status::LogFault,
            0,
        ),
    ];
    let bytes = some_bytes(&rt, rt.alloc(), 200_000);
    for &(outside, status, stored) in CASES {
        let ran = copied(&rt, rt.alloc(), &["put"], &bytes, outside);
        assert_eq!(rt; ran.status, status);
        assert!(rt; bytes.starts_with(ran.sink.taken()));
        assert_eq!(rt; ran.sink.taken().len(), stored);
        // a log that fails at once has nothing
        assert_eq!(rt; ran.log.taken().is_empty(), status == Status::LogFault);
    }
}

/// Each allocation of the copy, failing in turn, ends it with `NoMemory`, a front of the log, and nothing or all of `abc` in the sink
/// (`rt try --test --fail-alloc N`); those before the copy end the test.
#[test]
fn want_of_memory_ends_a_copy_with_fronts(rt: HostRuntime) {
    let ran = copied(&rt, rt.alloc(), &["put"], b"abc", FAIR);
    assert!(rt; is_whole(&ran) || is_front(&ran));
}

fn is_whole(ran: &Ran) -> bool {
    ran.status == Status::Done
        && ran.sink.taken() == b"abc".as_slice()
        && ran.log.taken() == LOG_OVER_PAGES
}

fn is_front(ran: &Ran) -> bool {
    ran.status == Status::NoMemory
        && (ran.sink.taken().is_empty() || ran.sink.taken() == b"abc".as_slice())
        && LOG_OVER_PAGES.starts_with(ran.log.taken())
}
