//! The runs of scripts.

use super::{FAIR, MEMORY, Outside, WIDE, check_run, copied, lines_that_begin};
use smbd_outside::Status;
use std::alloc::Global;
use std::process::Abort;
use std::sync::Wait;

const SIM: [&str; 1] = ["sim"];

/// A message of three bytes from the client to the server.
const MESSAGE_OF_ABC: &[u8] = b"drive C
drive C
carry S
drive S
drive S
carry C
drive C
submit C 3 97
drive C
carry S
drive S
drive S
";

/// Its log. The client's second turn has nothing to do: its one credit is spent.
const LOG_OF_MESSAGE: &[u8] = b"C post 255
S post 255
C emit 000100010000ff00540500000020000000001000
S take 1 20
S post 1
S emit 0001000100010000ff00ff000000000000001000540500000020000000001000
C take 1 32
C post 1
C submit 3
C emit ff00ff000000000000000000180000000300000000000000616263
S take 2 27
S post 1
";

const LOG_OF_NOTHING: &[u8] = b"C post 255
S post 255
";

/// Runs a script: it ends so, the sink has this, and the log nothing.
fn check_script(
    rt: &(impl Abort + Wait),
    alloc: Global,
    texts: &[&str],
    script: &[u8],
    outside: Outside<'_>,
    status: Status,
    sink: &[u8],
) {
    check_run(rt, alloc, texts, script, outside, status, sink, b"");
}

#[test]
fn a_script_gives_its_log(rt: HostRuntime) {
    const CASES: &[(&[&str], &[u8], &[u8])] = &[
        (&SIM, MESSAGE_OF_ABC, LOG_OF_MESSAGE),
        (&["sim", "--credits", "255"], MESSAGE_OF_ABC, LOG_OF_MESSAGE),
        (&SIM, b"", LOG_OF_NOTHING),
        (&["sim", "--credits", "3"], b"", b"C post 3\nS post 3\n"),
        (
            &SIM,
            b"cut S\ndrive C\nsubmit C 1 0\n",
            b"C post 255\nS post 255\nS cut\nC cut\n",
        ),
        (
            &SIM,
            b"submit S 131072 9\nsubmit S 131073 9\n",
            b"C post 255\nS post 255\nS submit 131072\n",
        ),
    ];
    for &(texts, script, log) in CASES {
        check_script(&rt, rt.alloc(), texts, script, FAIR, Status::Done, log);
    }
    let script = &MESSAGE_OF_ABC[..MESSAGE_OF_ABC.len() - 1];
    check_script(
        &rt,
        rt.alloc(),
        &SIM,
        script,
        FAIR,
        Status::Done,
        LOG_OF_MESSAGE,
    );
}

/// Adds the line of a frame with a payload that counts up from `first`.
fn add_emit(
    rt: &(impl Abort + Wait),
    alloc: Global,
    text: &mut String,
    header: &str,
    first: u32,
    length: u32,
) {
    let mut payload = Vec::new(alloc);
    for i in 0..length {
        payload
            .push(((u64::from(first) + u64::from(i)) % 256) as u8)
            .expect(rt, MEMORY);
    }
    let digits = hex::encode(alloc, &payload).expect(rt, MEMORY);
    add(rt, text, "C emit ");
    add(rt, text, header);
    add(rt, text, &digits);
    add(rt, text, "\n");
}

fn add(rt: &(impl Abort + Wait), text: &mut String, part: &str) {
    text.push_str(part).expect(rt, MEMORY);
}

/// Two ends of three credits and a message in three pieces: the client may not spend its last credit on a frame that grants nothing,
/// and goes on once the server's empty frame has granted more.
#[test]
fn three_credits_carry_a_message_of_three_pieces(rt: HostRuntime) {
    let script = b"drive C
carry S
drive S
drive S
carry C
drive C
submit C 3000 0
drive C
drive C
drive C
carry S
drive S
drive S
carry S
drive S
drive S
carry C
drive C
drive C
carry S
";
    let mut log = String::new(rt.alloc());
    add_lines(&rt, rt.alloc(), &mut log);
    let outside = Outside {
        sink_room: 16_384,
        ..FAIR
    };
    let texts = ["sim", "--credits", "3"];
    check_script(
        &rt,
        rt.alloc(),
        &texts,
        script,
        outside,
        Status::Done,
        log.as_bytes(),
    );
}

/// What the run of the message in three pieces gives.
fn add_lines(rt: &(impl Abort + Wait), alloc: Global, log: &mut String) {
    add(
        rt,
        log,
        "C post 3
S post 3
C emit 0001000100000300540500000020000000001000
S take 1 20
S post 1
S emit 0001000100010000030003000000000000001000540500000020000000001000
C take 1 32
C post 1
C submit 3000
",
    );
    let first = "03000300000000007c060000180000003c05000000000000";
    add_emit(rt, alloc, log, first, 0, 1_340);
    let second = "030000000100000040010000180000003c05000000000000";
    add_emit(rt, alloc, log, second, 60, 1_340);
    add(
        rt,
        log,
        "S take 2 1364
S post 1
S take 3 1364
S post 1
S emit 0300020000000000000000000000000000000000
C take 2 20
C post 1
",
    );
    let third = "030001000000000000000000180000004001000000000000";
    add_emit(rt, alloc, log, third, 120, 320);
    add(rt, log, "S take 4 344\n");
}

/// A script of two ends: the negotiation, a message of 268,000 bytes from the client, and so many turns of both.
fn script_of_turns(rt: &(impl Abort + Wait), alloc: Global, turns: usize) -> String {
    let mut script = String::new(alloc);
    add(
        rt,
        &mut script,
        "drive C\ncarry S\ndrive S\ndrive S\ncarry C\nsubmit C 268000 0\n",
    );
    for _ in 0..turns {
        add(rt, &mut script, "drive C\ncarry C\ndrive S\ncarry S\n");
    }
    script
}

/// Two ends of three credits: the client sends its request and 200 pieces, and no empty frame; the server sends its response, and
/// an empty frame that grants what it has posted for every two pieces. More turns do nothing.
#[test]
fn three_credits_carry_a_message_of_200_pieces(rt: HostRuntime) {
    for turns in [1_000, 1_001] {
        let script = script_of_turns(&rt, rt.alloc(), turns);
        carry_200_pieces(&rt, rt.alloc(), script.as_bytes());
    }
}

fn carry_200_pieces(rt: &(impl Abort + Wait), alloc: Global, script: &[u8]) {
    let ran = copied(rt, alloc, &["sim", "--credits", "3"], script, WIDE);
    assert_eq!(rt; ran.status, Status::Done);
    let log = ran.sink.taken();
    assert_eq!(rt; lines_that_begin(log, b"C emit "), 201);
    assert_eq!(rt; lines_that_begin(log, b"S take "), 201);
    assert_eq!(rt; lines_that_begin(log, b"S emit "), 101);
    assert_eq!(rt;
        lines_that_begin(log, b"S emit 0300020000000000000000000000000000000000"),
        100
    );
}

#[test]
fn the_first_bad_line_is_named_and_nothing_is_written(rt: HostRuntime) {
    const CASES: &[(&[u8], u64)] = &[
        (b"drive C\ndrive S\ndrive X\n", 3),
        (b"\n", 1),
        (b"drive C\n\ndrive C\n", 2),
        (b"drive C\n\n", 2),
        (b"drive  C\n", 1),
        (b" drive C\n", 1),
        (b"drive C \n", 1),
        (b"drive C\r\n", 1),
        (b"drive\tC\n", 1),
        (b"drive C\ncarry S\nsubmit C 0 1\n", 3),
        (b"submit C 1048577 0\n", 1),
        (b"submit C 03 0\n", 1),
        (b"submit C 3 00\n", 1),
        (b"submit C +3 0\n", 1),
        (b"submit C 3 256\n", 1),
        (b"submit C 3\n", 1),
        (b"submit C 3 0 0\n", 1),
        (b"drive c\n", 1),
        (b"Drive C\n", 1),
        (b"drive\n", 1),
        (b"drive C\ncarry \xff\ndrive X\n", 2),
        (b"cut S\0\n", 1),
        (b"\0", 1),
        (b"drive C\ndriv", 2),
    ];
    for &(script, line) in CASES {
        let bad = Status::BadInput { line };
        check_script(&rt, rt.alloc(), &SIM, script, FAIR, bad, b"");
    }
}

#[test]
fn a_run_tells_the_faults_of_its_streams(rt: HostRuntime) {
    const CASES: &[(Outside<'static>, Status, &[u8])] = &[
        (
            Outside {
                source_fails: &[1],
                ..FAIR
            },
            Status::ReadFault,
            b"",
        ),
        (
            Outside {
                most: 7,
                source_fails: &[3],
                ..FAIR
            },
            Status::ReadFault,
            b"",
        ),
        (
            Outside {
                sink_fails: &[1],
                ..FAIR
            },
            Status::WriteFault,
            b"",
        ),
        (
            Outside {
                most: 11,
                sink_fails: &[2],
                ..FAIR
            },
            Status::WriteFault,
            b"C post 255\n",
        ),
        (
            Outside {
                sink_room: 20,
                ..FAIR
            },
            Status::WriteFault,
            b"C post 255\nS post 25",
        ),
    ];
    for &(outside, status, written) in CASES {
        check_script(
            &rt,
            rt.alloc(),
            &SIM,
            MESSAGE_OF_ABC,
            outside,
            status,
            written,
        );
    }
    // what is bad comes before what can't be written
    let outside = Outside {
        sink_fails: &[1],
        ..FAIR
    };
    let bad = Status::BadInput { line: 1 };
    check_script(&rt, rt.alloc(), &SIM, b"drive\n", outside, bad, b"");
}

#[test]
fn scripts_have_at_most_16777216_bytes(rt: HostRuntime) {
    let mut script = vec![in rt.alloc(); b' '; 16_777_216].expect(&rt, MEMORY);
    let bad = Status::BadInput { line: 1 };
    check_script(&rt, rt.alloc(), &SIM, &script, WIDE, bad, b"");
    script.push(b'\n').expect(&rt, MEMORY);
    check_script(&rt, rt.alloc(), &SIM, &script, WIDE, Status::TooLong, b"");
}
