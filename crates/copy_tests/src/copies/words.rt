//! Words that name no command, and some that do.

use super::{FAIR, MEMORY, Outside, Ran, check_run, copied, ran_by, words_of};
use smbd_cli::Word;
use smbd_outside::Status;
use std::alloc::Global;
use std::process::Abort;

const REFUSED: &[&[&str]] = &[
    &[],
    &["copy"],
    &["show", "frames"],
    &["show", "--credits", "3"],
    &["Put"],
    &["--put"],
    &["put", "put"],
    &["put", "x"],
    &["put", ""],
    &["put", "-"],
    &["put", "--"],
    &["put", "--channel", "none", "--"],
    &["--", "put"],
    &["put", "-h"],
    &["put", "--help"],
    &["--help"],
    &["help"],
    &["put", "help"],
    &["--version"],
    &["put", "-w", "2"],
    &["put", "--worker", "2"],
    &["put", "--Workers", "2"],
    &["put", "--workers"],
    &["put", "--workers="],
    &["put", "--workers", ""],
    &["put", "--workers", "0"],
    &["put", "--workers", "9"],
    &["put", "--workers", "-1"],
    &["put", "--workers", "02"],
    &["put", "--workers", "+2"],
    &["put", "--workers", "2 "],
    &["put", "--workers=2", "--workers=2"],
    &["put", "--workers", "2", "--workers", "2"],
    &["put", "--workers", "--cut", "3"],
    &["put", "--channel", "some"],
    &["put", "--channel", "V1"],
    &["put", "--channel="],
    &["put", "--channel", "none", "none"],
    &["get", "--credits", "2"],
    &["get", "--credits", "256"],
    &["get", "--send-size", "127"],
    &["get", "--send-size", "8193"],
    &["get", "--pages", "15"],
    &["get", "--pages", "256"],
    &["get", "--cut", "0"],
    &["get", "--cut", "01"],
    &["get", "--cut", "4294967296"],
    &["sim", "--workers", "2"],
    &["sim", "--cut", "2"],
    &["sim", "--credits", "03"],
    &["sim", "3", "--credits"],
    &["sim", "sim"],
    &["load"],
    &["load", "97"],
    &["load", "97", "3", "4"],
    &["load", "256", "0"],
    &["load", "0", "16777217"],
    &["load", "97", "03"],
    &["load", "97", "3", "--cut", "1"],
];

/// An outside whose source and log fail at once.
const FAULTY: Outside<'static> = Outside {
    source_fails: &[1],
    log_fails: &[1],
    ..FAIR
};

#[test]
fn other_words_are_refused_before_anything_is_read(rt: HostRuntime) {
    for &texts in REFUSED {
        let usage = Status::Usage;
        check_run(&rt, rt.alloc(), texts, b"abc", FAULTY, usage, b"", b"");
    }
}

/// Each option in both forms, in any order.
#[test]
fn options_stand_in_any_order(rt: HostRuntime) {
    const CASES: &[&[&str]] = &[
        &["put", "--workers=2"],
        &["get", "--workers", "8", "--channel", "none"],
        &["get", "--channel=none", "--workers=8"],
        &["put", "--pages=16", "--credits", "3", "--send-size=128"],
        &[
            "put",
            "--cut=4294967295",
            "--channel",
            "v1",
            "--pages",
            "255",
        ],
        &[
            "get",
            "--send-size",
            "8192",
            "--cut",
            "1000",
            "--credits=255",
            "--pages=17",
            "--workers=1",
            "--channel=v1",
        ],
    ];
    const ROOMY: Outside<'static> = Outside {
        log_room: 65_536,
        ..FAIR
    };
    for &texts in CASES {
        let ran = copied(&rt, rt.alloc(), texts, b"abc", ROOMY);
        assert_eq!(rt; ran.status, Status::Done);
        assert_eq!(rt; ran.sink.taken(), b"abc".as_slice());
    }
}

fn check_refused(rt: &impl Abort, ran: &Ran) {
    assert_eq!(rt; ran.status, Status::Usage);
    assert!(rt; ran.sink.taken().is_empty());
    assert!(rt; ran.log.taken().is_empty());
}

/// A word of a mebibyte, as a command and as a number.
#[test]
fn a_long_word_is_refused(rt: HostRuntime) {
    let mut text = String::new(rt.alloc());
    for _ in 0..65_536u32 {
        text.push_str("1111111111111111").expect(&rt, MEMORY);
    }
    let ran = copied(&rt, rt.alloc(), &[text.as_str()], b"abc", FAULTY);
    check_refused(&rt, &ran);
    let ran = copied(
        &rt,
        rt.alloc(),
        &["put", "--cut", text.as_str()],
        b"abc",
        FAULTY,
    );
    check_refused(&rt, &ran);
}

fn many_words(rt: &impl Abort, alloc: Global, first: &str, other: &str) -> Vec<Word> {
    let mut words = words_of(rt, alloc, &[first]);
    for _ in 0..10_000u32 {
        let word = Word::copy_of(alloc, other).expect(rt, MEMORY);
        words.push(word).expect(rt, MEMORY);
    }
    words
}

/// Ten thousand values of a load, and as many uses of one option.
#[test]
fn many_words_are_refused(rt: HostRuntime) {
    for (first, other) in [("load", "3"), ("put", "--workers=2")] {
        let words = many_words(&rt, rt.alloc(), first, other);
        let ran = ran_by(&rt, rt.alloc(), &words, b"abc", FAULTY);
        check_refused(&rt, &ran);
    }
}
