//! Lines of a log, written and read.
//!
//! A test ends at once where memory is wanting: with a `?` beside values that are let go its proof would be dear.

ghost use Rattle.event_log.specs.Lines.{HasLawfulNumbers, logged, logged_page};

use event_log::LineFault::*;
use event_log::{Line, LineFault, LogLine, Side, line_of, line_of_page, read_line, write_lines};
use smbd_base::{Event, Frame, Message, PageEvent, Right, Token};
use smbd_outside::{Failed, MemorySink, Sink};
use std::alloc::Global;
use std::process::Abort;

/// What is said where memory is wanting.
const MEMORY: &str = "memory for a test";

/// A line in other words: its numbers, as its form has them.
#[derive(Clone, Copy)]
enum Said {
    Post(u16),
    Submit(u32),
    Emit(usize),
    Take(u64, u32),
    Cut,
    Load(u32, Right, u32),
    Fetch(u32, u32, u32),
    Place(u32, u32, u32, u32),
    Unload(u32),
}

/// Whether the line says this.
fn is_said(line: &LogLine, said: Said) -> bool {
    match said {
        Said::Post(n) => matches!(line, LogLine::Post(receives) if *receives == n),
        Said::Submit(n) => matches!(line, LogLine::Submit(length) if *length == n),
        Said::Emit(n) => matches!(line, LogLine::Emit(frame) if frame.len() == n),
        Said::Take(i, n) => {
            matches!(line, LogLine::Take { number, length } if (*number, *length) == (i, n))
        }
        Said::Cut => matches!(line, LogLine::Cut),
        Said::Load(t, r, n) => {
            matches!(line, LogLine::Load { token, right, length }
                if (token.number(), *right, *length) == (t, r, n))
        }
        Said::Fetch(t, a, n) => {
            matches!(line, LogLine::Fetch { token, at, length }
                if (token.number(), *at, *length) == (t, a, n))
        }
        Said::Place(t, o, a, n) => {
            matches!(line, LogLine::Place { token, order, at, length }
                if (token.number(), *order, *at, *length) == (t, o, a, n))
        }
        Said::Unload(t) => matches!(line, LogLine::Unload { token } if token.number() == t),
    }
}

/// What a text is read as, or its fault.
type Expected = Result<(Side, Said), LineFault>;

fn is_read(answer: &Result<(Side, LogLine), LineFault>, expected: Expected) -> bool {
    match answer {
        Ok((side, line)) => match expected {
            Ok((whose, said)) => *side == whose && is_said(line, said),
            Err(_) => false,
        },
        Err(found) => matches!(expected, Err(fault) if *found == fault),
    }
}

fn reads(alloc: Global, text: &[u8], expected: Expected) -> bool {
    is_read(&read_line(alloc, text), expected)
}

#[test]
fn lines_read_as_what_they_say(rt: HostRuntime) {
    const CASES: &[(&str, Side, Said)] = &[
        ("C take 1 20", Side::C, Said::Take(1, 20)),
        (
            "S take 4611686018427387903 8192",
            Side::S,
            Said::Take(4_611_686_018_427_387_903, 8_192),
        ),
        ("C cut", Side::C, Said::Cut),
        ("C post 1", Side::C, Said::Post(1)),
        ("S post 255", Side::S, Said::Post(255)),
        ("S submit 1", Side::S, Said::Submit(1)),
        ("C submit 4294967295", Side::C, Said::Submit(4_294_967_295)),
        ("S emit 00", Side::S, Said::Emit(1)),
        ("C emit 0123456789abcdef", Side::C, Said::Emit(8)),
        ("C1 unload 256", Side::Cw(1), Said::Unload(256)),
        (
            "S8 unload 4294967295",
            Side::Sw(8),
            Said::Unload(4_294_967_295),
        ),
        (
            "C2 load 257 fetch 4096",
            Side::Cw(2),
            Said::Load(257, Right::Fetch, 4_096),
        ),
        (
            "S2 load 257 fetch 4096",
            Side::Sw(2),
            Said::Load(257, Right::Fetch, 4_096),
        ),
        (
            "S3 load 65535 place 1",
            Side::Sw(3),
            Said::Load(65_535, Right::Place, 1),
        ),
        (
            "C4 fetch 256 0 4096",
            Side::Cw(4),
            Said::Fetch(256, 0, 4_096),
        ),
        (
            "C4 fetch 256 4095 1",
            Side::Cw(4),
            Said::Fetch(256, 4_095, 1),
        ),
        (
            "C5 fetch 300 100 20",
            Side::Cw(5),
            Said::Fetch(300, 100, 20),
        ),
        (
            "C6 place 256 65534 0 1",
            Side::Cw(6),
            Said::Place(256, 65_534, 0, 1),
        ),
        (
            "C7 place 256 0 4095 1",
            Side::Cw(7),
            Said::Place(256, 0, 4_095, 1),
        ),
        (
            "C8 place 512 7 1 4095",
            Side::Cw(8),
            Said::Place(512, 7, 1, 4_095),
        ),
        (
            "S1 place 512 7 1 4095",
            Side::Sw(1),
            Said::Place(512, 7, 1, 4_095),
        ),
        ("S take 1 1", Side::S, Said::Take(1, 1)),
    ];
    for &(text, side, line) in CASES {
        assert!(rt;
            reads(rt.alloc(), text.as_bytes(), Ok((side, line))),
            "{text}"
        );
    }
}

#[test]
fn other_texts_have_their_first_fault(rt: HostRuntime) {
    const CASES: &[(&str, LineFault)] = &[
        ("", Side),
        (" ", Side),
        ("X cut", Side),
        ("c cut", Side),
        ("C9 unload 256", Side),
        ("C0 unload 256", Side),
        ("C01 unload 256", Side),
        ("1 cut", Side),
        (" C cut", Side),
        ("C", Word),
        ("C ", Word),
        ("C fly", Word),
        ("C  post 1", Word),
        ("C Post 1", Word),
        ("C1 post 1", Word),
        ("C load 256 fetch 1", Word),
        ("S unload 256", Word),
        ("S1 cut", Word),
        ("C fly 1", Word),
        ("C post", Number),
        ("C post ", Number),
        ("C post 0", Number),
        ("C post 256", Number),
        ("C post 01", Number),
        ("C post +1", Number),
        ("C post -1", Number),
        ("C post 1 ", Number),
        ("C post 1 2", Number),
        ("C post  1", Number),
        ("C post 1a", Number),
        ("C post é", Number),
        ("C submit 0", Number),
        ("C submit 4294967296", Number),
        ("C take 0 20", Number),
        ("C take 4611686018427387904 20", Number),
        ("C take 18446744073709551616 20", Number),
        ("C take 1 0", Number),
        ("C take 1 8193", Number),
        ("C take 1", Number),
        ("C take 1 20 20", Number),
        ("C cut ", Number),
        ("C cut 1", Number),
        ("S2 load 257 fetch 4097", Number),
        ("S2 load 257 write 1", Number),
        ("S2 load 257 fetch 0", Number),
        ("S2 load 255 fetch 1", Number),
        ("S2 load 4294967296 fetch 1", Number),
        ("S2 load 257 fetch", Number),
        ("S2 fetch 257 0 0", Number),
        ("S2 fetch 257 0 4097", Number),
        ("S2 fetch 257 4096 1", Number),
        ("S2 fetch 257 1 4096", Number),
        ("C1 place 256 65535 0 1", Number),
        ("C1 place 256 0 4095 2", Number),
        ("C1 unload 256 ", Number),
        ("C emit", Number),
        ("C emit 00 00", Number),
        ("C emit ", Hex),
        ("C emit 0", Hex),
        ("C emit 0g", Hex),
        ("C emit 0A", Hex),
    ];
    for &(text, fault) in CASES {
        assert!(rt; reads(rt.alloc(), text.as_bytes(), Err(fault)), "{text}");
    }
}

/// The line of a frame with these digits, and what follows them.
fn line_with(rt: &impl Abort, alloc: Global, digits: &[u8], after: &[u8]) -> Vec<u8> {
    let mut text = Vec::from_slice(alloc, b"C emit ").expect(rt, MEMORY);
    text.extend_from_slice(digits).expect(rt, MEMORY);
    text.extend_from_slice(after).expect(rt, MEMORY);
    text
}

#[test]
fn the_longest_frame_has_8192_bytes(rt: HostRuntime) {
    // digits of the frame, what follows them, and what the line is
    const CASES: &[(&[u8], &[u8], Expected)] = &[
        (&[b'0'; 16_384], b"", Ok((Side::C, Said::Emit(8_192)))),
        (&[b'0'; 16_386], b"", Err(Hex)),
        (&[b'0'; 16_384], b"0", Err(Hex)),
        (&[b'0'; 16_384], b" 1", Err(Number)),
        (&[b'0'; 16_394], b"", Err(Long)),
    ];
    for &(digits, after, expected) in CASES {
        let text = line_with(&rt, rt.alloc(), digits, after);
        assert!(rt; reads(rt.alloc(), &text, expected), "{}", digits.len());
    }
    assert!(rt; reads(rt.alloc(), &[b'C'; 16_400], Err(Side)));
    assert!(rt; reads(rt.alloc(), &[b'C'; 16_401], Err(Long)));
}

fn is_written(
    rt: &impl Abort,
    alloc: Global,
    side: Side,
    event: Event,
    number: u64,
    wanted: &[u8],
) -> bool
    requires { HasLawfulNumbers side (logged number event) }
{
    let line = line_of(alloc, side, &event, number).expect(rt, MEMORY);
    line.bytes() == wanted
}

#[test]
fn events_are_written_as_lines(rt: HostRuntime) {
    let alloc = rt.alloc();
    let message = Message::copy_of(alloc, b"hello").expect(&rt, MEMORY);
    let sent = Frame::copy_of(alloc, &[1, 2]).expect(&rt, MEMORY);
    let taken = Frame::copy_of(alloc, &[0xab, 0xcd, 0xef]).expect(&rt, MEMORY);
    let (post, cut) = (Event::Post(255), Event::Cut);
    let (submit, emit, take) = (
        Event::Submit(message),
        Event::Emit(sent),
        Event::Take(taken),
    );
    assert!(&rt; is_written(&rt, alloc, Side::C, post, 1, b"C post 255"));
    assert!(&rt; is_written(&rt, alloc, Side::S, submit, 1, b"S submit 5"));
    assert!(&rt; is_written(&rt, alloc, Side::C, emit, 1, b"C emit 0102"));
    assert!(&rt; is_written(&rt, alloc, Side::S, take, 12, b"S take 12 3"));
    assert!(&rt; is_written(&rt, alloc, Side::S, cut, 1, b"S cut"));
}

fn is_written_of_page(
    rt: &impl Abort,
    alloc: Global,
    side: Side,
    event: PageEvent,
    wanted: &[u8],
) -> bool
    requires { HasLawfulNumbers side (logged_page event) }
{
    let line = line_of_page(alloc, side, &event).expect(rt, MEMORY);
    line.bytes() == wanted
}

#[test]
fn events_of_pages_are_written_as_lines(rt: HostRuntime) {
    let alloc = rt.alloc();
    let token = Token::new(0, 1);
    let bytes = Message::copy_of(alloc, b"abc").expect(&rt, MEMORY);
    let left = Message::copy_of(alloc, &[0; 4_096]).expect(&rt, MEMORY);
    let (fetch, unload) = (
        PageEvent::Fetch {
            token,
            at: 0,
            bytes,
        },
        PageEvent::Unload { token, bytes: left },
    );
    assert!(&rt; is_written_of_page(&rt, alloc, Side::Sw(1), fetch, b"S1 fetch 256 0 3"));
    assert!(&rt; is_written_of_page(&rt, alloc, Side::Cw(1), unload, b"C1 unload 256"));
}

/// Adds the line of this many receives twice.
fn add_post(rt: &impl Abort, alloc: Global, lines: &mut Vec<Line>, receives: u16) {
    assert!(rt; 1 <= receives && receives <= 255);
    let line = line_of(alloc, Side::C, &Event::Post(receives), 1).expect(rt, MEMORY);
    lines
        .push(line.clone().expect(rt, MEMORY))
        .expect(rt, MEMORY);
    lines.push(line).expect(rt, MEMORY);
}

/// The lines `C post 1` to `C post` with the last number, each twice.
fn posts(rt: &impl Abort, alloc: Global, last: u16) -> Vec<Line> {
    let mut lines = Vec::new(alloc);
    for receives in 1..=last {
        add_post(rt, alloc, &mut lines, receives);
    }
    lines
}

#[test]
fn lines_are_written_with_line_feeds(rt: HostRuntime) {
    // the room of the log, what it takes at once and the calls that fail; then the answer, and what it took
    const CASES: &[(u32, u32, &[u32], Result<(), Failed>, &[u8])] = &[
        (
            100,
            100,
            &[],
            Ok(()),
            b"C post 1\nC post 1\nC post 2\nC post 2\n",
        ),
        (
            36,
            5,
            &[],
            Ok(()),
            b"C post 1\nC post 1\nC post 2\nC post 2\n",
        ),
        (100, 100, &[1], Err(Failed), b""),
        (100, 5, &[3], Err(Failed), b"C post 1\nC"),
        (
            35,
            100,
            &[],
            Err(Failed),
            b"C post 1\nC post 1\nC post 2\nC post 2",
        ),
    ];
    let lines = posts(&rt, rt.alloc(), 2);
    for &(room, most, fail, answer, taken) in CASES {
        assert!(rt; 1 <= most);
        let mut log = MemorySink::open(rt.alloc(), room, most, fail).expect(&rt, MEMORY);
        assert_eq!(rt;
            write_lines(lines.as_slice(), &mut log),
            answer,
            "room {room}"
        );
        assert_eq!(rt; log.taken(), taken, "room {room}");
    }
}

/// Counts its calls, and takes whole pieces.
#[derive(Drop)]
struct Calls {
    count: u64,
    bytes: u64,
}

impl Sink for Calls {
    ghost use Rattle.std.specs.Prelude.{None};

    ghost written = { λ _. None };

    ghost faults = { λ _. 0 };

    fn write(&mut self, piece: &[u8]) -> Result<usize, Failed> {
        self.count = self.count.saturating_add(1);
        self.bytes = self.bytes.saturating_add(piece.len() as u64);
        Ok(piece.len())
    }
}

#[test]
fn many_lines_are_written_in_few_pieces(rt: HostRuntime) {
    let mut lines = posts(&rt, rt.alloc(), 255);
    add_last(&rt, rt.alloc(), &mut lines);
    let mut log = Calls { count: 0, bytes: 0 };
    assert_eq!(rt; write_lines(lines.as_slice(), &mut log), Ok(()));
    assert_eq!(rt; log.bytes, 21_408);
    assert_eq!(rt; log.count, 2);
}

/// A frame of 8,000 bytes is sent, and the end is cut.
fn add_last(rt: &impl Abort, alloc: Global, lines: &mut Vec<Line>) {
    let frame = Frame::copy_of(alloc, &[0; 8_000]).expect(rt, MEMORY);
    let sent = line_of(alloc, Side::S, &Event::Emit(frame), 1).expect(rt, MEMORY);
    lines.push(sent).expect(rt, MEMORY);
    let cut = line_of(alloc, Side::S, &Event::Cut, 1).expect(rt, MEMORY);
    lines.push(cut).expect(rt, MEMORY);
}
