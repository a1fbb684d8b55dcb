//! Sources, sinks, the gate and statuses.

use crate::MEMORY;
use smbd_outside::{
    Failed, Filled, Gate, MemorySink, MemorySource, OpenGate, ReadSource, Sink, Source, Status,
    WriteSink, fill, write_whole,
};
use std::alloc::Global;
use std::io;
use std::io::{Read, Write};
use std::process::Abort;

const TEXT: &[u8; 5] = b"hello";

/// One read, of so many bytes, and the bytes that it gave at the end of `got`.
fn read_once<S: Source>(
    rt: &impl Abort,
    source: &mut S,
    room: usize,
    got: &mut Vec<u8>,
) -> Result<usize, Failed> {
    let mut buf = [0u8; 8];
    assert!(rt; 0 < room && room <= 8);
    let answer = source.read(&mut buf[..room]);
    if let Ok(count) = answer {
        got.extend_from_slice(&buf[..count]).expect(rt, MEMORY);
    }
    answer
}

/// Reads as often as there are answers, into so many bytes, which are given in all.
fn read_each<S: Source>(
    rt: &impl Abort,
    alloc: Global,
    source: &mut S,
    room: usize,
    answers: &[Result<usize, Failed>],
    given: &[u8],
) {
    let mut got = Vec::new(alloc);
    for answer in answers {
        let read = read_once(rt, source, room, &mut got);
        assert!(rt; read == *answer, "room {room}, {read:?}");
    }
    assert!(rt; got.as_slice() == given);
}

/// Writes the text as often as there are answers.
fn write_each<K: Sink>(rt: &impl Abort, sink: &mut K, answers: &[Result<usize, Failed>]) {
    for answer in answers {
        let written = sink.write(TEXT);
        assert!(rt; written == *answer, "{written:?}");
    }
}

#[test]
fn a_memory_source_gives_its_bytes_and_fails_at_the_listed_calls(rt: HostRuntime) {
    const CASES: &[(u32, usize, &[u32], &[Result<usize, Failed>])] = &[
        (9, 3, &[], &[Ok(3), Ok(2), Ok(0), Ok(0)]),
        (
            2,
            8,
            &[2],
            &[Ok(2), Err(Failed), Ok(2), Ok(1), Ok(0), Ok(0)],
        ),
        (
            1,
            8,
            &[6, 0],
            &[Ok(1), Ok(1), Ok(1), Ok(1), Ok(1), Err(Failed)],
        ),
        (
            5,
            8,
            &[3, 1, 1],
            &[Err(Failed), Ok(5), Err(Failed), Ok(0), Ok(0), Ok(0)],
        ),
    ];
    for &(most, room, fail, answers) in CASES {
        assert!(rt; 1 <= most);
        let mut source = MemorySource::open(rt.alloc(), TEXT, most, fail).expect(&rt, MEMORY);
        read_each(&rt, rt.alloc(), &mut source, room, answers, TEXT);
    }
}

#[test]
fn a_memory_sink_takes_bytes_and_fails_at_the_listed_calls_and_where_it_is_full(rt: HostRuntime) {
    const CASES: &[(u32, u32, &[u32], &[Result<usize, Failed>], &[u8])] = &[
        (
            9,
            9,
            &[],
            &[Ok(5), Ok(4), Err(Failed), Err(Failed)],
            b"hellohell",
        ),
        (
            9,
            1,
            &[1, 3],
            &[Err(Failed), Ok(1), Err(Failed), Ok(1)],
            b"hh",
        ),
        (
            4,
            3,
            &[2],
            &[Ok(3), Err(Failed), Ok(1), Err(Failed)],
            b"helh",
        ),
        (0, 1, &[], &[Err(Failed), Err(Failed)], b""),
    ];
    for &(room, most, fail, answers, taken) in CASES {
        assert!(rt; 1 <= most);
        let mut sink = MemorySink::open(rt.alloc(), room, most, fail).expect(&rt, MEMORY);
        write_each(&rt, &mut sink, answers);
        assert_eq!(rt; sink.taken(), taken);
    }
}

/// Fails at every second call, from the first on, and gives the byte 7 at each other one.
#[derive(Drop)]
struct Stumbles {
    calls: u8,
}

impl Read for Stumbles {
    fn read(&mut self, buf: &mut [u8]) -> io::Result<usize> {
        self.calls = self.calls.saturating_add(1);
        if self.calls % 2 == 1 {
            return Err(io::Error::from(io::ErrorKind::Interrupted));
        }
        match buf.first_mut() {
            Some(byte) => {
                *byte = 7;
                Ok(1)
            }
            None => Ok(0),
        }
    }
}

#[test]
fn a_read_source_hands_on_what_its_reader_gives_and_each_error(rt: HostRuntime) {
    const STUMBLING: &[Result<usize, Failed>] = &[Err(Failed), Ok(1), Err(Failed), Ok(1)];
    const WHOLE: &[Result<usize, Failed>] = &[Ok(3), Ok(2), Ok(0)];
    let mut source = ReadSource::over(Stumbles { calls: 0 });
    read_each(&rt, rt.alloc(), &mut source, 3, STUMBLING, &[7, 7]);
    let mut source = ReadSource::over(TEXT.as_slice());
    read_each(&rt, rt.alloc(), &mut source, 3, WHOLE, TEXT);
}

/// Takes no byte at its first call, fails at the second, and takes two bytes at most from then on.
#[derive(Drop)]
struct Hesitates<'a> {
    calls: u8,
    got: &'a mut Vec<u8>,
}

impl Write for Hesitates<'_> {
    fn write(&mut self, buf: &[u8]) -> io::Result<usize> {
        self.calls = self.calls.saturating_add(1);
        match self.calls {
            1 => Ok(0),
            2 => Err(io::Error::from(io::ErrorKind::BrokenPipe)),
            _ => {
                let count = buf.len().min(2);
                self.got.extend_from_slice(&buf[..count])?;
                Ok(count)
            }
        }
    }

    fn flush(&mut self) -> io::Result<()> {
        Ok(())
    }
}

#[test]
fn a_write_sink_fails_where_its_writer_errs_or_takes_nothing(rt: HostRuntime) {
    let mut got = Vec::new(rt.alloc());
    let mut sink = WriteSink::over(Hesitates {
        calls: 0,
        got: &mut got,
    });
    write_each(&rt, &mut sink, &[Err(Failed), Err(Failed), Ok(2)]);
    assert_eq!(rt; write_whole(&mut sink, TEXT), Ok(()));
    drop(sink);
    assert_eq!(rt; got.as_slice(), b"hehello".as_slice());
}

#[test]
fn a_whole_piece_is_written_or_a_front_of_it(rt: HostRuntime) {
    const CASES: &[(u32, &[u32], &[u8], Result<(), Failed>, &[u8])] = &[
        (9, &[], b"hello", Ok(()), b"hello"),
        (9, &[], b"", Ok(()), b""),
        (9, &[3], b"hello", Err(Failed), b"he"),
        (4, &[], b"hello", Err(Failed), b"hell"),
    ];
    for &(room, fail, piece, answer, taken) in CASES {
        let mut sink = MemorySink::open(rt.alloc(), room, 1, fail).expect(&rt, MEMORY);
        assert_eq!(rt; write_whole(&mut sink, piece), answer);
        assert_eq!(rt; sink.taken(), taken);
    }
}

/// Fills a buffer that begins with a `-`.
fn fill_after_dash(
    rt: &impl Abort,
    alloc: Global,
    source: &mut MemorySource,
    most: usize,
    answer: Result<Filled, Failed>,
    bytes: &[u8],
) {
    let mut got = Vec::with_capacity(alloc, 8).expect(rt, MEMORY);
    got.push(b'-').expect(rt, MEMORY);
    assert!(rt; 1 <= most && most <= 8);
    assert_eq!(rt; fill(source, &mut got, most), answer, "most {most}");
    assert_eq!(rt; got.as_slice(), bytes);
}

#[test]
fn a_buffer_is_filled_until_it_is_full_or_the_source_ends(rt: HostRuntime) {
    const CASES: &[(&[u32], usize, Result<Filled, Failed>, &[u8])] = &[
        (&[], 4, Ok(Filled::Full), b"-hel"),
        (&[], 6, Ok(Filled::Full), b"-hello"),
        (&[], 8, Ok(Filled::End), b"-hello"),
        (&[1], 1, Ok(Filled::Full), b"-"),
        (&[3], 8, Err(Failed), b"-he"),
    ];
    for &(fail, most, answer, bytes) in CASES {
        let mut source = MemorySource::open(rt.alloc(), TEXT, 1, fail).expect(&rt, MEMORY);
        fill_after_dash(&rt, rt.alloc(), &mut source, most, answer, bytes);
    }
}

#[test]
fn each_status_has_its_code_and_its_text(rt: HostRuntime) {
    const CASES: &[(Status, u8, &str)] = &[
        (Status::Done, 0, ""),
        (Status::Usage, 2, "smbd: usage\n"),
        (Status::ReadFault, 3, "smbd: the source failed\n"),
        (Status::WriteFault, 4, "smbd: the sink failed\n"),
        (Status::LogFault, 5, "smbd: the log failed\n"),
        (Status::TooLong, 6, "smbd: more than 16777216 bytes\n"),
        (Status::Cut, 7, "smbd: the link was cut\n"),
        (
            Status::BadInput {
                line: 18_446_744_073_709_551_615,
            },
            8,
            "smbd: line 18446744073709551615 is not understood\n",
        ),
        (Status::NoMemory, 9, "smbd: no memory\n"),
    ];
    for &(status, code, text) in CASES {
        assert_eq!(rt; status.code(), code);
        let told = status.text().to_string(rt.alloc()).expect(&rt, MEMORY);
        assert_eq!(rt; told.as_str(), text);
    }
}

/// A part that stands before each of the nine steps.
fn pass_all<G: Gate>(gate: &G, part: u8) {
    for step in 1..10 {
        gate.pass(part, step);
    }
}

#[test]
fn an_open_gate_lets_each_step_pass() {
    pass_all(&OpenGate, 0);
    pass_all(&OpenGate, 255);
}
