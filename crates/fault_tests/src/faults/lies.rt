//! The checker refuses logs that lie in one place.

use super::{GET, GET_OVER_PAGES, PUT, PUT_OVER_PAGES, Way};
use crate::MEMORY;
use crate::checker::{Copied, Flaw, tell};
use crate::outside::{Failing, run_copy, some_bytes};
use std::alloc::Global;
use std::process::Abort;
use std::sync::Wait;

fn push_all(rt: &impl Abort, text: &mut Vec<u8>, bytes: &[u8]) {
    text.extend_from_slice(bytes).expect(rt, MEMORY);
}

fn push_line(rt: &impl Abort, text: &mut Vec<u8>, line: &[u8]) {
    push_all(rt, text, line);
    push_all(rt, text, b"\n");
}

fn lines_in(log: &[u8]) -> usize {
    log.iter().filter(|byte| **byte == b'\n').count()
}

/// The log without the line of this number, from 0.
fn without_line(rt: &impl Abort, alloc: Global, log: &[u8], number: usize) -> Vec<u8> {
    let mut text = Vec::new(alloc);
    let lines = log.split(|byte| *byte == b'\n').take(lines_in(log));
    for (i, line) in lines.enumerate() {
        if i != number {
            push_line(rt, &mut text, line);
        }
    }
    text
}

/// The log with the line of this number, from 0, after the next one.
fn with_swapped(rt: &impl Abort, alloc: Global, log: &[u8], number: usize) -> Vec<u8> {
    let mut text = Vec::new(alloc);
    let mut held: &[u8] = &[];
    let lines = log.split(|byte| *byte == b'\n').take(lines_in(log));
    for (i, line) in lines.enumerate() {
        if i == number {
            held = line;
        } else {
            push_line(rt, &mut text, line);
            if !held.is_empty() {
                push_line(rt, &mut text, held);
                held = &[];
            }
        }
    }
    text
}

/// Another digit, or another byte.
fn another(byte: u8) -> u8 {
    match byte {
        b'9' => b'0',
        b'f' => b'a',
        _ => byte.saturating_add(1),
    }
}

/// The log with another byte at this place.
fn with_another(rt: &impl Abort, alloc: Global, log: &[u8], place: usize) -> Vec<u8> {
    let mut text = Vec::with_capacity(alloc, log.len()).expect(rt, MEMORY);
    for (i, byte) in log.iter().enumerate() {
        let changed = if i == place { another(*byte) } else { *byte };
        text.push(changed).expect(rt, MEMORY);
    }
    text
}

/// The log with a line in place of another one.
fn with_line(rt: &impl Abort, alloc: Global, log: &[u8], old: &str, new: &str) -> Vec<u8> {
    let mut text = Vec::new(alloc);
    for line in log.split(|byte| *byte == b'\n').take(lines_in(log)) {
        if line == old.as_bytes() {
            push_line(rt, &mut text, new.as_bytes());
        } else {
            push_line(rt, &mut text, line);
        }
    }
    text
}

/// The log with a line after the first of another text, which stands before it.
fn with_moved(rt: &impl Abort, alloc: Global, log: &[u8], moved: &str, after: &str) -> Vec<u8> {
    let mut text = Vec::new(alloc);
    let mut is_moved = false;
    for line in log.split(|byte| *byte == b'\n').take(lines_in(log)) {
        if line != moved.as_bytes() {
            push_line(rt, &mut text, line);
        }
        if !is_moved && line == after.as_bytes() {
            push_line(rt, &mut text, moved.as_bytes());
            is_moved = true;
        }
    }
    text
}

/// The line of this number, from 0.
fn line_at(log: &[u8], number: usize) -> &[u8] {
    log.split(|byte| *byte == b'\n').nth(number).unwrap_or(&[])
}

/// The name of the side of a line.
fn side_of(line: &[u8]) -> &[u8] {
    line.split(|byte| *byte == b' ').next().unwrap_or(&[])
}

/// Whether the line is one of a worker.
fn is_of_worker(line: &[u8]) -> bool {
    side_of(line).len() == 2
}

/// A log that is changed, of a copy of a few bytes.
struct Case {
    way: Way,
    length: u32,
    /// The lines, from 0, without which the log is a front of lawful histories all the same: each is the last one of an end or a worker.
    spare_lines: &'static [usize],
    /// The lines, from 0, that may come after the next one of the same end: a message may be submitted at any time.
    free_lines: &'static [usize],
}

const CASES: &[Case] = &[
    Case {
        way: PUT,
        length: 3,
        spare_lines: &[23],
        free_lines: &[2, 11, 15, 19],
    },
    Case {
        way: PUT_OVER_PAGES,
        length: 4_099,
        spare_lines: &[30, 31, 32],
        free_lines: &[22, 26],
    },
    Case {
        way: GET,
        length: 3,
        spare_lines: &[23],
        free_lines: &[2, 11, 15, 19],
    },
    Case {
        way: GET_OVER_PAGES,
        length: 4_099,
        spare_lines: &[60],
        free_lines: &[56],
    },
];

/// Each line is left out in turn.
fn drop_each(rt: &impl Abort, alloc: Global, case: &Case, copied: &Copied<'_>, log: &[u8]) {
    for number in 0..lines_in(log) {
        let changed = without_line(rt, alloc, log, number);
        let is_lawful = tell(rt, alloc, copied, &changed).is_ok();
        let is_spare = case.spare_lines.contains(&number);
        assert_eq!(rt; is_lawful, is_spare, "{:?} line {number}", case.way.words);
    }
}

/// Each two lines that follow one another are swapped. Where they are of two sides, or of two pages, nothing else is told: no worker
/// has two lines of one page here that follow one another.
fn swap_each(rt: &impl Abort, alloc: Global, case: &Case, copied: &Copied<'_>, log: &[u8]) {
    for number in 0..lines_in(log).saturating_sub(1) {
        let changed = with_swapped(rt, alloc, log, number);
        let is_lawful = tell(rt, alloc, copied, &changed).is_ok();
        let (first, second) = (line_at(log, number), line_at(log, number.saturating_add(1)));
        let is_free = side_of(first) != side_of(second)
            || is_of_worker(first)
            || case.free_lines.contains(&number);
        assert_eq!(rt; is_lawful, is_free, "{:?} line {number}", case.way.words);
    }
}

/// Each byte is another one in turn, but for the last line feed, which tells nothing.
fn change_each(rt: &impl Abort, alloc: Global, case: &Case, copied: &Copied<'_>, log: &[u8]) {
    for place in 0..log.len().saturating_sub(1) {
        let changed = with_another(rt, alloc, log, place);
        let is_lawful = tell(rt, alloc, copied, &changed).is_ok();
        assert!(rt; !is_lawful, "{:?} byte {place}", case.way.words);
    }
}

fn lie(rt: &(impl Abort + Wait), alloc: Global, case: &Case) {
    let bytes = some_bytes(rt, alloc, case.length);
    let copied = case.way.copied(rt, &bytes);
    let ran = run_copy(rt, alloc, case.way.words, &bytes, Failing::Nothing);
    let log = ran.log.taken();
    assert!(rt; tell(rt, alloc, &copied, log).is_ok());
    drop_each(rt, alloc, case, &copied, log);
    swap_each(rt, alloc, case, &copied, log);
    change_each(rt, alloc, case, &copied, log);
}

#[test]
fn a_log_that_lies_in_one_place_is_refused(rt: HostRuntime) {
    for case in CASES {
        lie(&rt, rt.alloc(), case);
    }
}

/// Lines of the log of the put over pages, what stands in their place, and the flaw that is found.
const LIES: &[(&str, &str, Flaw)] = &[
    ("C post 255", "C post 254", Flaw::Post),
    ("C submit 56", "C submit 55", Flaw::Emit),
    ("C submit 56", "C submit 1048577", Flaw::Submit),
    ("S take 2 20", "S take 3 20", Flaw::Take),
    ("S take 2 20", "S take 2 21", Flaw::Take),
    // a credit that was not earned
    (
        "C emit ff00ff0000000000000000000000000000000000",
        "C emit ff00fe0000000000000000000000000000000000",
        Flaw::Emit,
    ),
    // no message is left to be sent, and no credit is due
    ("C submit 24", "C cut", Flaw::Cut),
    // generations, workers and rights
    (
        "C1 load 256 fetch 4096",
        "C1 load 512 fetch 4096",
        Flaw::Page,
    ),
    ("C2 load 257 fetch 3", "C1 load 257 fetch 3", Flaw::Page),
    ("C2 load 257 fetch 3", "C2 load 257 place 3", Flaw::Page),
    ("C2 load 257 fetch 3", "C2 load 257 fetch 4", Flaw::Request),
    ("S1 fetch 256 0 4096", "S1 fetch 512 0 4096", Flaw::Page),
    ("S1 fetch 256 0 4096", "S1 fetch 256 0 4095", Flaw::Page),
    ("S1 fetch 256 0 4096", "S1 place 256 0 0 4096", Flaw::Page),
    ("C2 unload 257", "C2 unload 513", Flaw::Page),
    ("C1 unload 256", "C1 load 512 fetch 4096", Flaw::Page),
];

#[test]
fn a_flaw_has_its_name(rt: HostRuntime) {
    let bytes = some_bytes(&rt, rt.alloc(), 4_099);
    let way = PUT_OVER_PAGES;
    let copied = way.copied(&rt, &bytes);
    let ran = run_copy(&rt, rt.alloc(), way.words, &bytes, Failing::Nothing);
    for &(old, new, flaw) in LIES {
        let log = with_line(&rt, rt.alloc(), ran.log.taken(), old, new);
        let found = tell(&rt, rt.alloc(), &copied, &log);
        assert!(&rt; found == Err(flaw), "{new}: {found:?}");
    }
}

/// The client takes the reply before it sends the request that the reply answers: the lines have no order of time.
#[test]
fn a_take_before_its_emit_is_refused(rt: HostRuntime) {
    let bytes = some_bytes(&rt, rt.alloc(), 3);
    let copied = PUT.copied(&rt, &bytes);
    let ran = run_copy(&rt, rt.alloc(), PUT.words, &bytes, Failing::Nothing);
    let log = with_moved(&rt, rt.alloc(), ran.log.taken(), "C take 2 36", "C post 1");
    let found = tell(&rt, rt.alloc(), &copied, &log);
    assert!(&rt; found == Err(Flaw::Order), "{found:?}");
}
