//! The lines of a log, by the side that they are of.

use crate::MEMORY;
use event_log::{LogLine, Side, read_line};
use std::alloc::Global;
use std::process::Abort;

/// A line of a worker.
#[derive(Drop)]
pub struct PageLine {
    pub side: Side,
    pub line: LogLine,
}

/// The lines of the client, of the server, and of the workers of both.
#[derive(Drop)]
pub struct Lines {
    pub client: Vec<LogLine>,
    pub server: Vec<LogLine>,
    pub pages: Vec<PageLine>,
}

/// Adds the line that these bytes say, and tells whether they say one.
fn add(rt: &impl Abort, alloc: Global, lines: &mut Lines, text: &[u8]) -> bool {
    let Ok((side, line)) = read_line(alloc, text) else {
        return false;
    };
    match side {
        Side::C => lines.client.push(line).expect(rt, MEMORY),
        Side::S => lines.server.push(line).expect(rt, MEMORY),
        Side::Cw(_) | Side::Sw(_) => {
            lines.pages.push(PageLine { side, line }).expect(rt, MEMORY);
        }
    }
    true
}

/// Adds all whole lines, and tells whether each is one.
fn add_all(rt: &impl Abort, alloc: Global, lines: &mut Lines, log: &[u8]) -> bool {
    let whole = log.iter().filter(|byte| **byte == b'\n').count();
    for text in log.split(|byte| *byte == b'\n').take(whole) {
        if !add(rt, alloc, lines, text) {
            return false;
        }
    }
    true
}

/// The lines of a log; what comes after the last line feed is left out.
pub fn lines_of(rt: &impl Abort, alloc: Global, log: &[u8]) -> Option<Lines> {
    let mut lines = Lines {
        client: Vec::new(alloc),
        server: Vec::new(alloc),
        pages: Vec::new(alloc),
    };
    if add_all(rt, alloc, &mut lines, log) {
        Some(lines)
    } else {
        None
    }
}
