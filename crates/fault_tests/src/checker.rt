//! A checker of logs: whether what the lines of a copy tell is a front of lawful histories.
//!
//! Each line is read by `event_log`. The events of both ends are then done again on two fresh ends, frame by frame, in an order in
//! which nothing is taken before it is sent. The messages are held against the bytes of the copy, and the lines of the workers
//! against a model of the pages.

mod ends;
mod lines;
mod messages;
mod pages;

use ends::{Ends, open_ends, play};
use file_messages::{Channel, CopyKind};
use lines::{Lines, lines_of};
use messages::flaw_of_messages;
use pages::{Load, flaw_of_loads, groups_brought, loads_of};
use smbd_base::EndLimits;
use std::alloc::Global;
use std::process::Abort;

/// A copy whose log is checked: 1 to 8 workers at each end, the receive credits of both, and the bytes of its source.
#[derive(Clone, Copy)]
pub struct Copied<'a> {
    pub kind: CopyKind,
    pub channel: Channel,
    pub workers: u8,
    pub limits: EndLimits,
    pub bytes: &'a [u8],
}

/// Why a log is refused.
#[derive(Clone, Copy, Debug, PartialEq, Eq)]
pub enum Flaw {
    /// A line is none that the side can have.
    Line,
    /// An end doesn't post so many receives then.
    Post,
    /// The message is refused.
    Submit,
    /// The end doesn't send that frame then.
    Emit,
    /// No frame has that number and length, or the end refuses it.
    Take,
    /// A message was delivered that the peer didn't submit.
    Delivery,
    /// The end is not cut then.
    Cut,
    /// A frame is taken that was not sent before.
    Order,
    /// A message is not the request that the copy sends next.
    Request,
    /// A message is not the reply to the next request.
    Reply,
    /// A page is not loaded, accessed or given back so.
    Page,
}

/// What a log tells, in numbers: the frames that the client sent, the requests and replies that were submitted and delivered, the groups
/// whose bytes came where the sink is, and which ends are cut.
#[derive(Clone, Copy, Debug, PartialEq, Eq)]
pub struct Told {
    pub frames_sent: usize,
    pub requests: usize,
    pub replies: usize,
    pub requests_delivered: usize,
    pub replies_delivered: usize,
    pub groups_brought: usize,
    pub is_client_cut: bool,
    pub is_server_cut: bool,
}

fn told_by(copied: &Copied<'_>, ends: &Ends, loads: &[Load]) -> Told {
    Told {
        frames_sent: ends.client.sent.len(),
        requests: ends.client.submitted.len(),
        replies: ends.server.submitted.len(),
        requests_delivered: ends.server.delivered,
        replies_delivered: ends.client.delivered,
        groups_brought: groups_brought(copied, ends, loads),
        is_client_cut: ends.client.end.is_cut(),
        is_server_cut: ends.server.end.is_cut(),
    }
}

/// What the whole lines of a log tell of this copy, or the first flaw that is found.
pub fn tell(rt: &impl Abort, alloc: Global, copied: &Copied<'_>, log: &[u8]) -> Result<Told, Flaw> {
    let Some(lines) = lines_of(rt, alloc, log) else {
        return Err(Flaw::Line);
    };
    let Some(mut loads) = loads_of(rt, alloc, copied.workers, &lines.pages) else {
        return Err(Flaw::Page);
    };
    let mut ends = open_ends(rt, alloc, copied.limits, &lines);
    match flaw_of_ends(rt, alloc, copied, &lines, &mut ends, &mut loads) {
        Some(flaw) => Err(flaw),
        None => Ok(told_by(copied, &ends, &loads)),
    }
}

fn flaw_of_ends(
    rt: &impl Abort,
    alloc: Global,
    copied: &Copied<'_>,
    lines: &Lines,
    ends: &mut Ends,
    loads: &mut Vec<Load>,
) -> Option<Flaw> {
    if let Some(flaw) = play(rt, alloc, ends, lines) {
        return Some(flaw);
    }
    if let Some(flaw) = flaw_of_messages(rt, alloc, copied, ends, loads) {
        return Some(flaw);
    }
    flaw_of_loads(copied, ends, loads)
}
