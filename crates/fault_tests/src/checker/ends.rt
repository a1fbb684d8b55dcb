//! The events of both ends, done again.

use super::Flaw;
use super::lines::Lines;
use crate::MEMORY;
use connection_core::{End, Next};
use event_log::LogLine;
use smbd_base::{EndLimits, Frame, Message};
use std::alloc::Global;
use std::process::Abort;

/// An end that does what its lines tell.
#[derive(Drop)]
pub struct Played {
    pub end: End,
    is_client: bool,
    credits: u16,
    /// The payload of all frames in its lines: the bytes of its messages, as far as they were sent.
    pub payload: Vec<u8>,
    /// How many bytes of it the submitted messages have, or would have.
    used: usize,
    pub submitted: Vec<Message>,
    pub sent: Vec<Frame>,
    taken: u64,
    /// How many messages it was delivered.
    pub delivered: usize,
    /// How many of its lines were done.
    done: usize,
}

#[derive(Drop)]
pub struct Ends {
    pub client: Played,
    pub server: Played,
}

/// What becomes of a line.
enum Turn {
    Done,
    /// It waits for the other end.
    Waits,
    Flawed(Flaw),
}

fn turn_of(is_done: bool, flaw: Flaw) -> Turn {
    if is_done {
        Turn::Done
    } else {
        Turn::Flawed(flaw)
    }
}

/// Adds the payload of a data transfer message.
fn add_payload(rt: &impl Abort, payload: &mut Vec<u8>, frame: &[u8]) {
    if 24 <= frame.len() {
        payload.extend_from_slice(&frame[24..]).expect(rt, MEMORY);
    }
}

/// The payload of the frames that these lines send, but for the negotiation message, which is the first.
fn payload_of(rt: &impl Abort, alloc: Global, lines: &[LogLine]) -> Vec<u8> {
    let mut payload = Vec::new(alloc);
    let mut is_first = true;
    for line in lines {
        if let LogLine::Emit(frame) = line {
            if !is_first {
                add_payload(rt, &mut payload, frame.bytes());
            }
            is_first = false;
        }
    }
    payload
}

fn opened(
    rt: &impl Abort,
    alloc: Global,
    is_client: bool,
    limits: EndLimits,
    lines: &[LogLine],
) -> Played {
    let end = if is_client {
        End::open_client(alloc, limits)
    } else {
        End::open_server(alloc, limits)
    };
    Played {
        end: end.expect(rt, MEMORY),
        is_client,
        credits: limits.credits(),
        payload: payload_of(rt, alloc, lines),
        used: 0,
        submitted: Vec::new(alloc),
        sent: Vec::new(alloc),
        taken: 0,
        delivered: 0,
        done: 0,
    }
}

/// Two ends that have done nothing but their opening posts.
pub fn open_ends(rt: &impl Abort, alloc: Global, limits: EndLimits, lines: &Lines) -> Ends {
    Ends {
        client: opened(rt, alloc, true, limits, &lines.client),
        server: opened(rt, alloc, false, limits, &lines.server),
    }
}

/// Whether the end posts so many receives next. It does so then.
fn posts(rt: &impl Abort, end: &mut End, receives: u16) -> bool {
    let next = end.next().expect(rt, MEMORY);
    match &next {
        Next::Post(count) if *count == receives => {
            end.commit();
            true
        }
        _ => false,
    }
}

/// Whether the end sends this frame next. It does so then.
fn sends(rt: &impl Abort, end: &mut End, frame: &Frame) -> bool {
    let next = end.next().expect(rt, MEMORY);
    match &next {
        Next::Emit(due) if due.bytes() == frame.bytes() => {
            end.commit();
            true
        }
        _ => false,
    }
}

/// Whether the end sends a frame next, of any bytes.
fn would_send(rt: &impl Abort, end: &mut End) -> bool {
    let next = end.next().expect(rt, MEMORY);
    matches!(&next, Next::Emit(_))
}

/// Whether the end accepts the message.
fn accepts(end: &mut End, message: Message) -> bool {
    let answer = end.submit(message);
    answer.is_ok()
}

/// Whether the end takes the frame, and whether that delivers this message.
fn takes(
    rt: &impl Abort,
    end: &mut End,
    frame: &Frame,
    message: Option<&Message>,
) -> Result<bool, Flaw> {
    if !end.ready() {
        return Err(Flaw::Take);
    }
    let answer = end.take(frame.share().expect(rt, MEMORY));
    match &answer {
        Ok(None) => Ok(false),
        Ok(Some(delivered)) => match message {
            Some(expected) if expected.bytes() == delivered.bytes() => Ok(true),
            _ => Err(Flaw::Delivery),
        },
        Err(_) => Err(Flaw::Take),
    }
}

/// The message of so many bytes after those that were used. Bytes that weren't sent are zeros: nothing depends on them.
fn next_message(
    rt: &impl Abort,
    alloc: Global,
    payload: &[u8],
    used: usize,
    length: usize,
) -> Message {
    let mut bytes = Vec::with_capacity(alloc, length).expect(rt, MEMORY);
    for byte in payload.iter().skip(used).take(length) {
        bytes.push(*byte).expect(rt, MEMORY);
    }
    bytes.resize(length, 0).expect(rt, MEMORY);
    Message::of_bytes(bytes).expect(rt, MEMORY)
}

fn do_submit(rt: &impl Abort, alloc: Global, one: &mut Played, length: u32) -> Turn {
    // no end accepts a longer one
    if 1_048_576 < length {
        return Turn::Flawed(Flaw::Submit);
    }
    let message = next_message(rt, alloc, &one.payload, one.used, length as usize);
    let kept = message.share().expect(rt, MEMORY);
    if !accepts(&mut one.end, message) {
        return Turn::Flawed(Flaw::Submit);
    }
    one.used = one.used.saturating_add(length as usize);
    one.submitted.push(kept).expect(rt, MEMORY);
    Turn::Done
}

fn do_emit(rt: &impl Abort, one: &mut Played, frame: &Frame) -> Turn {
    if !sends(rt, &mut one.end, frame) {
        return Turn::Flawed(Flaw::Emit);
    }
    one.sent
        .push(frame.share().expect(rt, MEMORY))
        .expect(rt, MEMORY);
    Turn::Done
}

/// The frame of this number, from 1, is taken: the next one that the peer sent.
fn do_take(rt: &impl Abort, one: &mut Played, peer: &Played, number: u64, length: u32) -> Turn {
    if number != one.taken.saturating_add(1) {
        return Turn::Flawed(Flaw::Take);
    }
    let Some(frame) = peer.sent.get(one.taken as usize) else {
        return Turn::Waits;
    };
    if frame.len() != length as usize {
        return Turn::Flawed(Flaw::Take);
    }
    match takes(rt, &mut one.end, frame, peer.submitted.get(one.delivered)) {
        Ok(is_delivered) => {
            one.taken = number;
            one.delivered = one.delivered.saturating_add(usize::from(is_delivered));
            Turn::Done
        }
        Err(flaw) => Turn::Flawed(flaw),
    }
}

/// The client cuts the link in the place of a frame; the server finds that out.
fn do_cut(rt: &impl Abort, one: &mut Played, peer: &Played) -> Turn {
    if one.end.is_cut() {
        return Turn::Flawed(Flaw::Cut);
    }
    if one.is_client {
        if !would_send(rt, &mut one.end) {
            return Turn::Flawed(Flaw::Cut);
        }
    } else if !peer.end.is_cut() {
        return Turn::Waits;
    }
    one.end.cut();
    Turn::Done
}

fn do_line(
    rt: &impl Abort,
    alloc: Global,
    one: &mut Played,
    peer: &Played,
    line: &LogLine,
) -> Turn {
    match line {
        // an end is opened with its first post
        LogLine::Post(receives) if one.done == 0 => turn_of(*receives == one.credits, Flaw::Post),
        LogLine::Post(receives) => turn_of(posts(rt, &mut one.end, *receives), Flaw::Post),
        _ if one.done == 0 => Turn::Flawed(Flaw::Post),
        LogLine::Submit(length) => do_submit(rt, alloc, one, *length),
        LogLine::Emit(frame) => do_emit(rt, one, frame),
        LogLine::Take { number, length } => do_take(rt, one, peer, *number, *length),
        LogLine::Cut => do_cut(rt, one, peer),
        _ => Turn::Flawed(Flaw::Line),
    }
}

/// Does the lines of one end, up to the first that waits for the peer.
fn go(
    rt: &impl Abort,
    alloc: Global,
    one: &mut Played,
    peer: &Played,
    lines: &[LogLine],
) -> Option<Flaw> {
    for line in lines.iter().skip(one.done) {
        match do_line(rt, alloc, one, peer, line) {
            Turn::Done => one.done = one.done.saturating_add(1),
            Turn::Waits => return None,
            Turn::Flawed(flaw) => return Some(flaw),
        }
    }
    None
}

/// Lets each end go on as far as it can.
fn go_both(rt: &impl Abort, alloc: Global, ends: &mut Ends, lines: &Lines) -> Option<Flaw> {
    let flaw = go(rt, alloc, &mut ends.client, &ends.server, &lines.client);
    if flaw.is_some() {
        return flaw;
    }
    go(rt, alloc, &mut ends.server, &ends.client, &lines.server)
}

/// Does all lines of both ends in an order in which no frame is taken before it is sent, and tells the first flaw.
pub fn play(rt: &impl Abort, alloc: Global, ends: &mut Ends, lines: &Lines) -> Option<Flaw> {
    let all = lines.client.len().saturating_add(lines.server.len());
    for _ in 0..all {
        let before = (ends.client.done, ends.server.done);
        let flaw = go_both(rt, alloc, ends, lines);
        if flaw.is_some() {
            return flaw;
        }
        if before == (ends.client.done, ends.server.done) {
            break;
        }
    }
    if ends.client.done == lines.client.len() && ends.server.done == lines.server.len() {
        None
    } else {
        Some(Flaw::Order)
    }
}
