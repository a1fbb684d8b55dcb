//! Runs of scripts.
//!
//! A test ends at once where memory is wanting: with a `?` beside values that are let go its proof would be dear.

use EndId::{Client, Server};
use Step::{Did, Nothing};
use smbd_base::{EndId, EndLimits, Event, Message};
use std::alloc::Global;
use std::process::Abort;
use world_core::{Choice, Step, World, run_script};

mod long;
mod very_long;

/// What is said where memory is wanting.
const MEMORY: &str = "memory for a test";

/// What is said where limits are not lawful.
const LAWFUL: &str = "lawful limits";

/// Limits of three credits, with the usual sizes.
fn few_credits(rt: &impl Abort) -> EndLimits {
    EndLimits::check(3, 1_364, 8_192, 1_048_576, 64).expect(rt, LAWFUL)
}

/// A choice without its message.
#[derive(Clone, Copy, Debug)]
enum Turn {
    /// The message `abc` is submitted.
    Submits(EndId),
    Drives(EndId),
    Takes(EndId),
    Cuts(EndId),
}

fn choice_of(rt: &impl Abort, alloc: Global, turn: Turn) -> Choice {
    match turn {
        Turn::Submits(end) => {
            Choice::Submit(end, Message::copy_of(alloc, b"abc").expect(rt, MEMORY))
        }
        Turn::Drives(end) => Choice::Drive(end),
        Turn::Takes(end) => Choice::Carry(end),
        Turn::Cuts(end) => Choice::Cut(end),
    }
}

fn open(rt: &impl Abort, alloc: Global, client: EndLimits, server: EndLimits) -> World {
    World::open(alloc, client, server).expect(rt, MEMORY)
}

fn step(rt: &impl Abort, world: &mut World, choice: &Choice) -> Step {
    world.step(choice).expect(rt, MEMORY)
}

/// Has one choice made.
fn make(rt: &impl Abort, alloc: Global, world: &mut World, turn: Turn) -> Step {
    let choice = choice_of(rt, alloc, turn);
    step(rt, world, &choice)
}

/// Has choices made, and answers how many of them did something.
fn do_turns(rt: &impl Abort, alloc: Global, world: &mut World, turns: &[Turn]) -> usize {
    let mut did: usize = 0;
    for turn in turns {
        if make(rt, alloc, world, *turn) == Did {
            did = did.saturating_add(1);
        }
    }
    did
}

/// Has each choice made in turn, and sees what comes of it.
fn follow(rt: &impl Abort, alloc: Global, world: &mut World, script: &[(Turn, Step)]) {
    for (turn, expected) in script {
        assert_eq!(rt; make(rt, alloc, world, *turn), *expected, "{turn:?}");
    }
}

fn add_turns(rt: &impl Abort, alloc: Global, turns: &[Turn], choices: &mut Vec<Choice>) {
    for turn in turns {
        choices.push(choice_of(rt, alloc, *turn)).expect(rt, MEMORY);
    }
}

/// The first letter of an event's kind.
fn letter_of(event: &Event) -> u8 {
    match event {
        Event::Post(_) => b'P',
        Event::Submit(_) => b'S',
        Event::Emit(_) => b'E',
        Event::Take(_) => b'T',
        Event::Cut => b'C',
    }
}

/// Whether the events are of these kinds.
fn are_events(history: &[Event], expected: &[u8]) -> bool {
    history.len() == expected.len()
        && history
            .iter()
            .zip(expected)
            .all(|(event, letter)| letter_of(event) == *letter)
}

/// The length of a frame that was sent.
fn len_sent(event: &Event) -> Option<usize> {
    match event {
        Event::Emit(frame) => Some(frame.len()),
        _ => None,
    }
}

fn count_sent(history: &[Event]) -> usize {
    history.iter().filter_map(len_sent).count()
}

/// Whether the frames that were sent have these lengths.
fn are_sent(history: &[Event], expected: &[usize]) -> bool {
    count_sent(history) == expected.len()
        && history
            .iter()
            .filter_map(len_sent)
            .zip(expected)
            .all(|(len, expected)| len == *expected)
}

/// Whether one message of so many bytes was delivered.
fn has_delivered(world: &World, end: EndId, len: usize) -> bool {
    match world.delivered(end) {
        [message] => message.len() == len,
        _ => false,
    }
}

/// The negotiation of two ends of 3 credits, and the message of 3,000 bytes that the client has submitted then.
const OPENING: [(Turn, Step); 6] = [
    (Turn::Drives(Client), Did),
    (Turn::Takes(Server), Did),
    (Turn::Drives(Server), Did),
    (Turn::Drives(Server), Did),
    (Turn::Takes(Client), Did),
    (Turn::Drives(Client), Did),
];

const SENDING: [(Turn, Step); 14] = [
    (Turn::Drives(Client), Did),
    (Turn::Drives(Client), Did),
    (Turn::Drives(Client), Nothing),
    (Turn::Takes(Server), Did),
    (Turn::Takes(Server), Nothing),
    (Turn::Drives(Server), Did),
    (Turn::Drives(Server), Nothing),
    (Turn::Takes(Server), Did),
    (Turn::Drives(Server), Did),
    (Turn::Drives(Server), Did),
    (Turn::Takes(Client), Did),
    (Turn::Drives(Client), Did),
    (Turn::Drives(Client), Did),
    (Turn::Takes(Server), Did),
];

/// A choice to submit a message of bytes that count up.
fn counted_submit(rt: &impl Abort, alloc: Global, end: EndId, length: u64, first: u64) -> Choice {
    let mut bytes = Vec::new(alloc);
    for i in 0..length {
        bytes
            .push((first.wrapping_add(i) % 256) as u8)
            .expect(rt, MEMORY);
    }
    Choice::Submit(end, Message::of_bytes(bytes).expect(rt, MEMORY))
}

/// Submits such a message.
fn submit(
    rt: &impl Abort,
    alloc: Global,
    world: &mut World,
    end: EndId,
    length: u64,
    first: u64,
) -> Step {
    let choice = counted_submit(rt, alloc, end, length, first);
    step(rt, world, &choice)
}

/// What comes of a message of 3,000 bytes.
fn has_arrived(world: &World) -> bool {
    are_events(world.history(Client), b"PETPSEETPE")
        && are_events(world.history(Server), b"PTPETPTPET")
        && are_sent(world.history(Client), &[20, 1_364, 1_364, 344])
        && are_sent(world.history(Server), &[32, 20])
        && has_delivered(world, Server, 3_000)
        && world.delivered(Client).is_empty()
}

#[test]
fn a_message_goes_in_three_frames(rt: HostRuntime) {
    let limits = few_credits(&rt);
    let mut world = open(&rt, rt.alloc(), limits, limits);
    follow(&rt, rt.alloc(), &mut world, &OPENING);
    assert!(&rt; submit(&rt, rt.alloc(), &mut world, Client, 3_000, 7) == Did);
    follow(&rt, rt.alloc(), &mut world, &SENDING);
    assert!(&rt; has_arrived(&world));
}

const STANDSTILL: [(Turn, Step); 3] = [
    (Turn::Takes(Client), Nothing),
    (Turn::Takes(Server), Nothing),
    (Turn::Drives(Server), Nothing),
];

#[test]
fn nothing_happens(rt: HostRuntime) {
    let limits = EndLimits::usual();
    let mut world = open(&rt, rt.alloc(), limits, limits);
    follow(&rt, rt.alloc(), &mut world, &STANDSTILL);
    assert!(&rt; submit(&rt, rt.alloc(), &mut world, Client, 0, 0) == Nothing);
    assert!(&rt; world.order() == [Client, Server].as_slice());
}

const CUT: [Turn; 9] = [
    Turn::Drives(Client),
    Turn::Cuts(Client),
    Turn::Cuts(Client),
    Turn::Drives(Client),
    Turn::Submits(Client),
    Turn::Submits(Server),
    Turn::Drives(Server),
    Turn::Takes(Server),
    Turn::Takes(Server),
];

/// What comes of a cut: each end is cut once.
fn is_cut(world: &World) -> bool {
    are_events(world.history(Client), b"PEC")
        && are_events(world.history(Server), b"PSC")
        && world.order() == [Client, Server, Client, Client, Server, Server].as_slice()
}

#[test]
fn a_cut_is_found_out(rt: HostRuntime) {
    let limits = EndLimits::usual();
    let mut choices = Vec::new(rt.alloc());
    add_turns(&rt, rt.alloc(), &CUT, &mut choices);
    let world = run_script(rt.alloc(), limits, limits, &choices).expect(&rt, MEMORY);
    assert!(&rt; is_cut(&world));
}
