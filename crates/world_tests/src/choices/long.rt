//! Long runs of two ends.

use super::{
    LAWFUL, MEMORY, Turn, add_turns, count_sent, counted_submit, do_turns, few_credits,
    has_delivered, open, step,
};
use EndId::{Client, Server};
use smbd_base::{EndId, EndLimits, Event, Message};
use std::alloc::Global;
use std::process::Abort;
use world_core::{Choice, Step, World, run_script};

/// More turns than any of these runs has.
const TURNS: usize = 100_000;

/// A drive and a carry of both ends.
const TURN: [Turn; 4] = [
    Turn::Drives(Client),
    Turn::Takes(Client),
    Turn::Drives(Server),
    Turn::Takes(Server),
];

/// Turns until a whole one does nothing.
fn go_quiet(rt: &impl Abort, alloc: Global, world: &mut World) {
    for _ in 0..TURNS {
        if do_turns(rt, alloc, world, &TURN) == 0 {
            break;
        }
    }
}

/// The client has taken the response of the server.
const RESPONSE_TAKEN: [Turn; 5] = [
    Turn::Drives(Client),
    Turn::Takes(Server),
    Turn::Drives(Server),
    Turn::Drives(Server),
    Turn::Takes(Client),
];

/// An end with few credits sends a frame that carries nothing, so that its peer can go on: it grants what it posted.
#[test]
fn an_end_with_nothing_to_say_grants_what_it_posted(rt: HostRuntime) {
    let limits = few_credits(&rt);
    let mut world = open(&rt, rt.alloc(), limits, limits);
    assert_eq!(&rt; do_turns(&rt, rt.alloc(), &mut world, &RESPONSE_TAKEN), 5);
    let turns = [Turn::Drives(Client), Turn::Drives(Client)];
    assert_eq!(&rt; do_turns(&rt, rt.alloc(), &mut world, &turns), 2);
    let empty = b"\x03\x00\x03\x00\x00\x00\x00\x00\x00\x00\x00\x00\x00\x00\x00\x00\x00\x00\x00\x00";
    match world.history(Client).last() {
        Some(Event::Emit(frame)) => assert!(&rt; frame.bytes() == empty.as_slice()),
        other => panic!(&rt; "no frame was sent, but {other:?}"),
    }
}

/// The choices of two ends whose client submits a message of 268,000 bytes once it has taken the response.
fn choices_of_long_message(rt: &impl Abort, alloc: Global) -> Vec<Choice> {
    let mut choices = Vec::new(alloc);
    add_turns(rt, alloc, &RESPONSE_TAKEN, &mut choices);
    choices
        .push(counted_submit(rt, alloc, Client, 268_000, 0))
        .expect(rt, MEMORY);
    for _ in 0..1_000 {
        add_turns(rt, alloc, &TURN, &mut choices);
    }
    choices
}

/// Whether the bytes count up from 0.
fn is_counted(bytes: &[u8]) -> bool {
    bytes
        .iter()
        .enumerate()
        .all(|(i, byte)| usize::from(*byte) == i % 256)
}

/// Whether the message was delivered once, and in how many frames: the client's request and 200 pieces, and the server's response and
/// a frame that carries nothing for every two pieces.
fn has_come(world: &World) -> bool {
    has_delivered(world, Server, 268_000)
        && world
            .delivered(Server)
            .iter()
            .all(|message| is_counted(message.bytes()))
        && world.delivered(Client).is_empty()
        && count_sent(world.history(Client)) == 201
        && count_sent(world.history(Server)) == 101
}

#[test]
fn three_credits_deliver_a_long_message_once(rt: HostRuntime) {
    let limits = few_credits(&rt);
    let choices = choices_of_long_message(&rt, rt.alloc());
    let mut world = run_script(rt.alloc(), limits, limits, &choices).expect(&rt, MEMORY);
    assert!(&rt; has_come(&world));
    assert_eq!(&rt; do_turns(&rt, rt.alloc(), &mut world, &TURN), 0);
}

/// Numbers that look random (a linear congruence).
#[derive(Drop)]
struct Numbers {
    state: u64,
}

impl Numbers {
    /// The next one, which is below `end`.
    fn below(&mut self, end: u64) -> u64 {
        self.state = self
            .state
            .wrapping_mul(6_364_136_223_846_793_005)
            .wrapping_add(1_442_695_040_888_963_407);
        (self.state >> 33) % end.max(1)
    }
}

/// Any choice but a cut.
fn any_choice(rt: &impl Abort, alloc: Global, numbers: &mut Numbers) -> Choice {
    let end = if numbers.below(2) == 0 {
        Client
    } else {
        Server
    };
    match numbers.below(8) {
        0 => {
            let length = numbers.below(3_000).saturating_add(1);
            let first = numbers.below(256);
            counted_submit(rt, alloc, end, length, first)
        }
        1..=4 => Choice::Drive(end),
        _ => Choice::Carry(end),
    }
}

/// The messages that were submitted at both ends.
#[derive(Drop)]
struct Submitted {
    client: Vec<Message>,
    server: Vec<Message>,
}

impl Submitted {
    /// Keeps the message of a choice that did something.
    fn keep(&mut self, rt: &impl Abort, choice: Choice) {
        match choice {
            Choice::Submit(Client, message) => self.client.push(message).expect(rt, MEMORY),
            Choice::Submit(Server, message) => self.server.push(message).expect(rt, MEMORY),
            _ => {}
        }
    }
}

/// Makes any choices, and keeps the messages that they submitted.
fn choose_often(rt: &impl Abort, alloc: Global, world: &mut World, submitted: &mut Submitted) {
    let mut numbers = Numbers { state: 7 };
    for _ in 0..2_000 {
        let choice = any_choice(rt, alloc, &mut numbers);
        if step(rt, world, &choice) == Step::Did {
            submitted.keep(rt, choice);
        }
    }
}

/// Whether each delivered message is the one that was submitted in its place.
fn are_delivered(delivered: &[Message], submitted: &[Message]) -> bool {
    delivered.len() <= submitted.len()
        && delivered
            .iter()
            .zip(submitted)
            .all(|(came, sent)| came.bytes() == sent.bytes())
}

/// Whether both ends have delivered what was submitted, some of it or all.
fn is_sound(world: &World, submitted: &Submitted) -> bool {
    are_delivered(world.delivered(Server), &submitted.client)
        && are_delivered(world.delivered(Client), &submitted.server)
}

/// Whether both ends have delivered messages, and many were submitted.
fn is_busy(world: &World, submitted: &Submitted) -> bool {
    submitted.client.len() > 50
        && submitted.server.len() > 50
        && !world.delivered(Client).is_empty()
        && !world.delivered(Server).is_empty()
}

/// Whether as many messages were delivered as submitted.
fn is_done(world: &World, submitted: &Submitted) -> bool {
    world.delivered(Server).len() == submitted.client.len()
        && world.delivered(Client).len() == submitted.server.len()
}

/// Makes 2,000 choices, and then turns until nothing is left to do.
fn see_any_choices(rt: &impl Abort, alloc: Global, client: EndLimits, server: EndLimits) {
    let mut world = open(rt, alloc, client, server);
    let mut submitted = Submitted {
        client: Vec::new(alloc),
        server: Vec::new(alloc),
    };
    choose_often(rt, alloc, &mut world, &mut submitted);
    assert!(rt; is_sound(&world, &submitted));
    assert!(rt; is_busy(&world, &submitted));
    go_quiet(rt, alloc, &mut world);
    assert!(rt; is_sound(&world, &submitted));
    assert!(rt; is_done(&world, &submitted));
}

#[test]
fn ends_of_unequal_limits_deliver_what_was_submitted(rt: HostRuntime) {
    let few = EndLimits::check(3, 128, 8_192, 1_048_576, 64).expect(&rt, LAWFUL);
    let many = EndLimits::check(255, 8_192, 8_192, 1_048_576, 64).expect(&rt, LAWFUL);
    see_any_choices(&rt, rt.alloc(), few, many);
    see_any_choices(&rt, rt.alloc(), many, few);
}
