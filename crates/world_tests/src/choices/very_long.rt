//! A very long run of one world.

use super::{Turn, do_turns, open};
use EndId::{Client, Server};
use smbd_base::{EndId, EndLimits};
use std::alloc::Global;
use std::process::Abort;
use world_core::World;

/// The messages that the client submits.
const MESSAGES: usize = 55_000;

/// The client submits a message, which goes over, and the server grants credits where that is due.
const ROUND: [Turn; 8] = [
    Turn::Submits(Client),
    Turn::Drives(Client),
    Turn::Takes(Server),
    Turn::Drives(Server),
    Turn::Drives(Server),
    Turn::Takes(Client),
    Turn::Drives(Client),
    Turn::Drives(Client),
];

/// The client has taken the response of the server.
const NEGOTIATION: [Turn; 6] = [
    Turn::Drives(Client),
    Turn::Takes(Server),
    Turn::Drives(Server),
    Turn::Drives(Server),
    Turn::Takes(Client),
    Turn::Drives(Client),
];

/// The events of both ends.
fn count_events(world: &World) -> usize {
    let client = world.history(Client).len();
    client.saturating_add(world.history(Server).len())
}

/// More than 200,000 events of one world: each choice that did something has added one, and each message was delivered.
#[test]
fn a_world_lives_long(rt: HostRuntime) {
    let limits = EndLimits::usual();
    let mut world = open(&rt, rt.alloc(), limits, limits);
    let mut events = count_events(&world);
    events = events.saturating_add(do_turns(&rt, rt.alloc(), &mut world, &NEGOTIATION));
    for _ in 0..MESSAGES {
        events = events.saturating_add(do_turns(&rt, rt.alloc(), &mut world, &ROUND));
    }
    assert!(&rt; events > 200_000);
    assert_eq!(&rt; count_events(&world), events);
    assert_eq!(&rt; world.delivered(Server).len(), MESSAGES);
}
