//! Both ends of a link in turn, on one thread.

ghost use Rattle.std.specs.Prelude.{◌≡◌};
ghost use Rattle.link_ends.specs.Ends.{IsOf};

use crate::talker::{LAWFUL, MEMORY, Talker, are_first, are_same, assert_fit, meet_both, messages};
use sim_adapter::Link;
use smbd_base::{EndId, EndLimits};
use smbd_outside::OpenGate;
use std::alloc::Global;
use std::process::Abort;

/// More rounds than any of these runs has.
const ROUNDS: u32 = 100_000;

/// How many turns the client and the server have in a round.
#[derive(Clone, Copy, Debug)]
struct Pace {
    client: u32,
    server: u32,
}

/// Limits of these credits and of frames of this size.
fn limits_of(rt: &impl Abort, credits: u16, frame: u32) -> EndLimits {
    EndLimits::check(credits, frame, frame, 131_072, 64).expect(rt, LAWFUL)
}

/// An end has so many turns. Answers whether there was anything to do.
fn take_turns(rt: &impl Abort, link: &Link, talker: &mut Talker, turns: u32) -> bool
    requires own { IsOf link.now talker.old.end }
    ensures own { IsOf link.now talker.new.end }
{
    let mut did = false;
    for _ in 0..turns {
        did |= talker.turn(rt, &OpenGate, link);
    }
    did
}

/// So many rounds, or fewer where there is nothing more to do. Answers whether it came to that.
fn go_on(
    rt: &impl Abort,
    link: &Link,
    client: &mut Talker,
    server: &mut Talker,
    pace: Pace,
    rounds: u32,
) -> bool
    requires client { IsOf link.now client.old.end }
    requires server { IsOf link.now server.old.end }
    ensures client { IsOf link.now client.new.end }
    ensures server { IsOf link.now server.new.end }
{
    for _ in 0..rounds {
        let one = take_turns(rt, link, client, pace.client);
        let other = take_turns(rt, link, server, pace.server);
        if !one && !other {
            return true;
        }
    }
    false
}

/// A run of two ends that say so many messages each, at this pace, until there is nothing more to do.
fn arrive(
    rt: &impl Abort,
    alloc: Global,
    client: EndLimits,
    server: EndLimits,
    pace: Pace,
    count: u16,
) {
    let (link, client_pass, server_pass) = Link::open(alloc, &client, &server).expect(rt, MEMORY);
    let words = messages(rt, alloc, b'C', count);
    let mut one = Talker::open(rt, alloc, EndId::Client, client, client_pass, words);
    let words = messages(rt, alloc, b'S', count);
    let mut other = Talker::open(rt, alloc, EndId::Server, server, server_pass, words);
    assert!(rt; go_on(rt, &link, &mut one, &mut other, pace, ROUNDS));
    meet_both(rt, &link, &mut one, &mut other);
    assert!(rt; are_same(&one.heard, &other.words), "the client heard all");
    assert!(rt; are_same(&other.heard, &one.words), "the server heard all");
    assert_fit(rt, &one, &other);
}

#[test]
fn messages_arrive_whole_once_and_in_order(rt: HostRuntime) {
    const CASES: &[(u16, u16, u32, u32, u32)] = &[
        (3, 3, 1_364, 1, 1),
        (3, 255, 1_364, 1, 7),
        (255, 3, 128, 5, 1),
        (4, 7, 8_192, 40, 40),
    ];
    for &(client, server, frame, client_turns, server_turns) in CASES {
        let pace = Pace {
            client: client_turns,
            server: server_turns,
        };
        let one = limits_of(&rt, client, frame);
        let other = limits_of(&rt, server, frame);
        arrive(&rt, rt.alloc(), one, other, pace, 60);
    }
}

/// A run whose client cuts the link after so many rounds, in which both ends have said and heard something.
fn cut_after(rt: &impl Abort, alloc: Global, rounds: u32) {
    let limits = limits_of(rt, 5, 1_364);
    let (link, client_pass, server_pass) = Link::open(alloc, &limits, &limits).expect(rt, MEMORY);
    let words = messages(rt, alloc, b'C', 300);
    let mut one = Talker::open(rt, alloc, EndId::Client, limits, client_pass, words);
    let words = messages(rt, alloc, b'S', 300);
    let mut other = Talker::open(rt, alloc, EndId::Server, limits, server_pass, words);
    let pace = Pace {
        client: 1,
        server: 1,
    };
    assert!(rt; !go_on(rt, &link, &mut one, &mut other, pace, rounds));
    one.cut(rt, &OpenGate, &link);
    assert!(rt; go_on(rt, &link, &mut one, &mut other, pace, ROUNDS));
    meet_both(rt, &link, &mut one, &mut other);
    assert!(rt; is_cut_short(rt, &one, &other), "what the client heard");
    assert!(rt; is_cut_short(rt, &other, &one), "what the server heard");
    assert_fit(rt, &one, &other);
}

/// Whether an end is cut and has heard the first messages of its peer, and some of them not.
fn is_cut_short(rt: &impl Abort, hearer: &Talker, sayer: &Talker) -> bool {
    hearer.is_cut(rt)
        && !hearer.heard.is_empty()
        && are_first(&hearer.heard, &sayer.words)
        && hearer.heard.len() <= sayer.said
        && sayer.said < sayer.words.len()
}

#[test]
fn what_came_before_a_cut_is_a_front(rt: HostRuntime) {
    for rounds in [40, 41, 42, 43, 44, 100] {
        cut_after(&rt, rt.alloc(), rounds);
    }
}
