//! Both ends of a link, each on a thread of its own.

ghost use Rattle.std.specs.Prelude.{◌≡◌};
ghost use Rattle.link_ends.specs.Ends.{IsOf};

use crate::talker::{LAWFUL, MEMORY, Talker, are_first, are_same, assert_fit, meet_both, messages};
use sim_adapter::Link;
use smbd_base::{EndId, EndLimits};
use smbd_outside::{Gate, OpenGate};
use std::alloc::Global;
use std::process::Abort;
use std::sync::atomic::{AtomicU64, Ordering};
use std::thread::{Threads, join_mut, yield_now};

/// After so many turns in a row in which an end found nothing to do, it gives up. While it waits it lets others run, so these are
/// seconds.
const PATIENCE: u32 = 2_000_000;

/// How many messages each end says.
const COUNT: u16 = 400;

/// How many steps of each end go abreast.
const STEPS: u64 = 200;

/// A gate at which the first steps of both ends go abreast: none of them makes its next step before the other has come as far.
#[derive(Drop)]
struct Abreast {
    client: AtomicU64,
    server: AtomicU64,
    /// How often an end saw that the other had come as far.
    met: AtomicU64,
}

impl Abreast {
    fn new() -> Abreast {
        Abreast {
            client: AtomicU64::new(0),
            server: AtomicU64::new(0),
            met: AtomicU64::new(0),
        }
    }

    /// Waits until the other end has come to its step of this number.
    fn wait(&self, other: &AtomicU64, step: u64) {
        for _ in 0..PATIENCE {
            if other.load(Ordering::SeqCst) > step {
                self.met.fetch_add(1, Ordering::SeqCst);
                return;
            }
            yield_now();
        }
    }
}

impl Gate for Abreast {
    fn pass(&self, part: u8, _step: u32) {
        let (own, other) = match part {
            0 => (&self.client, &self.server),
            _ => (&self.server, &self.client),
        };
        let step = own.fetch_add(1, Ordering::SeqCst);
        if step < STEPS {
            self.wait(other, step);
        }
    }
}

/// How many ends have heard all.
#[derive(Drop)]
struct Ready {
    count: AtomicU64,
}

/// An end has a turn, and counts how many in a row found nothing to do. After such a one it lets others run.
fn turn<G: Gate>(rt: &impl Abort, gate: &G, link: &Link, talker: &mut Talker, idle: &mut u32)
    requires own { IsOf link.now talker.old.end }
    ensures own { IsOf link.now talker.new.end }
{
    if talker.turn(rt, gate, link) {
        *idle = 0;
    } else {
        *idle = idle.saturating_add(1);
        yield_now();
    }
}

/// An end goes on until both have heard all. Answers whether it came to that.
fn hear_all<G: Gate>(
    rt: &impl Abort,
    gate: &G,
    link: &Link,
    ready: &Ready,
    talker: &mut Talker,
) -> bool
    requires own { IsOf link.now talker.old.end }
    ensures own { IsOf link.now talker.new.end }
{
    let mut idle = 0;
    let mut told = false;
    for _ in 0..u32::MAX {
        turn(rt, gate, link, talker, &mut idle);
        if !told && talker.heard.len() == usize::from(COUNT) {
            ready.count.fetch_add(1, Ordering::SeqCst);
            told = true;
        }
        if told && ready.count.load(Ordering::SeqCst) == 2 {
            return true;
        }
        if idle == PATIENCE {
            return false;
        }
    }
    false
}

/// Both ends go on at the same time.
fn hear_all_beside<R: Threads + Abort + Sync, G: Gate + Sync>(
    rt: &R,
    gate: &G,
    link: &Link,
    client: &mut Talker,
    server: &mut Talker,
)
    requires client { IsOf link.now client.old.end }
    requires server { IsOf link.now server.old.end }
    ensures client { IsOf link.now client.new.end }
    ensures server { IsOf link.now server.new.end }
{
    let ready = Ready {
        count: AtomicU64::new(0),
    };
    let (one, other) = join_mut(
        rt,
        &mut || -> bool
            requires { IsOf link.now client.now.end }
            ensures { IsOf link.entry.now client.exit.now.end }
        { hear_all(rt, gate, link, &ready, client) },
        &mut || -> bool
            requires { IsOf link.now server.now.end }
            ensures { IsOf link.entry.now server.exit.now.end }
        { hear_all(rt, gate, link, &ready, server) },
    );
    assert!(rt; one, "the client heard all");
    assert!(rt; other, "the server heard all");
}

/// A run of both ends, each on a thread, until both have heard all; and then they meet.
fn talk<R: Threads + Abort + Sync, G: Gate + Sync>(rt: &R, alloc: Global, gate: &G) {
    let many = EndLimits::check(5, 1_364, 8_192, 1_048_576, 64).expect(rt, LAWFUL);
    let few = EndLimits::check(3, 1_364, 8_192, 1_048_576, 64).expect(rt, LAWFUL);
    let (link, client_pass, server_pass) = Link::open(alloc, &many, &few).expect(rt, MEMORY);
    let words = messages(rt, alloc, b'C', COUNT);
    let mut client = Talker::open(rt, alloc, EndId::Client, many, client_pass, words);
    let words = messages(rt, alloc, b'S', COUNT);
    let mut server = Talker::open(rt, alloc, EndId::Server, few, server_pass, words);
    hear_all_beside(rt, gate, &link, &mut client, &mut server);
    meet_both(rt, &link, &mut client, &mut server);
    assert!(rt;
        are_same(&client.heard, &server.words),
        "what the client heard"
    );
    assert!(rt;
        are_same(&server.heard, &client.words),
        "what the server heard"
    );
    assert!(rt; client.taken.saturating_add(server.taken) >= 1_000);
    assert_fit(rt, &client, &server);
}

#[test]
fn messages_cross_between_two_threads(rt: HostRuntime) {
    talk(&rt, rt.alloc(), &OpenGate);
}

#[test]
fn messages_cross_where_both_ends_step_abreast(rt: HostRuntime) {
    let gate = Abreast::new();
    talk(&rt, rt.alloc(), &gate);
    assert_eq!(&rt; gate.met.load(Ordering::SeqCst), 2 * STEPS);
}

/// An end goes on until it is cut, and cuts the link itself once it has heard so many messages. Answers whether it came to that.
fn talk_until_cut(rt: &impl Abort, link: &Link, talker: &mut Talker, heard: usize) -> bool
    requires own { IsOf link.now talker.old.end }
    ensures own { IsOf link.now talker.new.end }
{
    let mut idle = 0;
    for _ in 0..u32::MAX {
        turn(rt, &OpenGate, link, talker, &mut idle);
        if talker.is_cut(rt) {
            return true;
        }
        if talker.heard.len() >= heard {
            talker.cut(rt, &OpenGate, link);
            return true;
        }
        if idle == PATIENCE {
            return false;
        }
    }
    false
}

/// Both ends go on at the same time, until the server has heard half of what the client says, and cuts the link.
fn cut_beside<R: Threads + Abort + Sync>(
    rt: &R,
    link: &Link,
    client: &mut Talker,
    server: &mut Talker,
)
    requires client { IsOf link.now client.old.end }
    requires server { IsOf link.now server.old.end }
    ensures client { IsOf link.now client.new.end }
    ensures server { IsOf link.now server.new.end }
{
    let (one, other) = join_mut(
        rt,
        &mut || -> bool
            requires { IsOf link.now client.now.end }
            ensures { IsOf link.entry.now client.exit.now.end }
        { talk_until_cut(rt, link, client, usize::from(COUNT)) },
        &mut || -> bool
            requires { IsOf link.now server.now.end }
            ensures { IsOf link.entry.now server.exit.now.end }
        { talk_until_cut(rt, link, server, usize::from(COUNT / 2)) },
    );
    assert!(rt; one && other);
}

#[test]
fn a_cut_between_two_threads_leaves_fronts(rt: HostRuntime) {
    let alloc = rt.alloc();
    let limits = EndLimits::check(4, 1_364, 8_192, 1_048_576, 64).expect(&rt, LAWFUL);
    let (link, client_pass, server_pass) = Link::open(alloc, &limits, &limits).expect(&rt, MEMORY);
    let words = messages(&rt, alloc, b'C', COUNT);
    let mut client = Talker::open(&rt, alloc, EndId::Client, limits, client_pass, words);
    let words = messages(&rt, alloc, b'S', COUNT);
    let mut server = Talker::open(&rt, alloc, EndId::Server, limits, server_pass, words);
    cut_beside(&rt, &link, &mut client, &mut server);
    meet_both(&rt, &link, &mut client, &mut server);
    assert!(&rt; client.is_cut(&rt) && server.is_cut(&rt));
    assert!(&rt; server.heard.len() == usize::from(COUNT / 2));
    assert!(&rt; are_first(&server.heard, &client.words));
    assert!(&rt; client.heard.len() <= server.said && are_first(&client.heard, &server.words));
    assert_fit(&rt, &client, &server);
}
