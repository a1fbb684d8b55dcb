//! Workers: a job of each kind, jobs that are kept, and no more than 16 jobs in a call.

ghost use Rattle.std.specs.Prelude.{◌≤◌};

use crate::MEMORY;
use crate::calls::{read_from, write_to};
use buffer_descriptor::Descriptor;
use event_log::LogLine;
use file_messages::{Job, Work, WorkResult};
use page_slots::{PagePass, Passes};
use page_workers::{One, Worker, run_workers, worker_for};
use registration::Region;
use remote_access::Remote;
use smbd_base::{Message, Right, Token};
use std::alloc::Global;
use std::process::Abort;

/// Page 1 in its first load, with three bytes.
const THREE: Descriptor = Descriptor {
    offset: 4_096,
    token: 257,
    length: 3,
};

fn load(rt: &impl Abort, alloc: Global, page: u8, right: Right) -> Work {
    Work::Load {
        page,
        right,
        bytes: Message::copy_of(alloc, b"abc").expect(rt, MEMORY),
    }
}

fn give(rt: &impl Abort, worker: &mut Worker, number: u64, work: Work) {
    worker.give(Job { number, work }).expect(rt, MEMORY);
}

/// What a worker's next completion says.
#[derive(Clone, Copy, PartialEq, Eq)]
enum Said {
    Loaded(u32),
    Fetched(bool),
    Placed,
    Unloaded(bool),
    Nothing,
}

/// What a result says, where bytes are these, or begin with these.
fn says(came: &WorkResult, bytes: &[u8]) -> Said {
    match came {
        WorkResult::Loaded(descriptor) => Said::Loaded(descriptor.token),
        WorkResult::Fetched(fetched) => Said::Fetched(fetched.bytes() == bytes),
        WorkResult::Placed => Said::Placed,
        WorkResult::Unloaded(left) => Said::Unloaded(left.bytes().starts_with(bytes)),
        WorkResult::Refused(_) => Said::Nothing,
    }
}

/// The next completion's number, and what it says.
fn told(worker: &mut Worker, bytes: &[u8]) -> (u64, Said) {
    match worker.taken() {
        Some(completion) => (completion.number, says(&completion.result, bytes)),
        None => (0, Said::Nothing),
    }
}

/// One worker loads a page, and gets it back; the other writes into it.
fn work_on_a_page(
    rt: &impl Abort,
    alloc: Global,
    region: &mut Region,
    owner: &mut Worker,
    peer: &mut Worker,
) {
    give(rt, owner, 7, load(rt, alloc, 1, Right::Place));
    assert!(rt; owner.one(region).expect(rt, MEMORY) == One::Did);
    assert!(rt; told(owner, b"") == (7, Said::Loaded(257)));
    let bytes = Message::copy_of(alloc, b"xyz").expect(rt, MEMORY);
    let place = Work::Place {
        descriptor: THREE,
        bytes,
    };
    give(rt, peer, 0, place);
    give(rt, peer, 1, Work::Fetch { descriptor: THREE });
    assert!(rt; peer.one(region).expect(rt, MEMORY) == One::Did);
    assert!(rt; told(peer, b"") == (0, Said::Placed));
    assert!(rt; peer.one(region).expect(rt, MEMORY) == One::Held);
    assert!(rt; told(peer, b"") == (0, Said::Nothing));
    let unload = Work::Unload {
        token: Token::new(1, 1),
    };
    give(rt, owner, 8, unload);
    assert!(rt; owner.one(region).expect(rt, MEMORY) == One::Did);
    assert!(rt; told(owner, b"xyz\0") == (8, Said::Unloaded(true)));
    assert!(rt; owner.one(region).expect(rt, MEMORY) == One::Idle);
    assert!(rt; peer.one(region).expect(rt, MEMORY) == One::Held);
}

/// Whether the token of page 1's first load gives no access any more.
fn is_stale(region: &mut Region, pass: &mut PagePass) -> bool {
    let mut out = [0; 3];
    read_from(region, pass, &THREE, &mut out) == Remote::Stale
        && write_to(region, pass, &THREE, b"abc") == Remote::Stale
}

fn worker(rt: &impl Abort, alloc: Global, number: u8, passes: &mut Passes) -> Worker
    requires least { 1 ≤ number }
    requires most { number ≤ 8 }
{
    let pass = passes.take().expect(rt, "a pass");
    Worker::open(alloc, number, pass).expect(rt, MEMORY)
}

#[test]
fn two_workers_share_a_page(rt: HostRuntime) {
    let alloc = rt.alloc();
    let (mut region, mut passes) = Region::open(alloc, 16, 1, 3).expect(&rt, MEMORY);
    let mut owner = worker(&rt, alloc, 1, &mut passes);
    let mut peer = worker(&rt, alloc, 2, &mut passes);
    work_on_a_page(&rt, alloc, &mut region, &mut owner, &mut peer);
    let mut other = passes.take().expect(&rt, "a pass");
    assert!(&rt; is_stale(&mut region, &mut other));
    assert!(&rt; owner.number() == 1 && peer.number() == 2);
    assert!(&rt; tells_of_owner(owner.lines()));
    assert!(&rt; tells_of_peer(peer.lines()));
    owner.clear_lines();
    assert!(&rt; owner.lines().is_empty());
}

/// The lines of a Load of page 1 for the peer to place in, and of its Unload.
fn tells_of_owner(lines: &[LogLine]) -> bool {
    let [
        LogLine::Load {
            token,
            right: Right::Place,
            length: 3,
        },
        LogLine::Unload { token: left },
    ] = lines
    else {
        return false;
    };
    *token == Token::new(1, 1) && *left == Token::new(1, 1)
}

/// The line of the first Place under that token.
fn tells_of_peer(lines: &[LogLine]) -> bool {
    let [
        LogLine::Place {
            token,
            order: 0,
            at: 0,
            length: 3,
        },
    ] = lines
    else {
        return false;
    };
    *token == Token::new(1, 1)
}

/// Has a worker load the pages from 0 to 16, of which a region of 16 lacks the last.
fn load_17(rt: &impl Abort, alloc: Global, region: &mut Region, workers: &mut [Worker; 1]) {
    for page in 0..17u8 {
        let work = load(rt, alloc, page, Right::Fetch);
        give(rt, &mut workers[0], u64::from(page), work);
    }
    run_workers(region, workers).expect(rt, MEMORY);
    for page in 0..16u64 {
        assert!(rt; told(&mut workers[0], b"") == (page, Said::Loaded(256 + page as u32)));
    }
    assert!(rt; told(&mut workers[0], b"") == (0, Said::Nothing));
    run_workers(region, workers).expect(rt, MEMORY);
    assert!(rt; told(&mut workers[0], b"") == (0, Said::Nothing));
    assert!(rt; workers[0].lines().len() == 16);
}

#[test]
fn a_worker_keeps_what_is_not_fit(rt: HostRuntime) {
    let alloc = rt.alloc();
    let (mut region, mut passes) = Region::open(alloc, 16, 1, 1).expect(&rt, MEMORY);
    let mut workers = [worker(&rt, alloc, 8, &mut passes)];
    load_17(&rt, alloc, &mut region, &mut workers);
}

#[test]
fn work_goes_to_the_worker_of_its_page(rt: HostRuntime) {
    let fetch = Work::Fetch { descriptor: THREE };
    let unload = Work::Unload {
        token: Token::new(13, 2),
    };
    assert!(&rt; worker_for(&fetch, 4) == 2);
    assert!(&rt; worker_for(&unload, 4) == 2);
    assert!(&rt; worker_for(&unload, 8) == 6);
    assert!(&rt; worker_for(&unload, 1) == 1);
    assert!(&rt; worker_for(&load(&rt, rt.alloc(), 3, Right::Fetch), 4) == 4);
}
