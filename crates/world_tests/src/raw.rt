//! One end against frames of any peer, and the adapter before it.

use sim_adapter::{Arrive, RawLink};
use smbd_base::{EndId, EndLimits, Frame, Message, NegotiateFault, TakeFault};
use std::alloc::Global;
use std::process::Abort;
use world_core::{RawRun, run_raw};

mod linux;

/// What is said where memory is wanting.
const MEMORY: &str = "memory for a test";

/// What is said where limits are not lawful.
const LAWFUL: &str = "lawful limits";

/// What is said where a text is no hex.
const HEX: &str = "hex";

/// The request of the usual limits.
const REQUEST: &str = "000100010000ff00540500000020000000001000";

/// A frame that grants one credit and carries `abc`.
const ABC: &str = "ff0001000000000000000000180000000300000000000000616263";

/// An empty frame that grants none.
const EMPTY: &str = "0300000000000000000000000000000000000000";

/// The bytes of hex.
fn bytes_of(rt: &impl Abort, alloc: Global, text: &str) -> Vec<u8> {
    hex::decode(alloc, text).expect(rt, HEX)
}

fn frames_of(rt: &impl Abort, alloc: Global, texts: &[&str]) -> Vec<Frame> {
    let mut frames = Vec::new(alloc);
    for text in texts {
        let frame = Frame::of_bytes(bytes_of(rt, alloc, text)).expect(rt, MEMORY);
        frames.push(frame).expect(rt, MEMORY);
    }
    frames
}

/// The run of an end on these frames.
fn run_frames(
    rt: &impl Abort,
    alloc: Global,
    end: EndId,
    limits: EndLimits,
    burst: u16,
    frames: &[Frame],
) -> RawRun {
    assert!(rt; burst > 0);
    assert!(rt; frames.len() <= 1_000);
    run_raw(alloc, end, limits, burst, frames).expect(rt, MEMORY)
}

/// The run of an end on frames in hex.
fn run(
    rt: &impl Abort,
    alloc: Global,
    end: EndId,
    limits: EndLimits,
    burst: u16,
    texts: &[&str],
) -> RawRun {
    let frames = frames_of(rt, alloc, texts);
    run_frames(rt, alloc, end, limits, burst, &frames)
}

/// Whether a run has sent so many frames and ended so.
fn ended(
    told: &RawRun,
    emitted: u32,
    refused: Option<(u32, TakeFault)>,
    unposted: Option<u32>,
) -> bool {
    told.emitted() == emitted && told.refused() == refused && told.unposted() == unposted
}

/// Limits of three credits, with the usual sizes.
fn few_credits(rt: &impl Abort) -> EndLimits {
    EndLimits::check(3, 1_364, 8_192, 1_048_576, 64).expect(rt, LAWFUL)
}

fn is_abc(delivered: &[Message]) -> bool {
    match delivered {
        [message] => message.bytes() == b"abc".as_slice(),
        _ => false,
    }
}

#[test]
fn a_run_tells_where_it_ended(rt: HostRuntime) {
    const ZEROS: &str = "0000000000000000000000000000000000000000";
    const VERSION: TakeFault = TakeFault::Negotiate(NegotiateFault::Version);
    let usual = EndLimits::usual();
    let few = few_credits(&rt);

    let told = run(&rt, rt.alloc(), EndId::Server, usual, 1, &[ZEROS]);
    assert!(rt; ended(&told, 1, Some((1, VERSION)), None));
    assert!(rt; told.delivered().is_empty());

    let told = run(
        &rt,
        rt.alloc(),
        EndId::Server,
        few,
        4,
        &[REQUEST, REQUEST, REQUEST, REQUEST],
    );
    assert!(rt; ended(&told, 0, None, Some(4)));
    assert!(rt; told.delivered().is_empty());

    let told = run(&rt, rt.alloc(), EndId::Server, usual, 1, &[REQUEST, ABC]);
    assert!(rt; ended(&told, 1, None, None));
    assert!(rt; is_abc(told.delivered()));
}

#[test]
fn a_run_without_frames_opens_the_end(rt: HostRuntime) {
    let told = run(&rt, rt.alloc(), EndId::Client, EndLimits::usual(), 1, &[]);
    assert!(rt; ended(&told, 1, None, None));
    let told = run(&rt, rt.alloc(), EndId::Server, EndLimits::usual(), 1, &[]);
    assert!(rt; ended(&told, 0, None, None));
}

#[test]
fn a_peer_has_as_many_frames_as_it_was_granted(rt: HostRuntime) {
    let texts = [REQUEST, EMPTY, EMPTY, EMPTY, EMPTY];
    let told = run(&rt, rt.alloc(), EndId::Server, few_credits(&rt), 1, &texts);
    assert!(rt; ended(&told, 1, Some((5, TakeFault::OutOfTurn)), None));
}

#[test]
fn a_frame_has_as_many_bytes_as_the_end_receives(rt: HostRuntime) {
    let mut frames = frames_of(&rt, rt.alloc(), &[REQUEST]);
    let long = Frame::copy_of(rt.alloc(), &[0; 8_193]).expect(&rt, MEMORY);
    frames.push(long).expect(&rt, MEMORY);
    let told = run_frames(&rt, rt.alloc(), EndId::Server, few_credits(&rt), 1, &frames);
    let fault = TakeFault::Oversize {
        length: 8_193,
        limit: 8_192,
    };
    assert!(rt; ended(&told, 1, Some((2, fault)), None));
}

/// Whether a frame that arrives is placed in a receive.
fn is_placed(rt: &impl Abort, alloc: Global, link: &mut RawLink) -> bool {
    let frame = Frame::copy_of(alloc, b"frame").expect(rt, MEMORY);
    match link.arrive(frame) {
        Arrive::Placed => true,
        Arrive::Unposted(_) => false,
    }
}

#[test]
fn a_fourth_frame_finds_none_of_three_receives(rt: HostRuntime) {
    let mut link = RawLink::open(rt.alloc(), 3).expect(&rt, MEMORY);
    for _ in 0..3 {
        assert!(rt; is_placed(&rt, rt.alloc(), &mut link));
    }
    assert!(rt; !is_placed(&rt, rt.alloc(), &mut link));
    for _ in 0..3 {
        assert!(rt; link.take().is_some());
    }
    assert!(rt; link.take().is_none());
}
