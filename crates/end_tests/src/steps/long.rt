//! A long life of one end, and an event that is asked for twice.

use super::{ABC, MEMORY, OPENING, REQUEST, Step, drive, go, is_event, is_next, open};
use connection_core::End;
use smbd_base::{EndId, EndLimits};
use std::alloc::Global;
use std::process::Abort;

/// The frames that the end takes.
const FRAMES: usize = 110_000;

/// Does what comes next. How many events happened: one or none.
fn go_on(rt: &impl Abort, end: &mut End) -> usize {
    if is_event(&drive(rt, end)) { 1 } else { 0 }
}

/// Takes the message `abc`, posts the receive anew, and grants credits where that is due. How many events happened.
fn take_one(rt: &impl Abort, alloc: Global, end: &mut End) -> usize {
    go(rt, alloc, "takes", end, &[Step::Delivers(ABC, b"abc")]);
    let posts = go_on(rt, end);
    let grants = go_on(rt, end);
    posts.saturating_add(grants).saturating_add(1)
}

/// Takes so many frames. How many events have happened since the end was opened.
fn live(rt: &impl Abort, alloc: Global, end: &mut End) -> usize {
    go(rt, alloc, "negotiates", end, OPENING);
    let mut events = end.history().len();
    for _ in 0..FRAMES {
        events = events.saturating_add(take_one(rt, alloc, end));
    }
    events
}

/// More than 200,000 events of one end: each one is in its history, and none is refused.
#[test]
fn an_end_lives_long(rt: HostRuntime) {
    let mut end = open(&rt, rt.alloc(), EndId::Server, EndLimits::usual());
    let events = live(&rt, rt.alloc(), &mut end);
    assert!(&rt; events > 200_000);
    assert_eq!(&rt; end.history().len(), events);
    assert_eq!(&rt; end.held(), 65_535);
}

/// What comes next stays so until it is committed, and happens once.
#[test]
fn an_event_may_be_asked_for_twice(rt: HostRuntime) {
    let mut end = open(&rt, rt.alloc(), EndId::Client, EndLimits::usual());
    ask_twice(&rt, rt.alloc(), &mut end);
}

fn ask_twice(rt: &impl Abort, alloc: Global, end: &mut End) {
    let next = end.next().expect(rt, MEMORY);
    assert!(rt; is_next(&next, &Step::Sends(REQUEST)));
    assert_eq!(rt; end.history().len(), 1);
    go(
        rt,
        alloc,
        "happens once",
        end,
        &[Step::Sends(REQUEST), Step::Lasts(2), Step::Idles],
    );
}
