//! One call of the source, the sink or the log fails, of the first six of each.

use super::{GET, GET_OVER_PAGES, PUT, PUT_OVER_PAGES, Way, bytes_brought, told_by};
use crate::checker::{Copied, Told};
use crate::outside::{Failing, Ran, run_copy, some_bytes};
use smbd_outside::Status;
use std::alloc::Global;
use std::process::Abort;
use std::sync::Wait;

/// The bytes of a copy: three whole groups and a shorter one.
const LENGTH: u32 = 200_000;

/// The requests of such a copy before its END.
const GROUPS: usize = 4;

/// How many calls were made of the one that fails.
fn calls_of(ran: &Ran, failing: Failing) -> u32 {
    match failing {
        Failing::Nothing => 0,
        Failing::Read(_) => ran.reads,
        Failing::Write(_) => ran.writes,
        Failing::LogWrite(_) => ran.log_writes,
    }
}

/// The copy ended at the call that failed, and no other of its kind was made.
fn check_read_fault(rt: &impl Abort, call: u32, copied: &Copied<'_>, told: &Told, ran: &Ran) {
    assert_eq!(rt; ran.status, Status::ReadFault, "read {call}");
    assert!(rt; told.requests <= GROUPS, "END after read {call} failed");
    let before = call.saturating_sub(1).saturating_mul(65_536) as usize;
    let stored = ran.sink.taken().len();
    assert!(rt; stored <= before, "read {call}");
    assert_eq!(rt; stored, bytes_brought(copied, told), "read {call}");
}

/// The sink has what it took before, and the log tells of the group that it was to take.
fn check_write_fault(rt: &impl Abort, call: u32, copied: &Copied<'_>, told: &Told, ran: &Ran) {
    assert_eq!(rt; ran.status, Status::WriteFault, "write {call}");
    let before = call.saturating_sub(1).saturating_mul(65_536) as usize;
    let stored = ran.sink.taken().len();
    assert_eq!(rt; stored, before, "write {call}");
    assert!(rt; stored < bytes_brought(copied, told), "write {call}");
}

/// The log is a front of that of the whole copy.
fn check_log_fault(rt: &impl Abort, call: u32, whole: &Ran, ran: &Ran) {
    assert_eq!(rt; ran.status, Status::LogFault, "write {call} of the log");
    let (log, of_whole) = (ran.log.taken(), whole.log.taken());
    assert!(rt; of_whole.starts_with(log), "write {call} of the log");
    assert!(rt; log.len() < of_whole.len(), "write {call} of the log");
}

/// The log has what a log that fails at its next write has: all lines up to the barrier at which the copy ended.
fn check_last_lines(
    rt: &(impl Abort + Wait),
    alloc: Global,
    way: &Way,
    copied: &Copied<'_>,
    ran: &Ran,
) {
    let next = Failing::LogWrite(ran.log_writes.saturating_add(1));
    let beside = run_copy(rt, alloc, way.words, copied.bytes, next);
    assert!(rt; ran.log.taken().ends_with(b"\n"));
    assert!(rt; ran.log.taken() == beside.log.taken());
}

/// A copy in which the call was reached, which was the last of its kind.
fn check_fault(
    rt: &(impl Abort + Wait),
    alloc: Global,
    way: &Way,
    failing: Failing,
    copied: &Copied<'_>,
    whole: &Ran,
    ran: &Ran,
) {
    let told = told_by(rt, alloc, "a copy that fails", copied, ran);
    assert!(rt; !told.is_client_cut && !told.is_server_cut);
    match failing {
        Failing::Nothing => {}
        Failing::Read(call) => {
            check_read_fault(rt, call, copied, &told, ran);
            check_last_lines(rt, alloc, way, copied, ran);
        }
        Failing::Write(call) => {
            check_write_fault(rt, call, copied, &told, ran);
            check_last_lines(rt, alloc, way, copied, ran);
        }
        Failing::LogWrite(call) => check_log_fault(rt, call, whole, ran),
    }
}

/// A copy in which the call was not reached is the whole one.
fn check_whole(rt: &impl Abort, copied: &Copied<'_>, whole: &Ran, ran: &Ran) {
    assert_eq!(rt; ran.status, Status::Done);
    assert!(rt; ran.log.taken() == whole.log.taken());
    assert!(rt; ran.sink.taken() == copied.bytes);
}

/// One call fails, where the whole copy makes so many.
fn fail_at(
    rt: &(impl Abort + Wait),
    alloc: Global,
    way: &Way,
    call: u32,
    failing: Failing,
    copied: &Copied<'_>,
    whole: &Ran,
) {
    let ran = run_copy(rt, alloc, way.words, copied.bytes, failing);
    let of_whole = calls_of(whole, failing);
    assert_eq!(rt; calls_of(&ran, failing), call.min(of_whole), "{failing:?}");
    if call <= of_whole {
        check_fault(rt, alloc, way, failing, copied, whole, &ran);
    } else {
        check_whole(rt, copied, whole, &ran);
    }
}

fn check_way(rt: &(impl Abort + Wait), alloc: Global, way: &Way) {
    let bytes = some_bytes(rt, alloc, LENGTH);
    let copied = way.copied(rt, &bytes);
    let whole = run_copy(rt, alloc, way.words, &bytes, Failing::Nothing);
    check_whole(rt, &copied, &whole, &whole);
    let told = told_by(rt, alloc, "a whole copy", &copied, &whole);
    assert_eq!(rt; told.requests, GROUPS + 1);
    assert_eq!(rt; told.replies_delivered, GROUPS + 1);
    for call in 1..=6u32 {
        fail_at(rt, alloc, way, call, Failing::Read(call), &copied, &whole);
        fail_at(rt, alloc, way, call, Failing::Write(call), &copied, &whole);
        fail_at(
            rt,
            alloc,
            way,
            call,
            Failing::LogWrite(call),
            &copied,
            &whole,
        );
    }
}

#[test]
fn a_call_fails_in_a_put(rt: HostRuntime) {
    check_way(&rt, rt.alloc(), &PUT);
}

#[test]
fn a_call_fails_in_a_put_over_pages(rt: HostRuntime) {
    check_way(&rt, rt.alloc(), &PUT_OVER_PAGES);
}

#[test]
fn a_call_fails_in_a_get(rt: HostRuntime) {
    check_way(&rt, rt.alloc(), &GET);
}

#[test]
fn a_call_fails_in_a_get_over_pages(rt: HostRuntime) {
    check_way(&rt, rt.alloc(), &GET_OVER_PAGES);
}
