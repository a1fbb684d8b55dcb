//! The client cuts the link in the place of each of its frames.

use super::{GET, GET_OVER_PAGES, PUT, PUT_OVER_PAGES, Way, bytes_brought, told_by};
use crate::checker::Copied;
use crate::outside::{Failing, Ran, run_copy, run_cut_copy, some_bytes};
use smbd_outside::Status;
use std::alloc::Global;
use std::process::Abort;
use std::sync::Wait;

/// The copies of each kind over each channel, with three credits at each end.
const PUT_3: Way = Way {
    words: &["put", "--channel", "none", "--credits", "3"],
    credits: 3,
    ..PUT
};

const PUT_OVER_PAGES_3: Way = Way {
    words: &["put", "--credits", "3"],
    credits: 3,
    ..PUT_OVER_PAGES
};

const GET_3: Way = Way {
    words: &["get", "--channel", "none", "--credits", "3"],
    credits: 3,
    ..GET
};

const GET_OVER_PAGES_3: Way = Way {
    words: &["get", "--credits", "3"],
    credits: 3,
    ..GET_OVER_PAGES
};

/// Whether two logs are equal up to the first line in which the client is cut, which the first one has.
fn is_front_to_cut(log: &[u8], whole: &[u8]) -> bool {
    let mut of_whole = whole.split(|byte| *byte == b'\n');
    for line in log.split(|byte| *byte == b'\n') {
        if line == b"C cut".as_slice() {
            return true;
        }
        if of_whole.next() != Some(line) {
            return false;
        }
    }
    false
}

/// A copy that was cut in the place of the frame of this number.
fn check_cut(
    rt: &impl Abort,
    alloc: Global,
    number: u32,
    copied: &Copied<'_>,
    whole: &Ran,
    ran: &Ran,
) {
    assert_eq!(rt; ran.status, Status::Cut, "frame {number}");
    let told = told_by(rt, alloc, "a copy that is cut", copied, ran);
    let sent = number.saturating_sub(1) as usize;
    assert_eq!(rt; told.frames_sent, sent, "frame {number}");
    assert!(rt; told.is_client_cut && told.is_server_cut, "frame {number}");
    let (log, of_whole) = (ran.log.taken(), whole.log.taken());
    assert!(rt; is_front_to_cut(log, of_whole), "frame {number}");
    let stored = bytes_brought(copied, &told);
    assert_eq!(rt; ran.sink.taken().len(), stored, "frame {number}");
}

/// A copy whose client sends fewer frames than the number of the one in whose place it was to cut the link.
fn check_whole(rt: &impl Abort, number: u32, copied: &Copied<'_>, whole: &Ran, ran: &Ran) {
    assert_eq!(rt; ran.status, Status::Done, "frame {number}");
    assert!(rt; ran.log.taken() == whole.log.taken(), "frame {number}");
    assert!(rt; ran.sink.taken() == copied.bytes, "frame {number}");
}

/// How many frames the client of a copy sends that isn't cut.
fn frames_of(rt: &impl Abort, alloc: Global, copied: &Copied<'_>, whole: &Ran) -> u32 {
    assert_eq!(rt; whole.status, Status::Done);
    let told = told_by(rt, alloc, "a copy that isn't cut", copied, whole);
    assert!(rt; !told.is_client_cut && !told.is_server_cut);
    assert!(rt; whole.sink.taken() == copied.bytes);
    u32::try_from(told.frames_sent).expect(rt, "few frames")
}

/// Cuts a copy in the place of the frame of this number.
fn cut_at(
    rt: &(impl Abort + Wait),
    alloc: Global,
    way: &Way,
    number: u32,
    copied: &Copied<'_>,
    frames: u32,
    whole: &Ran,
) {
    let ran = run_cut_copy(rt, alloc, way.words, number, copied.bytes);
    if number <= frames {
        check_cut(rt, alloc, number, copied, whole, &ran);
    } else {
        check_whole(rt, number, copied, whole, &ran);
    }
}

/// Cuts a copy of 3,000 bytes in the place of each of its first twelve frames, and tells how many it has.
fn cut_at_each(rt: &(impl Abort + Wait), alloc: Global, way: &Way) -> u32 {
    let bytes = some_bytes(rt, alloc, 3_000);
    let copied = way.copied(rt, &bytes);
    let whole = run_copy(rt, alloc, way.words, &bytes, Failing::Nothing);
    let frames = frames_of(rt, alloc, &copied, &whole);
    for number in 1..=12u32 {
        cut_at(rt, alloc, way, number, &copied, frames, &whole);
    }
    frames
}

/// Cuts a copy of 140,000 bytes, which has two whole groups and a shorter one, in the middle, beside it, and at its ends.
fn cut_in_the_middle(rt: &(impl Abort + Wait), alloc: Global, way: &Way) {
    let bytes = some_bytes(rt, alloc, 140_000);
    let copied = way.copied(rt, &bytes);
    let whole = run_copy(rt, alloc, way.words, &bytes, Failing::Nothing);
    let frames = frames_of(rt, alloc, &copied, &whole);
    let (quarter, half) = (frames / 4, frames / 2);
    for number in [
        1,
        quarter,
        half,
        half.saturating_add(1),
        half.saturating_add(quarter),
        frames,
        frames.saturating_add(1),
    ] {
        cut_at(rt, alloc, way, number.max(1), &copied, frames, &whole);
    }
}

/// The request, the three pieces of the WRITE and END are five of the client's frames; it sends empty ones besides.
#[test]
fn a_put_is_cut_at_each_frame(rt: HostRuntime) {
    let frames = cut_at_each(&rt, rt.alloc(), &PUT_3);
    assert!(rt; 5 <= frames && frames < 12, "{frames} frames");
}

#[test]
fn other_copies_are_cut_at_each_frame(rt: HostRuntime) {
    for way in [&PUT_OVER_PAGES_3, &GET_3, &GET_OVER_PAGES_3] {
        let frames = cut_at_each(&rt, rt.alloc(), way);
        assert!(rt; 3 <= frames && frames < 12, "{frames} frames");
    }
}

#[test]
fn longer_copies_are_cut_in_the_middle(rt: HostRuntime) {
    for way in [&PUT_3, &PUT_OVER_PAGES_3, &GET_3, &GET_OVER_PAGES_3] {
        cut_in_the_middle(&rt, rt.alloc(), way);
    }
}
