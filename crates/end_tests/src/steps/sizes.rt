//! The longest frame that an end takes.

use super::{OPENING, REQUEST, Step, follow, framed, go, open, takes};
use connection_core::TakeFault;
use smbd_base::{EndId, EndLimits};

/// What stands before a payload of 8,168 bytes, and before one of 8,169.
const HEAD_8192: &[u8] =
    b"\xff\x00\xff\x00\x00\x00\x00\x00\x00\x00\x00\x00\x18\x00\x00\x00\xe8\x1f\x00\x00\x00\x00\x00\x00";

const HEAD_8193: &[u8] =
    b"\xff\x00\xff\x00\x00\x00\x00\x00\x00\x00\x00\x00\x18\x00\x00\x00\xe9\x1f\x00\x00\x00\x00\x00\x00";

const OVERSIZE: TakeFault = TakeFault::Oversize {
    length: 8_193,
    limit: 8_192,
};

#[test]
fn a_frame_may_have_the_receive_size(rt: HostRuntime) {
    let alloc = rt.alloc();
    let payload = framed(&rt, alloc, &[], &[7; 8_168]);
    let longest = framed(&rt, alloc, HEAD_8192, &payload);
    let longer = framed(&rt, alloc, HEAD_8193, &[7; 8_169]);
    let mut end = open(&rt, alloc, EndId::Server, EndLimits::usual());
    go(&rt, alloc, "negotiates", &mut end, OPENING);
    assert!(&rt; takes(&rt, alloc, &mut end, &longest, Ok(Some(&payload))));
    go(&rt, alloc, "goes on", &mut end, &[Step::Posts(1)]);
    let steps = [Step::Refuses(&longer, OVERSIZE), Step::Closes];
    go(&rt, alloc, "longer", &mut end, &steps);
}

#[test]
fn a_first_frame_may_have_the_receive_size(rt: HostRuntime) {
    let longest = framed(&rt, rt.alloc(), REQUEST, &[7; 8_172]);
    let steps = [Step::Takes(&longest), Step::Posts(1)];
    let usual = EndLimits::usual();
    follow(&rt, rt.alloc(), "first", EndId::Server, usual, &steps);
}

#[test]
fn a_first_frame_may_be_no_longer(rt: HostRuntime) {
    let longer = framed(&rt, rt.alloc(), REQUEST, &[7; 8_173]);
    let steps = [Step::Refuses(&longer, OVERSIZE)];
    let usual = EndLimits::usual();
    follow(&rt, rt.alloc(), "server", EndId::Server, usual, &steps);
    let steps = [Step::Refuses(&longer, TakeFault::OutOfTurn)];
    follow(&rt, rt.alloc(), "client", EndId::Client, usual, &steps);
}
