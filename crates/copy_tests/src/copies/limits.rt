//! Copies under the least and the most of each limit, by the fewest and the most workers.

use super::{WIDE, copied, some_bytes};
use smbd_outside::Status;
use std::alloc::Global;
use std::process::Abort;
use std::sync::Wait;

/// Credits, send size, pages and workers.
const LIMITS: &[(&str, &str, &str, &str)] = &[
    ("3", "128", "16", "1"),
    ("3", "128", "16", "8"),
    ("3", "128", "255", "1"),
    ("3", "128", "255", "8"),
    ("3", "8192", "16", "1"),
    ("3", "8192", "16", "8"),
    ("3", "8192", "255", "1"),
    ("3", "8192", "255", "8"),
    ("255", "128", "16", "1"),
    ("255", "128", "16", "8"),
    ("255", "128", "255", "1"),
    ("255", "128", "255", "8"),
    ("255", "8192", "16", "1"),
    ("255", "8192", "16", "8"),
    ("255", "8192", "255", "1"),
    ("255", "8192", "255", "8"),
];

/// A copy of nothing, of a byte, of a group, of a byte more, and of three groups and a part.
fn check_limits(
    rt: &(impl Abort + Wait),
    alloc: Global,
    kind: &'static str,
    channel: &'static str,
) {
    for length in [0, 1, 65_536, 65_537, 200_000] {
        let bytes = some_bytes(rt, alloc, length);
        for &(credits, size, pages, workers) in LIMITS {
            let texts = [
                kind,
                "--channel",
                channel,
                "--credits",
                credits,
                "--send-size",
                size,
                "--pages",
                pages,
                "--workers",
                workers,
            ];
            let ran = copied(rt, alloc, &texts, &bytes, WIDE);
            assert_eq!(rt;
                ran.status,
                Status::Done,
                "{length} bytes, {credits} credits, {size}, {pages} pages, {workers} workers"
            );
            assert!(rt;
                ran.sink.taken() == bytes.as_slice(),
                "{length} bytes, {credits} credits, {size}, {pages} pages, {workers} workers"
            );
        }
    }
}

#[test]
fn a_put_has_any_limits(rt: HostRuntime) {
    check_limits(&rt, rt.alloc(), "put", "none");
}

#[test]
fn a_put_over_pages_has_any_limits(rt: HostRuntime) {
    check_limits(&rt, rt.alloc(), "put", "v1");
}

#[test]
fn a_get_has_any_limits(rt: HostRuntime) {
    check_limits(&rt, rt.alloc(), "get", "none");
}

#[test]
fn a_get_over_pages_has_any_limits(rt: HostRuntime) {
    check_limits(&rt, rt.alloc(), "get", "v1");
}
