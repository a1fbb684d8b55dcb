//! Negotiations with peers of other limits, and with peers that say what an end does not accept.

use super::{GRANTS_3, LAWFUL, REQUEST, Step, follow, framed};
use connection_core::{Agreed, SubmitFault, TakeFault};
use smbd_base::{EndId, EndLimits, NegotiateFault};

/// A request of version 0x0200, and the response that refuses it.
const REQUEST_2: &[u8] =
    b"\x00\x02\x00\x02\x00\x00\xff\x00\x54\x05\x00\x00\x00\x20\x00\x00\x00\x00\x10\x00";

const REFUSAL: &[u8] =
    b"\x00\x01\x00\x01\x00\x00\x00\x00\x00\x00\x00\x00\xbb\x00\x00\xc0\x00\x00\x00\x00\x00\x00\x00\x00\x00\x00\x00\x00\x00\x00\x00\x00";

/// What a client of 3 credits requests that receives 128 bytes at a time, and what a server of 5 responds that receives
/// 512.
const SMALL_REQUEST: &[u8] =
    b"\x00\x01\x00\x01\x00\x00\x03\x00\x00\x20\x00\x00\x80\x00\x00\x00\x00\x00\x02\x00";

const LARGE_RESPONSE: &[u8] =
    b"\x00\x01\x00\x01\x00\x01\x00\x00\x05\x00\x03\x00\x00\x00\x00\x00\x00\x00\x10\x00\x80\x00\x00\x00\x00\x02\x00\x00\x40\x0d\x03\x00";

/// The first 488 bytes of a message of 500, and the first 104 of one of 500, as these two send them.
const HEAD_488: &[u8] =
    b"\x03\x00\x03\x00\x00\x00\x00\x00\x0c\x00\x00\x00\x18\x00\x00\x00\xe8\x01\x00\x00\x00\x00\x00\x00";

const HEAD_104: &[u8] =
    b"\x05\x00\x03\x00\x00\x00\x00\x00\x8c\x01\x00\x00\x18\x00\x00\x00\x68\x00\x00\x00\x00\x00\x00\x00";

/// A request whose MaxReceiveSize and MaxFragmentedSize are as large as their fields tell.
const LARGEST_REQUEST: &[u8] =
    b"\x00\x00\xff\xff\xff\xff\xff\xff\xff\xff\xff\xff\xff\xff\xff\xff\xff\xff\xff\xff";

#[test]
fn a_server_responds_to_a_version_that_it_refuses(rt: HostRuntime) {
    use EndId::{Client, Server};
    use Step::*;
    const VERSION: TakeFault = TakeFault::Negotiate(NegotiateFault::Version);
    const CASES: &[(&str, EndId, &[Step])] = &[
        (
            "declines",
            Server,
            &[
                Refuses(REQUEST_2, VERSION),
                Declines(b"abc", SubmitFault::Closed),
                Settles(None),
                Posts(1),
                Counts(1, 0, 255),
                Sends(REFUSAL),
                Counts(0, 0, 255),
                Closes,
                Settles(None),
                Cuts,
                Idles,
            ],
        ),
        (
            "is cut",
            Server,
            &[Refuses(REQUEST_2, VERSION), Posts(1), Cuts, Idles],
        ),
        (
            "is declined",
            Client,
            &[
                Sends(REQUEST),
                Refuses(REFUSAL, TakeFault::Negotiate(NegotiateFault::Status)),
                Closes,
                Cuts,
                Idles,
            ],
        ),
    ];
    for &(name, side, steps) in CASES {
        follow(&rt, rt.alloc(), name, side, EndLimits::usual(), steps);
    }
}

#[test]
fn ends_of_other_limits_settle_what_both_can(rt: HostRuntime) {
    use Step::*;
    let message = [7; 500];
    let first = framed(&rt, rt.alloc(), HEAD_488, &[7; 488]);
    let steps = [
        Accepts(&message),
        Sends(SMALL_REQUEST),
        Idles,
        Takes(LARGE_RESPONSE),
        Settles(Some(Agreed {
            send_size: 512,
            message_max: 200_000,
            read_write_max: Some(1_048_576),
            credits_requested: 5,
        })),
        Posts(1),
        Counts(3, 0, 3),
        Sends(&first),
        Counts(2, 3, 0),
    ];
    let client = EndLimits::check(3, 8_192, 128, 131_072, 16).expect(&rt, LAWFUL);
    follow(&rt, rt.alloc(), "client", EndId::Client, client, &steps);
    let first = framed(&rt, rt.alloc(), HEAD_104, &[7; 104]);
    let steps = [
        Takes(SMALL_REQUEST),
        Posts(1),
        Settles(None),
        Accepts(&message),
        Sends(LARGE_RESPONSE),
        Counts(0, 3, 2),
        Settles(Some(Agreed {
            send_size: 128,
            message_max: 131_072,
            read_write_max: None,
            credits_requested: 3,
        })),
        Idles,
        Takes(GRANTS_3),
        Posts(1),
        Sends(&first),
    ];
    let server = EndLimits::check(5, 4_096, 512, 200_000, 16).expect(&rt, LAWFUL);
    follow(&rt, rt.alloc(), "server", EndId::Server, server, &steps);
}

/// An end hands on what the reading of its peer's first frame says, and closes, or goes on.
#[test]
fn first_frames_are_refused_or_taken(rt: HostRuntime) {
    use EndId::{Client, Server};
    use NegotiateFault::*;
    use Step::*;
    use TakeFault::Negotiate;
    const CASES: &[(&str, EndId, &[Step])] = &[
        (
            "a request for no credits",
            Server,
            &[
                Refuses(
                    b"\x00\x01\x00\x01\x00\x00\x00\x00\x54\x05\x00\x00\x00\x20\x00\x00\x00\x00\x10\x00",
                    Negotiate(Credits),
                ),
                Closes,
            ],
        ),
        (
            "a request that receives too little of a message",
            Server,
            &[
                Refuses(
                    b"\x00\x01\x00\x01\x00\x00\xff\x00\x54\x05\x00\x00\x00\x20\x00\x00\xff\xff\x01\x00",
                    Negotiate(FragmentedSize),
                ),
                Closes,
            ],
        ),
        (
            "a request with each number as small as it may be",
            Server,
            &[
                Takes(
                    b"\x00\x01\x00\x01\x00\x00\x01\x00\x00\x00\x00\x00\x80\x00\x00\x00\x00\x00\x02\x00",
                ),
                Posts(1),
            ],
        ),
        (
            "no response",
            Client,
            &[Sends(REQUEST), Refuses(b"", Negotiate(Short)), Closes],
        ),
        (
            "a response of another version",
            Client,
            &[
                Sends(REQUEST),
                Refuses(
                    b"\x00\x01\x00\x01\x01\x01\x00\x00\xff\x00\xff\x00\x00\x00\x00\x00\x00\x00\x10\x00\x54\x05\x00\x00\x00\x20\x00\x00\x00\x00\x10\x00",
                    Negotiate(Version),
                ),
                Closes,
            ],
        ),
        (
            "a response that grants more than was asked for",
            Client,
            &[
                Sends(REQUEST),
                Refuses(
                    b"\x00\x01\x00\x01\x00\x01\x00\x00\xff\x00\x00\x01\x00\x00\x00\x00\x00\x00\x10\x00\x54\x05\x00\x00\x00\x20\x00\x00\x00\x00\x10\x00",
                    Negotiate(Granted),
                ),
                Closes,
            ],
        ),
        (
            "a response that sends more than is received",
            Client,
            &[
                Sends(REQUEST),
                Refuses(
                    b"\x00\x01\x00\x01\x00\x01\x00\x00\xff\x00\xff\x00\x00\x00\x00\x00\x00\x00\x10\x00\x01\x20\x00\x00\x00\x20\x00\x00\x00\x00\x10\x00",
                    Negotiate(SendSize),
                ),
                Closes,
            ],
        ),
        (
            "a response that receives too little",
            Client,
            &[
                Sends(REQUEST),
                Refuses(
                    b"\x00\x01\x00\x01\x00\x01\x00\x00\xff\x00\xff\x00\x00\x00\x00\x00\x00\x00\x10\x00\x54\x05\x00\x00\x7f\x00\x00\x00\x00\x00\x10\x00",
                    Negotiate(ReceiveSize),
                ),
                Closes,
            ],
        ),
        (
            "a response that grants one credit",
            Client,
            &[
                Sends(REQUEST),
                Takes(
                    b"\x00\x01\x00\x01\x00\x01\x00\x00\xff\x00\x01\x00\x00\x00\x00\x00\x00\x00\x10\x00\x54\x05\x00\x00\x00\x20\x00\x00\x00\x00\x10\x00",
                ),
                Posts(1),
                Counts(1, 0, 255),
            ],
        ),
    ];
    for &(name, side, steps) in CASES {
        follow(&rt, rt.alloc(), name, side, EndLimits::usual(), steps);
    }
}

#[test]
fn a_peer_of_the_largest_numbers(rt: HostRuntime) {
    use Step::*;
    let steps = [
        Takes(LARGEST_REQUEST),
        Posts(1),
        Settles(None),
        Sends(
            b"\x00\x01\x00\x01\x00\x01\x00\x00\x05\x00\x05\x00\x00\x00\x00\x00\x00\x00\x10\x00\x00\x10\x00\x00\x00\x02\x00\x00\x40\x0d\x03\x00",
        ),
        Counts(0, 5, 0),
        Settles(Some(Agreed {
            send_size: 4_096,
            message_max: 4_294_967_295,
            read_write_max: None,
            credits_requested: 65_535,
        })),
    ];
    let server = EndLimits::check(5, 4_096, 512, 200_000, 16).expect(&rt, LAWFUL);
    follow(&rt, rt.alloc(), "largest", EndId::Server, server, &steps);
}
