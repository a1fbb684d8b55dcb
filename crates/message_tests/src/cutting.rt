//! Messages whose pieces are known.

ghost use Rattle.std.specs.Prelude.{◌<◌, ◌≤◌, ◌^◌, length};

use crate::MEMORY;
use fragmenter::{Cutter, Piece};
use smbd_base::Message;
use std::alloc::Global;
use std::process::Abort;

/// A message of so many bytes, cut into pieces of this size, has these: how many bytes are left, where the piece begins,
/// how long it is, and how many bytes come after it.
#[derive(Clone, Copy)]
struct Row<'a> {
    bytes: usize,
    payload: u32,
    pieces: &'a [(u32, u32, u32, u32)],
}

const ROWS: &[Row<'static>] = &[
    Row {
        bytes: 3_000,
        payload: 1_340,
        pieces: &[
            (3_000, 0, 1_340, 1_660),
            (1_660, 1_340, 1_340, 320),
            (320, 2_680, 320, 0),
        ],
    },
    Row {
        bytes: 1_340,
        payload: 1_340,
        pieces: &[(1_340, 0, 1_340, 0)],
    },
    Row {
        bytes: 1_341,
        payload: 1_340,
        pieces: &[(1_341, 0, 1_340, 1), (1, 1_340, 1, 0)],
    },
    Row {
        bytes: 1,
        payload: 1_340,
        pieces: &[(1, 0, 1, 0)],
    },
    Row {
        bytes: 104,
        payload: 104,
        pieces: &[(104, 0, 104, 0)],
    },
    Row {
        bytes: 209,
        payload: 104,
        pieces: &[(209, 0, 104, 105), (105, 104, 104, 1), (1, 208, 1, 0)],
    },
];

/// A cutter of so many bytes, none of which was given.
fn cutter_of(rt: &impl Abort, alloc: Global, bytes: usize, payload: u32) -> Cutter {
    let bytes = vec![in alloc; 7; bytes].expect(rt, MEMORY);
    let message = Message::of_bytes(bytes).expect(rt, MEMORY);
    assert!(rt; !message.is_empty() && message.len() < 1 << 32 && payload >= 104);
    Cutter::start(message, payload)
}

/// What a cutter shows before it gives its next piece, that piece, and how many bytes are left then.
fn give(cutter: &mut Cutter) -> (u32, Option<Piece>, Option<Piece>, u32) {
    let (rest, shown) = (cutter.rest(), cutter.peek());
    (rest, shown, cutter.next(), cutter.rest())
}

/// Has the cutter give each piece of the row, and then none.
fn give_all(rt: &impl Abort, cutter: &mut Cutter, pieces: &[(u32, u32, u32, u32)]) {
    for &(rest, from, length, remaining) in pieces {
        let piece = Some(Piece {
            from,
            length,
            remaining,
        });
        assert!(rt; give(cutter) == (rest, piece, piece, remaining), "{from}");
    }
    assert!(rt; give(cutter) == (0, None, None, 0));
    assert!(rt; give(cutter) == (0, None, None, 0));
}

#[test]
fn gives_each_piece_and_then_none(rt: HostRuntime) {
    for row in ROWS {
        let mut cutter = cutter_of(&rt, rt.alloc(), row.bytes, row.payload);
        give_all(&rt, &mut cutter, row.pieces);
        assert_eq!(rt; cutter.message().len(), row.bytes);
    }
}
