//! Copies in which something fails at each place: what they answer, and what the log and the sink have then.

use crate::checker::{Copied, Told, tell};
use crate::outside::Ran;
use file_messages::{Channel, CopyKind};
use smbd_base::EndLimits;
use std::alloc::Global;
use std::process::Abort;

mod calls;
mod cuts;
mod lies;

/// The workers of each end where the words name none.
const WORKERS: u8 = 4;

/// A copy of each kind over each channel: its words, with the receive credits of both ends.
#[derive(Clone, Copy)]
struct Way {
    words: &'static [&'static str],
    kind: CopyKind,
    channel: Channel,
    credits: u16,
}

const PUT: Way = Way {
    words: &["put", "--channel", "none"],
    kind: CopyKind::Put,
    channel: Channel::None,
    credits: 255,
};

const PUT_OVER_PAGES: Way = Way {
    words: &["put"],
    kind: CopyKind::Put,
    channel: Channel::V1,
    credits: 255,
};

const GET: Way = Way {
    words: &["get", "--channel", "none"],
    kind: CopyKind::Get,
    channel: Channel::None,
    credits: 255,
};

const GET_OVER_PAGES: Way = Way {
    words: &["get"],
    kind: CopyKind::Get,
    channel: Channel::V1,
    credits: 255,
};

impl Way {
    /// What its log is held against.
    fn copied<'a>(&self, rt: &impl Abort, bytes: &'a [u8]) -> Copied<'a> {
        let limits = EndLimits::check(self.credits, 1_364, 8_192, 1_048_576, 64);
        Copied {
            kind: self.kind,
            channel: self.channel,
            workers: WORKERS,
            limits: limits.expect(rt, "lawful limits"),
            bytes,
        }
    }
}

/// The groups of which the log tells that their bytes came where the sink is, in bytes.
fn bytes_brought(copied: &Copied<'_>, told: &Told) -> usize {
    let most = copied.bytes.len();
    told.groups_brought.saturating_mul(65_536).min(most)
}

/// Whether the sink has a front of these bytes, of whole groups; the last one may be shorter.
fn is_of_groups(bytes: &[u8], taken: &[u8]) -> bool {
    bytes.starts_with(taken) && (taken.len() % 65_536 == 0 || taken.len() == bytes.len())
}

/// What the log of a copy tells. It has a front of lawful histories, and the sink a front of the groups that it tells.
fn told_by(rt: &impl Abort, alloc: Global, name: &str, copied: &Copied<'_>, ran: &Ran) -> Told {
    let answer = tell(rt, alloc, copied, ran.log.taken());
    assert!(rt; answer.is_ok(), "{name}: {answer:?}");
    let told = answer.expect(rt, name);
    assert!(rt; is_of_groups(copied.bytes, ran.sink.taken()), "{name}");
    let most = bytes_brought(copied, &told);
    assert!(rt; ran.sink.taken().len() <= most, "{name}");
    told
}
