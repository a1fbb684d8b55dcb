//! The run of one end against frames of any peer.

ghost use Rattle.std.specs.Prelude.{◌≡◌, ◌≤◌, length, IfOk};
ghost use Rattle.world_core.specs.Raw as spec;

use crate::raw_end::RawEnd;
use smbd_base::{EndId, EndLimits, Frame, Message, NoMemory, TakeFault};
use std::alloc::Global;
use std::marker::Model;

/// What became of a raw run (this project's own). Contracts see the messages that were delivered, the number of frames that
/// were sent, and the frame at which the run ended, if it was not the last one.
#[derive(Drop)]
pub struct RawRun {
    messages: Vec<Message>,
    sent: u32,
    refusal: Option<(u32, TakeFault)>,
    unplaced: Option<u32>,
}

impl Model for RawRun {
    ghost use Rattle.world_core.specs.Raw.{Told};

    ghost Value = { Told };

    ghost view = { λ r. record { delivered = r.messages.items; emitted = r.sent; refused = r.refusal; unposted = r.unplaced } };
}

impl RawRun {
    pub(crate) fn new(
        messages: Vec<Message>,
        sent: u32,
        refusal: Option<(u32, TakeFault)>,
        unplaced: Option<u32>,
    ) -> RawRun
        ensures { result ≡ record { delivered = messages.items; emitted = sent; refused = refusal; unposted = unplaced } }
    {
        RawRun {
            messages,
            sent,
            refusal,
            unplaced,
        }
    }

    /// The messages that the end delivered, the oldest one first.
    pub fn delivered(&self) -> &[Message]
        ensures { result.now ≡ self.now.delivered }
    {
        self.messages.as_slice()
    }

    /// The frames that the end sent.
    pub fn emitted(&self) -> u32
        ensures { result ≡ self.now.emitted }
    {
        self.sent
    }

    /// The frame that was refused and ended the run, by its number among all frames, from 1, and its fault.
    pub fn refused(&self) -> Option<(u32, TakeFault)>
        ensures { result ≡ self.now.refused }
    {
        self.refusal
    }

    /// The frame that found no receive and ended the run, by its number among all frames, from 1.
    pub fn unposted(&self) -> Option<u32>
        ensures { result ≡ self.now.unposted }
    {
        self.unplaced
    }
}

/// Runs an end against frames of a peer that may send anything. They come in bursts of `burst` frames, the last one shorter.
/// Before each burst, and after each frame that it takes, the end does what comes next until it is idle or only a cut may
/// follow; the frames that it sends are counted and let go. All frames of a burst arrive, each in a receive that was posted, and
/// then they are taken one by one. The first frame that finds no receive ends the run before any frame of its burst is taken;
/// the first that is refused ends it once the end has done what comes next.
pub fn run_raw(
    alloc: Global,
    end: EndId,
    limits: EndLimits,
    burst: u16,
    frames: &[Frame],
) -> Result<RawRun, NoMemory>
    requires burst { 1 ≤ burst }
    requires few { length frames.now ≤ 2147483647 }
    ensures { IfOk result (λ told. spec.IsRawRun end limits burst frames.now told) }
{
    let size = usize::from(burst);
    let mut raw = RawEnd::open(alloc, end, limits)?;
    raw.settle()?;
    let mut rest = frames;
    while !rest.is_empty() {
        let (now, later) = rest.split_at(size.min(rest.len()));
        if let Some(number) = raw.arrive_all(now)? {
            return Ok(raw.told(None, Some(number)));
        }
        if let Some(refused) = raw.take_all(now)? {
            return Ok(raw.told(Some(refused), None));
        }
        rest = later;
    }
    Ok(raw.told(None, None))
}
