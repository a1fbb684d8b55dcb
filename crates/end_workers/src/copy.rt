//! A copy.

ghost use Rattle.std.specs.Prelude.{◌≡◌, ◌≤◌, length, reverse, IfOk, OnErr};
ghost use Rattle.smbd_base.specs.History.{messages_submitted};
ghost use Rattle.copy_parts.specs.Options.{AreLawful};
ghost use Rattle.smbd_outside.specs.declared.status.Status.TheVariants as statuses;
ghost use Rattle.end_workers.specs.Progress.{GoesOn, IsOpened, IsUntouched};
ghost use Rattle.end_workers.specs.Promise.{KeepsPromise, Stream};

use copy_parts::{CopyOptions, Parts};
use file_messages::GROUP_SIZE;
use run_log::Told;
use smbd_base::{EndId, Event, NoMemory};
use std::alloc::Global;

/// A copy from a source to a sink, which is told to a log.
#[derive(Drop)]
pub struct Copy {
    pub(crate) alloc: Global,
    pub(crate) options: CopyOptions,
    pub(crate) parts: Parts,
    /// How far the log tells each end.
    pub(crate) client_told: Told,
    pub(crate) server_told: Told,
    /// The bytes of one group, on their way from the source to a machine.
    pub(crate) group: Vec<u8>,
    /// How many bytes were read, and whether their end was seen.
    pub(crate) read: u64,
    pub(crate) ended: bool,
}

/// What a copy came to.
#[derive(Clone, Copy, Debug, PartialEq, Eq)]
pub struct CopyReport {
    /// The bytes that were read.
    pub length: u64,
    /// The messages that the client submitted.
    pub requests: u32,
}

impl Copy {
    /// A copy of which nothing was read, written or told: both its ends have posted their receives.
    pub fn open(alloc: Global, options: &CopyOptions) -> Result<Copy, NoMemory>
        requires { AreLawful options.now }
        ensures opened { IfOk result (IsOpened options.now) }
        ensures on { IfOk result GoesOn }
        ensures stops { (from to log : Stream) → IsUntouched from → IsUntouched to → IsUntouched log → OnErr result (KeepsPromise statuses.NoMemory options.now from to log) }
    {
        let _credits = options.limits.credits();
        let group = Vec::with_capacity(alloc, GROUP_SIZE as usize)?;
        Ok(Copy {
            alloc,
            options: *options,
            parts: Parts::open(alloc, options)?,
            client_told: Told::nothing(),
            server_told: Told::nothing(),
            group,
            read: 0,
            ended: false,
        })
    }

    /// What the copy came to.
    pub fn finish(&self) -> CopyReport
        requires { GoesOn self.now }
        ensures length { result.length ≡ self.now.read }
        ensures requests { result.requests ≡ length (messages_submitted self.now.parts.world.client) }
    {
        CopyReport {
            length: self.read,
            requests: submitted_in(self.parts.history(EndId::Client)),
        }
    }
}

/// How many messages were submitted.
fn submitted_in(events: &[Event]) -> u32
    requires { length (messages_submitted (reverse events.now)) ≤ 4294967295 }
    ensures { result ≡ length (messages_submitted (reverse events.now)) }
{
    let mut count = 0;
    for event in events {
        if let Event::Submit(_) = event {
            count += 1;
        }
    }
    count
}
