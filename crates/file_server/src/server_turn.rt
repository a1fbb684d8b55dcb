//! The request that a server handles.

ghost use Rattle.std.specs.Prelude.{◌≡◌, ◌≤◌, [], IfOk, OnOk, OnErr, Some, None, length, map};
ghost use Rattle.file_messages.specs.declared.layout.TheConstants.{GROUP_SIZE};
ghost use Rattle.buffer_descriptor.specs.declared.descriptor.Descriptor.{Descriptor};
ghost use Rattle.file_messages.specs.declared.job.Work.{Work};
ghost use Rattle.file_messages.specs.declared.job.Work.TheVariants.{Fetch};
ghost use Rattle.file_messages.specs.Messages.{READ, reply_bytes};
ghost use Rattle.file_pasts.specs.ServerDue.{places_of, read_reply};
ghost use Rattle.file_server.specs.ServerTurn.{StartsAs, IsWithinBounds, filled_with, count_of};

use crate::server_outcomes::none_yet;
use crate::server_reply::{ReplyHeader, reply_of};
use buffer_descriptor::Descriptor;
use file_messages::{READ, Request, WRITE, Work, WorkResult};
use smbd_base::{Message, NoMemory};
use std::alloc::Global;
use std::collections::VecDeque;

/// What a READ got.
#[derive(Drop)]
pub(crate) struct Filled {
    /// How many bytes.
    pub(crate) count: u32,
    /// The reply that gives them, or tells that they are placed.
    pub(crate) reply: Message,
}

/// How far the request has come that is handled.
#[derive(Drop)]
pub(crate) struct Turn {
    /// The number of its first job.
    pub(crate) first: u64,
    /// The jobs that are due and were not given.
    pub(crate) due: VecDeque<Work>,
    /// What came of each of its jobs, in their order.
    pub(crate) outcomes: Vec<Option<WorkResult>>,
    /// What a READ got.
    pub(crate) filled: Option<Filled>,
    /// Room for the group that its Fetches bring.
    pub(crate) room: Vec<u8>,
}

/// What there is as soon as a request is handled.
#[derive(Drop)]
pub(crate) struct Start {
    pub(crate) turn: Turn,
    /// The group of a WRITE without registered pages.
    pub(crate) group: Option<Message>,
}

impl Start {
    /// No request is handled.
    pub(crate) fn nothing(alloc: Global, first: u64) -> Start
        ensures { StartsAs None 0 first result }
    {
        Start {
            turn: Turn {
                first,
                due: VecDeque::new(alloc),
                outcomes: Vec::new(alloc),
                filled: None,
                room: Vec::new(alloc),
            },
            group: None,
        }
    }

    /// This request is handled, with this status where an earlier one was refused, and 0 else. Its first job gets this
    /// number.
    pub(crate) fn of(
        alloc: Global,
        request: &Request,
        status: u16,
        first: u64,
    ) -> Result<Start, NoMemory>
        requires { IsWithinBounds request.now }
        ensures { IfOk result (StartsAs (Some request.now) status first) }
    {
        if status != 0 || request.op != WRITE {
            return Ok(Start::nothing(alloc, first));
        }
        if request.channel == 0 {
            let mut start = Start::nothing(alloc, first);
            start.group = Some(request.inline.share()?);
            return Ok(start);
        }
        let due = fetches(alloc, request.descriptors.list())?;
        Ok(Start {
            turn: Turn {
                first,
                outcomes: none_yet(alloc, &due)?,
                due,
                filled: None,
                room: Vec::with_capacity(alloc, request.length as usize)?,
            },
            group: None,
        })
    }
}

impl Turn {
    /// How many bytes the reply of success to this request counts; none as long as a READ got none.
    pub(crate) fn count(&self, request: &Request) -> Option<u32>
        ensures { result ≡ count_of request.now self.now.filled }
    {
        match request.op {
            WRITE => Some(request.length),
            READ => self.filled.as_ref().map(|filled| filled.count),
            _ => Some(0),
        }
    }

    /// Takes the bytes for a READ: the jobs that place them are due then.
    pub(crate) fn fill(
        &mut self,
        alloc: Global,
        request: &Request,
        bytes: &[u8],
    ) -> Result<(), NoMemory>
        requires short { length bytes.now ≤ GROUP_SIZE }
        requires op { request.now.op ≡ READ }
        ensures same { OnErr result (self.new ≡ self.old) }
        ensures first { self.new.first ≡ self.old.first }
        ensures due { OnOk result (self.new.due.items ≡ places_of request.now.descriptors bytes.now) }
        ensures outcomes { OnOk result (self.new.outcomes.items ≡ map (λ (w : Work). None) (places_of request.now.descriptors bytes.now)) }
        ensures filled { OnOk result (self.new.filled ≡ Some (filled_with request.now bytes.now)) }
        ensures room { self.new.room ≡ self.old.room }
    {
        let reply = filled_reply(alloc, request, bytes)?;
        let due = places(alloc, request.descriptors.list(), bytes)?;
        let outcomes = none_yet(alloc, &due)?;
        self.due = due;
        self.outcomes = outcomes;
        self.filled = Some(Filled {
            count: bytes.len() as u32,
            reply,
        });
        Ok(())
    }
}

/// The reply to a READ that got these bytes.
fn filled_reply(alloc: Global, request: &Request, bytes: &[u8]) -> Result<Message, NoMemory>
    requires short { length bytes.now ≤ GROUP_SIZE }
    requires op { request.now.op ≡ READ }
    ensures { IfOk result (λ m. m ≡ reply_bytes (read_reply request.now bytes.now)) }
{
    let header = ReplyHeader::success(request, bytes.len() as u32);
    let carried = if request.channel == 0 { bytes } else { &[] };
    reply_of(alloc, header, carried)
}

/// The jobs that read what these descriptors name.
fn fetches(alloc: Global, descriptors: &[Descriptor]) -> Result<VecDeque<Work>, NoMemory>
    ensures { IfOk result (λ jobs. jobs.items ≡ map (λ (d : Descriptor). Fetch d) descriptors.now) }
{
    let mut jobs = VecDeque::with_capacity(alloc, descriptors.len())?;
    for descriptor in descriptors {
        jobs.push_back(Work::Fetch {
            descriptor: *descriptor,
        })?;
    }
    Ok(jobs)
}

/// The jobs that place these bytes, each descriptor filled before the next. The last one names only the bytes that are
/// left for it.
fn places(
    alloc: Global,
    descriptors: &[Descriptor],
    bytes: &[u8],
) -> Result<VecDeque<Work>, NoMemory>
    ensures { IfOk result (λ jobs. jobs.items ≡ places_of descriptors.now bytes.now) }
{
    let mut jobs = VecDeque::with_capacity(alloc, descriptors.len())?;
    let mut left = bytes;
    for descriptor in descriptors {
        if left.is_empty() {
            break;
        }
        let (part, later) = left.split_at(left.len().min(descriptor.length as usize));
        jobs.push_back(Work::Place {
            descriptor: Descriptor {
                offset: descriptor.offset,
                token: descriptor.token,
                length: part.len() as u32,
            },
            bytes: Message::copy_of(alloc, part)?,
        })?;
        left = later;
    }
    Ok(jobs)
}
