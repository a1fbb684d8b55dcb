//! The server of a copy.

ghost use Rattle.std.specs.Prelude.{◌≡◌, ◌+◌, ◌<◌, ◌≤◌, ◌==◌, ◌||◌, ◌++◌, ℕ, List, [], ◌∷◌, ◌&&◌, ◌⊎◌, IfOk, IfErr, IfSome, IsNone, OnOk, OnErr, Err, Ok, Some, None, drop, slice_get, option_map, option_to_list, is_none, length, not, if◌then◌else◌};
ghost use Rattle.std.specs.VecDeque.{deque_len, deque_capacity};
ghost use Rattle.file_messages.specs.declared.kind.CopyKind.{CopyKind};
ghost use Rattle.file_messages.specs.declared.fault.FileFault.{FileFault};
ghost use Rattle.file_messages.specs.declared.message.Request.{Request};
ghost use Rattle.file_messages.specs.declared.message.Reply.{Reply};
ghost use Rattle.file_messages.specs.Messages.{WRITE, READ, reply_bytes, request_of};
ghost use Rattle.file_pasts.specs.ServerDue.{ServerEvent, Asked, Completed, Filled as WasFilled, replies, requests, judgement, judged, is_out_of_order, handled, wants_source, next_job, next_reply, next_group, AnswersJob};
ghost use Rattle.file_server.specs.ServerTurn.{StartsAs, is_success, status_from, header_in, header_of};
ghost use Rattle.file_server.specs.ServerStands.{CameBy, HasCome, MayFill, MayComplete, MayAccept, AnswersRequest, lasts, after_request, after_giving, after_replying, after_storing};

use crate::server_course::Course;
use crate::server_outcomes::{joined, note, status_of};
use crate::server_reply::{ReplyHeader, reply_of};
use crate::server_turn::{Start, Turn};
use file_messages::{Completion, CopyKind, FileFault, Job, READ, Request, WRITE, read_request};
use smbd_base::{Message, NoMemory};
use std::alloc::Global;
use std::collections::VecDeque;
use std::mem;

/// The server of one copy: it takes requests, and makes the jobs, the replies and the groups of bytes that they ask for.
/// It handles one request at a time, in their order.
#[derive(Drop)]
pub struct FileServer {
    alloc: Global,
    kind: CopyKind,
    /// The accepted requests without a reply, the oldest first. The first one is handled.
    waiting: VecDeque<Request>,
    course: Course,
    /// Why a request was refused: every later one is refused for the same.
    fault: Option<FileFault>,
    /// The status with which a request was answered because an access was refused, or 0. Every later one is answered with it.
    status: u16,
    /// How many jobs were given.
    given: u64,
    turn: Turn,
    /// The groups that are there and were not given.
    groups: VecDeque<Message>,
}

impl FileServer {
    /// The server of a copy of this kind, to which nothing has come.
    pub fn open(alloc: Global, kind: CopyKind) -> Result<FileServer, NoMemory>
        ensures { IfOk result (λ s. CameBy kind [] s) }
    {
        Ok(FileServer {
            alloc,
            kind,
            waiting: VecDeque::new(alloc),
            course: Course {
                accepted: 0,
                ended: false,
                written: 0,
                counted: 0,
            },
            fault: None,
            status: 0,
            given: 0,
            turn: Start::nothing(alloc, 0).turn,
            groups: VecDeque::with_capacity(alloc, 1)?,
        })
    }

    /// Takes a message as the next request, or refuses it with the first fault that applies; then every later one is
    /// refused with it. Without memory it is as if the message had not come.
    pub fn request(&mut self, message: &Message) -> Result<(), FileFault>
        requires { HasCome self.old }
        ensures answer { (kind : CopyKind) (past : List ServerEvent) → CameBy kind past self.old → AnswersRequest result (judgement kind (requests kind past) (replies past) message.now) }
        ensures after { (kind : CopyKind) (past : List ServerEvent) → CameBy kind past self.old → CameBy kind (after_request result message.now past) self.new }
    {
        if let Some(fault) = self.fault {
            return Err(fault);
        }
        match self.judged(message) {
            Ok(request) => Ok(self.accept(request)?),
            Err(fault) => {
                if lasts(fault) {
                    self.fault = Some(fault);
                }
                Err(fault)
            }
        }
    }

    /// How many bytes are wanted for the READ that is handled; none where none are.
    pub fn wants_source(&self) -> Option<u32>
        requires { HasCome self.now }
        ensures { (kind : CopyKind) (past : List ServerEvent) → CameBy kind past self.now → result ≡ wants_source kind past }
    {
        let request = first_of(&self.waiting)?;
        self.wants(request).then_some(request.length)
    }

    /// Takes the bytes for the READ that is handled: at most so many as are wanted. Fewer mean that no more come.
    pub fn source(&mut self, bytes: &[u8]) -> Result<(), NoMemory>
        requires { MayFill self.old bytes.now }
        ensures filled { (kind : CopyKind) (past : List ServerEvent) → CameBy kind past self.old → OnOk result (CameBy kind (WasFilled bytes.now ∷ past) self.new) }
        ensures same { (kind : CopyKind) (past : List ServerEvent) → CameBy kind past self.old → OnErr result (CameBy kind past self.new) }
    {
        if let Some(request) = first_of(&self.waiting) {
            self.turn.fill(self.alloc, request, bytes)?;
        }
        Ok(())
    }

    /// The next job that is due. This takes no memory.
    pub fn next_job(&mut self) -> Option<Job>
        requires { HasCome self.old }
        ensures due { (kind : CopyKind) (past : List ServerEvent) → CameBy kind past self.old → result ≡ next_job kind past }
        ensures after { (kind : CopyKind) (past : List ServerEvent) → CameBy kind past self.old → CameBy kind (after_giving (next_job kind past) past) self.new }
    {
        let work = self.turn.due.pop_front()?;
        let number = self.given;
        self.given += 1;
        Some(Job { number, work })
    }

    /// Takes what came of a job. This takes no memory.
    pub fn completed(&mut self, completion: Completion)
        requires { MayComplete self.old completion }
        ensures { (kind : CopyKind) (past : List ServerEvent) → CameBy kind past self.old → AnswersJob kind past completion → CameBy kind (Completed completion ∷ past) self.new }
    {
        let place = (completion.number - self.turn.first) as usize;
        note(&mut self.turn.outcomes, place, completion.result);
        if self.has_fetched() {
            let room = mem::replace(&mut self.turn.room, Vec::new(self.alloc));
            let group = joined(room, &self.turn.outcomes);
            self.groups.push_back_reserved(Message::owned(group));
        }
    }

    /// The next reply that is due.
    pub fn next_message(&mut self) -> Result<Option<Message>, NoMemory>
        requires { HasCome self.old }
        ensures due { (kind : CopyKind) (past : List ServerEvent) → CameBy kind past self.old → IfOk result (λ m. m ≡ option_map reply_bytes (next_reply kind past)) }
        ensures after { (kind : CopyKind) (past : List ServerEvent) → CameBy kind past self.old → OnOk result (CameBy kind (after_replying (next_reply kind past) past) self.new) }
        ensures same { (kind : CopyKind) (past : List ServerEvent) → CameBy kind past self.old → OnErr result (CameBy kind past self.new) }
    {
        let Some(header) = self.reply() else {
            return Ok(None);
        };
        let message = self.written(header)?;
        let start = self.start_of_next(header.status)?;
        self.groups.reserve(1)?;
        let _ = self.waiting.pop_front();
        self.course.counted += u64::from(header.count);
        self.status = header.status;
        self.turn = start.turn;
        put(&mut self.groups, start.group);
        Ok(Some(message))
    }

    /// The next group of bytes that came by a WRITE. This takes no memory.
    pub fn stored(&mut self) -> Option<Message>
        requires { HasCome self.old }
        ensures due { (kind : CopyKind) (past : List ServerEvent) → CameBy kind past self.old → result ≡ next_group kind past }
        ensures after { (kind : CopyKind) (past : List ServerEvent) → CameBy kind past self.old → CameBy kind (after_storing (next_group kind past) past) self.new }
    {
        self.groups.pop_front()
    }

    /// Whether bytes are wanted for this request, which is handled.
    fn wants(&self, request: &Request) -> bool
        ensures { result ≡ (request.now.op == READ && self.now.status == 0 && is_none self.now.turn.filled) }
    {
        request.op == READ && self.status == 0 && self.turn.filled.is_none()
    }

    /// The request that the message says, or why it is none in its turn.
    fn judged(&self, message: &Message) -> Result<Request, FileFault>
        requires { HasCome self.now }
        ensures ok { (kind : CopyKind) (past : List ServerEvent) → CameBy kind past self.now → IfOk result (λ r. judged kind (requests kind past).accepted (replies past) (request_of message.now) ≡ Ok r) }
        ensures refused { (kind : CopyKind) (past : List ServerEvent) → CameBy kind past self.now → IfErr result (λ f. (f ≡ FileFault.NoMemory) ⊎ (judged kind (requests kind past).accepted (replies past) (request_of message.now) ≡ Err f)) }
    {
        let request = read_request(self.alloc, message.bytes())?;
        if self.is_out_of_turn(&request) {
            return Err(FileFault::Order);
        }
        Ok(request)
    }

    fn is_out_of_turn(&self, request: &Request) -> bool
        requires { HasCome self.now }
        ensures { (kind : CopyKind) (past : List ServerEvent) → CameBy kind past self.now → result ≡ is_out_of_order kind (requests kind past).accepted (replies past) request.now }
    {
        let late = self.course.is_late(request);
        match self.kind {
            CopyKind::Put => late || request.op == READ || request.offset != self.course.written,
            CopyKind::Get => {
                late || request.op == WRITE
                    || request.offset != self.course.counted
                    || !is_empty(&self.waiting)
            }
        }
    }

    /// Accepts a request in its turn. It is handled at once where no other one waits.
    fn accept(&mut self, request: Request) -> Result<(), NoMemory>
        requires { MayAccept self.old request }
        ensures accepted { (kind : CopyKind) (past : List ServerEvent) (message : List ℕ) → CameBy kind past self.old → judgement kind (requests kind past) (replies past) message ≡ Ok request
            → OnOk result (CameBy kind (Asked message ∷ past) self.new) }
        ensures same { (kind : CopyKind) (past : List ServerEvent) → CameBy kind past self.old → OnErr result (CameBy kind past self.new) }
    {
        let course = self.course.with(&request);
        if !is_empty(&self.waiting) {
            self.waiting.push_back(request)?;
            self.course = course;
            return Ok(());
        }
        let start = Start::of(self.alloc, &request, self.status, self.given)?;
        self.waiting.push_back(request)?;
        self.course = course;
        self.turn = start.turn;
        put(&mut self.groups, start.group);
        Ok(())
    }

    /// The header of the reply that is due.
    fn reply(&self) -> Option<ReplyHeader>
        requires { HasCome self.now }
        ensures some { (r : Request) (later : List Request) → self.now.waiting.items ≡ r ∷ later → result ≡ header_of r self.now.status self.now.turn.outcomes.items self.now.turn.filled }
        ensures none { self.now.waiting.items ≡ [] → result ≡ None }
    {
        let request = first_of(&self.waiting)?;
        let status = match self.status {
            0 => status_of(&self.turn.outcomes)?,
            status => status,
        };
        if status != 0 {
            return Some(ReplyHeader::refusal(request, status));
        }
        let count = self.turn.count(request)?;
        Some(ReplyHeader::success(request, count))
    }

    /// The reply of this header. That of a READ was written when its bytes came.
    fn written(&self, header: ReplyHeader) -> Result<Message, NoMemory>
        ensures { (kind : CopyKind) (past : List ServerEvent) (reply : Reply) → CameBy kind past self.now → next_reply kind past ≡ Some reply → header ≡ header_in reply
            → IfOk result (λ m. m ≡ reply_bytes reply) }
    {
        match &self.turn.filled {
            Some(filled) if header.status == 0 => filled.reply.share(),
            _ => reply_of(self.alloc, header, &[]),
        }
    }

    /// What there is as soon as the request after the one that is handled is handled itself, once that one was answered
    /// with this status.
    fn start_of_next(&self, status: u16) -> Result<Start, NoMemory>
        requires { HasCome self.now }
        ensures { IfOk result (StartsAs (slice_get self.now.waiting.items 1) status self.now.given) }
    {
        match second_of(&self.waiting) {
            Some(request) => Start::of(self.alloc, request, status, self.given),
            None => Ok(Start::nothing(self.alloc, self.given)),
        }
    }

    /// Whether a WRITE is handled, all of its Fetches are completed, and none was refused.
    fn has_fetched(&self) -> bool
        ensures { (r : Request) (later : List Request) → self.now.waiting.items ≡ r ∷ later → result ≡ (r.op == WRITE && is_success (status_from 0 self.now.turn.outcomes.items)) }
    {
        match first_of(&self.waiting) {
            Some(request) => request.op == WRITE && is_success(status_of(&self.turn.outcomes)),
            None => false,
        }
    }
}

/// Whether a fault is one of the message, and not want of memory.
fn lasts(fault: FileFault) -> bool
    ensures { result ≡ lasts fault }
{
    !matches!(fault, FileFault::NoMemory)
}

fn is_success(status: Option<u16>) -> bool
    ensures { result ≡ is_success status }
{
    matches!(status, Some(0))
}

fn is_empty(requests: &VecDeque<Request>) -> bool
    ensures { result ≡ (length requests.now.items == 0) }
{
    requests.is_empty()
}

fn first_of(requests: &VecDeque<Request>) -> Option<&Request>
    ensures some { IfSome result (λ r. requests.now.items ≡ r.now ∷ drop 1 requests.now.items) }
    ensures none { IsNone result → requests.now.items ≡ [] }
{
    requests.front()
}

fn second_of(requests: &VecDeque<Request>) -> Option<&Request>
    ensures some { IfSome result (λ r. slice_get requests.now.items 1 ≡ Some r.now) }
    ensures none { IsNone result → slice_get requests.now.items 1 ≡ None }
{
    requests.get(1)
}

/// Puts a group that is there behind the others.
fn put(groups: &mut VecDeque<Message>, group: Option<Message>)
    requires { deque_len groups.old + length (option_to_list group) ≤ deque_capacity groups.old }
    ensures items { groups.new.items ≡ groups.old.items ++ option_to_list group }
    ensures len { deque_len groups.new ≡ deque_len groups.old + length (option_to_list group) }
    ensures capacity { deque_capacity groups.new ≡ deque_capacity groups.old }
{
    if let Some(group) = group {
        groups.push_back_reserved(group);
    }
}
