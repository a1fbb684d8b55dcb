//! The client's machine of a copy of either kind.

ghost use Rattle.std.specs.Prelude.{◌≡◌, ◌≤◌, ℕ, true, List, [], ◌∷◌, Option, option_map, IfOk, OnOk, OnErr};
ghost use Rattle.file_messages.specs.declared.kind.Channel.{Channel};
ghost use Rattle.file_messages.specs.declared.kind.CopyKind.{CopyKind};
ghost use Rattle.file_messages.specs.Messages.{request_bytes};
ghost use Rattle.file_pasts.specs.ClientPast.{ClientEvent, Group, Completed, Replied, AnswersJob, reply_fault, answers};
ghost use Rattle.file_transfer.specs.ClientJobs.{after_giving};
ghost use Rattle.file_transfer.specs.ClientStands.{past_after_sending, with_error};
ghost use Rattle.file_transfer.specs.GetStands.{after_receiving};
ghost use Rattle.copy_ends.specs.Clients.{ClientCameBy, HasCome, MayHand, MayComplete, MaySend};
ghost use Rattle.copy_laws.specs.Kinds.{request_due, job_due, group_wanted, group_due, is_over, after_end};

use file_messages::{Channel, Completion, CopyKind, Job, ReplyFault};
use file_transfer::{GetClient, PutClient};
use smbd_base::{Message, NoMemory};
use std::alloc::Global;

/// The client's machine of a copy (this project's own).
///
/// Its contracts speak of its past, the list of all that it was handed and gave. Nothing keeps that list.
#[derive(Drop)]
pub enum ClientMachine {
    /// Of a put: it is handed the bytes to be written, in groups.
    Put(PutClient),
    /// Of a get: it gives the bytes that were read, in groups.
    Get(GetClient),
}

impl ClientMachine {
    /// A machine that was handed nothing, for a pool of so many pages, from 16 to 255. Without registered pages the pool is
    /// not used.
    pub fn open(
        alloc: Global,
        kind: CopyKind,
        channel: Channel,
        pages: u16,
    ) -> Result<ClientMachine, NoMemory>
        requires least { 16 ≤ pages }
        requires most { pages ≤ 255 }
        ensures { IfOk result (ClientCameBy kind channel pages []) }
    {
        match kind {
            CopyKind::Put => Ok(ClientMachine::Put(PutClient::open(alloc, channel, pages)?)),
            CopyKind::Get => Ok(ClientMachine::Get(GetClient::open(alloc, channel, pages)?)),
        }
    }

    /// The next job on registered pages that is due, if one is due and was not given. It takes no memory.
    pub fn next_job(&mut self) -> Option<Job>
        requires { HasCome self.old }
        ensures due { (kind : CopyKind) (channel : Channel) (pages : ℕ) (past : List ClientEvent) → ClientCameBy kind channel pages past self.old
            → result ≡ job_due kind channel pages past }
        ensures after { (kind : CopyKind) (channel : Channel) (pages : ℕ) (past : List ClientEvent) → ClientCameBy kind channel pages past self.old
            → ClientCameBy kind channel pages (after_giving (job_due kind channel pages past) past) self.new }
    {
        match self {
            ClientMachine::Put(machine) => machine.next_job(),
            ClientMachine::Get(machine) => machine.next_job(),
        }
    }

    /// A job that was given is completed. It takes no memory.
    pub fn completed(&mut self, completion: Completion)
        requires { MayComplete self.old completion }
        ensures { (kind : CopyKind) (channel : Channel) (pages : ℕ) (past : List ClientEvent) → ClientCameBy kind channel pages past self.old
            → AnswersJob past completion → ClientCameBy kind channel pages (Completed completion ∷ past) self.new }
    {
        match self {
            ClientMachine::Put(machine) => machine.completed(completion),
            ClientMachine::Get(machine) => machine.completed(completion),
        }
    }

    /// The next request, if one is due and was not given. The machine gives fewer than 4,294,967,296 of them. Where memory
    /// is wanting it stands as before.
    pub fn next_message(&mut self) -> Result<Option<Message>, NoMemory>
        requires { MaySend self.old }
        ensures due { (kind : CopyKind) (channel : Channel) (pages : ℕ) (past : List ClientEvent) → ClientCameBy kind channel pages past self.old
            → IfOk result (λ m. m ≡ option_map request_bytes (request_due kind channel pages past)) }
        ensures after { (kind : CopyKind) (channel : Channel) (pages : ℕ) (past : List ClientEvent) → ClientCameBy kind channel pages past self.old
            → OnOk result (ClientCameBy kind channel pages (past_after_sending (request_due kind channel pages past) past) self.new) }
        ensures same { (kind : CopyKind) (channel : Channel) (pages : ℕ) (past : List ClientEvent) → ClientCameBy kind channel pages past self.old
            → OnErr result (ClientCameBy kind channel pages past self.new) }
    {
        match self {
            ClientMachine::Put(machine) => machine.next_message(),
            ClientMachine::Get(machine) => machine.next_message(),
        }
    }

    /// Takes a reply to the oldest request that has none. A reply that is refused makes the machine fail: that fault is
    /// answered to each later reply, and nothing is due any more. It takes no memory, and `File(NoMemory)` is not answered.
    pub fn reply(&mut self, message: &Message) -> Result<(), ReplyFault>
        requires { HasCome self.old }
        ensures answer { (kind : CopyKind) (channel : Channel) (pages : ℕ) (past : List ClientEvent) → ClientCameBy kind channel pages past self.old
            → with_error result ≡ reply_fault (answers past) message.now }
        ensures after { (kind : CopyKind) (channel : Channel) (pages : ℕ) (past : List ClientEvent) → ClientCameBy kind channel pages past self.old
            → ClientCameBy kind channel pages (Replied message.now ∷ past) self.new }
    {
        match self {
            ClientMachine::Put(machine) => machine.reply(message),
            ClientMachine::Get(machine) => machine.reply(message),
        }
    }

    /// Whether the reply to END was taken.
    pub fn finished(&self) -> bool
        ensures { (kind : CopyKind) (channel : Channel) (pages : ℕ) (past : List ClientEvent) → ClientCameBy kind channel pages past self.now
            → result ≡ is_over kind past }
    {
        match self {
            ClientMachine::Put(machine) => machine.finished(),
            ClientMachine::Get(machine) => machine.finished(),
        }
    }

    /// Whether a group may be handed in; never to a get.
    pub fn wants_group(&self) -> bool
        ensures { (kind : CopyKind) (channel : Channel) (pages : ℕ) (past : List ClientEvent) → ClientCameBy kind channel pages past self.now
            → result ≡ group_wanted kind channel pages past }
    {
        match self {
            ClientMachine::Put(machine) => machine.wants_group(),
            ClientMachine::Get(_machine) => false,
        }
    }

    /// Takes the next group of a put, of 1 to 65,536 bytes. They are copied once. Where memory is wanting nothing is kept of them.
    pub fn group(&mut self, bytes: &[u8]) -> Result<(), NoMemory>
        requires { MayHand self.old bytes.now }
        ensures handed { (kind : CopyKind) (channel : Channel) (pages : ℕ) (past : List ClientEvent) → ClientCameBy kind channel pages past self.old
            → group_wanted kind channel pages past ≡ true → OnOk result (ClientCameBy kind channel pages (Group bytes.now ∷ past) self.new) }
        ensures same { (kind : CopyKind) (channel : Channel) (pages : ℕ) (past : List ClientEvent) → ClientCameBy kind channel pages past self.old
            → OnErr result (ClientCameBy kind channel pages past self.new) }
    {
        match self {
            ClientMachine::Put(machine) => machine.group(bytes),
            ClientMachine::Get(_machine) => Ok(()),
        }
    }

    /// No more groups come. To say it again changes nothing, nor to say it to a get.
    pub fn end(&mut self)
        ensures { (kind : CopyKind) (channel : Channel) (pages : ℕ) (past : List ClientEvent) → ClientCameBy kind channel pages past self.old
            → ClientCameBy kind channel pages (after_end kind past) self.new }
    {
        match self {
            ClientMachine::Put(machine) => machine.end(),
            ClientMachine::Get(_machine) => {}
        }
    }

    /// The next group of bytes that came of a get, if one came and was not given; none of a put. It takes no memory.
    pub fn received(&mut self) -> Option<Message>
        requires { HasCome self.old }
        ensures due { (kind : CopyKind) (channel : Channel) (pages : ℕ) (past : List ClientEvent) → ClientCameBy kind channel pages past self.old
            → result ≡ group_due kind channel past }
        ensures after { (kind : CopyKind) (channel : Channel) (pages : ℕ) (past : List ClientEvent) → ClientCameBy kind channel pages past self.old
            → ClientCameBy kind channel pages (after_receiving (group_due kind channel past) past) self.new }
    {
        match self {
            ClientMachine::Put(_machine) => None,
            ClientMachine::Get(machine) => machine.received(),
        }
    }
}
