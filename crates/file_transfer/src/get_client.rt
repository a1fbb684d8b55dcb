//! The client's machine of a get.

ghost use Rattle.std.specs.Prelude.{◌≡◌, ◌≤◌, List, [], ◌∷◌, Option, option_map, IfOk, OnOk, OnErr};
ghost use Rattle.file_messages.specs.declared.kind.Channel.{Channel};
ghost use Rattle.file_messages.specs.Messages.{request_bytes};
ghost use Rattle.file_pasts.specs.ClientPast.{ClientEvent, Completed, Replied, AnswersJob, reply_fault, answers};
ghost use Rattle.file_pasts.specs.GetDue.{next_request, next_job, next_group, is_finished};
ghost use Rattle.file_transfer.specs.ClientJobs.{after_giving};
ghost use Rattle.file_transfer.specs.ClientStands.{past_after_sending, with_error};
ghost use Rattle.file_transfer.specs.GetStands.{after_receiving};
ghost use Rattle.file_transfer.specs.GetClientStands.{RoundsIfAny, CameBy, HasCome, MayComplete, MaySend};

use crate::get_groups::GetGroups;
use crate::get_inline::{next_inline, take_carried};
use crate::get_registered::{GetRounds, completed, next_registered};
use crate::get_requests::GetRequests;
use file_messages::{Channel, Completion, Job, ReplyFault};
use smbd_base::{Message, NoMemory};
use std::alloc::Global;

/// The client's machine of a get (this project's own): it gives the READs of 65,536 bytes and the jobs on registered pages
/// that are due, and the groups of bytes that came. It ends once a READ gave less.
///
/// Its contracts speak of its past, the list of all that it was handed and gave. Nothing keeps that list.
#[derive(Drop)]
pub struct GetClient {
    alloc: Global,
    requests: GetRequests,
    groups: GetGroups,
    /// The rounds over registered pages, if the bytes travel through them.
    rounds: Option<GetRounds>,
}

impl GetClient {
    /// A machine that was handed nothing, for a pool of so many pages, from 16 to 255, of which the first 16 are used, and
    /// none without registered pages.
    pub fn open(alloc: Global, channel: Channel, _pages: u16) -> Result<GetClient, NoMemory>
        requires least { 16 ≤ _pages }
        requires most { _pages ≤ 255 }
        ensures { IfOk result (CameBy channel []) }
    {
        let rounds = rounds_over(alloc, channel)?;
        Ok(GetClient {
            alloc,
            requests: GetRequests::new(alloc),
            groups: GetGroups::new(alloc),
            rounds,
        })
    }

    /// The next job on registered pages that is due, if one is due and was not given. It takes no memory.
    pub fn next_job(&mut self) -> Option<Job>
        requires { HasCome self.old }
        ensures due { (channel : Channel) (past : List ClientEvent) → CameBy channel past self.old → result ≡ next_job channel past }
        ensures after { (channel : Channel) (past : List ClientEvent) → CameBy channel past self.old → CameBy channel (after_giving (next_job channel past) past) self.new }
    {
        if self.requests.has_failed() {
            return None;
        }
        let _sent = self.requests.sent();
        match &mut self.rounds {
            Some(rounds) => rounds.next_job(),
            None => None,
        }
    }

    /// A job that was given is completed. It takes no memory.
    pub fn completed(&mut self, completion: Completion)
        requires { MayComplete self.old completion }
        ensures { (channel : Channel) (past : List ClientEvent) → CameBy channel past self.old → AnswersJob past completion → CameBy channel (Completed completion ∷ past) self.new }
    {
        if let Some(rounds) = &mut self.rounds {
            completed(&self.requests, &mut self.groups, rounds, completion);
        }
    }

    /// The next request that is due, if one is due: a READ, or END after a READ that gave less than its length. Room is made
    /// for what it asks for.
    pub fn next_message(&mut self) -> Result<Option<Message>, NoMemory>
        requires { MaySend self.old }
        ensures due { (channel : Channel) (past : List ClientEvent) → CameBy channel past self.old → IfOk result (λ m. m ≡ option_map request_bytes (next_request channel past)) }
        ensures after { (channel : Channel) (past : List ClientEvent) → CameBy channel past self.old → OnOk result (CameBy channel (past_after_sending (next_request channel past) past) self.new) }
        ensures same { (channel : Channel) (past : List ClientEvent) → CameBy channel past self.old → OnErr result (CameBy channel past self.new) }
    {
        match &mut self.rounds {
            None => next_inline(self.alloc, &mut self.requests, &mut self.groups),
            Some(rounds) => next_registered(
                self.alloc,
                &mut self.requests,
                &mut self.groups,
                rounds,
            ),
        }
    }

    /// Takes a reply to the request that has none. A reply that is refused makes the machine fail: that fault is answered to
    /// each later reply, and nothing is due any more. It takes no memory, and `File(NoMemory)` is not answered.
    pub fn reply(&mut self, message: &Message) -> Result<(), ReplyFault>
        requires { HasCome self.old }
        ensures answer { (channel : Channel) (past : List ClientEvent) → CameBy channel past self.old → with_error result ≡ reply_fault (answers past) message.now }
        ensures after { (channel : Channel) (past : List ClientEvent) → CameBy channel past self.old → CameBy channel (Replied message.now ∷ past) self.new }
    {
        let pages = self.requests.reply(message)?;
        match &mut self.rounds {
            None => take_carried(&mut self.groups, message),
            Some(rounds) => rounds.unload(pages.as_slice()),
        }
        Ok(())
    }

    /// The next group of bytes that came, if one came and was not given. It takes no memory.
    pub fn received(&mut self) -> Option<Message>
        requires { HasCome self.old }
        ensures due { (channel : Channel) (past : List ClientEvent) → CameBy channel past self.old → result ≡ next_group channel past }
        ensures after { (channel : Channel) (past : List ClientEvent) → CameBy channel past self.old → CameBy channel (after_receiving (next_group channel past) past) self.new }
    {
        if self.requests.has_failed() {
            return None;
        }
        self.groups.next()
    }

    /// Whether the reply to END was taken.
    pub fn finished(&self) -> bool
        ensures { (channel : Channel) (past : List ClientEvent) → CameBy channel past self.now → result ≡ is_finished past }
    {
        self.requests.finished()
    }
}

/// The rounds of a get whose bytes travel so.
fn rounds_over(alloc: Global, channel: Channel) -> Result<Option<GetRounds>, NoMemory>
    ensures { IfOk result (RoundsIfAny channel []) }
{
    match channel {
        Channel::None => Ok(None),
        Channel::V1 => Ok(Some(GetRounds::open(alloc)?)),
    }
}
