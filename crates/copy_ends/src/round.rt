//! What an end of a copy does in a round.

ghost use Rattle.std.specs.Prelude.{◌≡◌, ◌+◌, ◌<◌, ℕ, true, false, not, Err, List, Option, IfOk, OnOk, OnErr};
ghost use Rattle.smbd_base.specs.declared.end_id.EndId.TheVariants as side;
ghost use Rattle.file_messages.specs.declared.kind.Channel.{Channel};
ghost use Rattle.file_messages.specs.declared.kind.CopyKind.{CopyKind};
ghost use Rattle.file_pasts.specs.ClientPast.{ClientEvent};
ghost use Rattle.file_pasts.specs.ServerDue.{ServerEvent};
ghost use Rattle.copy_ends.specs.declared.round.Share.TheVariants as shares;
ghost use Rattle.copy_ends.specs.Cuts.{AreLeft, IsLast, HasBeenCut, HasSentNext, HasSentNone, frames_sent, frames_next, rests};
ghost use Rattle.copy_ends.specs.Turns.{IsUp, HasActed, HasAdded, TakesNothing};
ghost use Rattle.copy_ends.specs.Ends.{ClientStands, ClientGoesOn, HasNoRequest, MayTalk, ServerStands, ServerGoesOn, HasNoReply, MayServe, lacks_memory};

use crate::client_machine::ClientMachine;
use crate::turns::{carry, drive, submit};
use file_messages::FileFault;
use file_server::FileServer;
use smbd_base::{EndId, NoMemory};
use world_core::{Choice, World};

/// What the client's share of a round came to.
#[derive(Clone, Copy, Debug, PartialEq, Eq)]
pub enum Share {
    /// All its turns were done.
    Full,
    /// Nothing is left to do.
    Rests,
    /// The frame in whose place the link is to be cut comes next.
    Cuts,
}

/// The server of a copy does its share of a round, of at most 64 turns: in each its end does what comes next, or else takes a
/// frame, whose message is handed to the machine, or else submits the machine's next reply. Answers whether nothing is left to
/// do.
///
/// Where memory is wanting the round ends at once, and what the machine gave or was handed may be lost: the copy is over.
pub fn run_server(world: &mut World, server: &mut FileServer) -> Result<bool, NoMemory>
    requires { MayServe server.old world.old }
    ensures acted { HasActed side.Server world.old world.new }
    ensures up { OnOk result (IsUp world.new) }
    ensures goes_on { (kind : CopyKind) (past : List ServerEvent) → ServerStands kind past server.old world.old
        → IfOk result (λ done. ServerGoesOn kind past done server.new world.new) }
    ensures full { IfOk result (λ done. done ≡ false → HasAdded 64 side.Server world.old world.new) }
{
    for _turn in 0..64u32 {
        if !serve_once(world, server)? {
            return Ok(true);
        }
    }
    Ok(false)
}

/// One turn of the server: answers whether something was done.
fn serve_once(world: &mut World, server: &mut FileServer) -> Result<bool, NoMemory>
    requires { MayServe server.old world.old }
    ensures acted { HasActed side.Server world.old world.new }
    ensures up { OnOk result (IsUp world.new) }
    ensures goes_on { (kind : CopyKind) (past : List ServerEvent) → ServerStands kind past server.old world.old
        → IfOk result (λ did. ServerGoesOn kind past (not did) server.new world.new) }
    ensures one { IfOk result (λ did. did ≡ true → HasAdded 1 side.Server world.old world.new) }
{
    if drive(world, EndId::Server)? {
        return Ok(true);
    }
    if take_request(world, server)? {
        return Ok(true);
    }
    send_reply(world, server)
}

/// The server's end takes a frame, and the message that it delivers is handed to the machine as a request. A refusal is let
/// go: the machine refuses every later request too. Answers whether a frame was taken.
fn take_request(world: &mut World, server: &mut FileServer) -> Result<bool, NoMemory>
    requires { MayServe server.old world.old }
    ensures acted { HasActed side.Server world.old world.new }
    ensures up { OnOk result (IsUp world.new) }
    ensures goes_on { (kind : CopyKind) (past : List ServerEvent) → ServerStands kind past server.old world.old
        → OnOk result (ServerGoesOn kind past false server.new world.new) }
    ensures none { IfOk result (λ took. took ≡ false → TakesNothing side.Server world.old world.new) }
    ensures one { IfOk result (λ took. took ≡ true → HasAdded 1 side.Server world.old world.new) }
{
    if !carry(world, EndId::Server)? {
        return Ok(false);
    }
    let Some(message) = world.newest_delivered(EndId::Server) else {
        return Ok(true);
    };
    if lacks_memory(server.request(message)) {
        return Err(NoMemory);
    }
    Ok(true)
}

/// Whether a request was not taken for want of memory.
fn lacks_memory(answer: Result<(), FileFault>) -> bool
    ensures { result ≡ lacks_memory answer }
{
    matches!(answer, Err(FileFault::NoMemory))
}

/// The machine's next reply is submitted. Answers whether there is one.
fn send_reply(world: &mut World, server: &mut FileServer) -> Result<bool, NoMemory>
    requires { MayServe server.old world.old }
    ensures acted { HasActed side.Server world.old world.new }
    ensures up { OnOk result (IsUp world.new) }
    ensures goes_on { (kind : CopyKind) (past : List ServerEvent) → ServerStands kind past server.old world.old
        → OnOk result (ServerGoesOn kind past false server.new world.new) }
    ensures none { (kind : CopyKind) (past : List ServerEvent) → ServerStands kind past server.old world.old
        → IfOk result (λ sent. sent ≡ false → HasNoReply kind past server.new world.old world.new) }
    ensures one { IfOk result (λ sent. sent ≡ true → HasAdded 1 side.Server world.old world.new) }
{
    let Some(message) = server.next_message()? else {
        return Ok(false);
    };
    submit(world, EndId::Server, message)?;
    Ok(true)
}

/// The client of a copy does its share of a round, of at most 64 turns: in each its end does what comes next, or else takes a
/// frame, whose message is handed to the machine, or else submits the machine's next request. Where only so many frames are
/// left to be sent, it stops before the one that is too many.
///
/// Where memory is wanting the round ends at once, and what the machine gave or was handed may be lost: the copy is over.
pub fn run_client(
    world: &mut World,
    client: &mut ClientMachine,
    left: &mut Option<u32>,
) -> Result<Share, NoMemory>
    requires { MayTalk 64 client.old world.old }
    ensures acted { HasActed side.Client world.old world.new }
    ensures up { OnOk result (IsUp world.new) }
    ensures goes_on { (kind : CopyKind) (channel : Channel) (pages : ℕ) (past : List ClientEvent) → ClientStands kind channel pages past client.old world.old
        → IfOk result (λ share. ClientGoesOn kind channel pages past 64 (rests share) client.new world.new) }
    ensures full { IfOk result (λ share. share ≡ shares.Full → HasAdded 64 side.Client world.old world.new) }
    ensures left { (number : Option ℕ) → AreLeft number (frames_sent world.old.client) left.old → OnOk result (AreLeft number (frames_sent world.new.client) left.new) }
    ensures cuts { IfOk result (λ share. share ≡ shares.Cuts → IsLast world.new left.new) }
{
    for _turn in 0..64u32 {
        if cuts_next(world, left)? {
            return Ok(Share::Cuts);
        }
        if !talk_once(world, client)? {
            return Ok(Share::Rests);
        }
    }
    Ok(Share::Full)
}

/// Whether the frame in whose place the link is to be cut comes next. Where another one does, there is one less left.
fn cuts_next(world: &mut World, left: &mut Option<u32>) -> Result<bool, NoMemory>
    ensures same { world.new ≡ world.old }
    ensures cuts { IfOk result (λ cuts. cuts ≡ true → IsLast world.new left.new) }
    ensures uncounted { IfOk result (λ cuts. cuts ≡ true → left.new ≡ left.old) }
    ensures counted { (number : Option ℕ) (sent : ℕ) → AreLeft number sent left.old
        → IfOk result (λ cuts. cuts ≡ false → AreLeft number (sent + frames_next side.Client world.old.client_limits world.old.client) left.new) }
{
    let Some(count) = *left else {
        return Ok(false);
    };
    if !world.emits_next(EndId::Client)? {
        return Ok(false);
    }
    if count == 0 {
        return Ok(true);
    }
    *left = Some(count - 1);
    Ok(false)
}

/// The link is cut, and both ends with it, the client first.
pub fn cut_link(world: &mut World) -> Result<(), NoMemory>
    requires { IsUp world.old }
    ensures { OnOk result (HasBeenCut world.old world.new) }
{
    world.step(&Choice::Cut(EndId::Client))?;
    world.step(&Choice::Cut(EndId::Server))?;
    Ok(())
}

/// One turn of the client: answers whether something was done.
fn talk_once(world: &mut World, client: &mut ClientMachine) -> Result<bool, NoMemory>
    requires { MayTalk 0 client.old world.old }
    ensures acted { HasActed side.Client world.old world.new }
    ensures up { OnOk result (IsUp world.new) }
    ensures goes_on { (kind : CopyKind) (channel : Channel) (pages : ℕ) (past : List ClientEvent) → ClientStands kind channel pages past client.old world.old
        → IfOk result (λ did. ClientGoesOn kind channel pages past 1 (not did) client.new world.new) }
    ensures sent { OnOk result (HasSentNext side.Client world.old world.new) }
    ensures one { IfOk result (λ did. did ≡ true → HasAdded 1 side.Client world.old world.new) }
{
    if drive(world, EndId::Client)? {
        return Ok(true);
    }
    if take_reply(world, client)? {
        return Ok(true);
    }
    send_request(world, client)
}

/// The client's end takes a frame, and the message that it delivers is handed to the machine as a reply. A refusal is let go:
/// the machine has failed then. Answers whether a frame was taken.
fn take_reply(world: &mut World, client: &mut ClientMachine) -> Result<bool, NoMemory>
    requires { MayTalk 0 client.old world.old }
    ensures acted { HasActed side.Client world.old world.new }
    ensures up { OnOk result (IsUp world.new) }
    ensures goes_on { (kind : CopyKind) (channel : Channel) (pages : ℕ) (past : List ClientEvent) → ClientStands kind channel pages past client.old world.old
        → OnOk result (ClientGoesOn kind channel pages past 0 false client.new world.new) }
    ensures sent { OnOk result (HasSentNone side.Client world.old world.new) }
    ensures none { IfOk result (λ took. took ≡ false → TakesNothing side.Client world.old world.new) }
    ensures one { IfOk result (λ took. took ≡ true → HasAdded 1 side.Client world.old world.new) }
{
    if !carry(world, EndId::Client)? {
        return Ok(false);
    }
    let Some(message) = world.newest_delivered(EndId::Client) else {
        return Ok(true);
    };
    let _ = client.reply(message);
    Ok(true)
}

/// The machine's next request is submitted. Answers whether there is one.
fn send_request(world: &mut World, client: &mut ClientMachine) -> Result<bool, NoMemory>
    requires { MayTalk 0 client.old world.old }
    ensures acted { HasActed side.Client world.old world.new }
    ensures up { OnOk result (IsUp world.new) }
    ensures goes_on { (kind : CopyKind) (channel : Channel) (pages : ℕ) (past : List ClientEvent) → ClientStands kind channel pages past client.old world.old
        → OnOk result (ClientGoesOn kind channel pages past 1 false client.new world.new) }
    ensures sent { OnOk result (HasSentNone side.Client world.old world.new) }
    ensures none { (kind : CopyKind) (channel : Channel) (pages : ℕ) (past : List ClientEvent) → ClientStands kind channel pages past client.old world.old
        → IfOk result (λ sent. sent ≡ false → HasNoRequest kind channel pages past client.new world.old world.new) }
    ensures one { IfOk result (λ sent. sent ≡ true → HasAdded 1 side.Client world.old world.new) }
{
    let Some(message) = client.next_message()? else {
        return Ok(false);
    };
    submit(world, EndId::Client, message)?;
    Ok(true)
}
