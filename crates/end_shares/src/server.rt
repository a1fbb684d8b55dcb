//! What the server's end of a copy does in a round.

ghost use Rattle.std.specs.Prelude.{◌≡◌, true, false, not, ℕ, List, Option, IfOk, OnOk};
ghost use Rattle.smbd_base.specs.declared.end_id.EndId.TheVariants as side;
ghost use Rattle.smbd_base.specs.History.{is_cut};
ghost use Rattle.file_messages.specs.declared.kind.CopyKind.{CopyKind};
ghost use Rattle.file_pasts.specs.ServerDue.{ServerEvent};
ghost use Rattle.file_server.specs.ServerStands.{CameBy, HasCome};
ghost use Rattle.copy_ends.specs.Ends.{lacks_memory};
ghost use Rattle.link_ends.specs.Ends.{view_of, past_of, IsOf};
ghost use Rattle.end_shares.specs.declared.share.Share.TheVariants as shares;
ghost use Rattle.end_shares.specs.Turns.{IsOn, HasActed, HasAdded, IsIdle, IsAtRest, TakesNothing};
ghost use Rattle.end_shares.specs.Servers.{ServerStands, ServerGoesOn, MayServe, HasNoReply, after_hearing};
ghost use Rattle.end_shares.specs.Shares.{ComesTo, HasDoneAtMost, rests};

use crate::share::Share;
use crate::turns::{drive, receive, submit};
use file_messages::FileFault;
use file_server::FileServer;
use link_ends::{LinkEnd, Received};
use sim_adapter::Link;
use smbd_base::{Message, NoMemory};
use smbd_outside::Gate;

/// The server of a copy does its share of a round, of at most 64 turns: in each its end does what comes next, or else takes a
/// frame, whose message is handed to the machine, or else submits the machine's next reply. It stops where the end is cut.
///
/// Where memory is wanting the round ends at once, and what the machine gave or was handed may be lost: the copy is over.
pub fn run_server<G: Gate>(
    end: &mut LinkEnd,
    server: &mut FileServer,
    gate: &G,
    link: &Link,
) -> Result<Share, NoMemory>
    requires on { IsOn link.now side.Server end.old }
    requires serve { MayServe server.old (view_of end.old) }
    ensures own { IsOf link.now end.new }
    ensures on { OnOk result (IsOn link.now side.Server end.new) }
    ensures acted { HasActed (view_of end.old) (view_of end.new) }
    ensures most { HasDoneAtMost 64 (view_of end.old) (view_of end.new) }
    ensures goes_on { (kind : CopyKind) (past : List ServerEvent) → ServerStands kind past server.old (view_of end.old)
        → IfOk result (λ share. ServerGoesOn kind past (rests share) server.new (view_of end.new)) }
    ensures share { (left : Option ℕ) → IfOk result (λ share. ComesTo share left (view_of end.old) (view_of end.new)) }
    ensures never { IfOk result (λ share. share ≡ shares.Cuts → ⊥) }
{
    for _turn in 0..64u32 {
        if end.is_cut() {
            return Ok(Share::IsCut);
        }
        if !serve_once(end, server, gate, link)? {
            return Ok(Share::Rests);
        }
    }
    Ok(Share::Full)
}

/// One turn of the server, whose end is not cut: answers whether something was done.
fn serve_once<G: Gate>(
    end: &mut LinkEnd,
    server: &mut FileServer,
    gate: &G,
    link: &Link,
) -> Result<bool, NoMemory>
    requires on { IsOn link.now side.Server end.old }
    requires uncut { is_cut (past_of end.old) ≡ false }
    requires serve { MayServe server.old (view_of end.old) }
    ensures own { IsOf link.now end.new }
    ensures on { OnOk result (IsOn link.now side.Server end.new) }
    ensures acted { HasActed (view_of end.old) (view_of end.new) }
    ensures most { HasDoneAtMost 1 (view_of end.old) (view_of end.new) }
    ensures goes_on { (kind : CopyKind) (past : List ServerEvent) → ServerStands kind past server.old (view_of end.old)
        → IfOk result (λ did. ServerGoesOn kind past (not did) server.new (view_of end.new)) }
    ensures one { IfOk result (λ did. did ≡ true → HasAdded 1 (view_of end.old) (view_of end.new)) }
    ensures rest { IfOk result (λ did. did ≡ false → IsAtRest (view_of end.new) × (is_cut (past_of end.new) ≡ false)) }
{
    if drive(end, &mut None, gate, link)? {
        return Ok(true);
    }
    if take_request(end, server, gate, link)? {
        return Ok(true);
    }
    send_reply(end, server, gate, link)
}

/// The server's end takes a frame, and the message that it delivers is handed to the machine as a request. A refusal is let
/// go: the machine refuses every later request too. Answers whether a frame was taken, or the end was cut as the link is.
fn take_request<G: Gate>(
    end: &mut LinkEnd,
    server: &mut FileServer,
    gate: &G,
    link: &Link,
) -> Result<bool, NoMemory>
    requires on { IsOn link.now side.Server end.old }
    requires uncut { is_cut (past_of end.old) ≡ false }
    requires idle { IsIdle (view_of end.old) }
    requires serve { MayServe server.old (view_of end.old) }
    ensures own { IsOf link.now end.new }
    ensures on { OnOk result (IsOn link.now side.Server end.new) }
    ensures acted { HasActed (view_of end.old) (view_of end.new) }
    ensures most { HasDoneAtMost 1 (view_of end.old) (view_of end.new) }
    ensures goes_on { (kind : CopyKind) (past : List ServerEvent) → ServerStands kind past server.old (view_of end.old)
        → OnOk result (ServerGoesOn kind past false server.new (view_of end.new)) }
    ensures none { IfOk result (λ took. took ≡ false → TakesNothing (view_of end.old) (view_of end.new)) }
    ensures one { IfOk result (λ took. took ≡ true → HasAdded 1 (view_of end.old) (view_of end.new)) }
{
    match receive(end, gate, link)? {
        Received::Nothing => Ok(false),
        Received::Cut => Ok(true),
        Received::Frame(message) => {
            hand_request(server, &message)?;
            Ok(true)
        }
    }
}

/// A message that was delivered, where one was, is handed to the machine as a request.
fn hand_request(server: &mut FileServer, message: &Option<Message>) -> Result<(), NoMemory>
    requires { HasCome server.old }
    ensures { (kind : CopyKind) (past : List ServerEvent) → CameBy kind past server.old → OnOk result (CameBy kind (after_hearing message.now past) server.new) }
{
    let Some(message) = message else {
        return Ok(());
    };
    if lacks_memory(server.request(message)) {
        return Err(NoMemory);
    }
    Ok(())
}

/// Whether a request was not taken for want of memory.
fn lacks_memory(answer: Result<(), FileFault>) -> bool
    ensures { result ≡ lacks_memory answer }
{
    matches!(answer, Err(FileFault::NoMemory))
}

/// The machine's next reply is submitted. Answers whether there is one.
fn send_reply<G: Gate>(
    end: &mut LinkEnd,
    server: &mut FileServer,
    gate: &G,
    link: &Link,
) -> Result<bool, NoMemory>
    requires on { IsOn link.now side.Server end.old }
    requires uncut { is_cut (past_of end.old) ≡ false }
    requires serve { MayServe server.old (view_of end.old) }
    ensures on { IsOn link.now side.Server end.new }
    ensures acted { HasActed (view_of end.old) (view_of end.new) }
    ensures most { HasDoneAtMost 1 (view_of end.old) (view_of end.new) }
    ensures goes_on { (kind : CopyKind) (past : List ServerEvent) → ServerStands kind past server.old (view_of end.old)
        → OnOk result (ServerGoesOn kind past false server.new (view_of end.new)) }
    ensures none { (kind : CopyKind) (past : List ServerEvent) → ServerStands kind past server.old (view_of end.old)
        → IfOk result (λ sent. sent ≡ false → HasNoReply kind past server.new (view_of end.old) (view_of end.new)) }
    ensures same { IfOk result (λ sent. sent ≡ false → view_of end.new ≡ view_of end.old) }
    ensures one { IfOk result (λ sent. sent ≡ true → HasAdded 1 (view_of end.old) (view_of end.new)) }
{
    let Some(message) = server.next_message()? else {
        return Ok(false);
    };
    submit(end, message, gate, link)?;
    Ok(true)
}
