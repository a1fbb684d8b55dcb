//! What the client's end of a copy does in a round.

ghost use Rattle.std.specs.Prelude.{◌≡◌, true, false, not, Some, ℕ, List, Option, IfOk, OnOk};
ghost use Rattle.smbd_base.specs.declared.end_id.EndId.TheVariants as side;
ghost use Rattle.smbd_base.specs.History.{is_cut};
ghost use Rattle.file_messages.specs.declared.kind.Channel.{Channel};
ghost use Rattle.file_messages.specs.declared.kind.CopyKind.{CopyKind};
ghost use Rattle.file_pasts.specs.ClientPast.{ClientEvent};
ghost use Rattle.copy_ends.specs.Clients.{ClientCameBy, HasCome};
ghost use Rattle.copy_ends.specs.Cuts.{AreLeft, frames_sent};
ghost use Rattle.link_ends.specs.Ends.{view_of, past_of, IsOf, is_over, next_of, is_emit};
ghost use Rattle.end_shares.specs.declared.share.Share.TheVariants as shares;
ghost use Rattle.end_shares.specs.Turns.{IsOn, HasActed, HasGoneOn, IsCutAsTold, HasAdded, IsIdle, IsAtRest, TakesNothing};
ghost use Rattle.end_shares.specs.Clients.{ClientStands, ClientGoesOn, MayTalk, HasNoRequest, after_hearing};
ghost use Rattle.end_shares.specs.Shares.{ComesTo, HasDoneAtMost, IsLast, rests};

use crate::share::Share;
use crate::turns::{drive, receive, submit};
use copy_ends::ClientMachine;
use link_ends::{LinkEnd, Received};
use sim_adapter::Link;
use smbd_base::{Message, NoMemory};
use smbd_outside::Gate;

/// The client of a copy does its share of a round, of at most 64 turns: in each its end does what comes next, or else takes a
/// frame, whose message is handed to the machine, or else submits the machine's next request. It stops where the end is cut. Where only so
/// many frames are left to be sent, it cuts the link in the place of the one that is too many.
///
/// Where memory is wanting the round ends at once, and what the machine gave or was handed may be lost: the copy is over.
pub fn run_client<G: Gate>(
    end: &mut LinkEnd,
    client: &mut ClientMachine,
    left: &mut Option<u32>,
    gate: &G,
    link: &Link,
) -> Result<Share, NoMemory>
    requires on { IsOn link.now side.Client end.old }
    requires talk { MayTalk 64 client.old (view_of end.old) }
    ensures own { IsOf link.now end.new }
    ensures on { OnOk result (IsOn link.now side.Client end.new) }
    ensures gone_on { HasGoneOn (view_of end.old) (view_of end.new) }
    ensures told { IfOk result (λ share. (share ≡ shares.Cuts → ⊥) → IsCutAsTold (view_of end.old) → IsCutAsTold (view_of end.new)) }
    ensures most { HasDoneAtMost 64 (view_of end.old) (view_of end.new) }
    ensures goes_on { (kind : CopyKind) (channel : Channel) (pages : ℕ) (past : List ClientEvent) → ClientStands kind channel pages past client.old (view_of end.old)
        → IfOk result (λ share. ClientGoesOn kind channel pages past 64 (rests share) client.new (view_of end.new)) }
    ensures share { IfOk result (λ share. ComesTo share left.new (view_of end.old) (view_of end.new)) }
    ensures left { (number : Option ℕ) → AreLeft number (frames_sent (past_of end.old)) left.old → OnOk result (AreLeft number (frames_sent (past_of end.new)) left.new) }
{
    for _turn in 0..64u32 {
        if end.is_cut() {
            return Ok(Share::IsCut);
        }
        if is_last(end, left)? {
            end.cut(gate, link);
            return Ok(Share::Cuts);
        }
        if !talk_once(end, client, left, gate, link)? {
            return Ok(Share::Rests);
        }
    }
    Ok(Share::Full)
}

/// Whether a frame comes next, and none is left to be sent: the link is to be cut in its place.
fn is_last(end: &mut LinkEnd, left: &Option<u32>) -> Result<bool, NoMemory>
    requires { is_over end.old ≡ false }
    ensures same { end.new.pass ≡ end.old.pass }
    ensures on { is_over end.new ≡ false }
    ensures last { IfOk result (λ last. last ≡ true → IsLast left.now (view_of end.old)) }
    ensures not_last { IfOk result (λ last. last ≡ false → left.now ≡ Some 0 → is_emit (next_of (view_of end.old)) ≡ false) }
{
    match *left {
        Some(0) => end.emits_next(),
        _ => Ok(false),
    }
}

/// One turn of the client, whose end is not cut: answers whether something was done.
fn talk_once<G: Gate>(
    end: &mut LinkEnd,
    client: &mut ClientMachine,
    left: &mut Option<u32>,
    gate: &G,
    link: &Link,
) -> Result<bool, NoMemory>
    requires on { IsOn link.now side.Client end.old }
    requires uncut { is_cut (past_of end.old) ≡ false }
    requires talk { MayTalk 0 client.old (view_of end.old) }
    requires some { left.old ≡ Some 0 → is_emit (next_of (view_of end.old)) ≡ false }
    ensures own { IsOf link.now end.new }
    ensures on { OnOk result (IsOn link.now side.Client end.new) }
    ensures acted { HasActed (view_of end.old) (view_of end.new) }
    ensures most { HasDoneAtMost 1 (view_of end.old) (view_of end.new) }
    ensures goes_on { (kind : CopyKind) (channel : Channel) (pages : ℕ) (past : List ClientEvent) → ClientStands kind channel pages past client.old (view_of end.old)
        → IfOk result (λ did. ClientGoesOn kind channel pages past 1 (not did) client.new (view_of end.new)) }
    ensures left { (number : Option ℕ) → AreLeft number (frames_sent (past_of end.old)) left.old → OnOk result (AreLeft number (frames_sent (past_of end.new)) left.new) }
    ensures one { IfOk result (λ did. did ≡ true → HasAdded 1 (view_of end.old) (view_of end.new)) }
    ensures rest { IfOk result (λ did. did ≡ false → IsAtRest (view_of end.new) × (is_cut (past_of end.new) ≡ false)) }
{
    if drive(end, left, gate, link)? {
        return Ok(true);
    }
    if take_reply(end, client, gate, link)? {
        return Ok(true);
    }
    send_request(end, client, gate, link)
}

/// The client's end takes a frame, and the message that it delivers is handed to the machine as a reply. A refusal is let go:
/// the machine has failed then. Answers whether a frame was taken, or the end was cut as the link is.
fn take_reply<G: Gate>(
    end: &mut LinkEnd,
    client: &mut ClientMachine,
    gate: &G,
    link: &Link,
) -> Result<bool, NoMemory>
    requires on { IsOn link.now side.Client end.old }
    requires uncut { is_cut (past_of end.old) ≡ false }
    requires idle { IsIdle (view_of end.old) }
    requires talk { MayTalk 0 client.old (view_of end.old) }
    ensures own { IsOf link.now end.new }
    ensures on { OnOk result (IsOn link.now side.Client end.new) }
    ensures acted { HasActed (view_of end.old) (view_of end.new) }
    ensures most { HasDoneAtMost 1 (view_of end.old) (view_of end.new) }
    ensures goes_on { (kind : CopyKind) (channel : Channel) (pages : ℕ) (past : List ClientEvent) → ClientStands kind channel pages past client.old (view_of end.old)
        → OnOk result (ClientGoesOn kind channel pages past 0 false client.new (view_of end.new)) }
    ensures sent { frames_sent (past_of end.new) ≡ frames_sent (past_of end.old) }
    ensures none { IfOk result (λ took. took ≡ false → TakesNothing (view_of end.old) (view_of end.new)) }
    ensures one { IfOk result (λ took. took ≡ true → HasAdded 1 (view_of end.old) (view_of end.new)) }
{
    match receive(end, gate, link)? {
        Received::Nothing => Ok(false),
        Received::Cut => Ok(true),
        Received::Frame(message) => {
            hand_reply(client, &message);
            Ok(true)
        }
    }
}

/// A message that was delivered, where one was, is handed to the machine as a reply.
fn hand_reply(client: &mut ClientMachine, message: &Option<Message>)
    requires { HasCome client.old }
    ensures { (kind : CopyKind) (channel : Channel) (pages : ℕ) (past : List ClientEvent) → ClientCameBy kind channel pages past client.old
        → ClientCameBy kind channel pages (after_hearing message.now past) client.new }
{
    let Some(message) = message else {
        return;
    };
    let _ = client.reply(message);
}

/// The machine's next request is submitted. Answers whether there is one.
fn send_request<G: Gate>(
    end: &mut LinkEnd,
    client: &mut ClientMachine,
    gate: &G,
    link: &Link,
) -> Result<bool, NoMemory>
    requires on { IsOn link.now side.Client end.old }
    requires uncut { is_cut (past_of end.old) ≡ false }
    requires talk { MayTalk 0 client.old (view_of end.old) }
    ensures on { IsOn link.now side.Client end.new }
    ensures acted { HasActed (view_of end.old) (view_of end.new) }
    ensures most { HasDoneAtMost 1 (view_of end.old) (view_of end.new) }
    ensures goes_on { (kind : CopyKind) (channel : Channel) (pages : ℕ) (past : List ClientEvent) → ClientStands kind channel pages past client.old (view_of end.old)
        → OnOk result (ClientGoesOn kind channel pages past 1 false client.new (view_of end.new)) }
    ensures sent { frames_sent (past_of end.new) ≡ frames_sent (past_of end.old) }
    ensures none { (kind : CopyKind) (channel : Channel) (pages : ℕ) (past : List ClientEvent) → ClientStands kind channel pages past client.old (view_of end.old)
        → IfOk result (λ sent. sent ≡ false → HasNoRequest kind channel pages past client.new (view_of end.old) (view_of end.new)) }
    ensures same { IfOk result (λ sent. sent ≡ false → view_of end.new ≡ view_of end.old) }
    ensures one { IfOk result (λ sent. sent ≡ true → HasAdded 1 (view_of end.old) (view_of end.new)) }
{
    let Some(message) = client.next_message()? else {
        return Ok(false);
    };
    submit(end, message, gate, link)?;
    Ok(true)
}
