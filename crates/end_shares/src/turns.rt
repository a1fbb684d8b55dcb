//! What an end on a link does in a turn.

ghost use Rattle.std.specs.Prelude.{◌≡◌, ◌+◌, ◌≤◌, [], ◌∷◌, true, false, not, Some, ℕ, Option, length, IfOk, OnOk, OnErr};
ghost use Rattle.smbd_base.specs.declared.end_id.EndId.{EndId as Whose};
ghost use Rattle.smbd_base.specs.declared.faults.SubmitFault.TheVariants as refusals;
ghost use Rattle.smbd_base.specs.History.{is_cut};
ghost use Rattle.copy_ends.specs.Cuts.{AreLeft, frames_sent};
ghost use Rattle.copy_ends.specs.Turns.{IsSendable};
ghost use Rattle.link_ends.specs.Ends.{view_of, past_of, IsOf, GoesOnAt, next_of, is_emit};
ghost use Rattle.link_ends.specs.declared.answer.Driven.TheVariants as next;
ghost use Rattle.end_shares.specs.Turns.{HasActed, HasTurned, HasAdded, IsIdle, TakesNothing, frames_in, heard_in, is_idle, is_nothing};
ghost use Rattle.end_shares.specs.Shares.{HasDoneAtMost};

use connection_core::SubmitRefused;
use link_ends::{Driven, LinkEnd, Received};
use sim_adapter::Link;
use smbd_base::{Message, NoMemory, SubmitFault};
use smbd_outside::Gate;

/// Does what comes next at an end, and counts a frame that is sent off those that are left, of which there is one. Answers whether
/// something came next. Want of memory changes nothing.
pub fn drive<G: Gate>(
    end: &mut LinkEnd,
    left: &mut Option<u32>,
    gate: &G,
    link: &Link,
) -> Result<bool, NoMemory>
    requires on { GoesOnAt link.now end.old }
    requires some { left.old ≡ Some 0 → is_emit (next_of (view_of end.old)) ≡ false }
    ensures on { GoesOnAt link.now end.new }
    ensures turned { (side : Whose) → HasTurned side [] [] (view_of end.old) (view_of end.new) }
    ensures one { IfOk result (λ did. did ≡ true → HasAdded 1 (view_of end.old) (view_of end.new)) }
    ensures left { (number : Option ℕ) → AreLeft number (frames_sent (past_of end.old)) left.old → AreLeft number (frames_sent (past_of end.new)) left.new }
    ensures idle { IfOk result (λ did. did ≡ false → IsIdle (view_of end.new)) }
    ensures same { IfOk result (λ did. did ≡ false → view_of end.new ≡ view_of end.old) }
    ensures unchanged { OnErr result (view_of end.new ≡ view_of end.old) }
{
    let driven = end.drive(gate, link)?;
    count_off(left, driven);
    Ok(is_something(driven))
}

/// Whether something came next.
fn is_something(driven: Driven) -> bool
    ensures { result ≡ not (is_idle driven) }
{
    match driven {
        Driven::Posted => true,
        Driven::Sent => true,
        Driven::Cut => true,
        Driven::Idle => false,
    }
}

/// A frame that was sent is one less that may be sent, where their number is bounded.
fn count_off(left: &mut Option<u32>, driven: Driven)
    requires { left.old ≡ Some 0 → driven ≡ next.Sent → ⊥ }
    ensures { (number : Option ℕ) (sent : ℕ) → AreLeft number sent left.old → AreLeft number (sent + frames_in driven) left.new }
{
    let Driven::Sent = driven else {
        return;
    };
    let Some(count) = *left else {
        return;
    };
    *left = Some(count - 1);
}

/// Takes what has come to an end at which nothing comes next.
pub fn receive<G: Gate>(end: &mut LinkEnd, gate: &G, link: &Link) -> Result<Received, NoMemory>
    requires on { GoesOnAt link.now end.old }
    requires uncut { is_cut (past_of end.old) ≡ false }
    requires idle { IsIdle (view_of end.old) }
    ensures own { IsOf link.now end.new }
    ensures on { OnOk result (GoesOnAt link.now end.new) }
    ensures acted { HasActed (view_of end.old) (view_of end.new) }
    ensures most { HasDoneAtMost 1 (view_of end.old) (view_of end.new) }
    ensures sent { frames_sent (past_of end.new) ≡ frames_sent (past_of end.old) }
    ensures heard { (side : Whose) → (view_of end.old).side ≡ side → IfOk result (λ r. HasTurned side [] (heard_in r) (view_of end.old) (view_of end.new)) }
    ensures one { IfOk result (λ r. is_nothing r ≡ false → HasAdded 1 (view_of end.old) (view_of end.new)) }
    ensures none { IfOk result (λ r. is_nothing r ≡ true → TakesNothing (view_of end.old) (view_of end.new)) }
{
    end.take(gate, link)
}

/// Submits a message, which is not refused. Want of memory changes nothing.
pub fn submit<G: Gate>(
    end: &mut LinkEnd,
    message: Message,
    gate: &G,
    link: &Link,
) -> Result<(), NoMemory>
    requires on { GoesOnAt link.now end.old }
    requires uncut { is_cut (past_of end.old) ≡ false }
    requires fits { IsSendable message }
    ensures on { GoesOnAt link.now end.new }
    ensures turned { (side : Whose) → OnOk result (HasTurned side (message ∷ []) [] (view_of end.old) (view_of end.new)) }
    ensures one { OnOk result (HasAdded 1 (view_of end.old) (view_of end.new)) }
    ensures sent { frames_sent (past_of end.new) ≡ frames_sent (past_of end.old) }
    ensures unchanged { OnErr result (view_of end.new ≡ view_of end.old) }
{
    match end.submit(gate, link, message) {
        Ok(()) => Ok(()),
        Err(refused) => Err(lacks_memory(refused)),
    }
}

/// A message that is refused for want of memory is let go.
fn lacks_memory(refused: SubmitRefused) -> NoMemory
    requires { refused.fault ≡ refusals.NoMemory }
{
    match refused.fault {
        SubmitFault::NoMemory => NoMemory,
        _ => unreachable!(),
    }
}
