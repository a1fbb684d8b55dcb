//! What one end of a world does in a turn.

ghost use Rattle.std.specs.Prelude.{◌≡◌, [], ◌∷◌, true, false, IfOk, OnOk, OnErr};
ghost use Rattle.world_core.specs.Newest.{newest_brought};
ghost use Rattle.world_core.specs.Run.{past_of, limits_of};
ghost use Rattle.copy_ends.specs.Cuts.{HasSentNext, HasSentNone};
ghost use Rattle.copy_ends.specs.Turns.{IsUp, HasTurned, HasAdded, IsIdle, TakesNothing, IsSendable, heard_if};

use smbd_base::{EndId, Message, NoMemory};
use world_core::{Choice, Step, World};

/// Does what comes next at an end. Answers whether something came next. Want of memory changes nothing.
pub fn drive(world: &mut World, end: EndId) -> Result<bool, NoMemory>
    requires { IsUp world.old }
    ensures turned { OnOk result (HasTurned end [] [] world.old world.new) }
    ensures sent { OnOk result (HasSentNext end world.old world.new) }
    ensures one { IfOk result (λ did. did ≡ true → HasAdded 1 end world.old world.new) }
    ensures idle { IfOk result (λ did. did ≡ false → IsIdle end world.new) }
    ensures same { IfOk result (λ did. did ≡ false → world.new ≡ world.old) }
    ensures unchanged { OnErr result (world.new ≡ world.old) }
{
    let _ = world.history(end);
    match world.step(&Choice::Drive(end))? {
        Step::Did => Ok(true),
        Step::Nothing => Ok(false),
    }
}

/// An end takes the oldest frame in flight to it. Answers whether it took one. Want of memory changes nothing.
pub fn carry(world: &mut World, end: EndId) -> Result<bool, NoMemory>
    requires { IsUp world.old }
    ensures turned { IfOk result (λ took. HasTurned end [] (heard_if took (newest_brought end (limits_of end world.new) (past_of end world.new))) world.old world.new) }
    ensures sent { OnOk result (HasSentNone end world.old world.new) }
    ensures one { IfOk result (λ took. took ≡ true → HasAdded 1 end world.old world.new) }
    ensures none { IfOk result (λ took. took ≡ false → TakesNothing end world.old world.new) }
    ensures unchanged { OnErr result (world.new ≡ world.old) }
{
    let _ = world.history(end);
    match world.step(&Choice::Carry(end))? {
        Step::Did => Ok(true),
        Step::Nothing => Ok(false),
    }
}

/// Submits a message, which is not refused. Want of memory changes nothing.
pub fn submit(world: &mut World, end: EndId, message: Message) -> Result<(), NoMemory>
    requires up { IsUp world.old }
    requires fits { IsSendable message }
    ensures turned { OnOk result (HasTurned end (message ∷ []) [] world.old world.new) }
    ensures sent { OnOk result (HasSentNone end world.old world.new) }
    ensures one { OnOk result (HasAdded 1 end world.old world.new) }
    ensures unchanged { OnErr result (world.new ≡ world.old) }
{
    let _ = world.history(end);
    world.step(&Choice::Submit(end, message))?;
    Ok(())
}
