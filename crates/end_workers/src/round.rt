//! A round.

ghost use Rattle.std.specs.Prelude.{OnErr, OnOk};
ghost use Rattle.smbd_outside.specs.declared.status.Status.TheVariants as statuses;
ghost use Rattle.copy_laws.specs.Coupled.{Pasts};
ghost use Rattle.copy_ends.specs.Turns.{IsUp};
ghost use Rattle.copy_parts.specs.declared.options.CopyOptions.{CopyOptions as Options};
ghost use Rattle.copy_parts.specs.Copies.{Stands};
ghost use Rattle.copy_parts.specs.Steps.{HasRun};
ghost use Rattle.end_workers.specs.Progress.{GoesOn, IsGoing, IsSettled};
ghost use Rattle.end_workers.specs.Promise.{KeepsPromise, Stream};

use crate::copy::Copy;
use smbd_base::NoMemory;

impl Copy {
    /// Both ends and all workers do their share: an end at most 64 events, and a worker at most 16 jobs. Where the client comes to the frame
    /// in whose place the link is to be cut, it cuts the link, and the next barrier ends the copy. Without memory the copy is over.
    pub fn round(&mut self) -> Result<(), NoMemory>
        requires on { GoesOn self.old }
        requires up { IsUp self.old.parts.world }
        ensures on { OnOk result (GoesOn self.new) }
        ensures ran { (o : Options) (p : Pasts) → Stands o p self.old.parts → OnOk result (HasRun o p self.old.parts self.new.parts) }
        ensures runs { (o : Options) (from to log : Stream) → IsSettled o from to log self.old → OnOk result (IsGoing o from to log self.new) }
        ensures stops { (o : Options) (from to log : Stream) → IsSettled o from to log self.old → OnErr result (KeepsPromise statuses.NoMemory o from to log) }
    {
        self.parts.run()
    }
}
