//! Writing the groups that came out.

ghost use Rattle.std.specs.Prelude.{◌≡◌, ◌≢◌, IfErr, OnOk};
ghost use Rattle.smbd_outside.specs.declared.status.Status.TheVariants as statuses;
ghost use Rattle.copy_parts.specs.declared.options.CopyOptions.{CopyOptions as Options};
ghost use Rattle.end_workers.specs.Progress.{GoesOn, IsSettled, IsStoredAll, moved};
ghost use Rattle.end_workers.specs.Promise.{KeepsPromise, Stream};

use crate::copy::Copy;
use smbd_outside::{Failed, Sink, Status, write_whole};

impl Copy {
    /// Writes all groups that came out to the sink.
    pub(crate) fn store<K: Sink>(&mut self, sink: &mut K) -> Result<(), Status>
        requires { GoesOn self.old }
        ensures on { OnOk result (GoesOn self.new) }
        ensures stores { (o : Options) (from to log : Stream) → to.now ≡ K.written sink.old → to.faults ≡ K.faults sink.old → IsSettled o from to log self.old
            → OnOk result (IsStoredAll o from (moved to (K.written sink.new) (K.faults sink.new)) log self.new) }
        ensures stops { (o : Options) (from to log : Stream) → to.now ≡ K.written sink.old → to.faults ≡ K.faults sink.old → IsSettled o from to log self.old
            → IfErr result (λ status. KeepsPromise status o from (moved to (K.written sink.new) (K.faults sink.new)) log) }
        ensures no_cut { IfErr result (λ status. status ≢ statuses.Cut) }
    {
        while let Some(group) = self.parts.next_group(self.options.kind) {
            match write_whole(sink, group.bytes()) {
                Ok(()) => {}
                Err(Failed) => return Err(Status::WriteFault),
            }
        }
        Ok(())
    }
}
