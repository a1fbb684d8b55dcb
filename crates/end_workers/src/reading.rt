//! Reading the bytes of a copy.

ghost use Rattle.std.specs.Prelude.{◌≡◌, ◌≢◌, ◌+◌, ◌<◌, ◌≤◌, ◌%◌, true, false, [], length, vec_capacity, IfErr, IfOk, OnOk};
ghost use Rattle.std.specs.Io.KnownBytes.{Consumes, IsAtEnd};
ghost use Rattle.file_messages.specs.declared.layout.TheConstants.{GROUP_SIZE as group_size};
ghost use Rattle.smbd_outside.specs.declared.status.Status.TheVariants as statuses;
ghost use Rattle.copy_parts.specs.declared.options.CopyOptions.{CopyOptions as Options};
ghost use Rattle.end_workers.specs.Progress.{GoesOn, IsReadAll, IsWanted, StaysUncut, StopsReading, bytes_left, moved};
ghost use Rattle.end_workers.specs.Promise.{KeepsPromise, Stream};
ghost use Rattle.end_workers.specs.Sizes.{most_bytes};

use crate::copy::Copy;
use file_messages::GROUP_SIZE;
use smbd_base::NoMemory;
use smbd_outside::{Failed, Filled, Source, Status, fill};

/// The most bytes of a copy.
const MOST: u64 = 16_777_216;

/// Reads the bytes of the next group into an empty buffer, so many having been read before in whole groups. Answers whether they are the
/// last: fewer than 65,536, perhaps none.
fn read_next<S: Source>(source: &mut S, bytes: &mut Vec<u8>, before: u64) -> Result<bool, Status>
    requires room { group_size ≤ vec_capacity bytes.old }
    requires empty { bytes.old.items ≡ [] }
    requires before { before ≤ most_bytes }
    requires groups { before % group_size ≡ 0 }
    ensures read { Consumes (S.left source.old) (S.left source.new) bytes.new.items }
    ensures short { OnOk result (before + length bytes.new.items ≤ most_bytes) }
    ensures whole { IfOk result (λ last. last ≡ false → length bytes.new.items ≡ group_size) }
    ensures part { IfOk result (λ last. last ≡ true → length bytes.new.items < group_size) }
    ensures last { IfOk result (λ last. last ≡ true → IsAtEnd (S.left source.new)) }
    ensures later { S.faults source.old ≤ S.faults source.new }
    ensures stops { IfErr result (λ status. StopsReading status before (length bytes.new.items) (S.faults source.old) (S.faults source.new)) }
    ensures few { IfErr result (λ status. length bytes.new.items < group_size) }
    ensures room { group_size ≤ vec_capacity bytes.new }
{
    let most = (GROUP_SIZE as u64).min(MOST + 1 - before) as usize;
    match fill(source, bytes, most) {
        Ok(Filled::End) => Ok(true),
        Ok(Filled::Full) if before + most as u64 > MOST => Err(Status::TooLong),
        Ok(Filled::Full) => Ok(false),
        Err(Failed) => Err(Status::ReadFault),
    }
}

impl Copy {
    /// Reads the source until no machine wants bytes, and tells their end where it was seen.
    pub(crate) fn read<S: Source>(&mut self, source: &mut S) -> Result<(), Status>
        requires { GoesOn self.old }
        ensures on { OnOk result (GoesOn self.new) }
        ensures reads { (o : Options) (from to log : Stream) → from.now ≡ S.left source.old → from.faults ≡ S.faults source.old → StaysUncut o from to log self.old
            → OnOk result (IsReadAll o (moved from (S.left source.new) (S.faults source.new)) to log self.new) }
        ensures stops { (o : Options) (from to log : Stream) → from.now ≡ S.left source.old → from.faults ≡ S.faults source.old → StaysUncut o from to log self.old
            → IfErr result (λ status. KeepsPromise status o (moved from (S.left source.new) (S.faults source.new)) to log) }
        ensures no_cut { IfErr result (λ status. status ≢ statuses.Cut) }
    {
        while self.parts.wants_bytes(self.options.kind) {
            self.read_group(source)?;
        }
        Ok(())
    }

    /// Reads the bytes of the next group, and hands them to the machine that wants them.
    fn read_group<S: Source>(&mut self, source: &mut S) -> Result<(), Status>
        requires on { GoesOn self.old }
        requires wanted { IsWanted self.old }
        ensures on { OnOk result (GoesOn self.new) }
        ensures reads { (o : Options) (from to log : Stream) → from.now ≡ S.left source.old → from.faults ≡ S.faults source.old → StaysUncut o from to log self.old
            → OnOk result (StaysUncut o (moved from (S.left source.new) (S.faults source.new)) to log self.new) }
        ensures stops { (o : Options) (from to log : Stream) → from.now ≡ S.left source.old → from.faults ≡ S.faults source.old → StaysUncut o from to log self.old
            → IfErr result (λ status. KeepsPromise status o (moved from (S.left source.new) (S.faults source.new)) to log) }
        ensures no_cut { IfErr result (λ status. status ≢ statuses.Cut) }
        ensures fewer { OnOk result (bytes_left self.new < bytes_left self.old) }
    {
        self.group.clear();
        let ended = read_next(source, &mut self.group, self.read)?;
        self.read += self.group.len() as u64;
        self.ended = ended;
        match self.parts.take_bytes(self.options.kind, &self.group, ended) {
            Ok(()) => Ok(()),
            Err(NoMemory) => Err(Status::NoMemory),
        }
    }
}
