//! A barrier.

ghost use Rattle.std.specs.Prelude.{◌≡◌, ◌≢◌, false, true, IfErr, IfOk, OnOk};
ghost use Rattle.smbd_outside.specs.declared.status.Status.TheVariants as statuses;
ghost use Rattle.copy_parts.specs.declared.options.CopyOptions.{CopyOptions as Options};
ghost use Rattle.end_workers.specs.Barriers.{Settles, HasEnded, StopsBy};
ghost use Rattle.end_workers.specs.Progress.{GoesOn, IsAfterBarrier, IsGoing, IsHandedAll, IsReadAll, IsSettled, IsStoredAll, StaysUncut, moved};
ghost use Rattle.end_workers.specs.Promise.{KeepsPromise, Stream};

use crate::copy::Copy;
use crate::telling::news_of;
use smbd_base::{EndId, NoMemory};
use smbd_outside::{Failed, Sink, Source, Status, write_whole};

/// What a barrier comes to.
#[derive(Clone, Copy, Debug, PartialEq, Eq)]
pub enum Barrier {
    /// The copy goes on with a round.
    More,
    /// The client has taken END's reply, and all is stored and told.
    Done,
    /// The copy is over, for this reason.
    Stop(Status),
}

impl Copy {
    /// Hands all completions to their machines, tells the log what happened since the last barrier, and writes the groups that came to the
    /// sink. Where the client has cut the link, the copy is over then. Else the source is read until no machine wants bytes, and all jobs
    /// that are due are given. The first fault ends the copy.
    pub fn barrier<S: Source, K: Sink, L: Sink>(
        &mut self,
        source: &mut S,
        sink: &mut K,
        log: &mut L,
    ) -> Barrier
        requires { GoesOn self.old }
        ensures { (o : Options) (from to told : Stream) → from.now ≡ S.left source.old → from.faults ≡ S.faults source.old
            → to.now ≡ K.written sink.old → to.faults ≡ K.faults sink.old → told.now ≡ L.written log.old → told.faults ≡ L.faults log.old
            → IsGoing o from to told self.old
            → Settles result o (moved from (S.left source.new) (S.faults source.new)) (moved to (K.written sink.new) (K.faults sink.new))
            (moved told (L.written log.new) (L.faults log.new)) self.new }
    {
        match self.settle(source, sink, log) {
            Ok(true) => Barrier::Done,
            Ok(false) => Barrier::More,
            Err(status) => Barrier::Stop(status),
        }
    }

    /// Does so, and answers whether the copy is done.
    fn settle<S: Source, K: Sink, L: Sink>(
        &mut self,
        source: &mut S,
        sink: &mut K,
        log: &mut L,
    ) -> Result<bool, Status>
        requires { GoesOn self.old }
        ensures settles { (o : Options) (from to told : Stream) → from.now ≡ S.left source.old → from.faults ≡ S.faults source.old
            → to.now ≡ K.written sink.old → to.faults ≡ K.faults sink.old → told.now ≡ L.written log.old → told.faults ≡ L.faults log.old
            → IsGoing o from to told self.old
            → IfOk result (λ done. HasEnded done o (moved from (S.left source.new) (S.faults source.new)) (moved to (K.written sink.new) (K.faults sink.new))
            (moved told (L.written log.new) (L.faults log.new)) self.new) }
        ensures stops { (o : Options) (from to told : Stream) → from.now ≡ S.left source.old → from.faults ≡ S.faults source.old
            → to.now ≡ K.written sink.old → to.faults ≡ K.faults sink.old → told.now ≡ L.written log.old → told.faults ≡ L.faults log.old
            → IsGoing o from to told self.old
            → IfErr result (λ status. StopsBy status o (moved from (S.left source.new) (S.faults source.new)) (moved to (K.written sink.new) (K.faults sink.new))
            (moved told (L.written log.new) (L.faults log.new)) self.new) }
    {
        self.hand();
        self.tell(log)?;
        self.store(sink)?;
        self.stop_if_cut()?;
        self.read(source)?;
        self.give()?;
        Ok(self.parts.finished())
    }

    /// Hands all completions to their machines.
    fn hand(&mut self)
        requires { GoesOn self.old }
        ensures on { GoesOn self.new }
        ensures hands { (o : Options) (from to log : Stream) → IsGoing o from to log self.old → IsHandedAll o from to log self.new }
    {
        self.parts.hand();
    }

    /// Writes the lines of all that was not told to the log, in one piece: the client's, the server's, and those of the workers of both.
    fn tell<L: Sink>(&mut self, log: &mut L) -> Result<(), Status>
        requires { GoesOn self.old }
        ensures on { OnOk result (GoesOn self.new) }
        ensures tells { (o : Options) (from to told : Stream) → told.now ≡ L.written log.old → told.faults ≡ L.faults log.old → IsHandedAll o from to told self.old
            → OnOk result (IsSettled o from to (moved told (L.written log.new) (L.faults log.new)) self.new) }
        ensures stops { (o : Options) (from to told : Stream) → told.now ≡ L.written log.old → told.faults ≡ L.faults log.old → IsHandedAll o from to told self.old
            → IfErr result (λ status. KeepsPromise status o from to (moved told (L.written log.new) (L.faults log.new))) }
        ensures no_cut { IfErr result (λ status. status ≢ statuses.Cut) }
    {
        let Ok(news) = news_of(
            self.alloc,
            &self.parts,
            self.parts.history(EndId::Client),
            self.parts.history(EndId::Server),
            &self.client_told,
            &self.server_told,
        ) else {
            return Err(Status::NoMemory);
        };
        match write_whole(log, news.text.as_bytes()) {
            Ok(()) => {}
            Err(Failed) => return Err(Status::LogFault),
        }
        self.client_told = news.client_told;
        self.server_told = news.server_told;
        self.parts.clear_lines();
        Ok(())
    }

    /// Stops the copy where its client has cut the link.
    fn stop_if_cut(&self) -> Result<(), Status>
        ensures goes_on { (o : Options) (from to log : Stream) → IsStoredAll o from to log self.now → OnOk result (StaysUncut o from to log self.now) }
        ensures stops { (o : Options) (from to log : Stream) → IsStoredAll o from to log self.now → IfErr result (λ status. KeepsPromise status o from to log) }
    {
        if self.parts.is_cut() {
            return Err(Status::Cut);
        }
        Ok(())
    }

    /// Gives all jobs that are due to their workers.
    fn give(&mut self) -> Result<(), Status>
        requires { GoesOn self.old }
        ensures gives { (o : Options) (from to log : Stream) → IsReadAll o from to log self.old → OnOk result (IsAfterBarrier o from to log self.new) }
        ensures stops { (o : Options) (from to log : Stream) → IsReadAll o from to log self.old → IfErr result (λ status. KeepsPromise status o from to log) }
        ensures no_cut { IfErr result (λ status. status ≢ statuses.Cut) }
    {
        match self.parts.give() {
            Ok(()) => Ok(()),
            Err(NoMemory) => Err(Status::NoMemory),
        }
    }
}
