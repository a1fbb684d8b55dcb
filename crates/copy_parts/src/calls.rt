//! What the parts of a copy do.

ghost use Rattle.std.specs.Prelude.{◌≡◌, ◌<◌, length, slice_get, Some, IfOk, reverse};
ghost use Rattle.smbd_base.specs.History.{is_cut};
ghost use Rattle.world_core.specs.Run.{past_of};
ghost use Rattle.copy_ends.specs.Cuts.{AreLeft};
ghost use Rattle.copy_laws.specs.Coupled.{Pasts};
ghost use Rattle.copy_laws.specs.Kinds.{is_over};
ghost use Rattle.page_crew.specs.Crews.{lines_of, workers_of};
ghost use Rattle.copy_parts.specs.declared.options.CopyOptions.{CopyOptions as Options};
ghost use Rattle.copy_parts.specs.Options.{AreLawful};
ghost use Rattle.copy_parts.specs.Copies.{Stands};
ghost use Rattle.copy_parts.specs.Steps.{HasCleared, IsOpened};

use crate::options::CopyOptions;
use crate::parts::Parts;
use copy_ends::ClientMachine;
use event_log::LogLine;
use file_messages::CopyKind;
use file_server::FileServer;
use page_crew::Crew;
use smbd_base::{EndId, Event, NoMemory};
use std::alloc::Global;
use world_core::World;

impl Parts {
    /// Both ends have posted their receives; nothing else happened.
    pub fn open(alloc: Global, options: &CopyOptions) -> Result<Parts, NoMemory>
        requires { AreLawful options.now }
        ensures { IfOk result (λ parts. IsOpened options.now parts) }
    {
        let limits = options.limits;
        let pages = limits.pages();
        Ok(Parts {
            world: World::open(alloc, limits, limits)?,
            client: ClientMachine::open(alloc, options.kind, options.channel, pages)?,
            server: FileServer::open(alloc, options.kind)?,
            crew: Crew::open(alloc, options.workers, pages)?,
            left: frames_before(options.cut),
        })
    }

    /// Whether the client has cut the link.
    pub fn is_cut(&self) -> bool
        ensures { result ≡ is_cut self.now.world.client }
    {
        self.world.is_cut(EndId::Client)
    }

    /// The events of an end, in the order of time.
    pub fn history(&self, end: EndId) -> &[Event]
        ensures { reverse result.now ≡ past_of end self.now.world }
    {
        self.world.history(end)
    }

    /// How many workers each end has.
    pub fn workers(&self) -> u8
        ensures number { result ≡ length self.now.crew.clients }
        ensures even { length self.now.crew.servers ≡ length self.now.crew.clients }
    {
        self.crew.count()
    }

    /// The lines of the events of one worker, its place counted from 0, that weren't told; the oldest first.
    pub fn lines(&self, end: EndId, place: u8) -> &[LogLine]
        requires { place < length self.now.crew.clients }
        ensures { slice_get (lines_of (workers_of end self.now.crew)) place ≡ Some result.now }
    {
        self.crew.lines(end, place)
    }

    /// All lines of the workers are told.
    pub fn clear_lines(&mut self)
        ensures { (o : Options) (p : Pasts) → Stands o p self.old → HasCleared o p self.old self.new }
    {
        self.crew.clear_lines();
    }

    /// Whether the client has taken the reply to END.
    pub fn finished(&self) -> bool
        ensures { (o : Options) (p : Pasts) → Stands o p self.now → result ≡ is_over o.kind p.client }
    {
        self.client.finished()
    }
}

/// How many frames the client may send before it cuts the link in the place of the frame of this number.
fn frames_before(cut: Option<u32>) -> Option<u32>
    requires { cut ≡ Some 0 → ⊥ }
    ensures { AreLeft cut 0 result }
{
    match cut {
        None => None,
        Some(number) => Some(number - 1),
    }
}
