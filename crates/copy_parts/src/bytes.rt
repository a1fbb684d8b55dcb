//! The bytes of a copy, at the machines of its source and of its sink.

ghost use Rattle.std.specs.Prelude.{◌≡◌, ◌<◌, OnOk, IfSome, MatchOption};
ghost use Rattle.file_messages.specs.declared.kind.CopyKind.TheVariants as kinds;
ghost use Rattle.copy_laws.specs.Coupled.{Pasts};
ghost use Rattle.copy_parts.specs.declared.options.CopyOptions.{CopyOptions as Options};
ghost use Rattle.copy_parts.specs.Copies.{Stands, wants_bytes};
ghost use Rattle.copy_parts.specs.Steps.{AreStandingOf, AreWanted, HasComeOut, HasNoGroup, HasTaken, MayTake, groups_waiting};

use crate::parts::Parts;
use file_messages::CopyKind;
use smbd_base::{Message, NoMemory};

impl Parts {
    /// The next group that came to the sink of a copy of this kind, if one waits.
    pub fn next_group(&mut self, kind: CopyKind) -> Option<Message>
        requires { AreStandingOf kind self.old }
        ensures next { (o : Options) (p : Pasts) → o.kind ≡ kind → Stands o p self.old
            → MatchOption result (HasNoGroup o p self.old self.new) (λ group. HasComeOut o p group self.old self.new) }
        ensures fewer { IfSome result (λ group. groups_waiting kind self.new < groups_waiting kind self.old) }
    {
        match kind {
            CopyKind::Put => self.server.stored(),
            CopyKind::Get => self.client.received(),
        }
    }

    /// Whether the machine at the source of a copy of this kind wants bytes.
    pub fn wants_bytes(&self, kind: CopyKind) -> bool
        requires { AreStandingOf kind self.now }
        ensures { (o : Options) (p : Pasts) → o.kind ≡ kind → Stands o p self.now → result ≡ wants_bytes kind o.channel o.limits.pages p }
    {
        match kind {
            CopyKind::Put => self.client.wants_group(),
            CopyKind::Get => self.server.wants_source().is_some(),
        }
    }

    /// Takes the bytes that are wanted: a whole group, or fewer with their end. Without memory the copy is over.
    pub fn take_bytes(&mut self, kind: CopyKind, bytes: &[u8], ended: bool) -> Result<(), NoMemory>
        requires { MayTake kind bytes.now ended self.old }
        ensures { (o : Options) (p : Pasts) → o.kind ≡ kind → Stands o p self.old → AreWanted o p bytes.now ended
            → OnOk result (HasTaken o p bytes.now ended self.old self.new) }
    {
        match kind {
            CopyKind::Put => self.take_group(bytes, ended),
            CopyKind::Get => self.server.source(bytes),
        }
    }

    /// The client of a put takes a group, if it has bytes, and then their end.
    fn take_group(&mut self, bytes: &[u8], ended: bool) -> Result<(), NoMemory>
        requires { MayTake kinds.Put bytes.now ended self.old }
        ensures { (o : Options) (p : Pasts) → o.kind ≡ kinds.Put → Stands o p self.old → AreWanted o p bytes.now ended
            → OnOk result (HasTaken o p bytes.now ended self.old self.new) }
    {
        if !bytes.is_empty() {
            self.client.group(bytes)?;
        }
        if ended {
            self.client.end();
        }
        Ok(())
    }
}
