//! Completions and jobs, between the machines of a copy and its workers.

ghost use Rattle.std.specs.Prelude.{OnOk};
ghost use Rattle.copy_laws.specs.Coupled.{Pasts};
ghost use Rattle.copy_parts.specs.declared.options.CopyOptions.{CopyOptions as Options};
ghost use Rattle.copy_parts.specs.Copies.{Stands};
ghost use Rattle.copy_parts.specs.Steps.{AreStanding, HasGiven, HasHanded};

use crate::parts::Parts;
use copy_jobs::{give_for_client, give_for_server, hand_to_client, hand_to_server};
use smbd_base::NoMemory;

impl Parts {
    /// Hands all completions of the workers to their machines.
    pub fn hand(&mut self)
        requires { AreStanding self.old }
        ensures { (o : Options) (p : Pasts) → Stands o p self.old → HasHanded o p self.old self.new }
    {
        hand_to_client(&mut self.crew, &mut self.client);
        hand_to_server(&mut self.crew, &mut self.server);
    }

    /// Gives all jobs that are due to the workers of their end. Without memory the copy is over.
    pub fn give(&mut self) -> Result<(), NoMemory>
        requires { AreStanding self.old }
        ensures { (o : Options) (p : Pasts) → Stands o p self.old → OnOk result (HasGiven o p self.old self.new) }
    {
        give_for_client(&mut self.crew, &mut self.client)?;
        give_for_server(&mut self.crew, &mut self.server)
    }
}
