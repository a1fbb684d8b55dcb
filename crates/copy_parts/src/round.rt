//! A round.

ghost use Rattle.std.specs.Prelude.{OnOk};
ghost use Rattle.copy_laws.specs.Coupled.{Pasts};
ghost use Rattle.copy_parts.specs.declared.options.CopyOptions.{CopyOptions as Options};
ghost use Rattle.copy_parts.specs.Copies.{Stands};
ghost use Rattle.copy_parts.specs.Steps.{HasRun, HaveEndsRun, MayRun};

use crate::parts::Parts;
use copy_ends::{Share, cut_link, run_client, run_server};
use smbd_base::{EndId, NoMemory};

impl Parts {
    /// Each part does its share of a round: the client's end, the server's, and then all workers. Without memory the copy is over.
    pub fn run(&mut self) -> Result<(), NoMemory>
        requires { MayRun self.old }
        ensures { (o : Options) (p : Pasts) → Stands o p self.old → OnOk result (HasRun o p self.old self.new) }
    {
        self.run_ends()?;
        self.crew.run()
    }

    /// The client's end does its share of a round, and then the server's. Where the client comes to the frame in whose place the link is to be
    /// cut, both ends are cut with it.
    fn run_ends(&mut self) -> Result<(), NoMemory>
        requires { MayRun self.old }
        ensures { (o : Options) (p : Pasts) → Stands o p self.old → OnOk result (HaveEndsRun o p self.old self.new) }
    {
        let share = run_client(&mut self.world, &mut self.client, &mut self.left)?;
        let _ = self.world.history(EndId::Client);
        match share {
            Share::Cuts => cut_link(&mut self.world)?,
            Share::Full | Share::Rests => {
                run_server(&mut self.world, &mut self.server)?;
            }
        }
        let _ = self.world.history(EndId::Server);
        Ok(())
    }
}
