//! The client's jobs.

ghost use Rattle.std.specs.Prelude.{◌≡◌, ℕ, OnOk};
ghost use Rattle.smbd_base.specs.declared.end_id.EndId.TheVariants as side;
ghost use Rattle.file_messages.specs.declared.kind.Channel.{Channel};
ghost use Rattle.file_messages.specs.declared.kind.CopyKind.{CopyKind};
ghost use Rattle.copy_laws.specs.Coupled.{Pasts};
ghost use Rattle.page_crew.specs.Crews.{HasNone, workers_of, dones_of};
ghost use Rattle.copy_jobs.specs.Jobs.{ClientWith, MayWorkForClient, ClientHanded, ClientGiven, IsSameBut};

use copy_ends::ClientMachine;
use page_crew::Crew;
use smbd_base::{EndId, NoMemory};

/// Hands all completions of the client's workers to its machine.
pub fn hand_to_client(crew: &mut Crew, client: &mut ClientMachine)
    requires { MayWorkForClient client.old crew.old }
    ensures handed { (kind : CopyKind) (channel : Channel) (pages : ℕ) (p : Pasts) → ClientWith kind channel pages p client.old crew.old
        → ClientHanded kind channel pages p client.new crew.new }
    ensures none { HasNone (workers_of side.Client crew.new) }
    ensures same { IsSameBut side.Client crew.old crew.new }
{
    while let Some(completion) = crew.taken(EndId::Client) {
        client.completed(completion);
    }
}

/// Gives all jobs that are due at the client's machine to its workers. Without memory the job that was due is let go: the copy is over.
pub fn give_for_client(crew: &mut Crew, client: &mut ClientMachine) -> Result<(), NoMemory>
    requires { MayWorkForClient client.old crew.old }
    ensures given { (kind : CopyKind) (channel : Channel) (pages : ℕ) (p : Pasts) → ClientWith kind channel pages p client.old crew.old
        → OnOk result (ClientGiven kind channel pages p client.new crew.new) }
    ensures same { OnOk result (IsSameBut side.Client crew.old crew.new) }
    ensures untaken { OnOk result (dones_of (workers_of side.Client crew.new) ≡ dones_of (workers_of side.Client crew.old)) }
{
    while let Some(job) = client.next_job() {
        crew.give(EndId::Client, job)?;
    }
    Ok(())
}
