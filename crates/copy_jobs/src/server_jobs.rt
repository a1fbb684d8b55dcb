//! The server's jobs.

ghost use Rattle.std.specs.Prelude.{◌≡◌, OnOk};
ghost use Rattle.smbd_base.specs.declared.end_id.EndId.TheVariants as side;
ghost use Rattle.file_messages.specs.declared.kind.CopyKind.{CopyKind};
ghost use Rattle.copy_laws.specs.Coupled.{Pasts};
ghost use Rattle.page_crew.specs.Crews.{HasNone, workers_of, dones_of};
ghost use Rattle.copy_jobs.specs.Jobs.{ServerWith, MayWorkForServer, ServerHanded, ServerGiven, IsSameBut};

use file_server::FileServer;
use page_crew::Crew;
use smbd_base::{EndId, NoMemory};

/// Hands all completions of the server's workers to its machine.
pub fn hand_to_server(crew: &mut Crew, server: &mut FileServer)
    requires { MayWorkForServer server.old crew.old }
    ensures handed { (kind : CopyKind) (p : Pasts) → ServerWith kind p server.old crew.old → ServerHanded kind p server.new crew.new }
    ensures none { HasNone (workers_of side.Server crew.new) }
    ensures same { IsSameBut side.Server crew.old crew.new }
{
    while let Some(completion) = crew.taken(EndId::Server) {
        server.completed(completion);
    }
}

/// Gives all jobs that are due at the server's machine to its workers. Without memory the job that was due is let go: the copy is over.
pub fn give_for_server(crew: &mut Crew, server: &mut FileServer) -> Result<(), NoMemory>
    requires { MayWorkForServer server.old crew.old }
    ensures given { (kind : CopyKind) (p : Pasts) → ServerWith kind p server.old crew.old → OnOk result (ServerGiven kind p server.new crew.new) }
    ensures same { OnOk result (IsSameBut side.Server crew.old crew.new) }
    ensures untaken { OnOk result (dones_of (workers_of side.Server crew.new) ≡ dones_of (workers_of side.Server crew.old)) }
{
    while let Some(job) = server.next_job() {
        crew.give(EndId::Server, job)?;
    }
    Ok(())
}
