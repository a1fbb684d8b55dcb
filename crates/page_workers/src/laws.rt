//! Laws of workers.

ghost use Rattle.page_workers.specs.Laws.{AnswersClients, AnswersServers, GivenJobsWait, NumbersFollow, StepsExtendPasts};

/// A job that is given waits behind the others, and completions come in the order of the jobs.
pub fn jobs_are_done_in_turn()
    ensures given { GivenJobsWait }
    ensures numbers { NumbersFollow }
{}

/// The events of a worker go on with the past of its region's pages. So the lists of all workers of a region fit together
/// (`lists_of_passes_fit` of `smbd_base`).
pub fn steps_extend_the_past()
    ensures { StepsExtendPasts }
{}

/// What a worker says of a finished job is what the machine takes that gave the job: the client's or the server's.
pub fn finished_jobs_answer()
    ensures clients { AnswersClients }
    ensures servers { AnswersServers }
{}
