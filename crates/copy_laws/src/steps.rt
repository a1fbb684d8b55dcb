//! What each step of a copy leaves of how its parts go together.

ghost use Rattle.copy_laws.specs.Steps.{ClientGives, ClientTakes, ClientTalks, ClientWorks, GetsAnswer, NoneRefused, Opens, PutsAnswer, ServerGives, ServerTakes, ServerTalks, ServerWorks};

/// Machines that were told nothing go together with fresh workers and with pages that were never loaded.
pub fn copies_open_coupled()
    ensures { Opens }
{}

/// What a machine hears, sends, takes and gives, but for jobs and their completions, concerns no worker.
pub fn talk_changes_nothing()
    ensures client { ClientTalks }
    ensures server { ServerTalks }
{}

/// A job goes to the worker of its page, and waits there.
pub fn jobs_go_to_their_workers()
    ensures client { ClientGives }
    ensures server { ServerGives }
{}

/// The events that a worker makes are the next ones of the pages.
pub fn workers_go_on()
    ensures client { ClientWorks }
    ensures server { ServerWorks }
{}

/// In a put and in a get each completion answered a job that was open.
pub fn clients_hear_answers()
    ensures puts { PutsAnswer }
    ensures gets { GetsAnswer }
{}

/// The oldest completion of a worker answers a job that its machine gave, and that wasn't answered; and no worker refuses a job.
pub fn completions_answer()
    ensures client { ClientTakes }
    ensures server { ServerTakes }
    ensures refused { NoneRefused }
{}
