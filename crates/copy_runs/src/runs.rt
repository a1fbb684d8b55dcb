//! What a copy comes to, and that it goes on so.

ghost use Rattle.copy_runs.specs.Laws.{ClientsCarry, CopiesRun, ServersCarry};

/// A copy asks for its bytes, is answered, uses its pages as it has to, and gives the groups of its bytes.
pub fn copies_run()
    ensures { CopiesRun }
{}

/// Whatever its machines do, a get is handed the bytes of the copy and answered by them.
pub fn copies_go_on()
    ensures clients { ClientsCarry }
    ensures servers { ServersCarry }
{}
