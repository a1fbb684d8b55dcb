//! What a copy wants, and how it ends.

ghost use Rattle.copy_runs.specs.Laws.{CopiesEnd, RequestsAreFew, ServersWant};

/// A copy has few requests: one for each group, and two more.
pub fn requests_are_few()
    ensures { RequestsAreFew }
{}

/// The server of a get wants whole groups, and nothing once the end of the bytes was seen.
pub fn servers_want_groups()
    ensures { ServersWant }
{}

/// Where the reply to END was taken and no group waits, the copy is whole.
pub fn copies_end()
    ensures { CopiesEnd }
{}
