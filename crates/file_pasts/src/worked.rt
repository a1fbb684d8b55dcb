//! Worked pasts: what is due after each call of small copies. Each is proved by computation.

ghost use Rattle.file_pasts.specs.WorkedPuts.{PutsSo};
ghost use Rattle.file_pasts.specs.WorkedPages.{RegistersSo};
ghost use Rattle.file_pasts.specs.WorkedServers.{ServesSo, GivesSo};
ghost use Rattle.file_pasts.specs.WorkedGets.{GetsSo, PlacesSo};
ghost use Rattle.file_pasts.specs.WorkedGroups.{GroupsSo};

/// A put of `abc` without registered pages.
pub fn worked_puts()
    ensures { PutsSo }
{}

/// Puts over registered pages.
pub fn worked_pages()
    ensures { RegistersSo }
{}

/// Servers of puts and gets.
pub fn worked_servers()
    ensures puts { ServesSo }
    ensures gets { GivesSo }
{}

/// Gets, without registered pages and a whole one over them.
pub fn worked_gets()
    ensures inline { GetsSo }
    ensures registered { PlacesSo }
{}

/// Copies of more than one group.
pub fn worked_groups()
    ensures { GroupsSo }
{}
