//! Laws of copies over registered pages.

ghost use Rattle.copy_laws.specs.Growing.{GetsGrow, GetsHear};
ghost use Rattle.copy_laws.specs.Laws.{InlinePutsCome, RegisteredGetsCome, RegisteredPutsCome, WorkersFit};

/// The lists of the page events of all workers fit together, and each event is in the list of the worker of its page.
pub fn lists_of_workers_fit()
    ensures { WorkersFit }
{}

/// A put over registered pages asks for its bytes, is answered, and uses its pages as it has to.
pub fn puts_use_pages()
    ensures { RegisteredPutsCome }
{}

/// A put without registered pages asks for its bytes, is answered, and uses no page.
pub fn inline_puts_use_no_pages()
    ensures { InlinePutsCome }
{}

/// A get over registered pages asks for its bytes, is answered, gives them, and uses its pages as it has to.
pub fn gets_use_pages()
    ensures { RegisteredGetsCome }
{}

/// A get's server may be handed more bytes as it goes on: so far it was one of all of them. And its client hears what they give.
pub fn gets_go_on()
    ensures grow { GetsGrow }
    ensures hear { GetsHear }
{}
