//! Laws of the client of a put: what it asks for, and how it uses its registered pages.

ghost use Rattle.file_pasts.specs.PutLaws.{PutsAsk, RegisteredPutsAsk};
ghost use Rattle.file_pasts.specs.PutTokens.{RegisteredPutsName};
ghost use Rattle.file_pasts.specs.PutPages.{PagesGoInStep, LoadsComeDue, LoadsCarryParts, JobsAreOfAPut, PartsAreOfGroups, LoadsOwnParts, NamedAreLoaded, RequestsAreAnswered, UnloadsFollowReplies};

/// A put asks for its bytes in order: what it sent is a front of the requests of the bytes that were handed in, and END is
/// among it only where they have ended. Over registered pages this holds where the pool gives each load of a page the
/// generation after that of the load before.
pub fn puts_ask_for_their_bytes()
    ensures inline { PutsAsk }
    ensures registered { RegisteredPutsAsk }
    ensures tokens { RegisteredPutsName }
{}

/// The loads and unloads of each page go in step: nothing is loaded before the load before it was unloaded, named before
/// it was loaded, or unloaded before the reply; and the Load of a part is due just where its page is free.
pub fn pages_go_in_step()
    ensures steps { PagesGoInStep }
    ensures loads { LoadsComeDue }
{}

/// The Loads of a page carry its parts, in order, for the server to fetch; and the part for the time after so many loads is
/// just that part of a group for which the group's WRITE names this page and generation.
pub fn loads_carry_their_parts()
    ensures parts { LoadsCarryParts }
    ensures jobs { JobsAreOfAPut }
    ensures groups { PartsAreOfGroups }
{}

/// Where the pool gives each load of a page the generation after that of the load before, a page's load has the descriptor
/// of the part that it carries; and each descriptor of a WRITE that was sent is one of a load.
pub fn writes_name_loaded_parts()
    ensures owned { LoadsOwnParts }
    ensures named { NamedAreLoaded }
{}

/// What was sent was replied to or is unanswered, and only tokens of requests that were replied to are unloaded.
pub fn unloads_follow_replies()
    ensures answered { RequestsAreAnswered }
    ensures unloads { UnloadsFollowReplies }
{}
