//! Laws of the client of a get.

ghost use Rattle.file_pasts.specs.GetLaws.{GetsAsk, RegisteredGetsAsk, JobsAreOfAGet, LoadsOwnRounds, GetUnloadsFollow, GetsReceive};
ghost use Rattle.file_pasts.specs.GetPagesBack.{JobsAreCounted, PagesComeBack};
ghost use Rattle.file_pasts.specs.GetReceives.{RegisteredGetsReceive};

/// A get asks for its bytes in order: where the replies that were handed in are a front of those of a copy, what it sent is a
/// front of the READs of that copy and its END. Over registered pages this holds where the pool gives each load of a page the
/// generation after that of the load before.
pub fn gets_ask_for_their_bytes()
    ensures inline { GetsAsk }
    ensures registered { RegisteredGetsAsk }
{}

/// The jobs of a get over registered pages are Loads of zeros into its 16 pages, for the server to place in, and Unloads.
/// Where the pool gives each load of a page the generation after that of the load before, a load has the descriptor by which
/// the READ of its round names it; and only tokens of READs that were replied to are unloaded.
pub fn rounds_load_and_unload()
    ensures jobs { JobsAreOfAGet }
    ensures owned { LoadsOwnRounds }
    ensures unloads { GetUnloadsFollow }
{}

/// The groups that come of a get are a front of those of the bytes, where the replies that were handed in are a front of those
/// of a copy. Over registered pages each Unload has to bring what the server placed in its page, and zeros after it; and the pool
/// has to give each load of a page the generation after that of the load before.
pub fn gets_receive_what_was_read()
    ensures inline { GetsReceive }
    ensures registered { RegisteredGetsReceive }
{}

/// Each job of a get that was given is open or was completed once. Where all are completed, the bytes that the client puts
/// together of some jobs in a row are those of the pages whose tokens they unloaded, in order: each Unload has to bring the bytes
/// that its token's page holds.
pub fn pages_come_back()
    ensures counted { JobsAreCounted }
    ensures bytes { PagesComeBack }
{}
