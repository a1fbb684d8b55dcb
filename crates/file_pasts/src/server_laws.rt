//! Laws of the server.

ghost use Rattle.file_pasts.specs.ServerLaws.{ServersReply, PutServersReply, GetServersReply, ServersStore, PutServersStore, ServersFetch};
ghost use Rattle.file_pasts.specs.ServerAccepts.{PutServersAccept, GetServersAccept};

/// A server that is asked for a front of the requests of a copy, and whose jobs are done, gives a front of the replies of
/// that copy, no more than it was asked for.
pub fn servers_reply()
    ensures runs { ServersReply }
    ensures puts { PutServersReply }
    ensures gets { GetServersReply }
{}

/// The groups that a server gives are a front of those that the requests bring: of a put's bytes, cut into groups.
pub fn servers_store_what_was_written()
    ensures runs { ServersStore }
    ensures puts { PutServersStore }
{}

/// The jobs that a server gives are those of its requests, in order, each once, and all of them of those that were replied
/// to.
pub fn servers_fetch_what_is_named()
    ensures { ServersFetch }
{}

/// A server that is handed the requests of a copy in turn refuses none of them: those of a put whenever they come, those of a
/// get where each comes after the replies to those before it, no access was refused, and the READs got the bytes of the copy.
pub fn servers_accept()
    ensures puts { PutServersAccept }
    ensures gets { GetServersAccept }
{}
