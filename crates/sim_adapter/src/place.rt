//! Where things lie in the table.

ghost use Rattle.std.specs.Prelude.{◌≡◌};
ghost use Rattle.smbd_base.specs.Counts.{peer_of};
ghost use Rattle.smbd_base.specs.Limits.{IsLawful};
ghost use Rattle.sim_adapter.specs.Rule.{place, posted_word, emitted_word, taken_word};

use crate::view::Ends;
use smbd_base::EndId;

/// The word that says whether the link is cut.
pub const CUT_WORD: usize = 0;

/// The slot of the frame that `side` sends after so many.
pub fn place_of(ends: &Ends, side: EndId, count: u64) -> usize
    requires { IsLawful ends.now.client × IsLawful ends.now.server }
    ensures { result ≡ place ends.now side count }
{
    let client = ends.client.credits();
    let server = ends.server.credits();
    match side {
        EndId::Client => (count % u64::from(server)) as usize,
        EndId::Server => usize::from(server) + (count % u64::from(client)) as usize,
    }
}

/// The word of the receives that an end posted.
pub fn posted_at(side: EndId) -> usize
    ensures { result ≡ posted_word side }
{
    match side {
        EndId::Client => 1,
        EndId::Server => 4,
    }
}

/// The word of the frames that an end sent.
pub fn emitted_at(side: EndId) -> usize
    ensures { result ≡ emitted_word side }
{
    match side {
        EndId::Client => 2,
        EndId::Server => 5,
    }
}

/// The word of the frames that an end took.
pub fn taken_at(side: EndId) -> usize
    ensures { result ≡ taken_word side }
{
    match side {
        EndId::Client => 3,
        EndId::Server => 6,
    }
}

/// The other end.
pub fn peer(side: EndId) -> EndId
    ensures { result ≡ peer_of side }
{
    match side {
        EndId::Client => EndId::Server,
        EndId::Server => EndId::Client,
    }
}
