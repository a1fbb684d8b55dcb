//! What the next request has to say, by those before it.

ghost use Rattle.std.specs.Prelude.{◌≡◌, ◌+◌, ◌*◌, ◌<◌, ◌≤◌, ◌==◌, ◌||◌, ◌^◌, if◌then◌else◌, not};
ghost use Rattle.file_messages.specs.Messages.{WRITE, END};
ghost use Rattle.file_server.specs.ServerTurn.{is_late};

use file_messages::{END, Request, WRITE};

/// How far the requests have come.
#[derive(Clone, Copy)]
pub(crate) struct Course {
    /// How many were accepted, which is the id of the last one.
    pub(crate) accepted: u64,
    /// Whether an END was.
    pub(crate) ended: bool,
    /// The bytes of the accepted WRITEs.
    pub(crate) written: u64,
    /// The bytes that the replies counted.
    pub(crate) counted: u64,
}

impl Course {
    /// Whether the request does not come in its turn, of whatever kind the copy is.
    pub(crate) fn is_late(&self, request: &Request) -> bool
        requires { self.now.accepted < 4294967296 }
        ensures { result ≡ is_late self.now request.now }
    {
        u64::from(request.id) != self.accepted + 1 || self.ended
    }

    /// The course after this request was accepted.
    pub(crate) fn with(&self, request: &Request) -> Course
        requires { self.now.written + request.now.length < 2 ^ 64 }
        ensures few { result.accepted < 4294967296 }
        ensures value { result ≡ record {
          accepted = request.now.id;
          ended = self.now.ended || request.now.op == END;
          written = self.now.written + (if request.now.op == WRITE then request.now.length else 0);
          counted = self.now.counted;
        } }
    {
        Course {
            accepted: u64::from(request.id),
            ended: self.ended || request.op == END,
            written: self.written + bytes_of(request),
            counted: self.counted,
        }
    }
}

/// The bytes that a WRITE brings.
fn bytes_of(request: &Request) -> u64
    ensures { result ≡ (if request.now.op == WRITE then request.now.length else 0) }
{
    if request.op == WRITE {
        u64::from(request.length)
    } else {
        0
    }
}
