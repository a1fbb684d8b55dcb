//! What a line is read as.

ghost use Rattle.std.specs.Prelude.{◌≡◌};
ghost use Rattle.frame_lists.specs.Frames as spec;

use smbd_base::EndId;

/// What a frame is read as.
#[derive(Clone, Copy, Debug, PartialEq, Eq)]
pub(crate) enum Kind {
    /// A negotiate request (MS-SMBD 2.2.1).
    Request,
    /// A negotiate response (MS-SMBD 2.2.2).
    Response,
    /// A data transfer message (MS-SMBD 2.2.3).
    Data,
}

/// Which of the two negotiation messages are still to come.
#[derive(Clone, Copy, Debug, PartialEq, Eq)]
pub(crate) struct Awaited {
    pub(crate) request: bool,
    pub(crate) response: bool,
}

impl Awaited {
    /// What a frame of this end is read as.
    pub(crate) fn kind(self, end: EndId) -> Kind
        ensures { result ≡ spec.kind_of self end }
    {
        match end {
            EndId::Client if self.request => Kind::Request,
            EndId::Server if self.response => Kind::Response,
            EndId::Client | EndId::Server => Kind::Data,
        }
    }

    /// What is awaited after a frame of this end.
    pub(crate) fn after(self, end: EndId) -> Awaited
        ensures { result ≡ spec.awaited_after self end }
    {
        match end {
            EndId::Client => Awaited {
                request: false,
                ..self
            },
            EndId::Server => Awaited {
                response: false,
                ..self
            },
        }
    }
}
