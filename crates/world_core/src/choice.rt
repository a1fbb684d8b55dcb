//! What a script chooses, and what comes of it.

ghost use Rattle.std.specs.Prelude.{◌≡◌};
ghost use Rattle.world_core.specs.Choices.{end_of, cuts_link};

use smbd_base::{EndId, Message};

/// One step of a script.
#[derive(Clone, Debug, Drop)]
pub enum Choice {
    /// The layer above the end submits a message.
    Submit(EndId, Message),
    /// The end does what comes next at it.
    Drive(EndId),
    /// The end takes the oldest frame in flight to it.
    Carry(EndId),
    /// The link is cut, and the end with it.
    Cut(EndId),
}

/// What came of a choice.
#[derive(Clone, Copy, Debug, PartialEq, Eq)]
pub enum Step {
    /// An event was added.
    Did,
    /// No event may be added, and nothing has changed.
    Nothing,
}

impl Choice {
    /// The end whose turn it is.
    pub fn end(&self) -> EndId
        ensures { result ≡ end_of self.now }
    {
        match self {
            Choice::Submit(end, _) | Choice::Drive(end) | Choice::Carry(end) | Choice::Cut(end) => {
                *end
            }
        }
    }

    /// Whether the link is cut.
    pub fn cuts_link(&self) -> bool
        ensures { result ≡ cuts_link self.now }
    {
        matches!(self, Choice::Cut(_))
    }
}
