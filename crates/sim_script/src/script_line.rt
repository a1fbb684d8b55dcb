//! What a line of a script says.

use smbd_base::EndId;

/// What a line of a script says.
#[derive(Clone, Copy, Debug, PartialEq, Eq)]
pub enum ScriptLine {
    /// The layer above the end submits so many bytes, which count up from the first one.
    Submit { end: EndId, length: u32, first: u8 },
    /// The end does what comes next at it.
    Drive(EndId),
    /// The end takes the oldest frame in flight to it.
    Carry(EndId),
    /// The link is cut, and the end with it.
    Cut(EndId),
}
