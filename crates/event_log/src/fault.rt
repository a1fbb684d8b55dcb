//! Why bytes are no line of a log.

use smbd_base::NoMemory;
use thiserror::Error;

/// Why bytes are no line of a log (this project's own). `Long` is looked for first, then the faults in this order, and
/// of `Number` and `Hex` the one that the word can have.
#[derive(Clone, Copy, Debug, PartialEq, Eq, Error)]
pub enum LineFault {
    /// The first part is none of the names of a side.
    #[error("the line begins with no side")]
    Side,
    /// The second part is missing, or no word that a line of this side can have.
    #[error("the line has no word of its side")]
    Word,
    /// The parts after the word are too few or too many, or one of them is no number of its range, or no right.
    #[error("the parts after the word are not those of its line")]
    Number,
    /// The frame isn't 1 to 8,192 bytes of hex in lower case, two digits a byte.
    #[error("the frame is no hex of 1 to 8192 bytes")]
    Hex,
    /// More than 16,400 bytes.
    #[error("the line has more than 16400 bytes")]
    Long,
    /// No memory could be had for a frame.
    #[error("no memory")]
    NoMemory,
}

impl From<NoMemory> for LineFault {
    ghost use Rattle.std.specs.Prelude.{◌≡◌};
    ghost use Rattle.event_log.specs.declared.fault.LineFault.TheVariants as faults;

    ghost from_gives = { λ _ e. e ≡ faults.NoMemory };

    fn from(_refused: NoMemory) -> LineFault {
        LineFault::NoMemory
    }
}
