//! Why a text is no list of frames.

use smbd_base::NoMemory;
use std::alloc::AllocError;
use thiserror::Error;

/// Why a text is not described as a list of frames (this project's own).
#[derive(Clone, Copy, Debug, PartialEq, Eq, Error)]
pub enum FrameListFault {
    /// The line of this number, from 1, is the first that is none of a list of frames.
    #[error("line {0} is no line of a list of frames")]
    Line(u64),
    /// No memory could be had for the description.
    #[error("no memory")]
    NoMemory,
}

impl From<NoMemory> for FrameListFault {
    ghost use Rattle.std.specs.Prelude.{◌≡◌};
    ghost use Rattle.frame_lists.specs.declared.fault.FrameListFault.TheVariants as faults;

    ghost from_gives = { λ _ e. e ≡ faults.NoMemory };

    fn from(_refused: NoMemory) -> FrameListFault {
        FrameListFault::NoMemory
    }
}

impl From<AllocError> for FrameListFault {
    ghost use Rattle.std.specs.Prelude.{◌≡◌};
    ghost use Rattle.frame_lists.specs.declared.fault.FrameListFault.TheVariants as faults;

    ghost from_gives = { λ _ e. e ≡ faults.NoMemory };

    fn from(_refused: AllocError) -> FrameListFault {
        FrameListFault::NoMemory
    }
}
