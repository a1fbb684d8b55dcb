//! Why a piece is refused.

ghost use Rattle.std.specs.Prelude.{◌≡◌};

use smbd_base::Broken;
use std::alloc::AllocError;
use thiserror::Error;

/// Why a gatherer refuses a piece (MS-SMBD 3.1.5.8; the limits are this project's own). The first that applies is
/// answered: `Failed`, then `Total` or `TooLong`, then `NoMemory`.
#[derive(Clone, Copy, Debug, PartialEq, Eq, Error)]
pub enum GatherFault {
    /// A message is begun, and the piece and the bytes after it are not just the bytes that were left of it.
    #[error("{found} bytes of the message where {expected} were left")]
    Total { expected: u64, found: u64 },
    /// No message is begun, and this one would have more bytes than may be gathered.
    #[error("a message of {total} bytes is longer than {max}")]
    TooLong { total: u64, max: u32 },
    /// An earlier piece was refused for this.
    #[error("an earlier piece was refused: {0}")]
    Failed(Broken),
    /// No memory could be had. No clause says when this comes.
    #[error("no memory")]
    NoMemory,
}

impl From<AllocError> for GatherFault {
    ghost use Rattle.reassembly.specs.declared.fault.GatherFault.TheVariants as faults;

    ghost from_gives = { λ _ e. e ≡ faults.NoMemory };

    fn from(_refused: AllocError) -> GatherFault {
        GatherFault::NoMemory
    }
}

impl From<Broken> for GatherFault {
    ghost use Rattle.reassembly.specs.Gathering.{gather_fault_for};

    ghost from_gives = { λ broken e. e ≡ gather_fault_for broken };

    fn from(broken: Broken) -> GatherFault {
        match broken {
            Broken::Total { expected, found } => GatherFault::Total { expected, found },
            Broken::TooLong { total, max } => GatherFault::TooLong { total, max },
        }
    }
}
