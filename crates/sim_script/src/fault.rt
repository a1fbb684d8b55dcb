//! Why a text is no script.

use smbd_base::NoMemory;
use std::alloc::AllocError;
use thiserror::Error;

/// Why a text is not read as a script (this project's own).
#[derive(Clone, Copy, Debug, PartialEq, Eq, Error)]
pub enum ScriptFault {
    /// The line of this number, from 1, is the first that is none of a script.
    #[error("line {0} is no line of a script")]
    Line(u64),
    /// No memory could be had for the choices.
    #[error("no memory")]
    NoMemory,
}

impl From<NoMemory> for ScriptFault {
    ghost use Rattle.std.specs.Prelude.{◌≡◌};
    ghost use Rattle.sim_script.specs.declared.fault.ScriptFault.TheVariants as faults;

    ghost from_gives = { λ _ e. e ≡ faults.NoMemory };

    fn from(_refused: NoMemory) -> ScriptFault {
        ScriptFault::NoMemory
    }
}

impl From<AllocError> for ScriptFault {
    ghost use Rattle.std.specs.Prelude.{◌≡◌};
    ghost use Rattle.sim_script.specs.declared.fault.ScriptFault.TheVariants as faults;

    ghost from_gives = { λ _ e. e ≡ faults.NoMemory };

    fn from(_refused: AllocError) -> ScriptFault {
        ScriptFault::NoMemory
    }
}
