//! What the program is asked to do.

use copy_parts::CopyOptions;
use smbd_base::EndLimits;

/// A copy from the source to the sink, or one of a made input into memory.
#[derive(Clone, Copy, Debug, PartialEq, Eq)]
pub enum CopyCommand {
    Copy(CopyOptions),
    Load {
        first: u8,
        length: u32,
        options: CopyOptions,
    },
}

/// A command that waits for nobody: it reads all of its input, then checks it, and then writes.
#[derive(Clone, Copy, Debug, PartialEq, Eq)]
pub enum Plain {
    /// The run of a script over two ends of these limits.
    Sim(EndLimits),
    /// What each frame of a list says.
    Show,
}

/// What the program is asked to do.
#[derive(Clone, Copy, Debug, PartialEq, Eq)]
pub enum Command {
    Copy(CopyCommand),
    Plain(Plain),
}
