//! Whose line it is.

ghost use Rattle.std.specs.Prelude.{◌≡◌, ◌++◌, string_bytes, OnOk};
ghost use Rattle.event_log.specs.Lines as spec;

use smbd_base::NoMemory;

/// Whose line it is (this project's own): an end's, the client's `C` or the server's `S`, or that of one of its workers,
/// from 1 to 8.
#[derive(Clone, Copy, Debug, PartialEq, Eq)]
pub enum Side {
    /// The client.
    C,
    /// The server.
    S,
    /// The client's worker of this number.
    Cw(u8),
    /// The server's worker of this number.
    Sw(u8),
}

/// Adds the name of a side.
pub(crate) fn add_side(text: &mut String, side: Side) -> Result<(), NoMemory>
    ensures { OnOk result (string_bytes text.new ≡ string_bytes text.old ++ spec.side_text side) }
{
    match side {
        Side::C => text.push_str("C")?,
        Side::S => text.push_str("S")?,
        Side::Cw(worker) => write!(text, "C{worker}")?,
        Side::Sw(worker) => write!(text, "S{worker}")?,
    }
    Ok(())
}
