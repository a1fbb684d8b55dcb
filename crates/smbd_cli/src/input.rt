//! The whole input of a command that reads everything before it writes.

ghost use Rattle.std.specs.Prelude.{IfOk, IfErr};
ghost use Rattle.smbd_cli.specs.Input.{IsInput, StopsInput};
ghost use Rattle.end_workers.specs.Promise.{stream_of};

use smbd_outside::{Failed, Filled, Source, Status, fill};
use std::alloc::Global;

/// The most bytes that a command reads.
pub const MOST: usize = 16_777_216;

/// How many bytes are read between two requests for memory.
const BLOCK: usize = 65_536;

/// Reads a source to its end, of at most 16,777,216 bytes.
pub fn read_input<S: Source>(alloc: Global, source: &mut S) -> Result<Vec<u8>, Status>
    ensures read { IfOk result (λ bytes. IsInput (stream_of S.left S.faults source.old source.new) bytes.items) }
    ensures stops { IfErr result (λ status. StopsInput status (stream_of S.left S.faults source.old source.new)) }
{
    let mut bytes = Vec::new(alloc);
    while bytes.len() <= MOST {
        let room = BLOCK.min(MOST + 1 - bytes.len());
        let Ok(()) = bytes.reserve(room) else {
            return Err(Status::NoMemory);
        };
        let most = bytes.len() + room;
        match fill(source, &mut bytes, most) {
            Ok(Filled::End) => return Ok(bytes),
            Ok(Filled::Full) => {}
            Err(Failed) => return Err(Status::ReadFault),
        }
    }
    Err(Status::TooLong)
}
