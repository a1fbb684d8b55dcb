//! Whole pieces to a sink, and whole buffers from a source.

ghost use Rattle.std.specs.Prelude.{◌≡◌, ℕ, ◌<◌, ◌≤◌, length, take, Ok, OnOk, OnErr, vec_capacity};
ghost use Rattle.std.specs.Io.KnownBytes.{Appends, IsAtEnd};
ghost use Rattle.smbd_outside.specs.Causes.{HasCause};
ghost use Rattle.smbd_outside.specs.Streams.{AppendsFront, Gains};

use crate::failed::Failed;
use crate::sink::Sink;
use crate::source::Source;

/// Why a fill stopped.
#[derive(Clone, Copy, Debug, PartialEq, Eq)]
pub enum Filled {
    /// The buffer has as many bytes as it was to get.
    Full,
    /// The source ended before that.
    End,
}

/// Writes the whole piece, which may be empty. At `Failed` a sink that tells its bytes got a front of the piece.
/// It takes no memory.
pub fn write_whole<K: Sink>(sink: &mut K, piece: &[u8]) -> Result<(), Failed>
    ensures whole { OnOk result (Appends (K.written sink.old) (K.written sink.new) piece.now) }
    ensures front { OnErr result (AppendsFront (K.written sink.old) (K.written sink.new) piece.now) }
    ensures cause { HasCause (K.faults sink.old) (K.faults sink.new) result }
{
    let mut rest = piece;
    while !rest.is_empty() {
        match sink.write(rest) {
            Ok(count) => rest = &rest[count..],
            Err(Failed) => return Err(Failed),
        }
    }
    Ok(())
}

/// Reads until `bytes` has `most` bytes or the source ended. At `Failed` the buffer keeps what was read before.
/// It takes no memory, as the buffer has room for `most` bytes, and leaves the buffer its room.
pub fn fill<S: Source>(source: &mut S, bytes: &mut Vec<u8>, most: usize) -> Result<Filled, Failed>
    requires room { most ≤ vec_capacity bytes.old }
    requires within { length bytes.old.items ≤ most }
    ensures gains { Gains (S.left source.old) (S.left source.new) bytes.old.items bytes.new.items }
    ensures within { length bytes.new.items ≤ most }
    ensures full { result ≡ Ok Filled.Full → length bytes.new.items ≡ most }
    ensures short { (result ≡ Ok Filled.Full → ⊥) → length bytes.new.items < most }
    ensures end { result ≡ Ok Filled.End → IsAtEnd (S.left source.new) }
    ensures cause { HasCause (S.faults source.old) (S.faults source.new) result }
    ensures room { vec_capacity bytes.old ≤ vec_capacity bytes.new }
{
    let start = bytes.len();
    bytes.resize(most, 0).unwrap();
    let (filled, answer) = fill_from(source, bytes.as_mut_slice(), start);
    bytes.truncate(filled);
    answer
}

/// Reads into `buf` from place `start` on, until it is full or the source ended, and answers how many bytes it has.
fn fill_from<S: Source>(
    source: &mut S,
    buf: &mut [u8],
    start: usize,
) -> (usize, Result<Filled, Failed>)
    requires { start ≤ length buf.old }
    ensures gains { Gains (S.left source.old) (S.left source.new) (take start buf.old) (take result.0 buf.new) }
    ensures within { result.0 ≤ length buf.new }
    ensures full { result.1 ≡ Ok Filled.Full → result.0 ≡ length buf.new }
    ensures short { (result.1 ≡ Ok Filled.Full → ⊥) → result.0 < length buf.new }
    ensures end { result.1 ≡ Ok Filled.End → IsAtEnd (S.left source.new) }
    ensures cause { HasCause (S.faults source.old) (S.faults source.new) result.1 }
{
    let mut filled = start;
    while filled < buf.len() {
        match source.read(&mut buf[filled..]) {
            Ok(0) => return (filled, Ok(Filled::End)),
            Ok(count) => filled += count,
            Err(Failed) => return (filled, Err(Failed)),
        }
    }
    (filled, Ok(Filled::Full))
}
