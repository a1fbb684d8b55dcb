//! The made input as a source.

ghost use Rattle.std.specs.Prelude.{◌≡◌, ◌+◌, ◌<◌, ◌≤◌, ◌++◌, ℕ, length, take, drop, map, min, Some, IsOk, IfOk};
ghost use Rattle.std.specs.Io.{ReadsAtMost};
ghost use Rattle.std.specs.Io.KnownBytes.{ReadConsumes};
ghost use Rattle.std.specs.List.{range_with_len};
ghost use Rattle.smbd_outside.specs.Causes.{HasCause};
ghost use Rattle.made_input.specs.Made as spec;

use smbd_outside::{Failed, Source};
use std::marker::Model;

/// A source that makes its bytes as they are read, and never fails. Contracts see the bytes that are left.
#[derive(Debug, Drop)]
pub struct MadeInput {
    first: u8,
    length: u32,
    given: u32,
}

impl Model for MadeInput {
    ghost use Rattle.std.specs.Prelude.{List, ℕ, ◌≤◌, drop};
    ghost use Rattle.made_input.specs.Made.{made_bytes};

    ghost Value = { List ℕ };

    ghost view = { λ s. drop s.given (made_bytes s.first s.length) };

    ghost invariant = { λ s. s.given ≤ s.length };
}

impl MadeInput {
    /// The input of `length` bytes that begins with `first`. It takes no memory, however long it is.
    pub fn open(first: u8, length: u32) -> MadeInput
        ensures { result ≡ spec.made_bytes first length }
    {
        MadeInput {
            first,
            length,
            given: 0,
        }
    }
}

impl Source for MadeInput {
    ghost left = { λ source. Some source };

    ghost faults = { λ source. 0 };

    /// The smallest of the room and what is left.
    fn read(&mut self, buf: &mut [u8]) -> Result<usize, Failed>
        requires { 0 < length buf.old }
        ensures bound { ReadsAtMost result buf.new }
        ensures bytes { ReadConsumes (Some self.old) (Some self.new) result buf.new }
        ensures cause { HasCause 0 0 result }

        // It gives a front of what is left, and nothing else changes.
        ensures given { IfOk result (λ count. buf.new ≡ take count self.old ++ drop count buf.old) }
        ensures count { IfOk result (λ count. count ≡ min (length buf.old) (length self.old)) }
        ensures never_fails { IsOk result }
    {
        let count = buf.len().min((self.length - self.given) as usize);
        make(self.first, self.given, &mut buf[..count]);
        self.given += count as u32;
        Ok(count)
    }
}

/// Puts the bytes of the input from byte `place` on into the room.
fn make(first: u8, place: u32, room: &mut [u8])
    requires { place + length room.old ≤ 4294967295 }
    ensures { room.new ≡ map (spec.made_byte first) (range_with_len place (length room.old)) }
{
    let mut at = place;
    for byte in room.iter_mut() {
        *byte = made_byte(first, at);
        at += 1;
    }
}

/// Byte `place` of the input, from 0.
fn made_byte(first: u8, place: u32) -> u8
    ensures { result ≡ spec.made_byte first place }
{
    let place = u64::from(place);
    ((u64::from(first) + place + place / 256 + place / 65_536) % 256) as u8
}
