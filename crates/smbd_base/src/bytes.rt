//! Little-endian numbers in a list of bytes (MS-SMBD 2.2: all fields are little-endian).

ghost use Rattle.std.specs.Prelude.{◌≡◌, ◌+◌, ◌^◌, ◌<◌, ◌≤◌, ◌++◌, length, take, drop};
ghost use Rattle.std.specs.Int.{w16, w32, to_le_bytes};
ghost use Rattle.smbd_base.specs.Fields as field;

/// The 16-bit number at this place, and 0 where the bytes end before its end.
pub fn u16_at(bytes: &[u8], at: usize) -> u16
    ensures { result ≡ field.u16_at at bytes.now }
{
    if bytes.len() < 2 || bytes.len() - 2 < at {
        return 0;
    }
    u16::from_le_bytes([bytes[at], bytes[at + 1]])
}

/// The 32-bit number at this place, and 0 where the bytes end before its end.
pub fn u32_at(bytes: &[u8], at: usize) -> u32
    ensures { result ≡ field.u32_at at bytes.now }
{
    if bytes.len() < 4 || bytes.len() - 4 < at {
        return 0;
    }
    u32::from_le_bytes([bytes[at], bytes[at + 1], bytes[at + 2], bytes[at + 3]])
}

/// Writes a 16-bit number at this place.
pub fn put_u16(out: &mut [u8], place: usize, number: u16)
    requires { place + 2 ≤ length out.old }
    ensures fits { number < 2 ^ 16 }
    ensures bytes { out.new ≡ take place out.old ++ (to_le_bytes w16 number ++ drop (place + 2) out.old) }
{
    out[place..place + 2].copy_from_slice(&number.to_le_bytes());
}

/// Writes a 32-bit number at this place.
pub fn put_u32(out: &mut [u8], place: usize, number: u32)
    requires { place + 4 ≤ length out.old }
    ensures fits { number < 2 ^ 32 }
    ensures bytes { out.new ≡ take place out.old ++ (to_le_bytes w32 number ++ drop (place + 4) out.old) }
{
    out[place..place + 4].copy_from_slice(&number.to_le_bytes());
}
