//! How the header of a message is written.

ghost use Rattle.std.specs.Prelude.{◌≡◌, ◌++◌, drop};
ghost use Rattle.transfer_msg.specs.Written.{header_length, header_text};

use crate::header::Header;
use crate::layout::{
    CREDITS_GRANTED, CREDITS_REQUESTED, DATA_LENGTH, DATA_OFFSET, FIELDS_END, FLAGS, HEADER_SIZE,
    REMAINING_DATA_LENGTH,
};
use smbd_base::{put_u16, put_u32};

/// Writes what stands before the payload of a data transfer message (MS-SMBD 2.2.3), and answers its length:
/// 24 bytes, or 20 where the payload's length is 0. Then all fields but the credits are 0, and the last four
/// bytes of `out` are left as they are.
pub fn write(out: &mut [u8; HEADER_SIZE], header: &Header) -> usize
    ensures length { result ≡ header_length header.now }
    ensures bytes { out.new ≡ header_text header.now ++ drop result out.old }
{
    if header.length == 0 {
        out[..FIELDS_END].fill(0);
        put_u16(out, CREDITS_REQUESTED, header.credits_requested);
        put_u16(out, CREDITS_GRANTED, header.credits_granted);
        return FIELDS_END;
    }
    out.fill(0);
    put_u16(out, CREDITS_REQUESTED, header.credits_requested);
    put_u16(out, CREDITS_GRANTED, header.credits_granted);
    put_u16(out, FLAGS, u16::from(header.response_requested));
    put_u32(out, REMAINING_DATA_LENGTH, header.remaining);
    put_u32(out, DATA_OFFSET, HEADER_SIZE as u32);
    put_u32(out, DATA_LENGTH, header.length);
    out.len()
}
