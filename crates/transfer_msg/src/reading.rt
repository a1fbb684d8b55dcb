//! How a data transfer message is read.

ghost use Rattle.std.specs.Prelude.{◌≡◌};
ghost use Rattle.smbd_base.specs.DataFrame.{data_frame_of, with_payload};
ghost use Rattle.transfer_msg.specs.Shown.{shown_frame, shown_result};

use crate::layout::{
    CREDITS_GRANTED, CREDITS_REQUESTED, DATA_LENGTH, DATA_OFFSET, FIELDS_END, FLAGS, HEADER_SIZE,
    REMAINING_DATA_LENGTH,
};
use crate::view::DataView;
use smbd_base::{FrameFault, u16_at, u32_at};

/// What the bytes say as a data transfer message (MS-SMBD 2.2.3 and 3.1.5.8), or the first fault that applies:
/// `Short` for fewer than 20 bytes; where DataLength is above 0, `Offset` for a DataOffset that is below 24 or
/// no multiple of 8, and `Length` for a payload that passes the end of the bytes.
///
/// Reserved, the padding and the bytes after the payload may hold anything. With DataLength 0, DataOffset and
/// RemainingDataLength are not looked at.
#[tactic(auto, unfolding(smbd_base::specs::DataFrame::data_frame_of))]
pub fn read<'a>(bytes: &'a [u8]) -> Result<DataView<'a>, FrameFault>
    ensures { shown_result result ≡ data_frame_of bytes.now }
{
    if bytes.len() < FIELDS_END {
        return Err(FrameFault::Short);
    }
    let length = u32_at(bytes, DATA_LENGTH);
    if length == 0 {
        return Ok(view_of(bytes, 0, &bytes[..0]));
    }
    let start = u32_at(bytes, DATA_OFFSET) as usize;
    if start < HEADER_SIZE || start % 8 != 0 {
        return Err(FrameFault::Offset);
    }
    let end = start + length as usize;
    if bytes.len() < end {
        return Err(FrameFault::Length);
    }
    let remaining = u32_at(bytes, REMAINING_DATA_LENGTH);
    Ok(view_of(bytes, remaining, &bytes[start..end]))
}

/// The fields of the bytes, with this payload and so many bytes of its message after it.
fn view_of<'a>(bytes: &[u8], remaining: u32, payload: &'a [u8]) -> DataView<'a>
    ensures { shown_frame result ≡ with_payload bytes.now remaining payload.now }
{
    DataView {
        credits_requested: u16_at(bytes, CREDITS_REQUESTED),
        credits_granted: u16_at(bytes, CREDITS_GRANTED),
        flags: u16_at(bytes, FLAGS),
        remaining,
        payload,
    }
}
