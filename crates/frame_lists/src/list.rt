//! A list of frames, and its description.

ghost use Rattle.std.specs.Prelude.{◌≡◌, None, string_bytes, IfOk, IfErr};
ghost use Rattle.frame_lists.specs.Frames as spec;

use crate::awaited::Awaited;
use crate::fault::FrameListFault;
use crate::message::add_line;
use crate::reading::read_line;
use hex::FromHexError;
use sim_script::next_line;
use smbd_base::NoMemory;
use std::alloc::Global;

/// Describes the frames of a text, one line a frame, or answers the number, from 1, of the first line that is none of a list
/// of frames. The text is read once.
#[tactic(auto, using(crate::proofs::LineLemmas::past_good_line))]
pub fn describe(alloc: Global, text: &[u8]) -> Result<String, FrameListFault>
    ensures good { IfOk result (λ description. spec.first_bad_frame_line text.now ≡ None) }
    ensures description { IfOk result (λ description. string_bytes description ≡ spec.description_of text.now) }

    // A number is given for the first bad line alone. Want of memory never hides that the first line is bad.
    ensures fault { IfErr result (λ fault. spec.IsFrameListFault fault text.now) }
{
    let mut description = String::new(alloc);
    let mut awaited = Awaited {
        request: true,
        response: true,
    };
    let mut rest = text;
    let mut number: u64 = 0;
    while let Some((line, after)) = next_line(rest) {
        number += 1;
        let Some((end, digits)) = read_line(line) else {
            return Err(FrameListFault::Line(number));
        };
        let frame = bytes_of(alloc, digits)?;
        add_line(&mut description, awaited.kind(end), end, &frame)?;
        awaited = awaited.after(end);
        rest = after;
    }
    Ok(description)
}

/// The bytes of the digits of a frame.
fn bytes_of(alloc: Global, digits: &[u8]) -> Result<Vec<u8>, NoMemory>
    ensures { IfOk result (λ bytes. bytes.items ≡ spec.bytes_of_digits digits.now) }
{
    match hex::decode(alloc, digits) {
        Ok(bytes) => Ok(bytes),
        Err(_) => Err(NoMemory),
    }
}

/// The number, from 1, of the first line of a text that is none of a list of frames, where there is one. It takes no memory.
pub fn first_bad_line(text: &[u8]) -> Option<u64>
    ensures { result ≡ spec.first_bad_frame_line text.now }
{
    let mut rest = text;
    let mut number: u64 = 0;
    while let Some((line, after)) = next_line(rest) {
        number += 1;
        if read_line(line).is_none() {
            return Some(number);
        }
        rest = after;
    }
    None
}
