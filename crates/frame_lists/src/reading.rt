//! Reading a line.

ghost use Rattle.std.specs.Prelude.{◌≡◌};
ghost use Rattle.std.specs.List.{list_all};
ghost use Rattle.hex.specs.Hex.{is_hex_digit};
ghost use Rattle.event_log.specs.Reading.{parts_left};
ghost use Rattle.frame_lists.specs.Frames as spec;

use event_log::first_part;
use sim_script::next_end;
use smbd_base::EndId;

/// Whether this is a digit of hex, in either case.
fn is_digit(b: u8) -> bool
    ensures { result ≡ is_hex_digit b }
{
    (b'A' <= b && b <= b'F') || (b'a' <= b && b <= b'f') || (b'0' <= b && b <= b'9')
}

/// Whether all are such digits.
fn are_digits(digits: &[u8]) -> bool
    ensures { result ≡ list_all is_hex_digit digits.now }
{
    digits.iter().all(|&b| is_digit(b))
}

/// Whether these are the digits of a frame.
#[tactic(auto, unfolding(crate::specs::Frames::is_frame_text))]
fn is_frame_text(digits: &[u8]) -> bool
    ensures { result ≡ spec.is_frame_text digits.now }
{
    if digits.len() < 2 || digits.len() > 16_384 || digits.len() % 2 != 0 {
        return false;
    }
    are_digits(digits)
}

/// The end that sent the frame of a line, and the digits of the frame, if these bytes are a line. They have no line feed.
#[tactic(auto, unfolding(crate::specs::Frames::frame_line))]
pub(crate) fn read_line(bytes: &[u8]) -> Option<(EndId, &[u8])>
    ensures { spec.end_and_digits result ≡ spec.frame_line bytes.now }
{
    let (end, rest) = next_end(Some(bytes))?;
    let digits = last_part(rest)?;
    if is_frame_text(digits) {
        Some((end, digits))
    } else {
        None
    }
}

/// The part that is left, where it is one.
fn last_part(rest: Option<&[u8]>) -> Option<&[u8]>
    ensures { spec.digits_shown result ≡ spec.last_part (parts_left rest.entry) }
{
    match first_part(rest?) {
        (part, None) => Some(part),
        (_, Some(_)) => None,
    }
}
