//! What a frame says.

ghost use Rattle.std.specs.Prelude.{◌≡◌, ◌++◌, [], ◌∷◌, string_bytes, OnOk};
ghost use Rattle.smbd_base.specs.DataFrame.{data_frame_of};
ghost use Rattle.smbd_base.specs.Limits.{usual_limits};
ghost use Rattle.smbd_base.specs.NegotiateMessages.{read_request_of, read_response_of};
ghost use Rattle.negotiate_msg.specs.Shown.{shown_request, shown_response};
ghost use Rattle.sim_script.specs.Scripts.{end_text};
ghost use Rattle.transfer_msg.specs.Shown.{shown_frame};
ghost use Rattle.frame_lists.specs.Frames as spec;

use crate::awaited::Kind;
use negotiate_msg::{NegotiateRequest, NegotiateResponse, read_request, read_response};
use smbd_base::{EndId, EndLimits, FrameFault, NegotiateFault, NoMemory};
use transfer_msg::DataView;

/// The name of a fault of a negotiation message.
fn negotiate_fault_name(fault: NegotiateFault) -> &'static str
    ensures { result.now ≡ spec.negotiate_fault_name fault }
{
    match fault {
        NegotiateFault::Short => "Short",
        NegotiateFault::Version => "Version",
        NegotiateFault::Credits => "Credits",
        NegotiateFault::Granted => "Granted",
        NegotiateFault::SendSize => "SendSize",
        NegotiateFault::ReceiveSize => "ReceiveSize",
        NegotiateFault::FragmentedSize => "FragmentedSize",
        NegotiateFault::Status => "Status",
    }
}

/// The name of a fault of a data transfer message.
fn frame_fault_name(fault: FrameFault) -> &'static str
    ensures { result.now ≡ spec.frame_fault_name fault }
{
    match fault {
        FrameFault::Short => "Short",
        FrameFault::Offset => "Offset",
        FrameFault::Length => "Length",
    }
}

/// Adds why a frame is not what it is read as.
fn add_fault(text: &mut String, name: &str) -> Result<(), NoMemory>
    ensures { OnOk result (string_bytes text.new ≡ string_bytes text.old ++ spec.fault_text name.now) }
{
    text.push_str("fault ")?;
    text.push_str(name)?;
    Ok(())
}

/// Adds a field's name and its number.
#[tactic(auto, unfolding(crate::specs::Frames::field))]
fn add_field(text: &mut String, name: &str, number: u64) -> Result<(), NoMemory>
    ensures { OnOk result (string_bytes text.new ≡ string_bytes text.old ++ spec.field name.now number) }
{
    write!(text, " {name} {number}")?;
    Ok(())
}

fn add_request(text: &mut String, request: &NegotiateRequest) -> Result<(), NoMemory>
    ensures { OnOk result (string_bytes text.new ≡ string_bytes text.old ++ spec.request_text (Ok (shown_request request.now))) }
{
    text.push_str("request")?;
    add_field(text, "asked", u64::from(request.credits_requested))?;
    add_field(text, "send", u64::from(request.preferred_send_size))?;
    add_field(text, "receive", u64::from(request.max_receive_size))?;
    add_field(text, "fragmented", u64::from(request.max_fragmented_size))
}

fn add_response(text: &mut String, response: &NegotiateResponse) -> Result<(), NoMemory>
    ensures { OnOk result (string_bytes text.new ≡ string_bytes text.old ++ spec.response_text (Ok (shown_response response.now))) }
{
    text.push_str("response")?;
    add_field(text, "asked", u64::from(response.credits_requested))?;
    add_field(text, "granted", u64::from(response.credits_granted))?;
    add_field(text, "readwrite", u64::from(response.max_read_write_size))?;
    add_field(text, "send", u64::from(response.preferred_send_size))?;
    add_field(text, "receive", u64::from(response.max_receive_size))?;
    add_field(text, "fragmented", u64::from(response.max_fragmented_size))
}

fn add_data(text: &mut String, message: &DataView) -> Result<(), NoMemory>
    ensures { OnOk result (string_bytes text.new ≡ string_bytes text.old ++ spec.data_text (Ok (shown_frame message.now))) }
{
    text.push_str("data")?;
    add_field(text, "asked", u64::from(message.credits_requested))?;
    add_field(text, "granted", u64::from(message.credits_granted))?;
    add_field(text, "flags", u64::from(message.flags))?;
    add_field(text, "remaining", u64::from(message.remaining))?;
    add_field(text, "payload", message.payload.len() as u64)
}

/// Adds what a frame says, read as this.
fn add_message(text: &mut String, kind: Kind, frame: &[u8]) -> Result<(), NoMemory>
    ensures { OnOk result (string_bytes text.new ≡ string_bytes text.old ++ spec.message_text kind frame.now) }
{
    match kind {
        Kind::Request => add_request_or_fault(text, frame),
        Kind::Response => add_response_or_fault(text, frame),
        Kind::Data => add_data_or_fault(text, frame),
    }
}

fn add_request_or_fault(text: &mut String, frame: &[u8]) -> Result<(), NoMemory>
    ensures { OnOk result (string_bytes text.new ≡ string_bytes text.old ++ spec.request_text (read_request_of frame.now)) }
{
    match read_request(frame) {
        Ok(request) => add_request(text, &request),
        Err(fault) => add_fault(text, negotiate_fault_name(fault)),
    }
}

fn add_response_or_fault(text: &mut String, frame: &[u8]) -> Result<(), NoMemory>
    ensures { OnOk result (string_bytes text.new ≡ string_bytes text.old ++ spec.response_text (read_response_of usual_limits frame.now)) }
{
    match read_response(frame, &EndLimits::usual()) {
        Ok(response) => add_response(text, &response),
        Err(fault) => add_fault(text, negotiate_fault_name(fault)),
    }
}

fn add_data_or_fault(text: &mut String, frame: &[u8]) -> Result<(), NoMemory>
    ensures { OnOk result (string_bytes text.new ≡ string_bytes text.old ++ spec.data_text (data_frame_of frame.now)) }
{
    match transfer_msg::read(frame) {
        Ok(message) => add_data(text, &message),
        Err(fault) => add_fault(text, frame_fault_name(fault)),
    }
}

/// The name of an end.
fn end_name(end: EndId) -> &'static str
    ensures { result.now ≡ end_text end }
{
    match end {
        EndId::Client => "C",
        EndId::Server => "S",
    }
}

/// Adds the line of a frame that this end sent, with its line feed.
#[tactic(auto, unfolding(crate::specs::Frames::described))]
pub(crate) fn add_line(
    text: &mut String,
    kind: Kind,
    end: EndId,
    frame: &[u8],
) -> Result<(), NoMemory>
    ensures { OnOk result (string_bytes text.new ≡ string_bytes text.old ++ (spec.described kind (end, frame.now) ++ 10 ∷ [])) }
{
    text.push_str(end_name(end))?;
    text.push_str(" ")?;
    add_message(text, kind, frame)?;
    text.push_str("\n")?;
    Ok(())
}
