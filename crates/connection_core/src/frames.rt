//! The bytes of the frames that an end sends, and what those that it takes say.

ghost use Rattle.std.specs.Prelude.{◌≡◌, ◌≤◌, ◌++◌, None, IfOk, OnOk, OnErr};
ghost use Rattle.smbd_base.specs.declared.end_id.EndId.TheVariants as side;
ghost use Rattle.smbd_base.specs.Limits.{Limits};
ghost use Rattle.smbd_base.specs.NegotiateMessages.{IsLawfulRequest, answer_to, refusing_response, request_bytes, request_of_limits, response_bytes};
ghost use Rattle.negotiate_msg.specs.Shown.{shown_request, shown_response};
ghost use Rattle.connection_core.specs.Heard.{asks_in, fault_in, gathered_with, message_heard, IsNegotiation};
ghost use Rattle.transfer_msg.specs.Written.{header_text};

use crate::heard::Heard;
use crate::peer::Peer;
use negotiate_msg::{
    NegotiateRequest, NegotiateResponse, REQUEST_SIZE, RESPONSE_SIZE, answer, read_request,
    read_response, refusal, settle, write_request, write_response,
};
use reassembly::Gather;
use smbd_base::{EndId, EndLimits, Frame, Message, NegotiateFault, NoMemory, TakeFault};
use std::alloc::Global;
use transfer_msg::{HEADER_SIZE, Header, write};

/// The negotiate request of a client with these limits (MS-SMBD 2.2.1).
pub fn request(alloc: Global, limits: &EndLimits) -> Result<Frame, NoMemory>
    ensures { IfOk result (λ f. f ≡ request_bytes (request_of_limits limits.now)) }
{
    let mut out = [0; REQUEST_SIZE];
    write_request(limits, &mut out);
    Frame::copy_of(alloc, &out)
}

/// The response of a server with these limits to a request that it accepts, where it can grant so many credits
/// (MS-SMBD 2.2.2 and 3.1.5.6).
pub fn response(
    alloc: Global,
    request: &NegotiateRequest,
    limits: &EndLimits,
    grantable: u16,
) -> Result<Frame, NoMemory>
    requires read { IsLawfulRequest (shown_request request.now) }
    requires grantable { 1 ≤ grantable }
    ensures { IfOk result (λ f. f ≡ response_bytes (answer_to (shown_request request.now) limits.now grantable)) }
{
    response_frame(alloc, &answer(request, limits, grantable).0)
}

/// The response of a server that refuses a version.
pub fn refusing(alloc: Global) -> Result<Frame, NoMemory>
    ensures { IfOk result (λ f. f ≡ response_bytes refusing_response) }
{
    response_frame(alloc, &refusal())
}

fn response_frame(alloc: Global, response: &NegotiateResponse) -> Result<Frame, NoMemory>
    ensures { IfOk result (λ f. f ≡ response_bytes (shown_response response.now)) }
{
    let mut out = [0; RESPONSE_SIZE];
    write_response(response, &mut out);
    Frame::copy_of(alloc, &out)
}

/// What the peer's negotiation message says to an end with these limits, or why it is refused.
pub fn negotiation(bytes: &[u8], side: EndId, limits: &EndLimits) -> Result<Peer, NegotiateFault>
    ensures { IsNegotiation side limits.now bytes.now result }
{
    match side {
        EndId::Client => response_heard(bytes, limits),
        EndId::Server => request_heard(bytes),
    }
}

fn response_heard(bytes: &[u8], limits: &EndLimits) -> Result<Peer, NegotiateFault>
    ensures { IsNegotiation side.Client limits.now bytes.now result }
{
    match read_response(bytes, limits) {
        Ok(response) => Ok(Peer::Responds(settle(&response, limits))),
        Err(fault) => Err(fault),
    }
}

fn request_heard(bytes: &[u8]) -> Result<Peer, NegotiateFault>
    ensures { (limits : Limits) → IsNegotiation side.Server limits bytes.now result }
{
    match read_request(bytes) {
        Ok(request) => Ok(Peer::Requests(request)),
        Err(fault) => Err(fault),
    }
}

/// A data transfer message with this payload, which the header describes.
pub fn data_frame(alloc: Global, header: &Header, payload: &[u8]) -> Result<Frame, NoMemory>
    ensures { IfOk result (λ f. f ≡ header_text header.now ++ payload.now) }
{
    let mut head = [0; HEADER_SIZE];
    let length = write(&mut head, header);
    let mut bytes = Vec::with_capacity(alloc, length + payload.len())?;
    bytes.extend_from_slice(&head[..length])?;
    bytes.extend_from_slice(payload)?;
    Frame::of_bytes(bytes)
}

/// Why a frame is refused that came in turn and is not too long, if it is, while the gatherer stands so.
pub fn fault(heard: &Heard, gather: &Gather) -> Option<TakeFault>
    ensures { result ≡ fault_in gather.now.max gather.now.expected heard.now }
{
    match heard {
        Heard::Negotiation(Ok(_)) => None,
        Heard::Negotiation(Err(fault)) => Some(TakeFault::Negotiate(*fault)),
        Heard::Data(Err(fault)) => Some(TakeFault::Frame(*fault)),
        Heard::Data(Ok(view)) if view.payload.is_empty() => None,
        Heard::Data(Ok(view)) => gather
            .fault(view.payload, view.remaining)
            .map(TakeFault::Gather),
    }
}

/// Whether a frame asks for a response.
pub fn asks(heard: &Heard) -> bool
    ensures { result ≡ asks_in heard.now }
{
    match heard {
        Heard::Data(Ok(view)) => view.flags % 2 == 1,
        Heard::Data(Err(_)) | Heard::Negotiation(_) => false,
    }
}

/// Gathers the piece of a frame that is not refused, where it has one, and gives the message that it ends. Only memory can
/// lack, and then nothing has changed.
pub fn gathered(heard: &Heard, gather: &mut Gather) -> Result<Option<Message>, NoMemory>
    requires unbroken { gather.old.broken ≡ None }
    requires fits { fault_in gather.old.max gather.old.expected heard.now ≡ None }
    ensures message { IfOk result (λ m. m ≡ message_heard gather.old heard.now) }
    ensures added { OnOk result (gather.new ≡ gathered_with gather.old heard.now) }
    ensures same { OnErr result (gather.new ≡ gather.old) }
{
    match heard {
        Heard::Data(Ok(view)) if !view.payload.is_empty() => {
            gather
                .add(view.payload, view.remaining)
                .map_err(|_| NoMemory)
        }
        _ => Ok(None),
    }
}
