//! How negotiation messages are read.

ghost use Rattle.std.specs.Prelude.{◌≡◌, IfOk};
ghost use Rattle.negotiate_msg.specs.Shown.{shown_request, shown_response, shown_request_result, shown_response_result};
ghost use Rattle.smbd_base.specs.NegotiateMessages.{IsLawfulRequest, IsLawfulResponse, fault_in_request, fault_in_response, read_request_of, read_response_of, request_fields, response_fields};

use crate::layout::{REQUEST_SIZE, RESPONSE_SIZE, SUCCESS, VERSION, in_request, in_response};
use crate::request::NegotiateRequest;
use crate::response::NegotiateResponse;
use smbd_base::{
    EndLimits, LEAST_FRAGMENTED_SIZE, LEAST_FRAME_SIZE, NegotiateFault, u16_at, u32_at,
};

/// What the bytes say as a negotiate request (MS-SMBD 2.2.1; the bounds are this project's own), or the first fault that
/// applies: `Short` for fewer than 20 bytes, `Version` where MinVersion is above 0x0100 or MaxVersion below it, `Credits`
/// for no CreditsRequested, `ReceiveSize` for a MaxReceiveSize below 128, and `FragmentedSize` for a MaxFragmentedSize
/// below 131,072.
///
/// Reserved, PreferredSendSize and the bytes after the twentieth may hold anything.
#[tactic(auto, unfolding(smbd_base::specs::NegotiateMessages::request_fault))]
pub fn read_request(bytes: &[u8]) -> Result<NegotiateRequest, NegotiateFault>
    ensures value { shown_request_result result ≡ read_request_of bytes.now }
    ensures lawful { IfOk result (λ request. IsLawfulRequest (shown_request request)) }
{
    if bytes.len() < REQUEST_SIZE {
        return Err(NegotiateFault::Short);
    }
    let request = request_in(bytes);
    match request_fault(&request) {
        Some(fault) => Err(fault),
        None => Ok(request),
    }
}

/// What the bytes say as a negotiate response (MS-SMBD 2.2.2; the bounds are this project's own) to a client with these
/// limits, or the first fault that applies: `Short` for fewer than 32 bytes, `Status` where Status is not 0, `Version` for
/// another NegotiatedVersion than 0x0100, `Credits` for no CreditsRequested, `Granted` where CreditsGranted is 0 or above
/// the client's receive credits, `SendSize` for a PreferredSendSize above the client's MaxReceiveSize, `ReceiveSize` for a
/// MaxReceiveSize below 128, and `FragmentedSize` for a MaxFragmentedSize below 131,072.
///
/// MinVersion, MaxVersion, Reserved, MaxReadWriteSize and the bytes after the thirty-second may hold anything.
#[tactic(auto, unfolding(smbd_base::specs::NegotiateMessages::response_fault))]
pub fn read_response(bytes: &[u8], own: &EndLimits) -> Result<NegotiateResponse, NegotiateFault>
    ensures value { shown_response_result result ≡ read_response_of own.now bytes.now }
    ensures lawful { IfOk result (λ response. IsLawfulResponse own.now (shown_response response)) }
{
    if bytes.len() < RESPONSE_SIZE {
        return Err(NegotiateFault::Short);
    }
    let response = response_in(bytes);
    match response_fault(&response, own) {
        Some(fault) => Err(fault),
        None => Ok(response),
    }
}

/// The fields of a request where they stand.
fn request_in(bytes: &[u8]) -> NegotiateRequest
    ensures { shown_request result ≡ request_fields bytes.now }
{
    NegotiateRequest {
        min_version: u16_at(bytes, in_request::MIN_VERSION),
        max_version: u16_at(bytes, in_request::MAX_VERSION),
        credits_requested: u16_at(bytes, in_request::CREDITS_REQUESTED),
        preferred_send_size: u32_at(bytes, in_request::PREFERRED_SEND_SIZE),
        max_receive_size: u32_at(bytes, in_request::MAX_RECEIVE_SIZE),
        max_fragmented_size: u32_at(bytes, in_request::MAX_FRAGMENTED_SIZE),
    }
}

/// The first field that a server does not accept.
#[tactic(auto, unfolding(smbd_base::specs::NegotiateMessages::fault_in_request))]
fn request_fault(request: &NegotiateRequest) -> Option<NegotiateFault>
    ensures { result ≡ fault_in_request (shown_request request.now) }
{
    if VERSION < request.min_version || request.max_version < VERSION {
        return Some(NegotiateFault::Version);
    }
    if request.credits_requested == 0 {
        return Some(NegotiateFault::Credits);
    }
    if request.max_receive_size < LEAST_FRAME_SIZE {
        return Some(NegotiateFault::ReceiveSize);
    }
    if request.max_fragmented_size < LEAST_FRAGMENTED_SIZE {
        return Some(NegotiateFault::FragmentedSize);
    }
    None
}

/// The fields of a response where they stand.
fn response_in(bytes: &[u8]) -> NegotiateResponse
    ensures { shown_response result ≡ response_fields bytes.now }
{
    NegotiateResponse {
        min_version: u16_at(bytes, in_response::MIN_VERSION),
        max_version: u16_at(bytes, in_response::MAX_VERSION),
        negotiated_version: u16_at(bytes, in_response::NEGOTIATED_VERSION),
        credits_requested: u16_at(bytes, in_response::CREDITS_REQUESTED),
        credits_granted: u16_at(bytes, in_response::CREDITS_GRANTED),
        status: u32_at(bytes, in_response::STATUS),
        max_read_write_size: u32_at(bytes, in_response::MAX_READ_WRITE_SIZE),
        preferred_send_size: u32_at(bytes, in_response::PREFERRED_SEND_SIZE),
        max_receive_size: u32_at(bytes, in_response::MAX_RECEIVE_SIZE),
        max_fragmented_size: u32_at(bytes, in_response::MAX_FRAGMENTED_SIZE),
    }
}

/// The first field that a client with these limits does not accept.
#[tactic(auto, unfolding(smbd_base::specs::NegotiateMessages::fault_in_response))]
fn response_fault(response: &NegotiateResponse, own: &EndLimits) -> Option<NegotiateFault>
    ensures { result ≡ fault_in_response own.now (shown_response response.now) }
{
    if response.status != SUCCESS {
        return Some(NegotiateFault::Status);
    }
    if response.negotiated_version != VERSION {
        return Some(NegotiateFault::Version);
    }
    if response.credits_requested == 0 {
        return Some(NegotiateFault::Credits);
    }
    if response.credits_granted == 0 || own.credits() < response.credits_granted {
        return Some(NegotiateFault::Granted);
    }
    if own.receive_size() < response.preferred_send_size {
        return Some(NegotiateFault::SendSize);
    }
    if response.max_receive_size < LEAST_FRAME_SIZE {
        return Some(NegotiateFault::ReceiveSize);
    }
    if response.max_fragmented_size < LEAST_FRAGMENTED_SIZE {
        return Some(NegotiateFault::FragmentedSize);
    }
    None
}
