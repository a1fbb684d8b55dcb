//! The answer to a request, and what an end has then agreed.

ghost use Rattle.std.specs.Prelude.{◌≡◌, ◌≤◌};
ghost use Rattle.negotiate_msg.specs.Shown.{shown_request, shown_response};
ghost use Rattle.smbd_base.specs.Limits.{Limits};
ghost use Rattle.smbd_base.specs.NegotiateMessages.{IsLawfulAgreement, IsLawfulRequest, IsLawfulResponse, agreed_with_client, agreed_with_server, answer_to, refusing_response, request_of_limits};

use crate::layout::{SUCCESS, VERSION};
use crate::request::NegotiateRequest;
use crate::response::NegotiateResponse;
use smbd_base::{Agreed, EndLimits};

/// STATUS_NOT_SUPPORTED (MS-SMBD 2.2.2).
const NOT_SUPPORTED: u32 = 0xC000_00BB;

/// The most bytes of one remote access (MaxReadWriteSize), of which a server of this project only tells its client.
const READ_WRITE_MAX: u32 = 1_048_576;

/// The response of a server with these limits that accepts the request (MS-SMBD 3.1.5.6), and what the server has then
/// agreed. `grantable` is the number of receives that are posted and not yet granted, at least 1. The response grants the
/// smaller of what was asked and what is grantable, and names as PreferredSendSize the smaller of the server's own and the
/// client's MaxReceiveSize. The client that wrote the request accepts it.
///
/// The request was read by `read_request` without a fault.
pub fn answer(
    request: &NegotiateRequest,
    own: &EndLimits,
    grantable: u16,
) -> (NegotiateResponse, Agreed)
    requires read { IsLawfulRequest (shown_request request.now) }
    requires grantable { 1 ≤ grantable }
    ensures response { shown_response result.0 ≡ answer_to (shown_request request.now) own.now grantable }
    ensures agreed { result.1 ≡ agreed_with_client own.now (shown_request request.now) }
    ensures accepted { (client : Limits) → shown_request request.now ≡ request_of_limits client →
        IsLawfulResponse client (shown_response result.0) }
    ensures lawful { IsLawfulAgreement result.1 }
{
    let agreed = settle_with_client(request, own);
    let response = NegotiateResponse {
        min_version: VERSION,
        max_version: VERSION,
        negotiated_version: VERSION,
        credits_requested: own.credits(),
        credits_granted: request.credits_requested.min(grantable),
        status: SUCCESS,
        max_read_write_size: READ_WRITE_MAX,
        preferred_send_size: agreed.send_size,
        max_receive_size: own.receive_size(),
        max_fragmented_size: own.fragmented_size(),
    };
    (response, agreed)
}

/// What a server with these limits has agreed with the client of the request (MS-SMBD 3.1.5.6), whatever it grants: it sends
/// frames no longer than the smaller of its own preferred send size and the client's MaxReceiveSize.
///
/// The request was read by `read_request` without a fault.
pub fn settle_with_client(request: &NegotiateRequest, own: &EndLimits) -> Agreed
    requires read { IsLawfulRequest (shown_request request.now) }
    ensures agreed { result ≡ agreed_with_client own.now (shown_request request.now) }
    ensures lawful { IsLawfulAgreement result }
{
    Agreed {
        send_size: own.send_size().min(request.max_receive_size),
        message_max: request.max_fragmented_size,
        read_write_max: None,
        credits_requested: request.credits_requested,
    }
}

/// The response to a request of another version: Status is 0xC00000BB (STATUS_NOT_SUPPORTED), both versions are 0x0100,
/// and all other fields are 0 (this project's own, but for the status).
pub fn refusal() -> NegotiateResponse
    ensures { shown_response result ≡ refusing_response }
{
    NegotiateResponse {
        min_version: VERSION,
        max_version: VERSION,
        negotiated_version: 0,
        credits_requested: 0,
        credits_granted: 0,
        status: NOT_SUPPORTED,
        max_read_write_size: 0,
        preferred_send_size: 0,
        max_receive_size: 0,
        max_fragmented_size: 0,
    }
}

/// What a client with these limits has agreed with the server of the response (MS-SMBD 3.1.5.7): it sends frames no longer
/// than the smaller of its own preferred send size and the server's MaxReceiveSize.
///
/// The response was read by `read_response` for these limits without a fault.
pub fn settle(response: &NegotiateResponse, own: &EndLimits) -> Agreed
    requires read { IsLawfulResponse own.now (shown_response response.now) }
    ensures agreed { result ≡ agreed_with_server own.now (shown_response response.now) }
    ensures lawful { IsLawfulAgreement result }
{
    Agreed {
        send_size: own.send_size().min(response.max_receive_size),
        message_max: response.max_fragmented_size,
        read_write_max: Some(response.max_read_write_size),
        credits_requested: response.credits_requested,
    }
}
