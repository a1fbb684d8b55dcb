//! How negotiation messages are written.

ghost use Rattle.std.specs.Prelude.{◌≡◌};
ghost use Rattle.negotiate_msg.specs.Shown.{shown_response};
ghost use Rattle.smbd_base.specs.Limits.{Limits};
ghost use Rattle.smbd_base.specs.NegotiateMessages.{IsLawfulResponse, read_request_of, read_response_of, request_bytes, request_of_limits, response_bytes};

use crate::layout::{REQUEST_SIZE, RESPONSE_SIZE, VERSION, in_request, in_response};
use crate::response::NegotiateResponse;
use smbd_base::{EndLimits, put_u16, put_u32};

/// Writes the negotiate request of a client with these limits (MS-SMBD 2.2.1): only version 0x0100, its receive credits
/// as CreditsRequested, and its sizes.
pub fn write_request(own: &EndLimits, out: &mut [u8; REQUEST_SIZE])
    ensures value { out.new ≡ request_bytes (request_of_limits own.now) }
    ensures read_back { read_request_of out.new ≡ Ok (request_of_limits own.now) }
{
    out.fill(0);
    put_u16(out, in_request::MIN_VERSION, VERSION);
    put_u16(out, in_request::MAX_VERSION, VERSION);
    put_u16(out, in_request::CREDITS_REQUESTED, own.credits());
    put_u32(out, in_request::PREFERRED_SEND_SIZE, own.send_size());
    put_u32(out, in_request::MAX_RECEIVE_SIZE, own.receive_size());
    put_u32(out, in_request::MAX_FRAGMENTED_SIZE, own.fragmented_size());
}

/// Writes a negotiate response (MS-SMBD 2.2.2), with Reserved 0. Each client that accepts such a response reads it back.
pub fn write_response(response: &NegotiateResponse, out: &mut [u8; RESPONSE_SIZE])
    ensures value { out.new ≡ response_bytes (shown_response response.now) }
    ensures read_back { (client : Limits) → IsLawfulResponse client (shown_response response.now) →
        read_response_of client out.new ≡ Ok (shown_response response.now) }
{
    out.fill(0);
    put_u16(out, in_response::MIN_VERSION, response.min_version);
    put_u16(out, in_response::MAX_VERSION, response.max_version);
    put_u16(
        out,
        in_response::NEGOTIATED_VERSION,
        response.negotiated_version,
    );
    put_u16(
        out,
        in_response::CREDITS_REQUESTED,
        response.credits_requested,
    );
    put_u16(out, in_response::CREDITS_GRANTED, response.credits_granted);
    put_u32(out, in_response::STATUS, response.status);
    put_u32(
        out,
        in_response::MAX_READ_WRITE_SIZE,
        response.max_read_write_size,
    );
    put_u32(
        out,
        in_response::PREFERRED_SEND_SIZE,
        response.preferred_send_size,
    );
    put_u32(
        out,
        in_response::MAX_RECEIVE_SIZE,
        response.max_receive_size,
    );
    put_u32(
        out,
        in_response::MAX_FRAGMENTED_SIZE,
        response.max_fragmented_size,
    );
}
