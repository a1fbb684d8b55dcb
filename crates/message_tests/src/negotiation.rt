//! Negotiation messages: the written forms, and each field at its bound and beside it.

use negotiate_msg::NegotiateFault::*;
use negotiate_msg::{
    Agreed, NegotiateFault, NegotiateRequest, NegotiateResponse, answer, read_request,
    read_response, refusal, settle, write_request, write_response,
};
use smbd_base::EndLimits;
use std::process::Abort;

/// The request of the usual limits, and what it says.
const REQUEST_BYTES: &[u8; 20] =
    b"\x00\x01\x00\x01\x00\x00\xff\x00\x54\x05\x00\x00\x00\x20\x00\x00\x00\x00\x10\x00";

const REQUEST: NegotiateRequest = NegotiateRequest {
    min_version: 0x0100,
    max_version: 0x0100,
    credits_requested: 255,
    preferred_send_size: 1_364,
    max_receive_size: 8_192,
    max_fragmented_size: 1_048_576,
};

/// The response to it of a server of the usual limits, and what it says.
const RESPONSE_BYTES: &[u8; 32] =
    b"\x00\x01\x00\x01\x00\x01\x00\x00\xff\x00\xff\x00\x00\x00\x00\x00\x00\x00\x10\x00\x54\x05\x00\x00\x00\x20\x00\x00\x00\x00\x10\x00";

const RESPONSE: NegotiateResponse = NegotiateResponse {
    min_version: 0x0100,
    max_version: 0x0100,
    negotiated_version: 0x0100,
    credits_requested: 255,
    credits_granted: 255,
    status: 0,
    max_read_write_size: 1_048_576,
    preferred_send_size: 1_364,
    max_receive_size: 8_192,
    max_fragmented_size: 1_048_576,
};

/// The refusing response.
const REFUSAL_BYTES: &[u8; 32] =
    b"\x00\x01\x00\x01\x00\x00\x00\x00\x00\x00\x00\x00\xbb\x00\x00\xc0\x00\x00\x00\x00\x00\x00\x00\x00\x00\x00\x00\x00\x00\x00\x00\x00";

// What the calls do, of which a test's proof has to know no more.

fn request_of(bytes: &[u8]) -> Result<NegotiateRequest, NegotiateFault> {
    read_request(bytes)
}

fn response_of(bytes: &[u8], own: &EndLimits) -> Result<NegotiateResponse, NegotiateFault> {
    read_response(bytes, own)
}

fn settled(bytes: &[u8], own: &EndLimits) -> Result<Agreed, NegotiateFault> {
    match read_response(bytes, own) {
        Ok(response) => Ok(settle(&response, own)),
        Err(fault) => Err(fault),
    }
}

fn answered(
    rt: &impl Abort,
    request: &NegotiateRequest,
    grantable: u16,
) -> (NegotiateResponse, Agreed) {
    assert!(rt; grantable >= 1 && request.min_version <= 0x0100 && request.max_version >= 0x0100);
    assert!(rt; request.credits_requested >= 1 && request.max_receive_size >= 128);
    assert!(rt; request.max_fragmented_size >= 131_072);
    answer(request, &EndLimits::usual(), grantable)
}

fn request_bytes() -> [u8; 20] {
    let mut bytes = [7; 20];
    write_request(&EndLimits::usual(), &mut bytes);
    bytes
}

fn response_bytes(response: &NegotiateResponse) -> [u8; 32] {
    let mut bytes = [7; 32];
    write_response(response, &mut bytes);
    bytes
}

/// Puts other bytes at a place.
fn overwrite(rt: &impl Abort, bytes: &mut [u8], place: usize, part: &[u8]) {
    assert!(rt; place <= bytes.len());
    assert!(rt; part.len() <= bytes.len() - place);
    bytes[place..][..part.len()].copy_from_slice(part);
}

/// The request with other bytes at a place.
fn request_with(rt: &impl Abort, place: usize, part: &[u8]) -> [u8; 20] {
    let mut bytes = *REQUEST_BYTES;
    overwrite(rt, &mut bytes, place, part);
    bytes
}

/// The response with other bytes at a place.
fn response_with(rt: &impl Abort, place: usize, part: &[u8]) -> [u8; 32] {
    let mut bytes = *RESPONSE_BYTES;
    overwrite(rt, &mut bytes, place, part);
    bytes
}

#[test]
fn a_request_has_its_first_fault(rt: HostRuntime) {
    // each field at its bound and beside it
    const CASES: &[(usize, &[u8], Option<NegotiateFault>)] = &[
        (0, b"\x00\x00", None),
        (0, b"\xff\x00", None),
        (0, b"\x01\x01", Some(Version)),
        (2, b"\xff\x00", Some(Version)),
        (2, b"\x01\x01", None),
        (0, b"\x00\x02\x00\x02", Some(Version)),
        (4, b"\xff\xff", None),
        (6, b"\x00\x00", Some(Credits)),
        (6, b"\x01\x00", None),
        (6, b"\xff\xff", None),
        (8, b"\x00\x00\x00\x00", None),
        (8, b"\xff\xff\xff\xff", None),
        (12, b"\x7f\x00\x00\x00", Some(ReceiveSize)),
        (12, b"\x80\x00\x00\x00", None),
        (12, b"\xff\xff\xff\xff", None),
        (16, b"\xff\xff\x01\x00", Some(FragmentedSize)),
        (16, b"\x00\x00\x02\x00", None),
        (16, b"\xff\xff\xff\xff", None),
        // two faults at once
        (2, b"\xff\x00\x00\x00\x00\x00", Some(Version)),
    ];
    for &(place, part, expected) in CASES {
        let bytes = request_with(&rt, place, part);
        assert_eq!(rt; request_of(&bytes).err(), expected, "{part:?} at {place}");
    }
}

#[test]
fn a_response_has_its_first_fault(rt: HostRuntime) {
    let usual = EndLimits::usual();
    // each field at its bound and beside it
    const CASES: &[(usize, &[u8], Option<NegotiateFault>)] = &[
        (0, b"\x00\x00", None),
        (0, b"\xff\xff", None),
        (2, b"\x00\x00", None),
        (2, b"\xff\xff", None),
        (4, b"\xff\x00", Some(Version)),
        (4, b"\x01\x01", Some(Version)),
        (6, b"\xff\xff", None),
        (8, b"\x00\x00", Some(Credits)),
        (8, b"\x01\x00", None),
        (8, b"\xff\xff", None),
        (10, b"\x00\x00", Some(Granted)),
        (10, b"\x01\x00", None),
        (10, b"\x00\x01", Some(Granted)),
        (12, b"\x01\x00\x00\x00", Some(Status)),
        (16, b"\x00\x00\x00\x00", None),
        (16, b"\xff\xff\xff\xff", None),
        (20, b"\x00\x00\x00\x00", None),
        (20, b"\x00\x20\x00\x00", None),
        (20, b"\x01\x20\x00\x00", Some(SendSize)),
        (24, b"\x7f\x00\x00\x00", Some(ReceiveSize)),
        (24, b"\x80\x00\x00\x00", None),
        (24, b"\xff\xff\xff\xff", None),
        (28, b"\xff\xff\x01\x00", Some(FragmentedSize)),
        (28, b"\x00\x00\x02\x00", None),
        (28, b"\xff\xff\xff\xff", None),
        // three faults at once
        (0, REFUSAL_BYTES, Some(Status)),
    ];
    for &(place, part, expected) in CASES {
        let bytes = response_with(&rt, place, part);
        assert_eq!(rt;
            response_of(&bytes, &usual).err(),
            expected,
            "{part:?} at {place}"
        );
    }
}

#[test]
fn each_field_is_read_at_its_place(rt: HostRuntime) {
    let asked = b"\x01\x00\x03\x04\x05\x06\x07\x08\x09\x0a\x0b\x0c\x0d\x0e\x0f\x10\x11\x12\x13\x14";
    let request = NegotiateRequest {
        min_version: 0x0001,
        max_version: 0x0403,
        credits_requested: 0x0807,
        preferred_send_size: 0x0c0b_0a09,
        max_receive_size: 0x100f_0e0d,
        max_fragmented_size: 0x1413_1211,
    };
    assert_eq!(rt; request_of(asked), Ok(request));
    let answered =
        b"\x01\x02\x03\x04\x00\x01\x07\x08\x09\x0a\x0b\x00\x00\x00\x00\x00\x11\x12\x13\x14\x15\x16\x00\x00\x19\x1a\x1b\x1c\x1d\x1e\x1f\x20";
    let response = NegotiateResponse {
        min_version: 0x0201,
        max_version: 0x0403,
        negotiated_version: 0x0100,
        credits_requested: 0x0a09,
        credits_granted: 0x000b,
        status: 0,
        max_read_write_size: 0x1413_1211,
        preferred_send_size: 0x1615,
        max_receive_size: 0x1c1b_1a19,
        max_fragmented_size: 0x201f_1e1d,
    };
    assert_eq!(rt; response_of(answered, &EndLimits::usual()), Ok(response));
}

#[test]
fn a_client_is_granted_and_sent_no_more_than_its_limits(rt: HostRuntime) {
    // a client of 3 credits that receives frames of 128 bytes: CreditsGranted, Status, MaxReadWriteSize, PreferredSendSize
    let own = EndLimits::check(3, 1_364, 128, 1_048_576, 64);
    assert!(rt; own.is_ok());
    let own = own.unwrap_or(EndLimits::usual());
    const CASES: &[(&[u8; 12], Option<NegotiateFault>)] = &[
        (b"\x03\x00\x00\x00\x00\x00\x00\x00\x10\x00\x80\x00", None),
        (b"\x02\x00\x00\x00\x00\x00\x00\x00\x10\x00\x7f\x00", None),
        (
            b"\x04\x00\x00\x00\x00\x00\x00\x00\x10\x00\x80\x00",
            Some(Granted),
        ),
        (
            b"\x03\x00\x00\x00\x00\x00\x00\x00\x10\x00\x81\x00",
            Some(SendSize),
        ),
        (
            b"\x00\x00\x00\x00\x00\x00\x00\x00\x10\x00\x81\x00",
            Some(Granted),
        ),
    ];
    for &(part, expected) in CASES {
        let bytes = response_with(&rt, 10, part);
        assert_eq!(rt; response_of(&bytes, &own).err(), expected, "{part:?}");
    }
}

/// Reads so many bytes of 40 as a request and as a response: fewer than 20 or 32 are short, and more are read so.
fn read_each_length(
    rt: &impl Abort,
    bytes: &[u8; 40],
    request: Result<NegotiateRequest, NegotiateFault>,
    response: Result<NegotiateResponse, NegotiateFault>,
) {
    let usual = EndLimits::usual();
    for length in 0..41usize {
        assert!(rt; length <= 40);
        let part = &bytes[..length];
        let asked = if length < 20 { Err(Short) } else { request };
        assert!(rt; request_of(part) == asked, "{length} bytes");
        let answered = if length < 32 { Err(Short) } else { response };
        assert!(rt; response_of(part, &usual) == answered, "{length} bytes");
    }
}

#[test]
fn short_messages_are_refused_and_long_ones_read(rt: HostRuntime) {
    let mut request = [7; 40];
    request[..20].copy_from_slice(REQUEST_BYTES);
    read_each_length(&rt, &request, Ok(REQUEST), Err(Status));
    let mut response = [7; 40];
    response[..32].copy_from_slice(RESPONSE_BYTES);
    read_each_length(&rt, &response, Err(Credits), Ok(RESPONSE));
    let mut refused = [7; 40];
    refused[..32].copy_from_slice(REFUSAL_BYTES);
    read_each_length(&rt, &refused, Err(Credits), Err(Status));
}

#[test]
fn zeros_and_ones_are_no_message(rt: HostRuntime) {
    read_each_length(&rt, &[0; 40], Err(Version), Err(Version));
    read_each_length(&rt, &[0xff; 40], Err(Version), Err(Status));
}

#[test]
fn writes_the_one_form(rt: HostRuntime) {
    assert!(rt; &request_bytes() == REQUEST_BYTES);
    assert!(rt; &response_bytes(&refusal()) == REFUSAL_BYTES);
    const CASES: &[(NegotiateResponse, &[u8; 32])] = &[
        (RESPONSE, RESPONSE_BYTES),
        (
            NegotiateResponse {
                min_version: 0x0201,
                max_version: 0x0403,
                negotiated_version: 0x0605,
                credits_requested: 0x0807,
                credits_granted: 0x0a09,
                status: 0x0e0d_0c0b,
                max_read_write_size: 0x1211_100f,
                preferred_send_size: 0x1615_1413,
                max_receive_size: 0x1a19_1817,
                max_fragmented_size: 0x1e1d_1c1b,
            },
            b"\x01\x02\x03\x04\x05\x06\x00\x00\x07\x08\x09\x0a\x0b\x0c\x0d\x0e\x0f\x10\x11\x12\x13\x14\x15\x16\x17\x18\x19\x1a\x1b\x1c\x1d\x1e",
        ),
    ];
    for &(response, expected) in CASES {
        assert!(rt; &response_bytes(&response) == expected, "{response:?}");
    }
}

/// What an end of the usual limits has agreed with another.
const AGREED: Agreed = Agreed {
    send_size: 1_364,
    message_max: 1_048_576,
    read_write_max: None,
    credits_requested: 255,
};

#[test]
fn answers_with_the_smaller_of_asked_and_grantable(rt: HostRuntime) {
    const CASES: &[(NegotiateRequest, u16, NegotiateResponse, Agreed)] = &[
        (REQUEST, 255, RESPONSE, AGREED),
        (REQUEST, 256, RESPONSE, AGREED),
        (
            REQUEST,
            1,
            NegotiateResponse {
                credits_granted: 1,
                ..RESPONSE
            },
            AGREED,
        ),
        (
            NegotiateRequest {
                credits_requested: 3,
                ..REQUEST
            },
            255,
            NegotiateResponse {
                credits_granted: 3,
                ..RESPONSE
            },
            Agreed {
                credits_requested: 3,
                ..AGREED
            },
        ),
        (
            NegotiateRequest {
                max_receive_size: 128,
                preferred_send_size: 0,
                ..REQUEST
            },
            255,
            NegotiateResponse {
                preferred_send_size: 128,
                ..RESPONSE
            },
            Agreed {
                send_size: 128,
                ..AGREED
            },
        ),
        (
            NegotiateRequest {
                max_fragmented_size: 131_072,
                max_receive_size: 1_365,
                ..REQUEST
            },
            255,
            RESPONSE,
            Agreed {
                message_max: 131_072,
                ..AGREED
            },
        ),
    ];
    for &(request, grantable, response, agreed) in CASES {
        assert_eq!(rt;
            answered(&rt, &request, grantable),
            (response, agreed),
            "{request:?}, {grantable}"
        );
    }
}

#[test]
fn a_client_settles_what_the_server_says(rt: HostRuntime) {
    let usual = EndLimits::usual();
    const READ_WRITE_MAX: Option<u32> = Some(1_048_576);
    // MaxReadWriteSize, PreferredSendSize, MaxReceiveSize and MaxFragmentedSize
    const CASES: &[(&[u8; 16], Agreed)] = &[
        (
            b"\x00\x00\x10\x00\x54\x05\x00\x00\x00\x20\x00\x00\x00\x00\x10\x00",
            Agreed {
                read_write_max: READ_WRITE_MAX,
                ..AGREED
            },
        ),
        (
            b"\x00\x00\x10\x00\x00\x00\x00\x00\x80\x00\x00\x00\x00\x00\x02\x00",
            Agreed {
                send_size: 128,
                message_max: 131_072,
                read_write_max: READ_WRITE_MAX,
                ..AGREED
            },
        ),
        (
            b"\x00\x00\x00\x00\x54\x05\x00\x00\x55\x05\x00\x00\x00\x00\x10\x00",
            Agreed {
                read_write_max: Some(0),
                ..AGREED
            },
        ),
    ];
    for &(part, agreed) in CASES {
        let bytes = response_with(&rt, 16, part);
        assert_eq!(rt; settled(&bytes, &usual), Ok(agreed), "{part:?}");
    }
}
