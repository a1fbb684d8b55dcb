//! Laws of the negotiation messages (MS-SMBD 2.2.1 and 2.2.2). Each is the contract of a function that does nothing.

ghost use Rattle.std.specs.Prelude.{◌≡◌, ◌↔◌, ℕ, true, ◌≤◌, List, ◌++◌, length, None, Some};
ghost use Rattle.smbd_base.specs.declared.end_id.EndId.TheVariants as ends;
ghost use Rattle.smbd_base.specs.declared.faults.NegotiateFault.TheVariants as faults;
ghost use Rattle.smbd_base.specs.Grant.{credits_in};
ghost use Rattle.smbd_base.specs.Limits.{Limits, IsLawful};
ghost use Rattle.smbd_base.specs.NegotiateMessages.{Request, Response, request_bytes, response_bytes, read_request_of, read_response_of, response_fault, fault_in_request, fault_in_response, request_of_limits, answer_to, refusing_response, IsLawfulRequest, IsLawfulResponse, RequestFits, ResponseFits, IsLawfulAgreement, agreed_with_client, agreed_with_server};

/// A written request reads as what was written, and that of a client is one that each server accepts.
pub fn written_requests_are_read()
    ensures lawful { (request : Request) → RequestFits request → IsLawfulRequest request →
        read_request_of (request_bytes request) ≡ Ok request }
    ensures client { (limits : Limits) → IsLawful limits →
        read_request_of (request_bytes (request_of_limits limits)) ≡ Ok (request_of_limits limits) }
{}

/// A written response reads as what was written, and grants the credits that were written. The client accepts the answer
/// to its request, and every client refuses the refusing response.
pub fn written_responses_are_read()
    ensures lawful { (limits : Limits) (response : Response) → ResponseFits response → IsLawfulResponse limits response →
        read_response_of limits (response_bytes response) ≡ Ok response }
    ensures answer { (client server : Limits) (grantable : ℕ) → IsLawful client → IsLawful server → 1 ≤ grantable →
        read_response_of client (response_bytes (answer_to (request_of_limits client) server grantable))
        ≡ Ok (answer_to (request_of_limits client) server grantable) }
    ensures refusal { (client : Limits) → response_fault client (response_bytes refusing_response) ≡ Some faults.Status }
    ensures grant { (response : Response) → ResponseFits response →
        credits_in ends.Server true (response_bytes response) ≡ response.credits_granted }
{}

/// Bytes after a whole message change nothing of what is read.
pub fn later_bytes_change_nothing()
    ensures request { (bytes later : List ℕ) → 20 ≤ length bytes → read_request_of (bytes ++ later) ≡ read_request_of bytes }
    ensures response { (limits : Limits) (bytes later : List ℕ) → 32 ≤ length bytes →
        read_response_of limits (bytes ++ later) ≡ read_response_of limits bytes }
{}

/// A message has no fault exactly where its fields keep their bounds.
pub fn messages_without_a_fault_are_lawful()
    ensures request { (request : Request) → (fault_in_request request ≡ None) ↔ IsLawfulRequest request }
    ensures response { (limits : Limits) (response : Response) →
        (fault_in_response limits response ≡ None) ↔ IsLawfulResponse limits response }
{}

/// What an end agrees with a peer that it accepts: frames with room for a payload, and messages of 131,072 bytes or more.
pub fn agreements_are_lawful()
    ensures server { (limits : Limits) (request : Request) → IsLawful limits → IsLawfulRequest request →
        IsLawfulAgreement (agreed_with_client limits request) }
    ensures client { (limits : Limits) (response : Response) → IsLawful limits → IsLawfulResponse limits response →
        IsLawfulAgreement (agreed_with_server limits response) }
{}
