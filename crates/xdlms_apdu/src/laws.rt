//! Laws of written texts. The contract of each function states a law; calling the function makes it
//! known to the caller's proof.
ghost use Rattle.std.specs.Prelude.{◌≡◌, ℕ, List, [], ◌++◌};
ghost use Rattle.cosem_axdr.specs.Spelling.{IsBytes};
ghost use Rattle.xdlms_apdu.specs.Requests.{request_of, request_text, IsFitRequest, SpellsRequest};
ghost use Rattle.xdlms_apdu.specs.Responses.{response_of, response_text, IsFitResponse};
ghost use Rattle.xdlms_apdu.specs.Responses.{SpellsResponse};
ghost use Rattle.xdlms_apdu.specs.declared.fault.ApduFault.{ApduFault};
ghost use Rattle.xdlms_apdu.specs.declared.request.Request.{Request};
ghost use Rattle.xdlms_apdu.specs.declared.response.Response.{Response};

/// Proves that the written text of a request spells it, if any bytes do.
pub fn text_of_request_spells()
    ensures spelled { (bytes : List ℕ) (request : Request) → IsBytes bytes
        → SpellsRequest bytes request → SpellsRequest (request_text request) request }

    // A request whose numbers, lengths and Data are within their limits has a text that spells it
    // and is read back.
    ensures fit { (request : Request) → IsFitRequest request
        → SpellsRequest (request_text request) request }
    ensures read_back { (request : Request) → IsFitRequest request
        → request_of (request_text request) ≡ Ok request }
{}

/// Proves that the written text of a response spells it, if any bytes do.
pub fn text_of_response_spells()
    ensures spelled { (bytes : List ℕ) (response : Response) → IsBytes bytes
        → SpellsResponse bytes response → SpellsResponse (response_text response) response }

    // A response whose numbers, lengths and Data are within their limits has a text that spells it
    // and is read back.
    ensures fit { (response : Response) → IsFitResponse response
        → SpellsResponse (response_text response) response }
    ensures read_back { (response : Response) → IsFitResponse response
        → response_of (response_text response) ≡ Ok response }
{}

/// Proves that no spelling of a request is a proper prefix of another, and that no bytes spell two
/// requests. The same holds for responses.
pub fn no_spelling_begins_another()
    ensures request { (bytes rest : List ℕ) (one other : Request) → SpellsRequest bytes one
        → SpellsRequest (bytes ++ rest) other → (rest ≡ []) × (one ≡ other) }
    ensures response { (bytes rest : List ℕ) (one other : Response) → SpellsResponse bytes one
        → SpellsResponse (bytes ++ rest) other → (rest ≡ []) × (one ≡ other) }
{}
