//! Laws of the request that an input begins with. Each function does nothing: its contract is the
//! law.

ghost use Rattle.bor_http.specs.Incoming.Laws.{OneRequest, RestIsIgnored};

/// An input is one request, or is refused as one thing.
pub fn an_input_is_one_request()
    ensures { OneRequest }
{}

/// The bytes behind the body of a request have no part in it.
#[tactic(auto, using(crate::proofs::OnIncoming::Laws::rest_ignored))]
pub fn what_stands_behind_is_ignored()
    ensures { RestIsIgnored }
{}
