//! Tokens: of whoever asks, and one that an agent gets.
ghost use Rattle.std.specs.Prelude.{◌≡◌};
ghost use Rattle.bor_terms.specs.Texts.{is_token};
ghost use Rattle.bor_http.specs.declared.incoming.fault.Refusal.TheVariants.{NoToken};
ghost use Rattle.bor_http.specs.declared.incoming.fault.Name.TheVariants as names;
ghost use Rattle.bor_wire.specs.Spelling.Parts as part;
ghost use Rattle.bor_wire.specs.Spelling.Steps.{FindsStated, or_refuse, named};

use bor_http::incoming::{Name, RawRequest, Refusal, WireFault};
use bor_terms::Token;
use std::alloc::Global;

// The bytes from the first that is no space.
fn without_spaces(bytes: &[u8]) -> &[u8]
    ensures { result.now ≡ part.skip_spaces bytes.now }
{
    for i in 0..bytes.len() {
        if bytes[i] != b' ' {
            return &bytes[i..];
        }
    }
    &[]
}

// The token that bytes are, or the refusal.
#[tactic(auto, using(crate::proofs::OnSpelling::Texts::texts))]
fn fitting_token(alloc: Global, bytes: &[u8], why: Refusal) -> Result<Token, WireFault>
    ensures { FindsStated (λ token. token) result
        (or_refuse why (part.text_in is_token bytes.now)) }
{
    let Ok(text) = str::from_utf8(bytes) else {
        return Err(WireFault::Refused(why));
    };
    match Token::read(alloc, text)? {
        Some(token) => Ok(token),
        None => Err(WireFault::Refused(why)),
    }
}

// The token in the value of a field (RFC 6750, 2.1).
#[tactic(auto, unfolding(crate::specs::Spelling::Parts::bearer_token))]
fn bearer_token(alloc: Global, value: &[u8]) -> Result<Token, WireFault>
    ensures { FindsStated (λ token. token) result
        (or_refuse NoToken (part.bearer_token value.now)) }
{
    if value.len() < 7 || !value[..7].eq_ignore_ascii_case(b"bearer ") {
        return Err(WireFault::Refused(Refusal::NoToken));
    }
    fitting_token(alloc, without_spaces(&value[7..]), Refusal::NoToken)
}

/// The token of whoever asks, from the one `Authorization` field (RFC 9110, 11.6.2).
#[tactic(auto, unfolding(crate::specs::Spelling::Parts::token))]
pub(crate) fn token_at(alloc: Global, raw: &RawRequest<'_>) -> Result<Token, WireFault>
    ensures { FindsStated (λ token. token) result
        (or_refuse NoToken (part.token raw.now.parts.fields)) }
{
    match raw.only(b"authorization") {
        None => Err(WireFault::Refused(Refusal::NoToken)),
        Some(value) => bearer_token(alloc, value),
    }
}

/// The token that an agent gets: the whole body.
pub(crate) fn new_token(alloc: Global, body: &[u8]) -> Result<Token, WireFault>
    ensures { FindsStated (λ token. token) result
        (named names.Token (part.text_in is_token body.now)) }
{
    fitting_token(alloc, body, Refusal::BadQuery(Name::Token))
}
