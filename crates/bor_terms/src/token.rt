//! Tokens of callers.

ghost use Rattle.std.specs.Prelude.{◌≡◌, codes};
ghost use Rattle.std.specs.List.{list_all};
ghost use Rattle.bor_terms.specs.Texts.{is_token, is_visible_byte};

use crate::text::{Form, Text};

/// The form of the tokens of callers.
pub struct TokenForm;

impl Form for TokenForm {
    ghost is_form = { is_token };

    ghost shown = { λ _. codes "Token(..)" };

    #[tactic(auto, unfolding(crate::specs::Texts::is_token))]
    fn fits(text: &str) -> bool {
        let bytes = text.as_bytes();
        16 <= bytes.len() && bytes.len() <= 64 && are_visible(bytes)
    }

    fn shown(_text: &str) -> &str {
        "Token(..)"
    }
}

/// The token by which a caller is known: 16 to 64 bytes of 0x21 to 0x7E. It is a secret, so `{:?}`
/// writes `Token(..)`, whatever the token.
pub type Token = Text<TokenForm>;

fn are_visible(bytes: &[u8]) -> bool
    ensures { result ≡ list_all is_visible_byte bytes.now }
{
    bytes.iter().all(|b| matches!(*b, 0x21..=0x7E))
}
