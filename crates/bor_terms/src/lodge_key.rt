//! Keys of filings.

ghost use Rattle.std.specs.Prelude.{◌≡◌};
ghost use Rattle.std.specs.List.{list_all};
ghost use Rattle.bor_terms.specs.Texts.{is_lodge_key, is_key_byte};

use crate::text::{Form, Text};

/// The form of the keys of filings.
pub struct KeyForm;

impl Form for KeyForm {
    ghost is_form = { is_lodge_key };

    ghost shown = { λ text. text };

    #[tactic(auto, unfolding(crate::specs::Texts::is_lodge_key))]
    fn fits(text: &str) -> bool {
        let bytes = text.as_bytes();
        1 <= bytes.len() && bytes.len() <= 64 && are_key_bytes(bytes)
    }

    fn shown(text: &str) -> &str {
        text
    }
}

/// The key that an agent gives a filing: 1 to 64 bytes of `A-Z`, `a-z`, `0-9`, `.`, `_` and `-`.
pub type LodgeKey = Text<KeyForm>;

fn are_key_bytes(bytes: &[u8]) -> bool
    ensures { result ≡ list_all is_key_byte bytes.now }
{
    bytes.iter().all(|b| matches!(*b, b'A'..=b'Z' | b'a'..=b'z' | b'0'..=b'9' | b'.' | b'_' | b'-'))
}
