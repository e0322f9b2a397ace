//! Identifiers of BODS.

ghost use Rattle.std.specs.Prelude.{◌≡◌};
ghost use Rattle.std.specs.List.{list_all};
ghost use Rattle.bor_terms.specs.Texts.{is_ident, is_printed};

use crate::text::{Form, Text};

/// The form of the identifiers of BODS.
pub struct IdentForm;

impl Form for IdentForm {
    ghost is_form = { is_ident };

    ghost shown = { λ text. text };

    #[tactic(auto, using(crate::proofs::Texts::text_rules), unfolding(crate::specs::Texts::is_ident))]
    fn fits(text: &str) -> bool {
        let bytes = text.as_bytes();
        1 <= bytes.len() && bytes.len() <= 255 && are_printed(bytes)
    }

    fn shown(text: &str) -> &str {
        text
    }
}

/// The identifier of a statement, a record or a declaration (BODS 0.4): 1 to 255 bytes of UTF-8
/// with no control character, that is none below 0x20 and no 0x7F.
pub type Ident = Text<IdentForm>;

fn are_printed(bytes: &[u8]) -> bool
    ensures { result ≡ list_all is_printed bytes.now }
{
    bytes.iter().all(|b| *b >= 0x20 && *b != 0x7F)
}
