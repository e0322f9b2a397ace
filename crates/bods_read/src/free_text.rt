//! Texts that a file gives and nothing compares by a form.

ghost use Rattle.std.specs.Prelude.{◌≡◌, true};

use bor_terms::{Form, Text};

/// The form that every text has.
pub struct FreeForm;

impl Form for FreeForm {
    ghost is_form = { λ _. true };

    ghost shown = { λ text. text };

    fn fits(_text: &str) -> bool {
        true
    }

    fn shown(text: &str) -> &str {
        text
    }
}

/// A text of any length as it stands in a file: a name that is shown, or a part of an identifier.
pub type FreeText = Text<FreeForm>;
