//! Names of agents.

ghost use Rattle.std.specs.Prelude.{◌≡◌};
ghost use Rattle.std.specs.List.{list_all};
ghost use Rattle.bor_terms.specs.Texts.{is_agent_name, is_name_byte};

use crate::text::{Form, Text};

/// The form of the names of agents.
pub struct NameForm;

impl Form for NameForm {
    ghost is_form = { is_agent_name };

    ghost shown = { λ text. text };

    #[tactic(auto, unfolding(crate::specs::Texts::is_agent_name))]
    fn fits(text: &str) -> bool {
        let bytes = text.as_bytes();
        1 <= bytes.len() && bytes.len() <= 32 && are_name_bytes(bytes)
    }

    fn shown(text: &str) -> &str {
        text
    }
}

/// The name of an agent: 1 to 32 bytes of `a-z`, `0-9` and `-`.
pub type AgentName = Text<NameForm>;

fn are_name_bytes(bytes: &[u8]) -> bool
    ensures { result ≡ list_all is_name_byte bytes.now }
{
    bytes
        .iter()
        .all(|b| matches!(*b, b'a'..=b'z' | b'0'..=b'9' | b'-'))
}
