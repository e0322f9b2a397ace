//! Laws of what inputs spell. Each function does nothing: its contract is the law.

ghost use Rattle.bor_wire.specs.Spelling.Laws.{SpellsOne, MessageSpells, WhatFollowsIsPassedOver};

/// An input spells one thing: a request of whoever has a token, or one refusal.
pub fn spells_one()
    ensures { SpellsOne }
{}

/// `read_request` and `parse` together give what the whole input spells.
#[tactic(auto, using(crate::proofs::OnSpelling::Messages::message_spelled))]
pub fn message_spells()
    ensures { MessageSpells }
{}

/// Bytes behind a request have no effect, nor have those behind an input that is refused for
/// another cause than that it ended.
#[tactic(auto, using(crate::proofs::OnSpelling::Messages::what_follows))]
pub fn what_follows_is_passed_over()
    ensures { WhatFollowsIsPassedOver }
{}
