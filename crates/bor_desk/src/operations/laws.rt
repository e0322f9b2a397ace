//! Laws of the operations. Each function does nothing: its contract is the law.

ghost use Rattle.bor_desk.specs.Operations.Laws.{OwnFilingsUntouched, RefusalChangesNothing, StaysLegal, PublishedPrefix, SightAlone, NumbersMakeNoLinks, LodgingIsNextEntry};

/// After a lodging and after a withdrawal every other agent's filings are as they were, and so are
/// the day, and who has which token. After a new day and an enrolment each agent that was there has
/// its name, token and filings; after a renewal all but the one agent's token. This holds of every
/// register.
pub fn own_filings_untouched()
    ensures { OwnFilingsUntouched }
{}

/// A refusal leaves the register exactly as it was, and so do a lodging that isn't fresh and the
/// withdrawal of a filing that is withdrawn already. This holds of every register.
pub fn refusal_changes_nothing()
    ensures { RefusalChangesNothing }
{}

/// A new register is legal, and each operation leaves a legal register legal.
pub fn legal_stays_legal()
    ensures { StaysLegal }
{}

ghost use Rattle.bor_desk.specs.Operations.Forms.{StaysFormed};

/// A new register has values of their forms, and each operation on such values leaves such a one.
#[tactic(auto, using(crate::proofs::OnOperations::Forms::stays_formed))]
pub fn forms_are_kept()
    ensures { StaysFormed }
{}

/// In a legal register what is published of a record is the front of what is live of it. So the
/// published filings of an agent obey the record rules by themselves, and no settled status tells
/// of a draft.
#[tactic(auto, using(crate::proofs::OnOperations::Legality::published_is_front))]
pub fn published_is_a_prefix()
    ensures { PublishedPrefix }
{}

/// An agent of a legal register sees the same as it would alone with what the others have
/// published: no number, key, byte or draft of another is in it, nor an order of acceptance between
/// agents.
#[tactic(auto, using(crate::proofs::OnOperations::Alone::alone_rules))]
pub fn sight_is_alone()
    ensures { SightAlone }
{}

/// The rows that a viewer sees show the same nodes and links with the numbers of the filings and
/// without, on every day. So a chain report tells nothing of another agent's numbers. This holds of
/// every register.
#[tactic(auto, using(crate::proofs::OnOperations::SeenLinks::numbers_make_no_links))]
pub fn numbers_make_no_links()
    ensures { NumbersMakeNoLinks }
{}

/// A lodging that is answered as fresh is the next entry of the journal of all that was accepted:
/// the register left is the one of the journal with that filing at its end.
#[tactic(auto, using(crate::proofs::OnOperations::NextEntries::next_entry))]
pub fn a_lodging_is_the_next_entry()
    ensures { LodgingIsNextEntry }
{}
