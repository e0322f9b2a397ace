//! The words of BODS 0.4 for kinds, types and statuses.

ghost use Rattle.std.specs.Prelude.{◌≡◌, option_and_then, option_map, unwrap_or};

use crate::details::{EntityKind, PersonKind};
use crate::interest::{Directness, InterestKind};
use crate::statement::{RecordType, Status};

/// A value that has a word of BODS 0.4. Contracts know its word, and that it is read back.
pub trait Worded: Sized {
    ghost use Rattle.std.specs.Prelude.{◌≡◌, ℕ, List, Option, Some, IfSome};
    ghost use Rattle.std.specs.Str.{IsUtf8};

    ghost word: { Self → List ℕ };

    ghost worded: { List ℕ → Option Self };

    ghost back: { (x : Self) → worded (word x) ≡ Some x };

    ghost is_text: { (x : Self) → IsUtf8 (word x) };

    /// The value whose word a text is; `None` for another text.
    fn of_word(text: &str) -> Option<Self>
        ensures reads { result ≡ worded text.now }
        ensures exact { IfSome result (λ x. text.now ≡ word x) };
}

/// The value whose word a text is; this other one for another text and for none.
pub(crate) fn worded_or<W: Worded + Copy>(text: Option<&str>, other: W) -> W
    ensures { result ≡ unwrap_or
        (option_and_then W.worded (option_map (λ s. s.now) text.entry)) other }
{
    match text {
        Some(text) => W::of_word(text).unwrap_or(other),
        None => other,
    }
}

impl Worded for RecordType {
    ghost use Rattle.bods_read.specs.Words.{type_word};
    ghost use Rattle.bods_read.specs.Words.{type_worded};
    ghost use Rattle.bods_read.specs.WordLaws.{type_back, type_utf8};

    ghost word = { type_word };

    ghost worded = { type_worded };

    ghost back = { type_back };

    ghost is_text = { type_utf8 };

    #[tactic(auto, unfolding(crate::specs::Words::type_worded, crate::specs::Words::type_word))]
    fn of_word(text: &str) -> Option<RecordType> {
        match text {
            "entity" => Some(RecordType::Entity),
            "person" => Some(RecordType::Person),
            "relationship" => Some(RecordType::Relationship),
            _ => None,
        }
    }
}

impl Worded for Status {
    ghost use Rattle.bods_read.specs.Words.{status_word};
    ghost use Rattle.bods_read.specs.Words.{status_worded};
    ghost use Rattle.bods_read.specs.WordLaws.{status_back, status_utf8};

    ghost word = { status_word };

    ghost worded = { status_worded };

    ghost back = { status_back };

    ghost is_text = { status_utf8 };

    #[tactic(auto, unfolding(crate::specs::Words::status_worded, crate::specs::Words::status_word))]
    fn of_word(text: &str) -> Option<Status> {
        match text {
            "new" => Some(Status::New),
            "updated" => Some(Status::Updated),
            "closed" => Some(Status::Closed),
            _ => None,
        }
    }
}

impl Worded for EntityKind {
    ghost use Rattle.bods_read.specs.Words.{entity_word};
    ghost use Rattle.bods_read.specs.Words.{entity_kind_of};
    ghost use Rattle.bods_read.specs.WordLaws.{entity_back, entity_utf8};

    ghost word = { entity_word };

    ghost worded = { entity_kind_of };

    ghost back = { entity_back };

    ghost is_text = { entity_utf8 };

    #[tactic(auto, unfolding(crate::specs::Words::entity_kind_of, crate::specs::Words::entity_word))]
    fn of_word(text: &str) -> Option<EntityKind> {
        match text {
            "registeredEntity" => Some(EntityKind::RegisteredEntity),
            "legalEntity" => Some(EntityKind::LegalEntity),
            "arrangement" => Some(EntityKind::Arrangement),
            "anonymousEntity" => Some(EntityKind::AnonymousEntity),
            "unknownEntity" => Some(EntityKind::UnknownEntity),
            "state" => Some(EntityKind::State),
            "stateBody" => Some(EntityKind::StateBody),
            "other" => Some(EntityKind::Other),
            _ => None,
        }
    }
}

impl Worded for PersonKind {
    ghost use Rattle.bods_read.specs.Words.{person_word};
    ghost use Rattle.bods_read.specs.Words.{person_kind_of};
    ghost use Rattle.bods_read.specs.WordLaws.{person_back, person_utf8};

    ghost word = { person_word };

    ghost worded = { person_kind_of };

    ghost back = { person_back };

    ghost is_text = { person_utf8 };

    #[tactic(auto, unfolding(crate::specs::Words::person_kind_of, crate::specs::Words::person_word))]
    fn of_word(text: &str) -> Option<PersonKind> {
        match text {
            "knownPerson" => Some(PersonKind::KnownPerson),
            "anonymousPerson" => Some(PersonKind::AnonymousPerson),
            "unknownPerson" => Some(PersonKind::UnknownPerson),
            "other" => Some(PersonKind::Other),
            _ => None,
        }
    }
}

impl Worded for InterestKind {
    ghost use Rattle.bods_read.specs.Words.{interest_word};
    ghost use Rattle.bods_read.specs.Words.{interest_kind_of};
    ghost use Rattle.bods_read.specs.WordLaws.{interest_back, interest_utf8};

    ghost word = { interest_word };

    ghost worded = { interest_kind_of };

    ghost back = { interest_back };

    ghost is_text = { interest_utf8 };

    #[tactic(auto, unfolding(crate::specs::Words::interest_kind_of, crate::specs::Words::interest_word))]
    fn of_word(text: &str) -> Option<InterestKind> {
        match text {
            "shareholding" => Some(InterestKind::Shareholding),
            "votingRights" => Some(InterestKind::VotingRights),
            "appointmentOfBoard" => Some(InterestKind::AppointmentOfBoard),
            "other" => Some(InterestKind::Other),
            _ => None,
        }
    }
}

impl Worded for Directness {
    ghost use Rattle.bods_read.specs.Words.{directness_word};
    ghost use Rattle.bods_read.specs.Words.{directness_named};
    ghost use Rattle.bods_read.specs.WordLaws.{directness_back, directness_utf8};

    ghost word = { directness_word };

    ghost worded = { directness_named };

    ghost back = { directness_back };

    ghost is_text = { directness_utf8 };

    #[tactic(auto, unfolding(crate::specs::Words::directness_named, crate::specs::Words::directness_word))]
    fn of_word(text: &str) -> Option<Directness> {
        match text {
            "direct" => Some(Directness::Direct),
            "indirect" => Some(Directness::Indirect),
            "unknown" => Some(Directness::Unknown),
            _ => None,
        }
    }
}
