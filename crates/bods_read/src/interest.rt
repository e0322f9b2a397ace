//! The interests of a relationship (BODS 0.4).

ghost use Rattle.std.specs.Prelude.{◌≡◌};
ghost use Rattle.bods_read.specs.Words.{interest_word, directness_word};

use bor_terms::{Day, Span};

/// The kind of an interest. BODS has more kinds, which play no part in a chain.
#[derive(Clone, Copy, PartialEq, Eq)]
pub enum InterestKind {
    Shareholding,
    VotingRights,
    AppointmentOfBoard,
    /// Any other `type`, or none.
    Other,
}

impl InterestKind {
    /// The word of the standard for it; `other` for the kinds that are read as `Other`.
    #[tactic(auto, unfolding(crate::specs::Words::interest_word))]
    pub fn as_str(self) -> &'static str
        ensures { result.now ≡ interest_word self }
    {
        match self {
            InterestKind::Shareholding => "shareholding",
            InterestKind::VotingRights => "votingRights",
            InterestKind::AppointmentOfBoard => "appointmentOfBoard",
            InterestKind::Other => "other",
        }
    }
}

/// Whether the interest is held directly.
#[derive(Clone, Copy, PartialEq, Eq)]
pub enum Directness {
    Direct,
    Indirect,
    /// Any other `directOrIndirect`, or none.
    Unknown,
}

impl Directness {
    /// The word of the standard for it.
    #[tactic(auto, unfolding(crate::specs::Words::directness_word))]
    pub fn as_str(self) -> &'static str
        ensures { result.now ≡ directness_word self }
    {
        match self {
            Directness::Direct => "direct",
            Directness::Indirect => "indirect",
            Directness::Unknown => "unknown",
        }
    }
}

/// An interest of a relationship.
#[derive(Clone, Copy, PartialEq, Eq)]
pub struct Interest {
    /// The kind of interest (`type`).
    pub kind: InterestKind,
    /// Whether it is direct or indirect (`directOrIndirect`).
    pub directness: Directness,
    /// The share in percent; it is read for the three named kinds alone.
    pub share: Option<Span>,
    /// The first day on which it counts; `None` where none is said.
    pub starts: Option<Day>,
    /// The last day on which it counts; `None` where none is said.
    pub ends: Option<Day>,
}
