//! Filings, as the register holds them and as callers see them.

ghost use Rattle.std.specs.Prelude.{◌≡◌, IfOk};
ghost use Rattle.bor_register.specs.Publication.{state_of, state_of_live, state_word, is_published, line_of, filing_shown};
ghost use Rattle.bor_register.specs.Rows.{is_visible};
ghost use Rattle.bor_register.specs.Withdrawal.{as_withdrawn};

use bods_read::Statement;
use bor_terms::{AgentName, Day, Listed, LodgeKey};
use std::alloc::{AllocError, Global};

/// A filing as the register holds it, in its agent's list.
#[derive(Drop)]
pub struct AcceptedFiling {
    /// From 1; each agent's filings are numbered in order of acceptance, and no number comes twice.
    pub number: u32,
    /// The key under which its agent lodged it.
    pub key: LodgeKey,
    /// The day from which on it is published.
    pub due: Day,
    /// Whether its agent has withdrawn it.
    pub withdrawn: bool,
    /// The file as it was lodged.
    pub bytes: Listed<u8>,
    /// The file's statements, each with its settled status; none once it is withdrawn.
    pub statements: Listed<Statement>,
}

impl AcceptedFiling {
    /// Its state on a day.
    pub(crate) fn state(&self, day: Day) -> State
        ensures { result ≡ state_of day self.now }
    {
        if self.withdrawn {
            State::Withdrawn
        } else {
            State::of_live(self.due, day)
        }
    }

    /// Whether it is published on a day.
    pub(crate) fn is_published(&self, day: Day) -> bool
        ensures { result ≡ is_published day self.now }
    {
        !self.withdrawn && self.due <= day
    }

    /// Whether the viewer sees it, a filing of the agent, on a day.
    pub fn is_visible(&self, viewer: &AgentName, agent: &AgentName, day: Day) -> bool
        ensures { result ≡ is_visible viewer.now day agent.now self.now }
    {
        if viewer == agent {
            !self.withdrawn
        } else {
            self.is_published(day)
        }
    }

    /// Its line on a day.
    pub(crate) fn line(&self, alloc: Global, day: Day) -> Result<FilingLine, AllocError>
        ensures { IfOk result (λ line. line ≡ line_of day self.now) }
    {
        Ok(FilingLine {
            key: self.key.copy(alloc)?,
            number: self.number,
            due: self.due,
            state: self.state(day),
        })
    }

    /// The line that its agent reads of it.
    pub(crate) fn shown(&self, alloc: Global) -> Result<Filing, AllocError>
        ensures { IfOk result (λ filing. filing ≡ filing_shown self.now) }
    {
        Ok(Filing {
            number: self.number,
            due: self.due,
            withdrawn: self.withdrawn,
            bytes: self.bytes.copy(alloc)?,
        })
    }

    /// Withdraws it. It takes no memory.
    pub(crate) fn withdraw(&mut self, alloc: Global)
        ensures { self.new ≡ as_withdrawn self.old }
    {
        self.withdrawn = true;
        self.statements = Listed::new(Vec::new(alloc));
    }
}

/// The filing as its agent reads it, a withdrawn one too.
#[derive(Drop)]
pub struct Filing {
    /// From 1, in order of acceptance.
    pub number: u32,
    /// The day from which on it is published, unless it is withdrawn.
    pub due: Day,
    /// Whether its agent has withdrawn it.
    pub withdrawn: bool,
    /// The file as it was lodged.
    pub bytes: Listed<u8>,
}

/// The state of a filing's publication.
#[derive(Clone, Copy, Debug, PartialEq, Eq)]
pub enum State {
    /// Its due day is after the register's day; its agent alone sees it.
    Draft,
    /// Its due day is at or before the register's day; all see it, and it can't be withdrawn.
    Published,
    /// Its agent withdrew it while it was a draft.
    Withdrawn,
}

impl State {
    /// The state of a live filing on a day.
    pub fn of_live(due: Day, day: Day) -> State
        ensures { result ≡ state_of_live due day }
    {
        if due <= day {
            State::Published
        } else {
            State::Draft
        }
    }

    /// The word that is shown for it.
    #[tactic(auto, unfolding(crate::specs::Publication::state_word))]
    pub fn as_str(self) -> &'static str
        ensures { result.now ≡ state_word self }
    {
        match self {
            State::Draft => "draft",
            State::Published => "published",
            State::Withdrawn => "withdrawn",
        }
    }
}

/// A line of an agent's list of its own filings: what it reads of one without its file.
#[derive(Drop)]
pub struct FilingLine {
    /// The key under which the agent lodged it.
    pub key: LodgeKey,
    /// From 1, in order of acceptance.
    pub number: u32,
    /// The day from which on it is published, unless it is withdrawn.
    pub due: Day,
    /// Its state on the register's day.
    pub state: State,
}

/// The outward form of a published filing, which all see: neither its number, nor its key, nor its
/// bytes.
#[derive(Drop)]
pub struct Outward {
    /// Who lodged it.
    pub agent: AgentName,
    /// The day since which it is published.
    pub due: Day,
    /// The statements, each with its settled status.
    pub statements: Listed<Statement>,
}
