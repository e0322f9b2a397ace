//! Rows of the tables, each value of its type.

ghost use Rattle.std.specs.Prelude.{◌≡◌};
ghost use Rattle.bor_store_sql.specs.Rows.Placed.{with_lists, details_with};

use crate::rows::places::At;
use bods_read::{
    Details, Directness, EntityKind, FreeText, Identifier, Interest, InterestKind, PersonKind,
    Statement, Status,
};
use bor_terms::{AgentName, Day, Ident, Listed, LodgeKey, Span, Token};

/// The row of the table `register`.
#[derive(Drop)]
pub struct RegisterRow {
    /// The register's day.
    pub day: Day,
    /// The registrar's token.
    pub registrar: Token,
}

/// A row of the table `agent`.
#[derive(Drop)]
pub struct AgentRow {
    /// The agent's name.
    pub name: AgentName,
    /// The agent's token.
    pub token: Token,
}

/// A row of the table `filing` without its file.
#[derive(Drop)]
pub struct FilingRow {
    /// The agent that lodged it.
    pub agent: AgentName,
    /// From 1; each agent's filings are numbered in order of acceptance.
    pub number: u32,
    /// The key under which its agent lodged it.
    pub key: LodgeKey,
    /// The day from which on it is published, unless it is withdrawn.
    pub due: Day,
    /// Whether its agent has withdrawn it.
    pub withdrawn: bool,
}

/// A statement with where it stands.
#[derive(Drop)]
pub struct Placed {
    /// Where it stands.
    pub at: At,
    /// The statement, with its settled status.
    pub statement: Statement,
}

/// The details of a statement, as the table `statement` has them.
#[derive(Drop)]
pub enum Part {
    Entity {
        kind: EntityKind,
        name: Option<FreeText>,
    },
    Person {
        kind: PersonKind,
        name: Option<FreeText>,
    },
    Relationship {
        subject: Option<Ident>,
        party: Option<Ident>,
    },
}

/// A row of the table `statement`.
#[derive(Drop)]
pub struct StatementRow {
    /// Where the statement stands.
    pub at: At,
    /// `statementId`
    pub id: Ident,
    /// `statementDate`
    pub day: Day,
    /// `declarationSubject`
    pub declaration: Ident,
    /// `recordId`
    pub rec: Ident,
    /// The settled status; the table has no statement without one.
    pub status: Option<Status>,
    /// Its details, as the table has them.
    pub part: Part,
}

/// A row of the table `interest`, which has all of an interest but its days.
#[derive(Drop)]
pub struct InterestLine {
    /// Where its statement stands.
    pub at: At,
    /// Its place in the statement, from 1.
    pub item: u32,
    /// The kind of interest.
    pub kind: InterestKind,
    /// Whether it is direct or indirect.
    pub directness: Directness,
    /// The share in percent; `None` where it has none.
    pub share: Option<Span>,
}

/// A row of the table `period`: the days of an interest that has at least one.
#[derive(Drop)]
pub struct PeriodRow {
    /// Where the interest's statement stands.
    pub at: At,
    /// The interest's place in the statement, from 1.
    pub item: u32,
    /// The first day on which it counts; `None` where none is said.
    pub starts: Option<Day>,
    /// The last day on which it counts; `None` where none is said.
    pub ends: Option<Day>,
}

/// An interest with where it stands. It has a row of the table `interest`, and one of the table
/// `period` where it has a day.
#[derive(Drop)]
pub struct InterestRow {
    /// Where its statement stands.
    pub at: At,
    /// Its place in the statement, from 1.
    pub item: u32,
    /// The interest.
    pub interest: Interest,
}

/// A row of the table `identifier`.
#[derive(Drop)]
pub struct IdentifierRow {
    /// Where its statement stands.
    pub at: At,
    /// Its place in the statement, from 1.
    pub item: u32,
    /// The identifier.
    pub identifier: Identifier,
}

impl StatementRow {
    /// The statement with these interests and identifiers.
    pub fn with(self, interests: Vec<Interest>, identifiers: Vec<Identifier>) -> Placed
        ensures { result ≡ with_lists self interests.items identifiers.items }
    {
        Placed {
            at: self.at,
            statement: Statement {
                id: self.id,
                day: self.day,
                declaration: self.declaration,
                rec: self.rec,
                status: self.status,
                details: details(self.part, interests, identifiers),
            },
        }
    }
}

fn details(part: Part, interests: Vec<Interest>, identifiers: Vec<Identifier>) -> Details
    ensures { result ≡ details_with part interests.items identifiers.items }
{
    match part {
        Part::Entity { kind, name } => Details::Entity {
            kind,
            name,
            identifiers: Listed::new(identifiers),
        },
        Part::Person { kind, name } => Details::Person { kind, name },
        Part::Relationship { subject, party } => Details::Relationship {
            subject,
            party,
            interests: Listed::new(interests),
        },
    }
}
