//! Statements of BODS 0.4, in this register's profile.

ghost use Rattle.std.specs.Prelude.{◌≡◌, IfOk, codes};
ghost use Rattle.bods_read.specs.Words.{type_word, status_word, type_of};

use crate::details::Details;
use bor_terms::{Day, Ident};
use std::alloc::{AllocError, Global};

/// The kind of a record (BODS 0.4, `recordType`).
#[derive(Clone, Copy, Debug, PartialEq, Eq)]
pub enum RecordType {
    Entity,
    Person,
    Relationship,
}

impl RecordType {
    /// The word of the standard for it.
    #[tactic(auto, unfolding(crate::specs::Words::type_word))]
    pub fn as_str(self) -> &'static str
        ensures { result.now ≡ type_word self }
    {
        match self {
            RecordType::Entity => "entity",
            RecordType::Person => "person",
            RecordType::Relationship => "relationship",
        }
    }
}

/// The change that a statement makes to its record (BODS 0.4, `recordStatus`).
#[derive(Clone, Copy, Debug, PartialEq, Eq)]
pub enum Status {
    New,
    Updated,
    Closed,
}

impl Status {
    /// The word of the standard for it.
    #[tactic(auto, unfolding(crate::specs::Words::status_word))]
    pub fn as_str(self) -> &'static str
        ensures { result.now ≡ status_word self }
    {
        match self {
            Status::New => "new",
            Status::Updated => "updated",
            Status::Closed => "closed",
        }
    }
}

/// A statement of a file, member by member (BODS 0.4).
#[derive(Drop)]
pub struct Statement {
    /// `statementId`
    pub id: Ident,
    /// `statementDate`
    pub day: Day,
    /// `declarationSubject`
    pub declaration: Ident,
    /// `recordId`
    pub rec: Ident,
    /// `recordStatus`; none where the file leaves it out.
    pub status: Option<Status>,
    /// `recordDetails`
    pub details: Details,
}

impl Statement {
    /// The kind of the statement's record (`recordType`).
    pub fn record_type(&self) -> RecordType
        ensures { result ≡ type_of self.now.details }
    {
        match self.details {
            Details::Entity { .. } => RecordType::Entity,
            Details::Person { .. } => RecordType::Person,
            Details::Relationship { .. } => RecordType::Relationship,
        }
    }

    /// Another copy of the statement.
    pub fn copy(&self, alloc: Global) -> Result<Statement, AllocError>
        ensures { IfOk result (λ copied. copied ≡ self.now) }
    {
        Ok(Statement {
            id: self.id.copy(alloc)?,
            day: self.day,
            declaration: self.declaration.copy(alloc)?,
            rec: self.rec.copy(alloc)?,
            status: self.status,
            details: self.details.copy(alloc)?,
        })
    }
}
