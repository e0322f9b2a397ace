//! The details of a record, as a statement has them (BODS 0.4, `recordDetails`).

ghost use Rattle.std.specs.Prelude.{◌≡◌, IfOk};
ghost use Rattle.bods_read.specs.Words.{entity_word, person_word};

use crate::free_text::FreeText;
use crate::interest::Interest;
use bor_terms::{Ident, Listed};
use std::alloc::{AllocError, Global};

/// The kind of an entity (BODS 0.4, `entityType.type`).
#[derive(Clone, Copy, PartialEq, Eq)]
pub enum EntityKind {
    RegisteredEntity,
    LegalEntity,
    Arrangement,
    AnonymousEntity,
    UnknownEntity,
    State,
    StateBody,
    /// Any other kind, or none.
    Other,
}

impl EntityKind {
    /// The word of the standard for it; `other` for the kinds that are read as `Other`.
    #[tactic(auto, unfolding(crate::specs::Words::entity_word))]
    pub fn as_str(self) -> &'static str
        ensures { result.now ≡ entity_word self }
    {
        match self {
            EntityKind::RegisteredEntity => "registeredEntity",
            EntityKind::LegalEntity => "legalEntity",
            EntityKind::Arrangement => "arrangement",
            EntityKind::AnonymousEntity => "anonymousEntity",
            EntityKind::UnknownEntity => "unknownEntity",
            EntityKind::State => "state",
            EntityKind::StateBody => "stateBody",
            EntityKind::Other => "other",
        }
    }
}

/// The kind of a person (BODS 0.4, `personType`).
#[derive(Clone, Copy, PartialEq, Eq)]
pub enum PersonKind {
    KnownPerson,
    AnonymousPerson,
    UnknownPerson,
    /// Any other kind, or none.
    Other,
}

impl PersonKind {
    /// The word of the standard for it; `other` for the kinds that are read as `Other`.
    #[tactic(auto, unfolding(crate::specs::Words::person_word))]
    pub fn as_str(self) -> &'static str
        ensures { result.now ≡ person_word self }
    {
        match self {
            PersonKind::KnownPerson => "knownPerson",
            PersonKind::AnonymousPerson => "anonymousPerson",
            PersonKind::UnknownPerson => "unknownPerson",
            PersonKind::Other => "other",
        }
    }
}

/// An identifier of an entity under a scheme, as a company number under `GB-COH`. Identifiers are
/// ordered by scheme, then by id.
#[derive(Drop, PartialEq, Eq, PartialOrd, Ord)]
pub struct Identifier {
    /// The scheme.
    pub scheme: FreeText,
    /// The identifier under the scheme.
    pub id: FreeText,
}

/// The details of a record, as a statement has them.
#[derive(Drop)]
pub enum Details {
    Entity {
        kind: EntityKind,
        /// The name that is shown.
        name: Option<FreeText>,
        /// The identifiers that have both a scheme and an id, in order.
        identifiers: Listed<Identifier>,
    },
    Person {
        kind: PersonKind,
        /// The name that is shown: the first of the person's full names.
        name: Option<FreeText>,
    },
    Relationship {
        /// The record of the entity that the interests are in; none where the file names no record.
        subject: Option<Ident>,
        /// The record of the holder; none where the file names no record.
        party: Option<Ident>,
        /// The interests, in order.
        interests: Listed<Interest>,
    },
}

fn copy_text(alloc: Global, text: &Option<FreeText>) -> Result<Option<FreeText>, AllocError>
    ensures { IfOk result (λ copied. copied ≡ text.now) }
{
    match text {
        Some(text) => Ok(Some(text.copy(alloc)?)),
        None => Ok(None),
    }
}

fn copy_ident(alloc: Global, ident: &Option<Ident>) -> Result<Option<Ident>, AllocError>
    ensures { IfOk result (λ copied. copied ≡ ident.now) }
{
    match ident {
        Some(ident) => Ok(Some(ident.copy(alloc)?)),
        None => Ok(None),
    }
}

impl Identifier {
    /// Another copy of the identifier.
    pub fn copy(&self, alloc: Global) -> Result<Identifier, AllocError>
        ensures { IfOk result (λ copied. copied ≡ self.now) }
    {
        Ok(Identifier {
            scheme: self.scheme.copy(alloc)?,
            id: self.id.copy(alloc)?,
        })
    }
}

fn copy_identifiers(
    alloc: Global,
    identifiers: &[Identifier],
) -> Result<Vec<Identifier>, AllocError>
    ensures { IfOk result (λ copied. copied.items ≡ identifiers.now) }
{
    let mut copied = Vec::new(alloc);
    for identifier in identifiers {
        copied.push(identifier.copy(alloc)?)?;
    }
    Ok(copied)
}

impl Details {
    /// Another copy of the details.
    pub fn copy(&self, alloc: Global) -> Result<Details, AllocError>
        ensures { IfOk result (λ copied. copied ≡ self.now) }
    {
        match self {
            Details::Entity {
                kind,
                name,
                identifiers,
            } => Ok(Details::Entity {
                kind: *kind,
                name: copy_text(alloc, name)?,
                identifiers: Listed::new(copy_identifiers(alloc, identifiers.as_slice())?),
            }),
            Details::Person { kind, name } => Ok(Details::Person {
                kind: *kind,
                name: copy_text(alloc, name)?,
            }),
            Details::Relationship {
                subject,
                party,
                interests,
            } => Ok(Details::Relationship {
                subject: copy_ident(alloc, subject)?,
                party: copy_ident(alloc, party)?,
                interests: interests.copy(alloc)?,
            }),
        }
    }
}
