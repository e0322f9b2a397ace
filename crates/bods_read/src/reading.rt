//! A statement, from an object.

ghost use Rattle.std.specs.Prelude.{◌≡◌, Ok};
ghost use Rattle.serde_json.specs.View.{view};
ghost use Rattle.bods_read.specs.Outcome.{Gives, outcome};
ghost use Rattle.bods_read.specs.Details.{details_lines, details_of};
ghost use Rattle.bods_read.specs.Statement.{statement_object_lines, statement_lines, statement_of};

use crate::details::Details;
use crate::entity::entity;
use crate::fault::{Fault, Field};
use crate::member::{day, ident, object, record_type, status};
use crate::person::person;
use crate::relationship::relationship;
use crate::statement::{RecordType, Statement};
use crate::trouble::Trouble;
use serde_json::Value;
use std::alloc::Global;

fn details(alloc: Global, kind: RecordType, value: &Value) -> Result<Details, Trouble>
    ensures { Gives (λ d. d) result
        (outcome (details_lines kind (view value.now)) (details_of kind (view value.now))) }
{
    match kind {
        RecordType::Entity => entity(alloc, value),
        RecordType::Person => Ok(person(alloc, value)?),
        RecordType::Relationship => relationship(alloc, value),
    }
}

fn of_object(alloc: Global, value: &Value) -> Result<Statement, Trouble>
    ensures { Gives (λ s. s) result
        (outcome (statement_object_lines (view value.now)) (statement_of (view value.now))) }
{
    let id = ident(alloc, value, Field::StatementId)?;
    let day = day(value, Field::StatementDate)?;
    let declaration = ident(alloc, value, Field::DeclarationSubject)?;
    let rec = ident(alloc, value, Field::RecordId)?;
    let kind = record_type(value, Field::RecordType)?;
    let status = status(value, Field::RecordStatus)?;
    let object = object(value, Field::RecordDetails)?;
    let details = details(alloc, kind, object)?;
    Ok(Statement {
        id,
        day,
        declaration,
        rec,
        status,
        details,
    })
}

/// The statement that a value is, or the first of its faults.
#[tactic(auto, unfolding(crate::specs::Statement::statement_lines, crate::specs::Member::object_in))]
pub(crate) fn statement(alloc: Global, value: &Value) -> Result<Statement, Trouble>
    ensures { Gives (λ s. s) result
        (outcome (statement_lines (view value.now)) (statement_of (view value.now))) }
{
    if !value.is_object() {
        return Err(Trouble::Fault(Fault::Bad(Field::Statement)));
    }
    of_object(alloc, value)
}
