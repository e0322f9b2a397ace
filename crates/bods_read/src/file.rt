//! A file.

ghost use Rattle.std.specs.Prelude.{◌≡◌, ◌≤◌, length, map, IfOk};
ghost use Rattle.serde_json.specs.Errors.{IsMemory};
ghost use Rattle.serde_json.specs.View.{view};
ghost use Rattle.bods_read.specs.Limits.{statements_limit};
ghost use Rattle.bods_read.specs.Outcome.{outcome, lines_from};
ghost use Rattle.bods_read.specs.Statement.{statement_of};
ghost use Rattle.bods_read.specs.File.{lines_at, reading_of, reading, IsReadingBy, IsNoValue};

use crate::fault::{FileFault, ReadFault};
use crate::member::items_in;
use crate::reading;
use crate::statement::Statement;
use serde_json::{Category, Error, Value};
use std::alloc::Global;

/// The most statements of a file.
pub const STATEMENTS_LIMIT: usize = 1_000;

fn statement_at(alloc: Global, value: &Value, place: u32) -> Result<Statement, ReadFault>
    ensures { IsReadingBy (λ s. s) result
        (outcome (lines_at place (view value.now)) (statement_of (view value.now))) }
{
    match reading::statement(alloc, value) {
        Ok(statement) => Ok(statement),
        Err(trouble) => Err(trouble.at(place)),
    }
}

fn each(alloc: Global, values: &[Value]) -> Result<Vec<Statement>, ReadFault>
    requires { length values.now ≤ statements_limit }
    ensures read { IsReadingBy (λ v. v.items) result
        (outcome (lines_from lines_at 1 (map view values.now))
        (map statement_of (map view values.now))) }
    ensures few { IfOk result (λ v. length v.items ≤ statements_limit) }
{
    let mut statements = Vec::new(alloc);
    let mut place = 1;
    for value in values {
        statements.push(statement_at(alloc, value, place)?)?;
        place += 1;
    }
    Ok(statements)
}

#[tactic(auto, unfolding(crate::specs::File::reading_of, crate::specs::File::faults, crate::specs::File::statements))]
fn of_value(alloc: Global, value: &Value) -> Result<Vec<Statement>, ReadFault>
    ensures read { IsReadingBy (λ v. v.items) result (reading_of (view value.now)) }
    ensures few { IfOk result (λ v. length v.items ≤ statements_limit) }
{
    let Some(values) = items_in(value) else {
        return Err(ReadFault::File(FileFault::NotAList));
    };
    if values.is_empty() {
        return Err(ReadFault::File(FileFault::NoStatements));
    }
    if values.len() > STATEMENTS_LIMIT {
        return Err(ReadFault::File(FileFault::TooMany));
    }
    each(alloc, values)
}

// Why bytes have no value.
fn fault_of(error: &Error) -> ReadFault
    ensures { IsNoValue (IsMemory error.now) result }
{
    match error.classify() {
        Category::Memory => ReadFault::Memory,
        _ => ReadFault::File(FileFault::NotJson),
    }
}

/// The statements of a file, or the first of its faults.
///
/// A file is a JSON array of 1 to 1,000 statements ([`STATEMENTS_LIMIT`]) of BODS 0.4, in this
/// register's profile. A member that is null counts as absent, and an unknown member is passed
/// over.
///
/// # Errors
///
/// [`FileFault`] says when each comes; the first in its order is the answer. Where memory is
/// wanting, [`ReadFault::Memory`] stands in place of whatever would follow.
#[tactic(auto, unfolding(crate::specs::File::reading))]
pub fn read_file(alloc: Global, bytes: &[u8]) -> Result<Vec<Statement>, ReadFault>
    ensures read { IsReadingBy (λ statements. statements.items) result (reading bytes.now) }
    ensures few { IfOk result (λ statements. length statements.items ≤ statements_limit) }
{
    match Value::from_slice(alloc, bytes) {
        Ok(value) => of_value(alloc, &value),
        Err(error) => Err(fault_of(&error)),
    }
}
