//! The columns of rows, as parameters, and whether a row has them.

ghost use Rattle.std.specs.Prelude.{◌≡◌, ◌↔◌, pos, [], ◌∷◌, option_map, IsTrue};
ghost use Rattle.sqlite_value.specs.Value.{owned};
ghost use Rattle.sqlite.specs.Values.{bound, bound_value};
ghost use Rattle.sqlite.specs.declared.types.Value.TheVariants.{Int, Text, Blob};
ghost use Rattle.bor_register.specs.Register.{new_member};
ghost use Rattle.bods_read.specs.Words.{status_word};
ghost use Rattle.bor_store_sql.specs.Rows.Placed.{bare, part_of};
ghost use Rattle.bor_store_sql.specs.Rows.Encoding.{agent_columns, statement_columns, part_columns, interest_columns, identifier_columns, period_columns, day_or_null, or_null, share_columns, tables_version};
ghost use Rattle.bor_store_sql.specs.Changing.{given_filing};

use crate::rows::{At, FilingKey, value_at};
use crate::texts::changes::VERSION;
use bods_read::{Details, FreeText, Identifier, Interest, Statement, Status};
use bor_terms::{Day, Ident, Span};
use sqlite::Row;
use sqlite::types::ValueRef;
use sqlite_value::order::is_same;

/// One text.
pub(crate) fn one_text(text: &str) -> [ValueRef<'_>; 1]
    ensures { bound result ≡ Text text.now ∷ [] }
{
    [ValueRef::Text(text.as_bytes())]
}

/// Two texts.
pub(crate) fn two_texts<'a>(first: &'a str, second: &'a str) -> [ValueRef<'a>; 2]
    ensures { bound result ≡ Text first.now ∷ Text second.now ∷ [] }
{
    let first = ValueRef::Text(first.as_bytes());
    let second = ValueRef::Text(second.as_bytes());
    [first, second]
}

/// Three texts.
pub(crate) fn three_texts<'a>(first: &'a str, second: &'a str, third: &'a str) -> [ValueRef<'a>; 3]
    ensures { bound result ≡ Text first.now ∷ Text second.now ∷ Text third.now ∷ [] }
{
    [
        ValueRef::Text(first.as_bytes()),
        ValueRef::Text(second.as_bytes()),
        ValueRef::Text(third.as_bytes()),
    ]
}

/// A filing by agent and number.
pub(crate) fn filing_key(agent: &str, number: u32) -> [ValueRef<'_>; 2]
    ensures { bound result ≡ Text agent.now ∷ Int (pos number) ∷ [] }
{
    let owner = ValueRef::Text(agent.as_bytes());
    [owner, ValueRef::Int(i64::from(number))]
}

/// A statement by agent, filing and place.
pub(crate) fn statement_key(at: &At) -> [ValueRef<'_>; 3]
    ensures { bound result
        ≡ Text at.now.agent ∷ Int (pos at.now.filing) ∷ Int (pos at.now.place) ∷ [] }
{
    [
        ValueRef::Text(at.agent.as_str().as_bytes()),
        ValueRef::Int(i64::from(at.filing)),
        ValueRef::Int(i64::from(at.place)),
    ]
}

/// A filing by agent and key, with bytes that its file may have.
pub(crate) fn file_key<'a>(agent: &'a str, key: &'a str, bytes: &'a [u8]) -> [ValueRef<'a>; 3]
    ensures { bound result ≡ Text agent.now ∷ Text key.now ∷ Blob bytes.now ∷ [] }
{
    [
        ValueRef::Text(agent.as_bytes()),
        ValueRef::Text(key.as_bytes()),
        ValueRef::Blob(bytes),
    ]
}

/// One number.
pub(crate) fn one_number(number: u32) -> [ValueRef<'static>; 1]
    ensures { bound result ≡ Int (pos number) ∷ [] }
{
    [ValueRef::Int(i64::from(number))]
}

/// A day's number, alone.
pub(crate) fn day_value(day: Day) -> [ValueRef<'static>; 1]
    ensures { bound result ≡ Int day ∷ [] }
{
    [ValueRef::Int(i64::from(day.number()))]
}

/// The columns of the register's row but `one`.
pub(crate) fn register_values(day: Day, registrar: &str) -> [ValueRef<'_>; 3]
    ensures { bound result ≡ Int tables_version ∷ Int day ∷ Text registrar.now ∷ [] }
{
    [
        ValueRef::Int(VERSION),
        ValueRef::Int(i64::from(day.number())),
        ValueRef::Text(registrar.as_bytes()),
    ]
}

/// The columns of an agent.
pub(crate) fn agent_values<'a>(name: &'a str, token: &'a str) -> [ValueRef<'a>; 2]
    ensures { bound result ≡ agent_columns (new_member name.now token.now) }
{
    [
        ValueRef::Text(name.as_bytes()),
        ValueRef::Text(token.as_bytes()),
    ]
}

/// The columns of a filing but `withdrawn`.
pub(crate) fn filing_values<'a>(
    filing: &'a FilingKey,
    key: &'a str,
    due: Day,
    bytes: &'a [u8],
) -> [ValueRef<'a>; 5]
    ensures { bound result ≡ given_filing filing.now.agent filing.now.number key.now due bytes.now }
{
    [
        ValueRef::Text(filing.agent.as_str().as_bytes()),
        ValueRef::Int(i64::from(filing.number)),
        ValueRef::Text(key.as_bytes()),
        ValueRef::Int(i64::from(due.number())),
        ValueRef::Blob(bytes),
    ]
}

/// The columns of an identifier: where its statement stands, which of its identifiers it is, and
/// what it is.
pub(crate) fn identifier_values<'a>(
    at: &'a At,
    item: u32,
    identifier: &'a Identifier,
) -> [ValueRef<'a>; 6]
    ensures { bound result ≡ identifier_columns (record {
      at = at.now;
      item = item;
      identifier = identifier.now;
    }) }
{
    [
        ValueRef::Text(at.agent.as_str().as_bytes()),
        ValueRef::Int(i64::from(at.filing)),
        ValueRef::Int(i64::from(at.place)),
        ValueRef::Int(i64::from(item)),
        ValueRef::Text(identifier.scheme.as_str().as_bytes()),
        ValueRef::Text(identifier.id.as_str().as_bytes()),
    ]
}

fn text_or_null(text: &Option<FreeText>) -> ValueRef<'_>
    ensures { bound_value (owned result) ≡ or_null text.now }
{
    match text {
        Some(text) => ValueRef::Text(text.as_str().as_bytes()),
        None => ValueRef::Null,
    }
}

fn ident_or_null(ident: &Option<Ident>) -> ValueRef<'_>
    ensures { bound_value (owned result) ≡ or_null ident.now }
{
    match ident {
        Some(ident) => ValueRef::Text(ident.as_str().as_bytes()),
        None => ValueRef::Null,
    }
}

fn status_or_null(status: Option<Status>) -> ValueRef<'static>
    ensures { bound_value (owned result) ≡ or_null (option_map status_word status) }
{
    match status {
        Some(status) => ValueRef::Text(status.as_str().as_bytes()),
        None => ValueRef::Null,
    }
}

// The kind of the entity or person, its name, and the records that a relationship joins.
fn part_values(details: &Details) -> [ValueRef<'_>; 4]
    ensures { bound result ≡ part_columns (part_of details.now) }
{
    match details {
        Details::Entity { kind, name, .. } => [
            ValueRef::Text(kind.as_str().as_bytes()),
            text_or_null(name),
            ValueRef::Null,
            ValueRef::Null,
        ],
        Details::Person { kind, name } => [
            ValueRef::Text(kind.as_str().as_bytes()),
            text_or_null(name),
            ValueRef::Null,
            ValueRef::Null,
        ],
        Details::Relationship { subject, party, .. } => [
            ValueRef::Null,
            ValueRef::Null,
            ident_or_null(subject),
            ident_or_null(party),
        ],
    }
}

/// Which column of a statement is its status.
pub(crate) const STATUS: usize = 8;

/// The columns of a statement: where it stands, and what it says but for its lists.
pub(crate) fn statement_values<'a>(at: &'a At, statement: &'a Statement) -> [ValueRef<'a>; 13]
    ensures { bound result ≡ statement_columns (bare (record {
      at = at.now;
      statement = statement.now;
    })) }
{
    let [sub_kind, name, subject, party] = part_values(&statement.details);
    [
        ValueRef::Text(at.agent.as_str().as_bytes()),
        ValueRef::Int(i64::from(at.filing)),
        ValueRef::Int(i64::from(at.place)),
        ValueRef::Text(statement.id.as_str().as_bytes()),
        ValueRef::Int(i64::from(statement.day.number())),
        ValueRef::Text(statement.declaration.as_str().as_bytes()),
        ValueRef::Text(statement.rec.as_str().as_bytes()),
        ValueRef::Text(statement.record_type().as_str().as_bytes()),
        status_or_null(statement.status),
        sub_kind,
        name,
        subject,
        party,
    ]
}

// The ends of a share, each with whether it is open.
fn share_values(share: Option<Span>) -> [ValueRef<'static>; 4]
    ensures { bound result ≡ share_columns share }
{
    match share {
        Some(share) => [
            ValueRef::Int(i64::from(share.low())),
            ValueRef::Int(i64::from(share.low_is_open())),
            ValueRef::Int(i64::from(share.high())),
            ValueRef::Int(i64::from(share.high_is_open())),
        ],
        None => [
            ValueRef::Null,
            ValueRef::Null,
            ValueRef::Null,
            ValueRef::Null,
        ],
    }
}

/// The columns of an interest: where its statement stands, which of its interests it is, and what
/// it is.
pub(crate) fn interest_values<'a>(
    at: &'a At,
    item: u32,
    interest: &'a Interest,
) -> [ValueRef<'a>; 10]
    ensures { bound result ≡ interest_columns (record {
      at = at.now;
      item = item;
      interest = interest.now;
    }) }
{
    let [low, low_open, high, high_open] = share_values(interest.share);
    [
        ValueRef::Text(at.agent.as_str().as_bytes()),
        ValueRef::Int(i64::from(at.filing)),
        ValueRef::Int(i64::from(at.place)),
        ValueRef::Int(i64::from(item)),
        ValueRef::Text(interest.kind.as_str().as_bytes()),
        ValueRef::Text(interest.directness.as_str().as_bytes()),
        low,
        low_open,
        high,
        high_open,
    ]
}

fn day_or_null(day: Option<Day>) -> ValueRef<'static>
    ensures { bound_value (owned result) ≡ day_or_null day }
{
    match day {
        Some(day) => ValueRef::Int(i64::from(day.number())),
        None => ValueRef::Null,
    }
}

/// The columns of the days of an interest: where its statement stands, which of its interests it
/// is, and its first and its last day.
pub(crate) fn period_values(
    at: &At,
    item: u32,
    starts: Option<Day>,
    ends: Option<Day>,
) -> [ValueRef<'_>; 6]
    ensures { bound result ≡ period_columns (record {
      at = at.now;
      item = item;
      starts = starts;
      ends = ends;
    }) }
{
    [
        ValueRef::Text(at.agent.as_str().as_bytes()),
        ValueRef::Int(i64::from(at.filing)),
        ValueRef::Int(i64::from(at.place)),
        ValueRef::Int(i64::from(item)),
        day_or_null(starts),
        day_or_null(ends),
    ]
}

/// The version of the tables.
pub(crate) fn version_value() -> [ValueRef<'static>; 1]
    ensures { bound result ≡ Int tables_version ∷ [] }
{
    [ValueRef::Int(VERSION)]
}

// Whether a row has the value that is put down for this one: for a NaN it is null.
fn is_value(found: ValueRef<'_>, value: ValueRef<'_>) -> bool
    ensures { IsTrue result ↔ (owned found.entry ≡ bound_value (owned value.entry)) }
{
    match value {
        ValueRef::Real(x) if x.is_nan() => is_same(found, ValueRef::Null),
        _ => is_same(found, value),
    }
}

/// Whether a row has these values and no others.
pub(crate) fn is_row(row: &Row, values: &[ValueRef<'_>]) -> bool
    ensures { IsTrue result ↔ (row.now ≡ bound values.now) }
{
    if row.column_count() != values.len() {
        return false;
    }
    for (at, value) in values.iter().enumerate() {
        if !is_value(value_at(row, at), *value) {
            return false;
        }
    }
    true
}
