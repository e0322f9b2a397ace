//! Rows of the tables, read column by column.

ghost use Rattle.std.specs.Prelude.{◌≡◌, pos, Ok, List, map, All, MatchResult, Option, Some, option_map, IfOk, IfSome};
ghost use Rattle.sqlite.specs.declared.types.Value.TheVariants.{Int, Text};
ghost use Rattle.sqlite_value.specs.Order.{column};
ghost use Rattle.bods_read.specs.Forms.{IsFormedIdentifier, IsShare};
ghost use Rattle.bods_read.specs.Words.{status_word};
ghost use Rattle.bor_terms.specs.Span.{Range};
ghost use Rattle.bor_store_sql.specs.declared.rows.fault.RowFault.TheVariants.{Memory};
ghost use Rattle.bor_store_sql.specs.Rows.Encoding.{share_columns, or_null};
ghost use Rattle.bor_store_sql.specs.Rows.Reading.{IsRead, HasFour};
ghost use Rattle.bor_store_sql.specs.Rows.RowForms.{IsFormedAt};

use crate::rows::fault::RowFault;
use crate::rows::parts::part_of;
use crate::rows::places::At;
use crate::rows::typed::{
    AgentRow, FilingRow, IdentifierRow, InterestLine, PeriodRow, RegisterRow, StatementRow,
};
use crate::rows::values::{
    blob_at, day_at, day_or_null_at, flag_at, has_columns, is_number, number_at, percent_at,
    text_at, value_at,
};
use crate::rows::words::{by_word, by_word_at};
use crate::texts::changes::VERSION;
use bods_read::{Identifier, Status};
use bor_register::Filing;
use bor_terms::Span;
use sqlite::Row;
use sqlite::types::ValueRef;
use std::alloc::Global;

/// A row that can be read from the columns of a table.
pub trait TableRow: Sized {
    ghost use Rattle.std.specs.Prelude.{◌≡◌, IfOk, List};
    ghost use Rattle.sqlite.specs.declared.types.Value.{Value as SqlValue};
    ghost use Rattle.bor_store_sql.specs.Rows.Reading.{IsRead};

    ghost columns: { Self → List SqlValue };

    ghost is_formed: { Self → Type 0 };

    /// The value whose columns these are. `Damaged` comes of a row that is no value's, and of no
    /// other.
    fn read(alloc: Global, row: &Row) -> Result<Self, RowFault>
        ensures reads { (x : Self) → row.now ≡ columns x → is_formed x → IsRead result x }
        ensures exact { IfOk result (λ x. (row.now ≡ columns x) × is_formed x) };
}

impl TableRow for AgentRow {
    ghost use Rattle.bor_store_sql.specs.Rows.Encoding.{agent_row_columns};
    ghost use Rattle.bor_store_sql.specs.Rows.RowForms.{IsFormedAgentRow};

    ghost columns = { agent_row_columns };

    ghost is_formed = { IsFormedAgentRow };

    fn read(alloc: Global, row: &Row) -> Result<AgentRow, RowFault> {
        has_columns(row, 2)?;
        Ok(AgentRow {
            name: text_at(alloc, row, 0)?,
            token: text_at(alloc, row, 1)?,
        })
    }
}

impl TableRow for RegisterRow {
    ghost use Rattle.bor_store_sql.specs.Rows.Encoding.{register_row_columns};
    ghost use Rattle.bor_store_sql.specs.Rows.RowForms.{IsFormedRegisterRow};

    ghost columns = { register_row_columns };

    ghost is_formed = { IsFormedRegisterRow };

    fn read(alloc: Global, row: &Row) -> Result<RegisterRow, RowFault> {
        has_columns(row, 4)?;
        is_number(value_at(row, 0), 1)?;
        is_number(value_at(row, 1), VERSION)?;
        Ok(RegisterRow {
            day: day_at(row, 2)?,
            registrar: text_at(alloc, row, 3)?,
        })
    }
}

/// A filing without its file: agent, number, key, due day, and whether it is withdrawn.
impl TableRow for FilingRow {
    ghost use Rattle.bor_store_sql.specs.Rows.Encoding.{line_columns};
    ghost use Rattle.bor_store_sql.specs.Rows.RowForms.{IsFormedFilingRow};

    ghost columns = { line_columns };

    ghost is_formed = { IsFormedFilingRow };

    fn read(alloc: Global, row: &Row) -> Result<FilingRow, RowFault> {
        has_columns(row, 5)?;
        Ok(FilingRow {
            number: number_at(row, 1)?,
            due: day_at(row, 3)?,
            withdrawn: flag_at(row, 4)?,
            agent: text_at(alloc, row, 0)?,
            key: text_at(alloc, row, 2)?,
        })
    }
}

/// A filing with its file: number, due day, whether it is withdrawn, and bytes.
impl TableRow for Filing {
    ghost use Rattle.bor_store_sql.specs.Rows.Encoding.{shown_columns};
    ghost use Rattle.bor_store_sql.specs.Rows.RowForms.{IsFormedShown};

    ghost columns = { shown_columns };

    ghost is_formed = { IsFormedShown };

    fn read(alloc: Global, row: &Row) -> Result<Filing, RowFault> {
        has_columns(row, 4)?;
        Ok(Filing {
            number: number_at(row, 0)?,
            due: day_at(row, 1)?,
            withdrawn: flag_at(row, 2)?,
            bytes: blob_at(alloc, row, 3)?,
        })
    }
}

/// An identifier with where it stands.
impl TableRow for IdentifierRow {
    ghost use Rattle.bor_store_sql.specs.Rows.Encoding.{identifier_columns};
    ghost use Rattle.bor_store_sql.specs.Rows.RowForms.{IsFormedIdentifierRow};

    ghost columns = { identifier_columns };

    ghost is_formed = { IsFormedIdentifierRow };

    fn read(alloc: Global, row: &Row) -> Result<IdentifierRow, RowFault> {
        has_columns(row, 6)?;
        Ok(IdentifierRow {
            item: number_at(row, 3)?,
            at: place_at(alloc, row)?,
            identifier: identifier_of(alloc, row)?,
        })
    }
}

// Where a statement stands, by the first three columns.
fn place_at(alloc: Global, row: &Row) -> Result<At, RowFault>
    ensures reads { (at : At) → column row.now 0 ≡ Text at.agent
        → column row.now 1 ≡ Int (pos at.filing) → column row.now 2 ≡ Int (pos at.place)
        → IsFormedAt at → IsRead result at }
    ensures exact { IfOk result (λ at.
        (column row.now 0 ≡ Text at.agent) × (column row.now 1 ≡ Int (pos at.filing))
        × (column row.now 2 ≡ Int (pos at.place)) × IsFormedAt at) }
{
    Ok(At {
        filing: number_at(row, 1)?,
        place: number_at(row, 2)?,
        agent: text_at(alloc, row, 0)?,
    })
}

// An identifier, by its last two columns.
fn identifier_of(alloc: Global, row: &Row) -> Result<Identifier, RowFault>
    ensures reads { (i : Identifier) → column row.now 4 ≡ Text i.scheme
        → column row.now 5 ≡ Text i.id → IsFormedIdentifier i → IsRead result i }
    ensures exact { IfOk result (λ i.
        (column row.now 4 ≡ Text i.scheme) × (column row.now 5 ≡ Text i.id)
        × IsFormedIdentifier i) }
{
    Ok(Identifier {
        scheme: text_at(alloc, row, 4)?,
        id: text_at(alloc, row, 5)?,
    })
}

// A share, by the last four columns of an interest.
#[tactic(auto, using(crate::proofs::OnRows::Whole::low_small))]
fn span_of(row: &Row) -> Result<Span, RowFault>
    ensures reads { (s : Range) → HasFour row.now 6 (share_columns (Some s)) → IsShare s
        → result ≡ Ok s }
    ensures exact { IfOk result (λ s. HasFour row.now 6 (share_columns (Some s)) × IsShare s) }
{
    let low = percent_at(row, 6)?;
    let low_open = flag_at(row, 7)?;
    let high = percent_at(row, 8)?;
    let high_open = flag_at(row, 9)?;
    Span::new(low, low_open, high, high_open).ok_or(RowFault::Damaged)
}

// The share of an interest; none where its columns are null.
fn share_of(row: &Row) -> Result<Option<Span>, RowFault>
    ensures reads { (o : Option Range) → HasFour row.now 6 (share_columns o) → IfSome o IsShare
        → result ≡ Ok o }
    ensures exact { IfOk result (λ o. HasFour row.now 6 (share_columns o) × IfSome o IsShare) }
{
    match (
        value_at(row, 6),
        value_at(row, 7),
        value_at(row, 8),
        value_at(row, 9),
    ) {
        (ValueRef::Null, ValueRef::Null, ValueRef::Null, ValueRef::Null) => Ok(None),
        _ => span_of(row).map(Some),
    }
}

/// All of an interest but its days, with where it stands.
impl TableRow for InterestLine {
    ghost use Rattle.bor_store_sql.specs.Rows.Encoding.{interest_line_columns};
    ghost use Rattle.bor_store_sql.specs.Rows.RowForms.{IsFormedInterestLine};

    ghost columns = { interest_line_columns };

    ghost is_formed = { IsFormedInterestLine };

    fn read(alloc: Global, row: &Row) -> Result<InterestLine, RowFault> {
        has_columns(row, 10)?;
        Ok(InterestLine {
            item: number_at(row, 3)?,
            kind: by_word_at(row, 4)?,
            directness: by_word_at(row, 5)?,
            share: share_of(row)?,
            at: place_at(alloc, row)?,
        })
    }
}

/// The days of an interest, with where it stands.
impl TableRow for PeriodRow {
    ghost use Rattle.bor_store_sql.specs.Rows.Encoding.{period_columns};
    ghost use Rattle.bor_store_sql.specs.Rows.RowForms.{IsFormedPeriodRow};

    ghost columns = { period_columns };

    ghost is_formed = { IsFormedPeriodRow };

    fn read(alloc: Global, row: &Row) -> Result<PeriodRow, RowFault> {
        has_columns(row, 6)?;
        Ok(PeriodRow {
            item: number_at(row, 3)?,
            starts: day_or_null_at(row, 4)?,
            ends: day_or_null_at(row, 5)?,
            at: place_at(alloc, row)?,
        })
    }
}

/// A statement without its lists.
impl TableRow for StatementRow {
    ghost use Rattle.bor_store_sql.specs.Rows.Encoding.{statement_columns};
    ghost use Rattle.bor_store_sql.specs.Rows.RowForms.{IsFormedStatementRow};

    ghost columns = { statement_columns };

    ghost is_formed = { IsFormedStatementRow };

    fn read(alloc: Global, row: &Row) -> Result<StatementRow, RowFault> {
        has_columns(row, 13)?;
        Ok(StatementRow {
            day: day_at(row, 4)?,
            status: status_of(row)?,
            id: text_at(alloc, row, 3)?,
            declaration: text_at(alloc, row, 5)?,
            rec: text_at(alloc, row, 6)?,
            at: place_at(alloc, row)?,
            part: part_of(alloc, row)?,
        })
    }
}

// The status of a statement; none where it is null.
fn status_of(row: &Row) -> Result<Option<Status>, RowFault>
    ensures reads { (o : Option Status) → column row.now 8 ≡ or_null (option_map status_word o)
        → result ≡ Ok o }
    ensures exact { IfOk result (λ o. column row.now 8 ≡ or_null (option_map status_word o)) }
{
    match value_at(row, 8) {
        ValueRef::Null => Ok(None),
        value => by_word(value).map(Some),
    }
}

/// The values whose columns these rows are, in order.
pub fn read_rows<T: TableRow + Drop>(alloc: Global, rows: &[Row]) -> Result<Vec<T>, RowFault>
    ensures { (xs : List T) → rows.now ≡ map T.columns xs → All T.is_formed xs
        → MatchResult result (λ read. read.items ≡ xs) (λ fault. fault ≡ Memory) }
{
    let mut read = Vec::new(alloc);
    for row in rows {
        let value = T::read(alloc, row)?;
        if read.push(value).is_err() {
            return Err(RowFault::Memory);
        }
    }
    Ok(read)
}
