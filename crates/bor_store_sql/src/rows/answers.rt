//! Answers from the rows that a query gives.

ghost use Rattle.std.specs.Prelude.{◌≡◌, Bool, List, map, All, MatchResult, Ok, IfOk, Option, unwrap_or, slice_get, false, [], ◌∷◌};
ghost use Rattle.bor_store_sql.specs.declared.rows.fault.RowFault.TheVariants.{Memory};
ghost use Rattle.bor_store_sql.specs.Rows.Encoding.{truth};
ghost use Rattle.bor_store_sql.specs.Rows.Seen.{known_at, line_shown, type_of_part};

use crate::rows::fault::RowFault;
use crate::rows::reader::TableRow;
use crate::rows::typed::{FilingRow, Part, StatementRow};
use crate::rows::values::flag_at;
use bods_read::{RecordType, Status};
use bor_records::Last;
use bor_register::FilingLine;
use bor_terms::Day;
use sqlite::Row;
use std::alloc::{AllocError, Global};

/// The value of the first row; `None` where there is none.
pub fn first_row<T: TableRow>(alloc: Global, rows: &[Row]) -> Result<Option<T>, RowFault>
    ensures { (xs : List T) → rows.now ≡ map T.columns xs → All T.is_formed xs
        → MatchResult result (λ first. first ≡ slice_get xs 0) (λ fault. fault ≡ Memory) }
{
    match rows.first() {
        Some(row) => Ok(Some(T::read(alloc, row)?)),
        None => Ok(None),
    }
}

/// The truth value that the first row has; false where there is none.
pub fn first_flag(rows: &[Row]) -> Result<bool, RowFault>
    ensures { (bs : List Bool) → rows.now ≡ map (λ b. truth b ∷ []) bs
        → result ≡ Ok (unwrap_or (slice_get bs 0) false) }
{
    match rows.first() {
        Some(row) => flag_at(row, 0),
        None => Ok(false),
    }
}

/// The lines of these filings on a day.
pub fn lines_of(
    alloc: Global,
    filings: Vec<FilingRow>,
    day: Day,
) -> Result<Vec<FilingLine>, AllocError>
    ensures { IfOk result (λ lines. lines.items ≡ map (line_shown day) filings.items) }
{
    filings
        .into_iter()
        .map(|filing| filing.into_line(day))
        .collect(alloc)
}

impl Part {
    /// The kind of the statement's record.
    pub fn record_type(&self) -> RecordType
        ensures { result ≡ type_of_part self.now }
    {
        match self {
            Part::Entity { .. } => RecordType::Entity,
            Part::Person { .. } => RecordType::Person,
            Part::Relationship { .. } => RecordType::Relationship,
        }
    }
}

impl StatementRow {
    /// The statement, whose filing is due on this day, as far as the rules ask. It takes no memory.
    pub fn known(&self, due: Day) -> Last
        ensures { result ≡ known_at due self.now }
    {
        Last {
            kind: self.part.record_type(),
            status: self.status.unwrap_or(Status::New),
            day: self.day,
            due,
        }
    }
}
