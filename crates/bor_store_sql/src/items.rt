//! The items of the lists that a statement has, identifiers and interests: rows at its place, each
//! with its number in the list.

ghost use Rattle.std.specs.Prelude.{◌≡◌, ◌↔◌, ◌+◌, ◌<◌, ◌^◌, [], ◌∷◌, is_some, ◌||◌, length, IfOk, IsTrue};
ghost use Rattle.bor_store_sql.specs.Fitting.{Pairwise};
ghost use Rattle.bor_store_sql.specs.Shown.{Steps};
ghost use Rattle.bor_store_sql.specs.Changing.{Any, in_turn, with_period_rows};

use crate::columns::{identifier_values, interest_values, is_row, period_values};
use crate::rows::At;
use crate::running::run;
use crate::texts::changes::{INSERT_IDENTIFIER, INSERT_INTEREST, INSERT_PERIOD};
use bods_read::{Identifier, Interest};
use sqlite::{Alter, Error, ErrorCode, Row, Transaction};

/// An item of a list that a statement has.
pub(crate) trait ListItem {
    ghost use Rattle.std.specs.Prelude.{◌≡◌, ◌↔◌, ℕ, IsTrue};
    ghost use Rattle.sqlite.specs.Order.{Row as Columns};
    ghost use Rattle.bor_store_sql.specs.declared.rows.places.At.{At as Place};
    ghost use Rattle.bor_store_sql.specs.Rows.Encoding.{Contents};
    ghost use Rattle.bor_store_sql.specs.Shown.{Steps};
    ghost use Rattle.bor_store_sql.specs.Changing.{Any};

    ghost columns: { Place → ℕ → Self → Columns };

    ghost with_rows: { Place → ℕ → Self → Contents → Contents };

    /// Whether a row is that of the item, in the table of its list.
    fn has_row(&self, row: &Row, at: &At, number: u32) -> bool
        ensures { IsTrue result ↔ (row.now ≡ columns at.now number self.now) };

    /// Puts down its rows.
    fn insert<S: Alter>(
        &self,
        tx: &mut Transaction<'_, S>,
        at: &At,
        number: u32,
    ) -> Result<(), Error>
        ensures same_reference { tx.new.conn.ghost_name ≡ tx.old.conn.ghost_name }
        ensures steps { Steps S.Store tx.old.conn.now tx.new.conn.now result Any
            (with_rows at.now number self.now) };
}

impl ListItem for Identifier {
    ghost use Rattle.std.specs.Prelude.{[], ◌∷◌};
    ghost use Rattle.bor_store_sql.specs.Rows.Encoding.{identifier_columns};
    ghost use Rattle.bor_store_sql.specs.Changing.{with_identifier_rows};

    ghost columns = { λ at number x.
        identifier_columns (record { at = at; item = number; identifier = x }) };

    ghost with_rows = { λ at number x.
        with_identifier_rows (record { at = at; item = number; identifier = x } ∷ []) };

    fn has_row(&self, row: &Row, at: &At, number: u32) -> bool {
        is_row(row, &identifier_values(at, number, self))
    }

    fn insert<S: Alter>(
        &self,
        tx: &mut Transaction<'_, S>,
        at: &At,
        number: u32,
    ) -> Result<(), Error> {
        run(tx, INSERT_IDENTIFIER, &identifier_values(at, number, self))
    }
}

/// An interest has a row for its days too, where it has one.
impl ListItem for Interest {
    ghost use Rattle.bor_store_sql.specs.Rows.Encoding.{interest_columns};
    ghost use Rattle.bor_store_sql.specs.Changing.{with_interest};

    ghost columns = { λ at number x.
        interest_columns (record { at = at; item = number; interest = x }) };

    ghost with_rows = { λ at number x.
        with_interest (record { at = at; item = number; interest = x }) };

    fn has_row(&self, row: &Row, at: &At, number: u32) -> bool {
        is_row(row, &interest_values(at, number, self))
    }

    fn insert<S: Alter>(
        &self,
        tx: &mut Transaction<'_, S>,
        at: &At,
        number: u32,
    ) -> Result<(), Error> {
        run(tx, INSERT_INTEREST, &interest_values(at, number, self))?;
        insert_days(tx, at, number, self)
    }
}

/// Whether the interest has a day.
pub fn has_days(interest: &Interest) -> bool
    ensures { result ≡ (is_some interest.now.starts || is_some interest.now.ends) }
{
    interest.starts.is_some() || interest.ends.is_some()
}

// The row of the days of an interest, where it has one.
fn insert_days<S: Alter>(
    tx: &mut Transaction<'_, S>,
    at: &At,
    number: u32,
    interest: &Interest,
) -> Result<(), Error>
    ensures same_reference { tx.new.conn.ghost_name ≡ tx.old.conn.ghost_name }
    ensures steps { Steps S.Store tx.old.conn.now tx.new.conn.now result Any
        (with_period_rows (record { at = at.now; item = number; interest = interest.now } ∷ [])) }
{
    if !has_days(interest) {
        return Ok(());
    }
    let days = period_values(at, number, interest.starts, interest.ends);
    run(tx, INSERT_PERIOD, &days)
}

/// The number after this one; a table has numbers of 32 bits alone.
///
/// # Errors
///
/// `TooBig` where the number is the last one.
pub fn next_number(number: u32) -> Result<u32, Error>
    ensures value { IfOk result (λ next. next ≡ number + 1) }
    ensures within { IfOk result (λ next. next < 2 ^ 32) }
{
    match number.checked_add(1) {
        Some(next) => Ok(next),
        None => Err(Error::SqliteFailure(ErrorCode::TooBig)),
    }
}

/// Puts down the rows of a list's items.
pub(crate) fn insert_items<S: Alter, T: ListItem>(
    tx: &mut Transaction<'_, S>,
    at: &At,
    items: &[T],
) -> Result<(), Error>
    ensures same_reference { tx.new.conn.ghost_name ≡ tx.old.conn.ghost_name }
    ensures steps { Steps S.Store tx.old.conn.now tx.new.conn.now result Any
        (in_turn (T.with_rows at.now) 1 items.now) }
    ensures counted { IfOk result (λ _. length items.now < 2 ^ 32) }
{
    let mut number = 0;
    for item in items {
        number = next_number(number)?;
        item.insert(tx, at, number)?;
    }
    Ok(())
}

/// Whether these rows are those of a list's items, in order.
pub(crate) fn are_items<T: ListItem>(rows: &[Row], at: &At, items: &[T]) -> Result<bool, Error>
    ensures { IfOk result (λ are. IsTrue are
        ↔ Pairwise (λ number item row. row ≡ T.columns at.now number item) 1 items.now rows.now) }
{
    if rows.len() != items.len() {
        return Ok(false);
    }
    let mut number = 0;
    for (index, item) in items.iter().enumerate() {
        number = next_number(number)?;
        if !item.has_row(&rows[index], at, number) {
            return Ok(false);
        }
    }
    Ok(true)
}
