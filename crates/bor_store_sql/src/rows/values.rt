//! The value in a column, read as a value of the register.

ghost use Rattle.std.specs.Prelude.{◌≡◌, ◌≢◌, ◌<◌, ◌^◌, ◌+◌, ℕ, ℤ, List, Bool, Option, IfSome, IfOk, Ok, MatchResult, length, pos, true, string_bytes, IsUtf8};
ghost use Rattle.std.specs.Str.{is_utf8};
ghost use Rattle.sqlite.specs.declared.types.Value.TheVariants as sql;
ghost use Rattle.sqlite_value.specs.Value.{owned};
ghost use Rattle.sqlite_value.specs.Order.{column};
ghost use Rattle.bor_terms.specs.Day.{IsDay};
ghost use Rattle.bor_store_sql.specs.Rows.Encoding.{day_or_null, truth, or_null};
ghost use Rattle.bor_store_sql.specs.Rows.Reading.{IsRead, AreNull};

use crate::rows::fault::RowFault;
use bor_terms::{Day, Form, Listed, Text};
use sqlite::Row;
use sqlite::types::ValueRef;
use std::alloc::Global;

/// Whether the row has so many columns; one that has more or fewer is `Damaged`.
pub(crate) fn has_columns(row: &Row, count: usize) -> Result<(), RowFault>
    ensures { MatchResult result (λ _. length row.now ≡ count) (λ _. length row.now ≢ count) }
{
    if row.column_count() == count {
        Ok(())
    } else {
        Err(RowFault::Damaged)
    }
}

/// The value in a column, counted from 0; null past the last one.
pub fn value_at<'a>(row: &'a Row, at: usize) -> ValueRef<'a>
    ensures { owned result ≡ column row.now at }
{
    match row.get_ref(at) {
        Ok(value) => value,
        Err(_) => ValueRef::Null,
    }
}

/// A text.
pub(crate) fn word<'a>(value: ValueRef<'a>) -> Result<&'a str, RowFault>
    ensures reads { (t : List ℕ) → owned value.entry ≡ sql.Text t → IsUtf8 t
        → MatchResult result (λ word. word.now ≡ t) (λ _. ⊥) }
    ensures exact { IfOk result (λ word.
        (owned value.entry ≡ sql.Text word.now) × (is_utf8 word.now ≡ true)) }
{
    match value {
        ValueRef::Text(bytes) => match std::str::from_utf8(bytes) {
            Ok(text) => Ok(text),
            Err(_) => Err(RowFault::Damaged),
        },
        _ => Err(RowFault::Damaged),
    }
}

/// A text of the form.
pub(crate) fn text<F: Form>(alloc: Global, value: ValueRef<'_>) -> Result<Text<F>, RowFault>
    ensures reads { (t : List ℕ) → owned value.entry ≡ sql.Text t → IsUtf8 t → F.is_form t ≡ true
        → IsRead result t }
    ensures exact { IfOk result (λ t.
        (owned value.entry ≡ sql.Text t) × (is_utf8 t ≡ true) × (F.is_form t ≡ true)) }
{
    Text::read(alloc, word(value)?)?.ok_or(RowFault::Damaged)
}

/// The text of the form in a column, or null.
pub(crate) fn text_or_null_at<F: Form>(
    alloc: Global,
    row: &Row,
    at: usize,
) -> Result<Option<Text<F>>, RowFault>
    ensures reads { (o : Option (List ℕ)) → column row.now at ≡ or_null o
        → IfSome o (λ t. IsUtf8 t × (F.is_form t ≡ true)) → IsRead result o }
    ensures exact { IfOk result (λ o.
        (column row.now at ≡ or_null o)
        × IfSome o (λ t. (is_utf8 t ≡ true) × (F.is_form t ≡ true))) }
{
    match value_at(row, at) {
        ValueRef::Null => Ok(None),
        value => text(alloc, value).map(Some),
    }
}

/// The number of 32 bits in a column.
pub(crate) fn number_at(row: &Row, at: usize) -> Result<u32, RowFault>
    ensures reads { (n : ℕ) → column row.now at ≡ sql.Int (pos n) → n < 2 ^ 32 → result ≡ Ok n }
    ensures exact { IfOk result (λ n. (column row.now at ≡ sql.Int (pos n)) × (n < 2 ^ 32)) }
{
    match value_at(row, at) {
        ValueRef::Int(n) => match u32::try_from(n) {
            Ok(n) => Ok(n),
            Err(_) => Err(RowFault::Damaged),
        },
        _ => Err(RowFault::Damaged),
    }
}

/// The percent in a column, or any other number of 8 bits.
pub(crate) fn percent_at(row: &Row, at: usize) -> Result<u8, RowFault>
    ensures reads { (n : ℕ) → column row.now at ≡ sql.Int (pos n) → n < 2 ^ 8 → result ≡ Ok n }
    ensures exact { IfOk result (λ n. (column row.now at ≡ sql.Int (pos n)) × (n < 2 ^ 8)) }
{
    match value_at(row, at) {
        ValueRef::Int(n) => match u8::try_from(n) {
            Ok(n) => Ok(n),
            Err(_) => Err(RowFault::Damaged),
        },
        _ => Err(RowFault::Damaged),
    }
}

/// A day, by its number.
pub(crate) fn day(value: ValueRef<'_>) -> Result<Day, RowFault>
    ensures reads { (z : ℤ) → owned value.entry ≡ sql.Int z → IsDay z → result ≡ Ok z }
    ensures exact { IfOk result (λ z. (owned value.entry ≡ sql.Int z) × IsDay z) }
{
    let ValueRef::Int(n) = value else {
        return Err(RowFault::Damaged);
    };
    let Ok(n) = i32::try_from(n) else {
        return Err(RowFault::Damaged);
    };
    match Day::from_number(n) {
        Some(day) => Ok(day),
        None => Err(RowFault::Damaged),
    }
}

/// The day in a column, or null.
pub(crate) fn day_or_null_at(row: &Row, at: usize) -> Result<Option<Day>, RowFault>
    ensures reads { (o : Option ℤ) → column row.now at ≡ day_or_null o → IfSome o IsDay
        → result ≡ Ok o }
    ensures exact { IfOk result (λ o. (column row.now at ≡ day_or_null o) × IfSome o IsDay) }
{
    match value_at(row, at) {
        ValueRef::Null => Ok(None),
        value => day(value).map(Some),
    }
}

/// The text of the form in a column.
pub(crate) fn text_at<F: Form>(alloc: Global, row: &Row, at: usize) -> Result<Text<F>, RowFault>
    ensures reads { (t : List ℕ) → column row.now at ≡ sql.Text t → IsUtf8 t → F.is_form t ≡ true
        → IsRead result t }
    ensures exact { IfOk result (λ t.
        (column row.now at ≡ sql.Text t) × (is_utf8 t ≡ true) × (F.is_form t ≡ true)) }
{
    text(alloc, value_at(row, at))
}

/// The day in a column.
pub(crate) fn day_at(row: &Row, at: usize) -> Result<Day, RowFault>
    ensures reads { (z : ℤ) → column row.now at ≡ sql.Int z → IsDay z → result ≡ Ok z }
    ensures exact { IfOk result (λ z. (column row.now at ≡ sql.Int z) × IsDay z) }
{
    day(value_at(row, at))
}

/// Whether it is this number; every other value is `Damaged`.
pub(crate) fn is_number(value: ValueRef<'_>, number: i64) -> Result<(), RowFault>
    ensures { MatchResult result (λ _. owned value.entry ≡ sql.Int number) (λ _.
        owned value.entry ≢ sql.Int number) }
{
    match value {
        ValueRef::Int(n) if n == number => Ok(()),
        _ => Err(RowFault::Damaged),
    }
}

/// Whether two values are null; else they are `Damaged`.
pub(crate) fn are_null(first: ValueRef<'_>, second: ValueRef<'_>) -> Result<(), RowFault>
    ensures { MatchResult result (λ _. AreNull (owned first.entry) (owned second.entry)) (λ _.
        AreNull (owned first.entry) (owned second.entry) → ⊥) }
{
    match (first, second) {
        (ValueRef::Null, ValueRef::Null) => Ok(()),
        _ => Err(RowFault::Damaged),
    }
}

/// The truth value in a column: 0 or 1.
pub(crate) fn flag_at(row: &Row, at: usize) -> Result<bool, RowFault>
    ensures reads { (b : Bool) → column row.now at ≡ truth b → result ≡ Ok b }
    ensures exact { IfOk result (λ b. column row.now at ≡ truth b) }
{
    match value_at(row, at) {
        ValueRef::Int(0) => Ok(false),
        ValueRef::Int(1) => Ok(true),
        _ => Err(RowFault::Damaged),
    }
}

/// The bytes in a column.
pub(crate) fn blob_at(alloc: Global, row: &Row, at: usize) -> Result<Listed<u8>, RowFault>
    ensures reads { (bytes : List ℕ) → column row.now at ≡ sql.Blob bytes → IsRead result bytes }
    ensures exact { IfOk result (λ bytes. column row.now at ≡ sql.Blob bytes) }
{
    match value_at(row, at) {
        ValueRef::Blob(bytes) => Ok(Listed::new(Vec::from_slice(alloc, bytes)?)),
        _ => Err(RowFault::Damaged),
    }
}
