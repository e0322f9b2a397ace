//! Values that stand in the tables as words of BODS 0.4.

ghost use Rattle.std.specs.Prelude.{◌≡◌, Ok, IfOk};
ghost use Rattle.sqlite.specs.declared.types.Value.TheVariants.{Text};
ghost use Rattle.sqlite_value.specs.Value.{owned};
ghost use Rattle.sqlite_value.specs.Order.{column};

use crate::rows::fault::RowFault;
use crate::rows::values::{value_at, word};
use bods_read::Worded;
use sqlite::Row;
use sqlite::types::ValueRef;

/// A value by its word.
pub(crate) fn by_word<W: Worded>(value: ValueRef<'_>) -> Result<W, RowFault>
    ensures reads { (x : W) → owned value.entry ≡ Text (W.word x) → result ≡ Ok x }
    ensures exact { IfOk result (λ x. owned value.entry ≡ Text (W.word x)) }
{
    match W::of_word(word(value)?) {
        Some(value) => Ok(value),
        None => Err(RowFault::Damaged),
    }
}

/// The value in a column by its word.
pub(crate) fn by_word_at<W: Worded>(row: &Row, at: usize) -> Result<W, RowFault>
    ensures reads { (x : W) → column row.now at ≡ Text (W.word x) → result ≡ Ok x }
    ensures exact { IfOk result (λ x. column row.now at ≡ Text (W.word x)) }
{
    by_word(value_at(row, at))
}
