//! The details of a statement, as the table `statement` has them.

ghost use Rattle.std.specs.Prelude.{◌≡◌, ℕ, List, Option, IfOk, IfSome};
ghost use Rattle.sqlite.specs.declared.types.Value.TheVariants.{Text};
ghost use Rattle.sqlite_value.specs.Order.{column};
ghost use Rattle.bods_read.specs.Words.{entity_word, person_word, type_word};
ghost use Rattle.bods_read.specs.declared.statement.RecordType.TheVariants as types;
ghost use Rattle.bods_read.specs.Forms.{IsFreeText, IsIdent};
ghost use Rattle.bor_store_sql.specs.declared.rows.typed.Part.TheVariants as part;
ghost use Rattle.bor_store_sql.specs.Rows.Encoding.{or_null, kind_word, part_columns};
ghost use Rattle.bor_store_sql.specs.Rows.Reading.{IsRead, HasFour};
ghost use Rattle.bor_store_sql.specs.Rows.RowForms.{IsFormedPart};

use crate::rows::fault::RowFault;
use crate::rows::typed::Part;
use crate::rows::values::{are_null, text_or_null_at, value_at};
use crate::rows::words::by_word_at;
use bods_read::{EntityKind, PersonKind, RecordType};
use sqlite::Row;
use std::alloc::Global;

fn entity(alloc: Global, row: &Row) -> Result<Part, RowFault>
    ensures reads { (kind : EntityKind) (name : Option (List ℕ))
        → HasFour row.now 9 (part_columns (part.Entity kind name)) → IfSome name IsFreeText
        → IsRead result (part.Entity kind name) }
    ensures exact { IfOk result (λ p.
        (kind_word p ≡ type_word types.Entity) × HasFour row.now 9 (part_columns p)
        × IsFormedPart p) }
{
    are_null(value_at(row, 11), value_at(row, 12))?;
    let kind: EntityKind = by_word_at(row, 9)?;
    let name = text_or_null_at(alloc, row, 10)?;
    Ok(Part::Entity { kind, name })
}

fn person(alloc: Global, row: &Row) -> Result<Part, RowFault>
    ensures reads { (kind : PersonKind) (name : Option (List ℕ))
        → HasFour row.now 9 (part_columns (part.Person kind name)) → IfSome name IsFreeText
        → IsRead result (part.Person kind name) }
    ensures exact { IfOk result (λ p.
        (kind_word p ≡ type_word types.Person) × HasFour row.now 9 (part_columns p)
        × IsFormedPart p) }
{
    are_null(value_at(row, 11), value_at(row, 12))?;
    let kind: PersonKind = by_word_at(row, 9)?;
    let name = text_or_null_at(alloc, row, 10)?;
    Ok(Part::Person { kind, name })
}

fn relationship(alloc: Global, row: &Row) -> Result<Part, RowFault>
    ensures reads { (subject party : Option (List ℕ))
        → HasFour row.now 9 (part_columns (part.Relationship subject party))
        → IfSome subject IsIdent → IfSome party IsIdent
        → IsRead result (part.Relationship subject party) }
    ensures exact { IfOk result (λ p.
        (kind_word p ≡ type_word types.Relationship) × HasFour row.now 9 (part_columns p)
        × IsFormedPart p) }
{
    are_null(value_at(row, 9), value_at(row, 10))?;
    let subject = text_or_null_at(alloc, row, 11)?;
    let party = text_or_null_at(alloc, row, 12)?;
    Ok(Part::Relationship { subject, party })
}

/// The part of a statement, by the columns from `kind` on.
pub(crate) fn part_of(alloc: Global, row: &Row) -> Result<Part, RowFault>
    ensures reads { (p : Part) → column row.now 7 ≡ Text (kind_word p)
        → HasFour row.now 9 (part_columns p) → IsFormedPart p → IsRead result p }
    ensures exact { IfOk result (λ p.
        (column row.now 7 ≡ Text (kind_word p)) × HasFour row.now 9 (part_columns p)
        × IsFormedPart p) }
{
    let kind: RecordType = by_word_at(row, 7)?;
    match kind {
        RecordType::Entity => entity(alloc, row),
        RecordType::Person => person(alloc, row),
        RecordType::Relationship => relationship(alloc, row),
    }
}
