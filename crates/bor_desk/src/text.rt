//! Texts that the program prints.

ghost use Rattle.std.specs.Prelude.{◌≡◌, ◌++◌, IfOk, OnOk, string_bytes};
ghost use Rattle.bor_desk.specs.Texts.{statement_line, filing_statement_lines, outward_lines, accepted_line, refusal_line, place_part, field_part, settled_word, answering, refusing, refused_text};

use crate::operations::{Lodged, Outward};
use crate::refusal::Refusal;
use bods_read::{Field, Statement, Status};
use bor_terms::Listed;
use std::alloc::{AllocError, Global};

/// The text of a command, and whether it tells a refusal.
#[derive(Drop)]
pub struct Text {
    /// The bytes of the text.
    pub bytes: Listed<u8>,
    /// Whether it tells a refusal.
    pub refused: bool,
}

/// The text of what was done.
pub(crate) fn answering(text: String) -> Text
    ensures { result ≡ answering (string_bytes text) }
{
    Text {
        bytes: Listed::new(text.into_bytes()),
        refused: false,
    }
}

/// The text of a refusal by its name, with its place and its field where it has them.
pub(crate) fn refused_as(
    alloc: Global,
    name: &str,
    place: Option<u32>,
    field: Option<Field>,
) -> Result<Text, AllocError>
    ensures { IfOk result (λ text. text ≡ refusing (refusal_line name.now place field)) }
{
    let mut text = String::new(alloc);
    add_refusal(&mut text, name, place, field)?;
    Ok(Text {
        bytes: Listed::new(text.into_bytes()),
        refused: true,
    })
}

/// The text of a refusal.
pub(crate) fn refused_text(alloc: Global, refusal: Refusal) -> Result<Text, AllocError>
    ensures { IfOk result (λ text. text ≡ refused_text refusal) }
{
    refused_as(alloc, refusal.name(), refusal.place(), refusal.field())
}

/// The word of a settled status; no text where the statement has none.
pub fn settled_word(status: Option<Status>) -> &'static str
    ensures { result.now ≡ settled_word status }
{
    match status {
        Some(status) => status.as_str(),
        None => "",
    }
}

// Adds the line of a statement.
fn add_statement(text: &mut String, place: usize, statement: &Statement) -> Result<(), AllocError>
    ensures { OnOk result
        (string_bytes text.new ≡ string_bytes text.old ++ statement_line place statement.now) }
{
    let record_type = statement.record_type().as_str();
    let status = settled_word(statement.status);
    let declaration = statement.declaration.as_str();
    let rec = statement.rec.as_str();
    writeln!(
        text,
        "{place}\t{record_type}\t{status}\t{declaration}\t{rec}"
    )
}

fn add_statements(text: &mut String, statements: &[Statement]) -> Result<(), AllocError>
    ensures { OnOk result
        (string_bytes text.new ≡ string_bytes text.old ++ filing_statement_lines 1 statements.now) }
{
    for (i, statement) in statements.iter().enumerate() {
        add_statement(text, i + 1, statement)?;
    }
    Ok(())
}

/// Adds the lines of the statements of published filings, counted from 1 in each.
pub(crate) fn add_outwards(text: &mut String, outwards: &[Outward]) -> Result<(), AllocError>
    ensures { OnOk result
        (string_bytes text.new ≡ string_bytes text.old ++ outward_lines outwards.now) }
{
    for outward in outwards {
        add_statements(text, outward.statements.as_slice())?;
    }
    Ok(())
}

/// Adds the line of a filing that was accepted.
pub(crate) fn add_accepted(text: &mut String, lodged: &Lodged) -> Result<(), AllocError>
    ensures { OnOk result
        (string_bytes text.new ≡ string_bytes text.old ++ accepted_line lodged.now) }
{
    let number = lodged.number;
    let state = lodged.state.as_str();
    writeln!(text, "filing {number} {state}")
}

fn add_place(text: &mut String, place: Option<u32>) -> Result<(), AllocError>
    ensures { OnOk result (string_bytes text.new ≡ string_bytes text.old ++ place_part place) }
{
    match place {
        Some(place) => write!(text, " at {place}"),
        None => Ok(()),
    }
}

fn add_field(text: &mut String, field: Option<Field>) -> Result<(), AllocError>
    ensures { OnOk result (string_bytes text.new ≡ string_bytes text.old ++ field_part field) }
{
    match field {
        Some(field) => {
            let name = field.as_str();
            write!(text, " in {name}")
        }
        None => Ok(()),
    }
}

// Adds the line of a refusal.
fn add_refusal(
    text: &mut String,
    name: &str,
    place: Option<u32>,
    field: Option<Field>,
) -> Result<(), AllocError>
    ensures { OnOk result
        (string_bytes text.new ≡ string_bytes text.old ++ refusal_line name.now place field) }
{
    write!(text, "refused {name}")?;
    add_place(text, place)?;
    add_field(text, field)?;
    writeln!(text)
}
