//! The report on who stands behind an entity.

ghost use Rattle.std.specs.Prelude.{◌≡◌, ◌++◌, ℕ, List, Some, IfOk, OnOk, string_bytes};
ghost use Rattle.serde_json.specs.Written.{compact_text};
ghost use Rattle.bor_terms.specs.Day.{IsSpelling};
ghost use Rattle.bor_records.specs.Links.Rows.{shown_of};
ghost use Rattle.bor_records.specs.Promises.{Kept, Promised};
ghost use Rattle.bor_desk.specs.Operations.Sight.{seen_by};
ghost use Rattle.bor_desk.specs.Operations.Outcomes.{Accounts, store_fault};
ghost use Rattle.bor_desk.specs.Refusals.{failed};
ghost use Rattle.bor_desk.specs.Step.{chains_answer};
ghost use Rattle.bor_desk.specs.Outcomes.{ArePersonsFound};
ghost use Rattle.bor_desk.specs.Texts.{answering};
ghost use Rattle.bor_desk.specs.ChainReport.{name_data, count_line, entity_line, person_part, person_line, person_lines, report_lines, IsTextOf};

use crate::operations::{Keep, KeepSource, StoreFault};
use crate::refusal::DeskFault;
use crate::text::{Text, answering, refused_text};
use bods_read::FreeText;
use bor_chains::{Node, PersonInfo, PersonLine, persons_of};
use bor_terms::{AgentName, Day};
use serde_json::Value;
use std::alloc::{AllocError, Global};

/// The persons behind an entity on a day, as the viewer sees it.
pub(crate) fn persons_seen<K: Keep>(
    alloc: Global,
    keep: &mut K,
    viewer: &AgentName,
    entity: &Node,
    day: Day,
) -> Result<Vec<PersonLine>, DeskFault>
    ensures kept { Kept K.meaning keep.old keep.new }
    ensures answer { Promised K.meaning keep.old keep.new (λ r.
        ArePersonsFound (λ persons. persons.items) result
        (shown_of day (seen_by viewer.now r)) entity.now day) }
    ensures accounted { Accounts K.meaning keep.old keep.new (store_fault failed result) }
{
    let mut source = KeepSource::new(keep, viewer, day);
    Ok(persons_of(alloc, &mut source, entity)?)
}

// A name as a text of JSON, or null.
fn name_text(alloc: Global, name: &Option<FreeText>) -> Result<String, AllocError>
    ensures { IfOk result (λ text. string_bytes text ≡ compact_text (name_data name.now)) }
{
    let value = match name {
        Some(name) => Value::String(String::from_str(alloc, name.as_str())?),
        None => Value::Null,
    };
    value.to_string(alloc)
}

/// Adds what stands in the line of a person, but for its end.
pub(crate) fn person_text(
    alloc: Global,
    text: &mut String,
    node: &Node,
    links: u64,
    info: &PersonInfo,
) -> Result<(), AllocError>
    ensures { OnOk result (string_bytes text.new
        ≡ string_bytes text.old ++ person_part node.now links info.now) }
{
    let agent = node.agent.as_str();
    let declaration = node.declaration.as_str();
    let rec = node.rec.as_str();
    let name = name_text(alloc, &info.name)?;
    write!(
        text,
        "person\t{agent}\t{declaration}\t{rec}\t{links}\t{name}"
    )
}

// Adds the line of a person.
fn add_person(alloc: Global, text: &mut String, person: &PersonLine) -> Result<(), AllocError>
    ensures { OnOk result
        (string_bytes text.new ≡ string_bytes text.old ++ person_line person.now) }
{
    person_text(alloc, text, &person.node, person.links, &person.info)?;
    writeln!(text)
}

fn add_persons(alloc: Global, text: &mut String, persons: &[PersonLine]) -> Result<(), AllocError>
    ensures { OnOk result
        (string_bytes text.new ≡ string_bytes text.old ++ person_lines persons.now) }
{
    for person in persons {
        add_person(alloc, text, person)?;
    }
    Ok(())
}

// The ten bytes of the day, which are ASCII.
fn day_text(alloc: Global, day: Day) -> Result<String, AllocError>
    ensures { IfOk result (λ text. IsSpelling day (string_bytes text)) }
{
    String::from_utf8_lossy(alloc, day.text().as_slice())
}

/// The first line of a text: the entity and the day.
pub(crate) fn begin_text(alloc: Global, entity: &Node, day: Day) -> Result<String, AllocError>
    ensures { IfOk result (λ text. (date : List ℕ) × IsSpelling day date
        × (string_bytes text ≡ entity_line entity.now date)) }
{
    let mut text = String::new(alloc);
    let agent = entity.agent.as_str();
    let declaration = entity.declaration.as_str();
    let rec = entity.rec.as_str();
    let date = day_text(alloc, day)?;
    writeln!(text, "entity\t{agent}\t{declaration}\t{rec}\t{date}")?;
    Ok(text)
}

/// The text that ends with how many persons there are.
pub(crate) fn end_text(text: String, count: usize) -> Result<Text, AllocError>
    ensures { IfOk result (λ told. told ≡ answering (string_bytes text ++ count_line count)) }
{
    let mut out = text;
    writeln!(out, "persons {count}")?;
    Ok(answering(out))
}

// The text of a report: the entity and the day, the persons, and how many they are.
fn persons_text(
    alloc: Global,
    entity: &Node,
    day: Day,
    persons: &[PersonLine],
) -> Result<Text, AllocError>
    ensures { IfOk result (λ text. (date : List ℕ) × IsSpelling day date
        × (text ≡ answering (report_lines entity.now date persons.now))) }
{
    let mut text = begin_text(alloc, entity, day)?;
    add_persons(alloc, &mut text, persons)?;
    end_text(text, persons.len())
}

/// The text of a report: who stands behind an entity on a day, by the filings that the viewer sees,
/// its own live ones and the others' published ones. A viewer that isn't enrolled sees what is
/// published.
///
/// The text is a refusal, `NoEntity`, where the viewer sees no open entity there on the day. The
/// register is left as it is.
///
/// # Errors
///
/// The keep failed, or memory was wanting.
pub fn report_text<K: Keep>(
    alloc: Global,
    keep: &mut K,
    viewer: &AgentName,
    entity: &Node,
    day: Day,
) -> Result<Text, StoreFault>
    ensures kept { Kept K.meaning keep.old keep.new }
    ensures text { Promised K.meaning keep.old keep.new (λ r.
        IfOk result (λ text. IsTextOf (chains_answer (seen_by viewer.now r) entity.now day) text)) }
    ensures accounted { Accounts K.meaning keep.old keep.new (store_fault Some result) }
{
    match persons_seen(alloc, keep, viewer, entity, day) {
        Ok(persons) => Ok(persons_text(alloc, entity, day, &persons)?),
        Err(DeskFault::Refused(refusal)) => Ok(refused_text(alloc, refusal)?),
        Err(DeskFault::Failed(fault)) => Err(fault),
    }
}
