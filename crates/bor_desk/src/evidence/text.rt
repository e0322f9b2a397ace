//! The text of evidence.

ghost use Rattle.std.specs.Prelude.{◌≡◌, ◌++◌, ℕ, List, Some, IfOk, OnOk, option_map, string_bytes};
ghost use Rattle.bor_terms.specs.Day.{IsSpelling};
ghost use Rattle.bor_records.specs.Links.Nodes.{link_record};
ghost use Rattle.bor_records.specs.Promises.{Kept, Promised};
ghost use Rattle.bor_desk.specs.Operations.Sight.{seen_by};
ghost use Rattle.bor_desk.specs.Operations.Outcomes.{Accounts, store_fault};
ghost use Rattle.bor_desk.specs.Step.{evidence_answer};
ghost use Rattle.bor_desk.specs.Texts.{answering};
ghost use Rattle.bor_desk.specs.ChainReport.{IsTextOf, evidence_lines, evidenced_line, evidenced_lines, key_part, link_line, link_lines, next_part};

use crate::evidence::lines::record_of;
use crate::evidence::seen::tree_seen;
use crate::operations::{Keep, StoreFault};
use crate::refusal::DeskFault;
use crate::report::{begin_text, end_text, person_text};
use crate::text::{Text, refused_text};
use bor_chains::{Evidence, EvidenceLink, EvidencePerson, Link, Node};
use bor_terms::{AgentName, Day};
use std::alloc::{AllocError, Global};

// Adds a record's agent, declaration and identifier, each behind a tab.
fn add_record(text: &mut String, node: &Node) -> Result<(), AllocError>
    ensures { OnOk result (string_bytes text.new ≡ string_bytes text.old ++ key_part node.now) }
{
    let agent = node.agent.as_str();
    let declaration = node.declaration.as_str();
    let rec = node.rec.as_str();
    write!(text, "\t{agent}\t{declaration}\t{rec}")
}

// Adds the record of a link.
fn add_link_record(alloc: Global, text: &mut String, link: &Link) -> Result<(), AllocError>
    ensures { OnOk result
        (string_bytes text.new ≡ string_bytes text.old ++ key_part (link_record link.now)) }
{
    let node = record_of(alloc, link)?;
    add_record(text, &node)
}

// Adds the line of a person, with the first link at its end.
fn add_person(alloc: Global, text: &mut String, person: &EvidencePerson) -> Result<(), AllocError>
    ensures { OnOk result (string_bytes text.new
        ≡ string_bytes text.old ++ evidenced_line person.now) }
{
    person_text(alloc, text, &person.node, person.links, &person.info)?;
    add_link_record(alloc, text, &person.first)?;
    writeln!(text)
}

fn add_persons(
    alloc: Global,
    text: &mut String,
    persons: &[EvidencePerson],
) -> Result<(), AllocError>
    ensures { OnOk result (string_bytes text.new
        ≡ string_bytes text.old ++ evidenced_lines persons.now) }
{
    for person in persons {
        add_person(alloc, text, person)?;
    }
    Ok(())
}

// Adds the link that follows, or that none does.
fn add_next(alloc: Global, text: &mut String, next: &Option<Link>) -> Result<(), AllocError>
    ensures { OnOk result (string_bytes text.new
        ≡ string_bytes text.old ++ next_part (option_map link_record next.now)) }
{
    match next {
        Some(link) => {
            write!(text, "\tnext")?;
            add_link_record(alloc, text, link)
        }
        None => write!(text, "\tlast"),
    }
}

// Adds the line of a link.
fn add_link(alloc: Global, text: &mut String, line: &EvidenceLink) -> Result<(), AllocError>
    ensures { OnOk result (string_bytes text.new ≡ string_bytes text.old ++ link_line line.now) }
{
    write!(text, "link")?;
    add_link_record(alloc, text, &line.link)?;
    add_next(alloc, text, &line.next)?;
    writeln!(text)
}

fn add_links(alloc: Global, text: &mut String, links: &[EvidenceLink]) -> Result<(), AllocError>
    ensures { OnOk result (string_bytes text.new
        ≡ string_bytes text.old ++ link_lines links.now) }
{
    for line in links {
        add_link(alloc, text, line)?;
    }
    Ok(())
}

// The text of evidence: the entity and the day, the persons, the links, and how many the persons
// are.
fn tree_text(alloc: Global, entity: &Node, day: Day, tree: &Evidence) -> Result<Text, AllocError>
    ensures { IfOk result (λ text. (date : List ℕ) × IsSpelling day date
        × (text ≡ answering (evidence_lines entity.now date tree.now))) }
{
    let mut text = begin_text(alloc, entity, day)?;
    let persons = tree.persons.as_slice();
    add_persons(alloc, &mut text, persons)?;
    add_links(alloc, &mut text, tree.links.as_slice())?;
    end_text(text, persons.len())
}

/// The text of a report with its evidence: each person's first link stands in the person's line,
/// and below the persons each link of their chains has a line, with the link that follows it. Else
/// it is as [`report_text`](crate::report_text) has it.
///
/// # Errors
///
/// The keep failed, or memory was wanting.
pub fn evidence_text<K: Keep>(
    alloc: Global,
    keep: &mut K,
    viewer: &AgentName,
    entity: &Node,
    day: Day,
) -> Result<Text, StoreFault>
    ensures kept { Kept K.meaning keep.old keep.new }
    ensures text { Promised K.meaning keep.old keep.new (λ r. IfOk result (λ text.
        IsTextOf (evidence_answer (seen_by viewer.now r) entity.now day) text)) }
    ensures accounted { Accounts K.meaning keep.old keep.new (store_fault Some result) }
{
    match tree_seen(alloc, keep, viewer, entity, day) {
        Ok(tree) => Ok(tree_text(alloc, entity, day, &tree)?),
        Err(DeskFault::Refused(refusal)) => Ok(refused_text(alloc, refusal)?),
        Err(DeskFault::Failed(fault)) => Err(fault),
    }
}
