//! The bodies of replies to requests that only read.

ghost use Rattle.std.specs.Prelude.{◌≡◌, IfOk, OnOk};
ghost use Rattle.serde_json.specs.Written.{compact_text};
ghost use Rattle.bor_wire.specs.Rendering.Values.{list_data, snapshot_data, chains_data, evidence_data, entities_data, register_data};
ghost use Rattle.bor_wire.specs.Rendering.Bodies.{snapshot_text, chains_text, evidence_text, entities_text, register_text, desk_body};
ghost use Rattle.bor_wire.specs.Rendering.Parts.{WritesBehind, data_tokens};

use crate::rendering::head::HEAD_ROOM;
use crate::rendering::reply::RESERVED;
use crate::rendering::short::put_body;
use crate::rendering::shown::{Shown, write_array, write_date, write_items, write_text};
use bods_read::Identifier;
use bor_chains::{Node, PersonLine};
use bor_desk::operations::AgentLine;
use bor_desk::{DeskReply, EntityEvidence, RecordEvidence};
use bor_records::Entry;
use bor_terms::Day;
use json::Writer;
use std::alloc::{AllocError, Global};

// The value of each item, in order, as an array.
fn array_body<T: Shown>(alloc: Global, items: &[T]) -> Result<Vec<u8>, AllocError>
    ensures { IfOk result (λ body. body.items ≡ compact_text (list_data T.as_data items.now)) }
{
    let mut out = Writer::new(Vec::new(alloc));
    write_array(&mut out, items)?;
    Ok(out.into_inner())
}

fn write_snapshot(out: &mut Writer, date: Day, records: &[Entry]) -> Result<(), AllocError>
    ensures { WritesBehind result out.old out.new (data_tokens (snapshot_data date records.now)) }
{
    out.begin_object()?;
    write_date(out, "date", date)?;
    write_items(out, "records", records)?;
    out.end_object()
}

// The open records on a date.
fn snapshot_body(alloc: Global, date: Day, records: &[Entry]) -> Result<Vec<u8>, AllocError>
    ensures { IfOk result (λ body. body.items ≡ snapshot_text date records.now) }
{
    let mut out = Writer::new(Vec::new(alloc));
    write_snapshot(&mut out, date, records)?;
    Ok(out.into_inner())
}

fn write_chains(
    out: &mut Writer,
    entity: &Node,
    date: Day,
    persons: &[PersonLine],
) -> Result<(), AllocError>
    ensures { WritesBehind result out.old out.new
        (data_tokens (chains_data entity.now date persons.now)) }
{
    out.begin_object()?;
    write_text(out, "agent", entity.agent.as_str())?;
    write_date(out, "date", date)?;
    write_text(out, "declaration", entity.declaration.as_str())?;
    write_items(out, "persons", persons)?;
    write_text(out, "record", entity.rec.as_str())?;
    out.end_object()
}

// The persons behind an entity on a date.
fn chains_body(
    alloc: Global,
    entity: &Node,
    date: Day,
    persons: &[PersonLine],
) -> Result<Vec<u8>, AllocError>
    ensures { IfOk result (λ body. body.items ≡ chains_text entity.now date persons.now) }
{
    let mut out = Writer::new(Vec::new(alloc));
    write_chains(&mut out, entity, date, persons)?;
    Ok(out.into_inner())
}

fn write_evidence(
    out: &mut Writer,
    entity: &Node,
    date: Day,
    evidence: &EntityEvidence,
) -> Result<(), AllocError>
    ensures { WritesBehind result out.old out.new
        (data_tokens (evidence_data entity.now date evidence.now)) }
{
    out.begin_object()?;
    write_text(out, "agent", entity.agent.as_str())?;
    write_date(out, "date", date)?;
    write_text(out, "declaration", entity.declaration.as_str())?;
    write_items(out, "links", evidence.links.as_slice())?;
    write_items(out, "persons", evidence.persons.as_slice())?;
    write_text(out, "record", entity.rec.as_str())?;
    write_items(out, "records", evidence.records.as_slice())?;
    out.end_object()
}

// Why the persons behind an entity are named on a date.
fn evidence_body(
    alloc: Global,
    entity: &Node,
    date: Day,
    evidence: &EntityEvidence,
) -> Result<Vec<u8>, AllocError>
    ensures { IfOk result (λ body. body.items ≡ evidence_text entity.now date evidence.now) }
{
    let mut out = Writer::new(Vec::new(alloc));
    write_evidence(&mut out, entity, date, evidence)?;
    Ok(out.into_inner())
}

fn write_entities(
    out: &mut Writer,
    identifier: &Identifier,
    date: Day,
    records: &[RecordEvidence],
) -> Result<(), AllocError>
    ensures { WritesBehind result out.old out.new
        (data_tokens (entities_data identifier.now date records.now)) }
{
    out.begin_object()?;
    write_date(out, "date", date)?;
    write_items(out, "entities", records)?;
    write_text(out, "id", identifier.id.as_str())?;
    write_text(out, "scheme", identifier.scheme.as_str())?;
    out.end_object()
}

// The open entities that have an identifier on a date.
fn entities_body(
    alloc: Global,
    identifier: &Identifier,
    date: Day,
    records: &[RecordEvidence],
) -> Result<Vec<u8>, AllocError>
    ensures { IfOk result (λ body. body.items ≡ entities_text identifier.now date records.now) }
{
    let mut out = Writer::new(Vec::new(alloc));
    write_entities(&mut out, identifier, date, records)?;
    Ok(out.into_inner())
}

fn write_register(out: &mut Writer, agents: &[AgentLine], day: Day) -> Result<(), AllocError>
    ensures { WritesBehind result out.old out.new (data_tokens (register_data agents.now day)) }
{
    out.begin_object()?;
    write_items(out, "agents", agents)?;
    write_date(out, "day", day)?;
    out.end_object()
}

// The agents of the register, and its day.
fn register_body(alloc: Global, agents: &[AgentLine], day: Day) -> Result<Vec<u8>, AllocError>
    ensures { IfOk result (λ body. body.items ≡ register_text agents.now day) }
{
    let mut out = Writer::new(Vec::new(alloc));
    write_register(&mut out, agents, day)?;
    Ok(out.into_inner())
}

// The file as it was lodged, with room for the head of the reply.
fn file_body(alloc: Global, file: &[u8]) -> Result<Vec<u8>, AllocError>
    ensures { IfOk result (λ body. body.items ≡ file.now) }
{
    let mut body = Vec::with_capacity(alloc, file.len() + HEAD_ROOM)?;
    body.extend_from_slice(file)?;
    Ok(body)
}

/// The body of a reply.
#[tactic(auto, unfolding(crate::specs::Rendering::Bodies::lines_text, crate::specs::Rendering::Bodies::published_text))]
pub(crate) fn body_of(alloc: Global, reply: &DeskReply) -> Result<Vec<u8>, AllocError>
    ensures { IfOk result (λ body. body.items ≡ desk_body reply.now) }
{
    match reply {
        DeskReply::Filings(lines) => array_body(alloc, lines.as_slice()),
        DeskReply::File(file) => file_body(alloc, file.as_slice()),
        DeskReply::Published(outwards) => array_body(alloc, outwards.as_slice()),
        DeskReply::Snapshot { date, records } => snapshot_body(alloc, *date, records.as_slice()),
        DeskReply::Chains {
            entity,
            date,
            persons,
        } => chains_body(alloc, entity, *date, persons.as_slice()),
        DeskReply::Evidence {
            entity,
            date,
            evidence,
        } => evidence_body(alloc, entity, *date, evidence),
        DeskReply::Entities {
            identifier,
            date,
            records,
        } => entities_body(alloc, identifier, *date, records.as_slice()),
        DeskReply::Register { agents, day } => register_body(alloc, agents.as_slice(), *day),
        short => {
            let mut body = Vec::with_capacity(alloc, RESERVED)?;
            put_body(&mut body, short);
            Ok(body)
        }
    }
}

/// The body of a reply that isn't needed any more: a file's own bytes, which aren't copied.
pub(crate) fn into_body(alloc: Global, reply: DeskReply) -> Result<Vec<u8>, AllocError>
    ensures { IfOk result (λ body. body.items ≡ desk_body reply) }
{
    match reply {
        DeskReply::File(file) => Ok(file.into_vec()),
        other => body_of(alloc, &other),
    }
}
