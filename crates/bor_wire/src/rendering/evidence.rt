//! Why the persons behind an entity are named.

ghost use Rattle.std.specs.Prelude.{◌≡◌};
ghost use Rattle.bor_wire.specs.Rendering.Values.{maybe_data, key_data, person_evidence_data, link_evidence_data, record_evidence_data};
ghost use Rattle.bor_wire.specs.Rendering.Parts.{WritesBehind, data_tokens, declaration_tokens};

use crate::rendering::records::{write_details, write_labels};
use crate::rendering::shown::{
    Shown, write_date, write_items, write_number, write_text, write_text_or_null,
};
use bor_chains::Node;
use bor_desk::{LinkEvidence, PersonEvidence, RecordEvidence};
use json::Writer;
use std::alloc::AllocError;

/// Writes the agent and the declaration of a record.
pub(crate) fn write_declaration(out: &mut Writer, node: &Node) -> Result<(), AllocError>
    ensures { WritesBehind result out.old out.new (declaration_tokens node.now) }
{
    write_text(out, "agent", node.agent.as_str())?;
    write_text(out, "declaration", node.declaration.as_str())
}

/// A record, by its key.
impl Shown for Node {
    ghost as_data = { key_data };

    fn write(&self, out: &mut Writer) -> Result<(), AllocError> {
        out.begin_object()?;
        write_declaration(out, self)?;
        write_text(out, "record", self.rec.as_str())?;
        out.end_object()
    }
}

impl Shown for PersonEvidence {
    ghost as_data = { person_evidence_data };

    fn write(&self, out: &mut Writer) -> Result<(), AllocError> {
        let node = &self.node;
        out.begin_object()?;
        write_declaration(out, node)?;
        out.key("first")?;
        self.first.write(out)?;
        write_number(out, "links", self.links)?;
        write_text_or_null(out, "name", &self.info.name)?;
        write_text(out, "record", node.rec.as_str())?;
        out.end_object()
    }
}

// Writes the record of the link that follows, or null where none does.
fn write_next(out: &mut Writer, next: &Option<Node>) -> Result<(), AllocError>
    ensures { WritesBehind result out.old out.new (data_tokens (maybe_data key_data next.now)) }
{
    match next {
        Some(node) => node.write(out),
        None => out.null(),
    }
}

impl Shown for LinkEvidence {
    ghost as_data = { link_evidence_data };

    fn write(&self, out: &mut Writer) -> Result<(), AllocError> {
        let node = &self.node;
        out.begin_object()?;
        write_declaration(out, node)?;
        out.key("next")?;
        write_next(out, &self.next)?;
        write_text(out, "record", node.rec.as_str())?;
        write_items(out, "same", self.same.as_slice())?;
        out.end_object()
    }
}

impl Shown for RecordEvidence {
    ghost as_data = { record_evidence_data };

    fn write(&self, out: &mut Writer) -> Result<(), AllocError> {
        let statement = &self.entry.statement;
        out.begin_object()?;
        write_text(out, "agent", self.agent.as_str())?;
        write_date(out, "date", statement.day)?;
        write_text(out, "declaration", statement.declaration.as_str())?;
        out.key("details")?;
        write_details(out, &statement.details)?;
        write_labels(out, &self.entry)?;
        out.end_object()
    }
}
