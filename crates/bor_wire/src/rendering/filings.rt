//! Filings, as their agent, as all and as the registrar see them.

ghost use Rattle.bor_wire.specs.Rendering.Values.{agent_line_data, line_data, statement_data, outward_data};

use crate::rendering::shown::{Shown, write_date, write_items, write_number, write_text};
use bods_read::Statement;
use bor_desk::operations::{AgentLine, FilingLine, Outward};
use bor_desk::settled_word;
use json::Writer;
use std::alloc::AllocError;

impl Shown for FilingLine {
    ghost as_data = { line_data };

    fn write(&self, out: &mut Writer) -> Result<(), AllocError> {
        out.begin_object()?;
        write_date(out, "due", self.due)?;
        write_number(out, "filing", u64::from(self.number))?;
        write_text(out, "key", self.key.as_str())?;
        write_text(out, "state", self.state.as_str())?;
        out.end_object()
    }
}

impl Shown for Statement {
    ghost as_data = { statement_data };

    fn write(&self, out: &mut Writer) -> Result<(), AllocError> {
        out.begin_object()?;
        write_date(out, "date", self.day)?;
        write_text(out, "declaration", self.declaration.as_str())?;
        write_text(out, "id", self.id.as_str())?;
        write_text(out, "record", self.rec.as_str())?;
        write_text(out, "status", settled_word(self.status))?;
        write_text(out, "type", self.record_type().as_str())?;
        out.end_object()
    }
}

impl Shown for Outward {
    ghost as_data = { outward_data };

    fn write(&self, out: &mut Writer) -> Result<(), AllocError> {
        out.begin_object()?;
        write_text(out, "agent", self.agent.as_str())?;
        write_date(out, "due", self.due)?;
        write_items(out, "statements", self.statements.as_slice())?;
        out.end_object()
    }
}

impl Shown for AgentLine {
    ghost as_data = { agent_line_data };

    fn write(&self, out: &mut Writer) -> Result<(), AllocError> {
        out.begin_object()?;
        write_text(out, "agent", self.agent.as_str())?;
        out.key("published")?;
        out.u64(self.published as u64)?;
        out.end_object()
    }
}
