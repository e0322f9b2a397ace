//! The persons behind an entity.

ghost use Rattle.bor_wire.specs.Rendering.Values.{person_data};

use crate::rendering::evidence::write_declaration;
use crate::rendering::shown::{Shown, write_number, write_text, write_text_or_null};
use bor_chains::PersonLine;
use json::Writer;
use std::alloc::AllocError;

impl Shown for PersonLine {
    ghost as_data = { person_data };

    fn write(&self, out: &mut Writer) -> Result<(), AllocError> {
        let node = &self.node;
        out.begin_object()?;
        write_declaration(out, node)?;
        write_number(out, "links", self.links)?;
        write_text_or_null(out, "name", &self.info.name)?;
        write_text(out, "record", node.rec.as_str())?;
        out.end_object()
    }
}
