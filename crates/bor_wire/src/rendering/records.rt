//! Open records, as replies show them.

ghost use Rattle.std.specs.Prelude.{◌∷◌};
ghost use Rattle.json.specs.Token.{key};
ghost use Rattle.serde_json.specs.Data.{boolean};
ghost use Rattle.bor_wire.specs.Rendering.Values.{maybe_data, identifier_data, share_data, interest_data, details_data, entry_data};
ghost use Rattle.bor_wire.specs.Rendering.Parts.{WritesBehind, data_tokens, label_tokens};

use crate::rendering::shown::{
    Shown, write_date, write_items, write_number, write_text, write_text_or_null,
};
use bods_read::{Details, EntityKind, FreeText, Identifier, Interest, PersonKind};
use bor_records::Entry;
use bor_terms::{Ident, Span};
use json::Writer;
use std::alloc::AllocError;

impl Shown for Identifier {
    ghost as_data = { identifier_data };

    fn write(&self, out: &mut Writer) -> Result<(), AllocError> {
        out.begin_object()?;
        write_text(out, "id", self.id.as_str())?;
        write_text(out, "scheme", self.scheme.as_str())?;
        out.end_object()
    }
}

// Writes a member that is true or false.
fn write_flag(out: &mut Writer, name: &str, value: bool) -> Result<(), AllocError>
    ensures { WritesBehind result out.old out.new (key name.now ∷ data_tokens (boolean value)) }
{
    out.key(name)?;
    out.boolean(value)
}

// Writes a share in percent.
fn write_span(out: &mut Writer, share: Span) -> Result<(), AllocError>
    ensures { WritesBehind result out.old out.new (data_tokens (share_data share)) }
{
    out.begin_object()?;
    write_number(out, "high", u64::from(share.high()))?;
    write_flag(out, "highOpen", share.high_is_open())?;
    write_number(out, "low", u64::from(share.low()))?;
    write_flag(out, "lowOpen", share.low_is_open())?;
    out.end_object()
}

// Writes a share, or null where there is none.
fn write_share(out: &mut Writer, share: Option<Span>) -> Result<(), AllocError>
    ensures { WritesBehind result out.old out.new (data_tokens (maybe_data share_data share)) }
{
    match share {
        Some(share) => write_span(out, share),
        None => out.null(),
    }
}

impl Shown for Interest {
    ghost as_data = { interest_data };

    fn write(&self, out: &mut Writer) -> Result<(), AllocError> {
        out.begin_object()?;
        write_text(out, "directness", self.directness.as_str())?;
        out.key("share")?;
        write_share(out, self.share)?;
        write_text(out, "type", self.kind.as_str())?;
        out.end_object()
    }
}

fn write_entity(
    out: &mut Writer,
    kind: EntityKind,
    name: &Option<FreeText>,
    identifiers: &[Identifier],
) -> Result<(), AllocError>
    ensures { WritesBehind result out.old out.new
        (data_tokens (details_data (Details.Entity kind name.now identifiers.now))) }
{
    out.begin_object()?;
    write_items(out, "identifiers", identifiers)?;
    write_text(out, "kind", kind.as_str())?;
    write_text_or_null(out, "name", name)?;
    out.end_object()
}

fn write_person(
    out: &mut Writer,
    kind: PersonKind,
    name: &Option<FreeText>,
) -> Result<(), AllocError>
    ensures { WritesBehind result out.old out.new
        (data_tokens (details_data (Details.Person kind name.now))) }
{
    out.begin_object()?;
    write_text(out, "kind", kind.as_str())?;
    write_text_or_null(out, "name", name)?;
    out.end_object()
}

fn write_relationship(
    out: &mut Writer,
    subject: &Option<Ident>,
    party: &Option<Ident>,
    interests: &[Interest],
) -> Result<(), AllocError>
    ensures { WritesBehind result out.old out.new
        (data_tokens (details_data (Details.Relationship subject.now party.now interests.now))) }
{
    out.begin_object()?;
    write_text_or_null(out, "interestedParty", party)?;
    write_items(out, "interests", interests)?;
    write_text_or_null(out, "subject", subject)?;
    out.end_object()
}

/// Writes what a statement says of its record.
pub(crate) fn write_details(out: &mut Writer, details: &Details) -> Result<(), AllocError>
    ensures { WritesBehind result out.old out.new (data_tokens (details_data details.now)) }
{
    match details {
        Details::Entity {
            kind,
            name,
            identifiers,
        } => write_entity(out, *kind, name, identifiers.as_slice()),
        Details::Person { kind, name } => write_person(out, *kind, name),
        Details::Relationship {
            subject,
            party,
            interests,
        } => write_relationship(out, subject, party, interests.as_slice()),
    }
}

/// Writes the texts that an open record ends with.
pub(crate) fn write_labels(out: &mut Writer, entry: &Entry) -> Result<(), AllocError>
    ensures { WritesBehind result out.old out.new (label_tokens entry.now) }
{
    let statement = &entry.statement;
    write_text(out, "id", statement.id.as_str())?;
    write_text(out, "record", statement.rec.as_str())?;
    write_text(out, "status", entry.status.as_str())?;
    write_text(out, "type", statement.record_type().as_str())
}

impl Shown for Entry {
    ghost as_data = { entry_data };

    fn write(&self, out: &mut Writer) -> Result<(), AllocError> {
        let statement = &self.statement;
        out.begin_object()?;
        write_date(out, "date", statement.day)?;
        out.key("details")?;
        write_details(out, &statement.details)?;
        write_labels(out, self)?;
        out.end_object()
    }
}
