//! The rows that a viewer sees, and what is published.

ghost use Rattle.std.specs.Prelude.{◌≡◌};
ghost use Rattle.bor_register.specs.Publication.{published};
ghost use Rattle.bor_register.specs.Rows.{visible};
ghost use Rattle.bor_store_reads.specs.Answering.{ReadsIn};

use crate::fault::ReadError;
use crate::register::read_day;
use crate::tables::members;
use bor_records::Row;
use bor_register::{Outward, all_published, all_visible};
use bor_terms::AgentName;
use sqlite::{Alter, Connection};
use std::alloc::Global;

/// The rows of all agents that the viewer sees: of its own live filings, and of the others'
/// published ones. They stand by agent, then in order of acceptance and of place. A viewer that
/// isn't enrolled sees what is published.
pub fn read_visible<S: Alter>(
    conn: &mut Connection<S>,
    alloc: Global,
    viewer: &AgentName,
) -> Result<Vec<Row>, ReadError>
    ensures { ReadsIn S.Store conn.old conn.new result (λ r rows.
        rows.items ≡ visible viewer.now r.day r.members) }
{
    let day = read_day(conn, alloc)?;
    let members = members(conn, alloc)?;
    Ok(all_visible(alloc, viewer, day, members.as_slice())?)
}

/// The outward forms of the published filings, which all see: by agent, those of an agent in order
/// of acceptance.
pub fn read_published<S: Alter>(
    conn: &mut Connection<S>,
    alloc: Global,
) -> Result<Vec<Outward>, ReadError>
    ensures { ReadsIn S.Store conn.old conn.new result (λ r outwards.
        outwards.items ≡ published r.day r.members) }
{
    let day = read_day(conn, alloc)?;
    let members = members(conn, alloc)?;
    Ok(all_published(alloc, members.as_slice(), day)?)
}
