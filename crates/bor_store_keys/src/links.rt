//! The links into a node.

ghost use Rattle.std.specs.Prelude.{◌≡◌};
ghost use Rattle.bor_records.specs.Links.Answers.{AreLinksInto};
ghost use Rattle.bor_records.specs.Links.Candidates.{stated_at};
ghost use Rattle.bor_register.specs.Seen.{seen_at};
ghost use Rattle.bor_store_reads.specs.Answering.{ReadsIn};
ghost use Rattle.bor_store_keys.specs.Viewed.{rows_seen, seen};

use crate::listed::links_listed;
use crate::lookup::Lookup;
use crate::opened::open_row;
use crate::seen::Seen;
use crate::view::View;
use crate::views::view_of;
use bor_records::links::{Link, Node, link_stated, links_into};
use bor_store_reads::ReadError;
use bor_terms::{AgentName, Day};
use sqlite::Alter;
use std::alloc::Global;

/// The link into `subject` that the open statement of a record states, whether or not its ends are
/// open.
pub(crate) fn stated_link<S: Alter + Drop>(
    lookup: &mut Lookup<S>,
    alloc: Global,
    view: &View,
    subject: &Node,
    rec: &Node,
) -> Result<Option<Link>, ReadError>
    ensures { ReadsIn S.Store lookup.old lookup.new result (λ r link.
        link ≡ stated_at view.now.day (rows_seen view.now r) subject.now rec.now) }
{
    match open_row(lookup, alloc, view, rec)? {
        Some(row) => {
            let details = &row.statement.details;
            Ok(link_stated(alloc, subject, rec, details, view.day)?)
        }
        None => Ok(None),
    }
}

// The links into a node, read by key.
fn links_in<S: Alter + Drop>(
    lookup: &mut Lookup<S>,
    alloc: Global,
    view: &View,
    node: &Node,
) -> Result<Vec<Link>, ReadError>
    ensures { ReadsIn S.Store lookup.old lookup.new result (λ r links.
        AreLinksInto (seen view.now r) node.now links.items) }
{
    let mut seen = Seen {
        lookup,
        alloc,
        view,
    };
    links_into(&mut seen, alloc, node)
}

// The links into a node, of the lists where all was read.
fn links_told<S: Alter + Drop>(
    lookup: &mut Lookup<S>,
    alloc: Global,
    view: &View,
    node: &Node,
) -> Result<Vec<Link>, ReadError>
    ensures { ReadsIn S.Store lookup.old lookup.new result (λ r links.
        AreLinksInto (seen view.now r) node.now links.items) }
{
    lookup.list_where_many(alloc, view)?;
    match lookup.take_lists(view) {
        Some(lists) => links_listed(lookup, view, lists, node),
        None => links_in(lookup, alloc, view, node),
    }
}

/// The links into a node on a day, of what the viewer sees: of each open relationship with this
/// subject whose two ends are open, each once and in any order.
pub fn read_links_into<S: Alter + Drop>(
    lookup: &mut Lookup<S>,
    alloc: Global,
    viewer: &AgentName,
    day: Day,
    node: &Node,
) -> Result<Vec<Link>, ReadError>
    ensures { ReadsIn S.Store lookup.old lookup.new result (λ r links.
        AreLinksInto (seen_at viewer.now day r) node.now links.items) }
{
    let view = view_of(lookup, alloc, viewer, day)?;
    links_told(lookup, alloc, &view, node)
}
