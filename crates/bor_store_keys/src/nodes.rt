//! A record as a node.

ghost use Rattle.std.specs.Prelude.{◌≡◌, IfOk, option_and_then, option_map};
ghost use Rattle.sqlite.specs.Held.{state};
ghost use Rattle.bor_records.specs.Links.ByKey.{node_at};
ghost use Rattle.bor_records.specs.Links.Rows.{is_some_info, node_in};
ghost use Rattle.bor_records.specs.Links.Series.{open_at};
ghost use Rattle.bor_records.specs.Links.Shown.{entity_identifiers, identifiers_in, info_of};
ghost use Rattle.bor_register.specs.Seen.{seen_at};
ghost use Rattle.bor_store_reads.specs.Answering.{ReadsIn};
ghost use Rattle.bor_store_keys.specs.Finding.{Holds};
ghost use Rattle.bor_store_keys.specs.Viewed.{rows_seen, seen};

use crate::listed::node_listed;
use crate::lookup::Lookup;
use crate::opened::open_row;
use crate::view::View;
use crate::views::view_of;
use bods_read::Identifier;
use bor_records::Row;
use bor_records::links::{Node, NodeInfo, OpenNode, node_of};
use bor_store_reads::ReadError;
use bor_terms::{AgentName, Day};
use sqlite::Alter;
use std::alloc::{AllocError, Global};
use std::mem::drop;

// The node that a row makes.
fn node_made(alloc: Global, row: &Option<Row>) -> Result<Option<OpenNode>, AllocError>
    ensures { IfOk result (λ one. one ≡ option_and_then node_in row.now) }
{
    match row {
        Some(row) => node_of(alloc, row),
        None => Ok(None),
    }
}

// Notes the row that a record shows; nothing where memory is wanting.
fn note_shown<S: Alter + Drop>(
    lookup: &mut Lookup<S>,
    alloc: Global,
    view: &View,
    node: &Node,
    row: Option<Row>,
)
    requires { Holds (state S.Store lookup.old) (λ r.
        row ≡ open_at view.now.day node.now (rows_seen view.now r)) }
    ensures { lookup.new ≡ lookup.old }
{
    match node.copy(alloc) {
        Ok(node) => lookup.note_row(alloc, view, node, row),
        Err(_) => drop(row),
    }
}

// A node with its identifiers, as the tables have it.
#[tactic(auto, using(bor_store_reads::proofs::Reading::read_fails, bor_store_reads::proofs::Reading::read_wants, crate::proofs::Holding::read_left))]
fn node_read<S: Alter + Drop>(
    lookup: &mut Lookup<S>,
    alloc: Global,
    view: &View,
    node: &Node,
) -> Result<Option<OpenNode>, ReadError>
    ensures { ReadsIn S.Store lookup.old lookup.new result (λ r one.
        one ≡ node_at view.now.day node.now (rows_seen view.now r)) }
{
    let row = open_row(lookup, alloc, view, node)?;
    let made = node_made(alloc, &row);
    note_shown(lookup, alloc, view, node, row);
    let one = made?;
    Ok(one)
}

// The same, which is read of the tables once.
fn node_in<S: Alter + Drop>(
    lookup: &mut Lookup<S>,
    alloc: Global,
    view: &View,
    node: &Node,
) -> Result<Option<OpenNode>, ReadError>
    ensures { ReadsIn S.Store lookup.old lookup.new result (λ r one.
        one ≡ node_at view.now.day node.now (rows_seen view.now r)) }
{
    match lookup.node(alloc, view, node)? {
        Some(one) => Ok(one),
        None => node_read(lookup, alloc, view, node),
    }
}

fn identifiers_of(one: Option<OpenNode>) -> Option<Vec<Identifier>>
    ensures { option_map (λ i. i.items) result ≡ option_and_then entity_identifiers one }
{
    match one {
        Some(one) if one.info.is_entity() => Some(one.identifiers.into_vec()),
        _ => None,
    }
}

/// The identifiers of a record that is an open entity; `None` where it isn't one. They are read of
/// the tables once.
pub(crate) fn identifiers_in<S: Alter + Drop>(
    lookup: &mut Lookup<S>,
    alloc: Global,
    view: &View,
    node: &Node,
) -> Result<Option<Vec<Identifier>>, ReadError>
    ensures { ReadsIn S.Store lookup.old lookup.new result (λ r found.
        option_map (λ i. i.items) found ≡ identifiers_in (seen view.now r).nodes node.now) }
{
    Ok(identifiers_of(node_in(lookup, alloc, view, node)?))
}

// The data that a chain needs of a node, as the tables have it.
fn info_read<S: Alter + Drop>(
    lookup: &mut Lookup<S>,
    alloc: Global,
    view: &View,
    node: &Node,
) -> Result<Option<NodeInfo>, ReadError>
    ensures { ReadsIn S.Store lookup.old lookup.new result (λ r info.
        info ≡ info_of (seen view.now r) node.now) }
{
    match node_read(lookup, alloc, view, node)? {
        Some(one) => Ok(Some(one.info)),
        None => Ok(None),
    }
}

// The data that a chain needs of a node, which is read of the tables once.
fn info_in<S: Alter + Drop>(
    lookup: &mut Lookup<S>,
    alloc: Global,
    view: &View,
    node: &Node,
) -> Result<Option<NodeInfo>, ReadError>
    ensures { ReadsIn S.Store lookup.old lookup.new result (λ r info.
        info ≡ info_of (seen view.now r) node.now) }
{
    match lookup.info(alloc, view, node)? {
        Some(info) => Ok(info),
        None => info_read(lookup, alloc, view, node),
    }
}

/// Whether the record is an open entity or person.
pub(crate) fn is_node<S: Alter + Drop>(
    lookup: &mut Lookup<S>,
    alloc: Global,
    view: &View,
    node: &Node,
) -> Result<bool, ReadError>
    ensures { ReadsIn S.Store lookup.old lookup.new result (λ r is.
        is ≡ is_some_info (info_of (seen view.now r) node.now)) }
{
    Ok(info_in(lookup, alloc, view, node)?.is_some())
}

// The data that a chain needs of a node, which is read of the tables once, or of the lists where
// all was read.
fn info_told<S: Alter + Drop>(
    lookup: &mut Lookup<S>,
    alloc: Global,
    view: &View,
    node: &Node,
) -> Result<Option<NodeInfo>, ReadError>
    ensures { ReadsIn S.Store lookup.old lookup.new result (λ r info.
        info ≡ info_of (seen view.now r) node.now) }
{
    if let Some(info) = lookup.info(alloc, view, node)? {
        return Ok(info);
    }
    lookup.list_where_many(alloc, view)?;
    match lookup.take_lists(view) {
        Some(lists) => node_listed(lookup, view, lists, node),
        None => info_read(lookup, alloc, view, node),
    }
}

/// The data that a chain needs of a node on a day, of what the viewer sees; `None` where no open
/// record of an entity or a person is there.
pub fn read_node<S: Alter + Drop>(
    lookup: &mut Lookup<S>,
    alloc: Global,
    viewer: &AgentName,
    day: Day,
    node: &Node,
) -> Result<Option<NodeInfo>, ReadError>
    ensures { ReadsIn S.Store lookup.old lookup.new result (λ r info.
        info ≡ info_of (seen_at viewer.now day r) node.now) }
{
    let view = view_of(lookup, alloc, viewer, day)?;
    info_told(lookup, alloc, &view, node)
}
