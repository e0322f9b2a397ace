//! Which nodes stand for one entity with a node, and which are one alias away from it.

ghost use Rattle.bor_records.specs.Links.Answers.{AreAliases, AreSame};
ghost use Rattle.bor_register.specs.Seen.{seen_at};
ghost use Rattle.bor_store_reads.specs.Answering.{ReadsIn};
ghost use Rattle.bor_store_keys.specs.Viewed.{seen};

use crate::listed::same_listed;
use crate::lookup::Lookup;
use crate::seen::Seen;
use crate::view::View;
use crate::views::view_of;
use bor_records::links::{Node, aliases, same};
use bor_store_reads::ReadError;
use bor_terms::{AgentName, Day};
use sqlite::Alter;
use std::alloc::Global;

// The nodes one alias away from a node, each once.
fn aliases_in<S: Alter + Drop>(
    lookup: &mut Lookup<S>,
    alloc: Global,
    view: &View,
    node: &Node,
) -> Result<Vec<Node>, ReadError>
    ensures { ReadsIn S.Store lookup.old lookup.new result (λ r nodes.
        AreAliases (seen view.now r) node.now nodes.items) }
{
    let mut seen = Seen {
        lookup,
        alloc,
        view,
    };
    aliases(&mut seen, alloc, node)
}

/// The nodes one alias away from a node on a day, of what the viewer sees, each once and in any
/// order; none where the node isn't an open entity.
pub fn read_aliases<S: Alter + Drop>(
    lookup: &mut Lookup<S>,
    alloc: Global,
    viewer: &AgentName,
    day: Day,
    node: &Node,
) -> Result<Vec<Node>, ReadError>
    ensures { ReadsIn S.Store lookup.old lookup.new result (λ r nodes.
        AreAliases (seen_at viewer.now day r) node.now nodes.items) }
{
    let view = view_of(lookup, alloc, viewer, day)?;
    aliases_in(lookup, alloc, &view, node)
}

// All nodes that stand for one entity with a node, each once, read by key.
fn same_in<S: Alter + Drop>(
    lookup: &mut Lookup<S>,
    alloc: Global,
    view: &View,
    node: &Node,
) -> Result<Vec<Node>, ReadError>
    ensures { ReadsIn S.Store lookup.old lookup.new result (λ r nodes.
        AreSame (seen view.now r) node.now nodes.items) }
{
    let mut seen = Seen {
        lookup,
        alloc,
        view,
    };
    same(&mut seen, alloc, node)
}

// All nodes that stand for one entity with a node, of the lists where all was read.
fn same_told<S: Alter + Drop>(
    lookup: &mut Lookup<S>,
    alloc: Global,
    view: &View,
    node: &Node,
) -> Result<Vec<Node>, ReadError>
    ensures { ReadsIn S.Store lookup.old lookup.new result (λ r nodes.
        AreSame (seen view.now r) node.now nodes.items) }
{
    lookup.list_where_many(alloc, view)?;
    match lookup.take_lists(view) {
        Some(lists) => same_listed(lookup, view, lists, node),
        None => same_in(lookup, alloc, view, node),
    }
}

/// All nodes that stand for one entity with a node on a day, of what the viewer sees, by finitely
/// many aliases, each once and in any order; the node is one of them, whether or not it is open. An
/// identifier that they share is looked up once.
pub fn read_same<S: Alter + Drop>(
    lookup: &mut Lookup<S>,
    alloc: Global,
    viewer: &AgentName,
    day: Day,
    node: &Node,
) -> Result<Vec<Node>, ReadError>
    ensures { ReadsIn S.Store lookup.old lookup.new result (λ r nodes.
        AreSame (seen_at viewer.now day r) node.now nodes.items) }
{
    let view = view_of(lookup, alloc, viewer, day)?;
    same_told(lookup, alloc, &view, node)
}
