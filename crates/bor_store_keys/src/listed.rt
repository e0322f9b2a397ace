//! The answers of lists in memory, where a report has had all that the viewer sees read.

ghost use Rattle.std.specs.Prelude.{◌≡◌};
ghost use Rattle.sqlite.specs.Held.{state};
ghost use Rattle.bor_records.specs.Links.Answers.{AreLinksInto, AreSame};
ghost use Rattle.bor_records.specs.Links.Shown.{info_of};
ghost use Rattle.bor_store_reads.specs.Answering.{Answers};
ghost use Rattle.bor_store_keys.specs.Finding.{Holds};
ghost use Rattle.bor_store_keys.specs.Viewed.{seen};

use crate::lookup::Lookup;
use crate::view::View;
use bor_chains::{LinkSource, ListSource};
use bor_records::links::{Link, Node, NodeInfo};
use bor_store_reads::ReadError;
use sqlite::Alter;

/// The data that a chain needs of a node. The lists are put back.
pub(crate) fn node_listed<S: Alter + Drop>(
    lookup: &mut Lookup<S>,
    view: &View,
    mut lists: ListSource,
    node: &Node,
) -> Result<Option<NodeInfo>, ReadError>
    requires { Holds (state S.Store lookup.old) (λ r. lists.shown ≡ seen view.now r) }
    ensures kept { lookup.new ≡ lookup.old }
    ensures answer { Answers (state S.Store lookup.old) (state S.Store lookup.new) result (λ r info.
        info ≡ info_of (seen view.now r) node.now) }
{
    let told = lists.node(node);
    lookup.put_lists(view, lists);
    Ok(told?)
}

/// All nodes that stand for one entity with a node. The lists are put back.
pub(crate) fn same_listed<S: Alter + Drop>(
    lookup: &mut Lookup<S>,
    view: &View,
    mut lists: ListSource,
    node: &Node,
) -> Result<Vec<Node>, ReadError>
    requires { Holds (state S.Store lookup.old) (λ r. lists.shown ≡ seen view.now r) }
    ensures kept { lookup.new ≡ lookup.old }
    ensures answer { Answers (state S.Store lookup.old) (state S.Store lookup.new) result
        (λ r nodes. AreSame (seen view.now r) node.now nodes.items) }
{
    let told = lists.same(node);
    lookup.put_lists(view, lists);
    Ok(told?)
}

/// The links into a node. The lists are put back.
pub(crate) fn links_listed<S: Alter + Drop>(
    lookup: &mut Lookup<S>,
    view: &View,
    mut lists: ListSource,
    node: &Node,
) -> Result<Vec<Link>, ReadError>
    requires { Holds (state S.Store lookup.old) (λ r. lists.shown ≡ seen view.now r) }
    ensures kept { lookup.new ≡ lookup.old }
    ensures answer { Answers (state S.Store lookup.old) (state S.Store lookup.new) result
        (λ r links. AreLinksInto (seen view.now r) node.now links.items) }
{
    let told = lists.links_into(node);
    lookup.put_lists(view, lists);
    Ok(told?)
}
