//! Maps beside the lists of nodes and of links, so that a look-up takes no scan.

ghost use Rattle.std.specs.Prelude.{◌≡◌, ◌<◌, ℕ, [], Option, Some, IfOk, OnOk, Contains, length, option_map};
ghost use Rattle.std.specs.List.{slice_get};
ghost use Rattle.std.specs.BTreeMap.{get};
ghost use Rattle.bor_records.specs.declared.links.node.Link.{Link};
ghost use Rattle.bor_records.specs.Links.Nodes.{node_cmp};
ghost use Rattle.bor_records.specs.Links.Answers.{only_into};
ghost use Rattle.bor_chains.specs.Tables.{ArePlaces, AreInto, GrowAt, IsBelow, items_at, items_of, links_at};

use bor_records::links::{Link, Node, OpenNode};
use std::alloc::{AllocError, Global};
use std::collections::BTreeMap;

/// The place of each node, the first where it is listed again.
pub(crate) fn places_of(
    alloc: Global,
    nodes: &[OpenNode],
) -> Result<BTreeMap<Node, usize>, AllocError>
    ensures { IfOk result (λ places. ArePlaces nodes.now (get node_cmp places)) }
{
    let mut places = BTreeMap::new(alloc);
    let mut next = nodes.len();
    while next > 0 {
        next -= 1;
        let node = nodes[next].node.copy(alloc)?;
        places.insert(node, next)?;
    }
    Ok(places)
}

// So many lists with nothing in them.
fn empty_lists(alloc: Global, count: usize) -> Result<Vec<Vec<usize>>, AllocError>
    ensures len { IfOk result (λ lists. length lists.items ≡ count) }
    ensures empty { IfOk result (λ lists.
        (place : Option ℕ) → items_at (λ v. v.items) lists.items place ≡ []) }
{
    let mut lists = Vec::with_capacity(alloc, count)?;
    for _ in 0..count {
        lists.push(Vec::new(alloc))?;
    }
    Ok(lists)
}

// Puts the place of a link into the list at a place, where there is one.
fn put(lists: &mut Vec<Vec<usize>>, place: Option<&usize>, link: usize) -> Result<(), AllocError>
    ensures len { length lists.new.items ≡ length lists.old.items }
    ensures grown { OnOk result (GrowAt (λ v. v.items) lists.old.items lists.new.items link) }
    ensures there { OnOk result ((i : ℕ) → option_map (λ x. x.now) place.entry ≡ Some i
        → i < length lists.old.items →
        Contains (items_at (λ v. v.items) lists.new.items (Some i)) link) }
{
    match place {
        Some(place) if *place < lists.len() => {
            lists[*place].push(link)?;
            Ok(())
        }
        _ => Ok(()),
    }
}

/// By the place of each node the places of the links into it, each once and in their order.
pub(crate) fn by_subject(
    alloc: Global,
    places: &BTreeMap<Node, usize>,
    count: usize,
    links: &[Link],
) -> Result<Vec<Vec<usize>>, AllocError>
    requires { (l : Link) → Contains links.now l
        → IsBelow count (get node_cmp places.now l.subject) }
    ensures { IfOk result (λ into.
        AreInto (length links.now) links.now (λ n.
        items_at (λ v. v.items) into.items (get node_cmp places.now n))) }
{
    let mut into = empty_lists(alloc, count)?;
    for (place, link) in links.iter().enumerate() {
        put(&mut into, places.get(&link.subject), place)?;
    }
    Ok(into)
}

/// The list at the place of a node.
pub(crate) fn list_at<'a>(
    lists: &'a [Vec<usize>],
    places: &BTreeMap<Node, usize>,
    node: &Node,
) -> Option<&'a Vec<usize>>
    ensures { items_of (λ v. v.now.items) result
        ≡ items_at (λ v. v.items) lists.now (get node_cmp places.now node.now) }
{
    match places.get(node) {
        Some(place) => lists.get(*place),
        None => None,
    }
}

// The link at a place, where it has this subject.
fn link_at(
    alloc: Global,
    links: &[Link],
    subject: &Node,
    place: usize,
) -> Result<Option<Link>, AllocError>
    ensures { IfOk result (λ link. link ≡ only_into subject.now (slice_get links.now place)) }
{
    match links.get(place) {
        Some(link) if link.subject == *subject => Ok(Some(link.copy(alloc)?)),
        _ => Ok(None),
    }
}

/// Of the links at these places those with this subject.
pub(crate) fn links_at(
    alloc: Global,
    links: &[Link],
    subject: &Node,
    places: &[usize],
) -> Result<Vec<Link>, AllocError>
    ensures { IfOk result (λ out. out.items ≡ links_at links.now subject.now places.now) }
{
    let mut out = Vec::new(alloc);
    for place in places {
        if let Some(link) = link_at(alloc, links, subject, *place)? {
            out.push(link)?;
        }
    }
    Ok(out)
}
