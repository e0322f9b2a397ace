//! The links that a walk crosses on one level.

ghost use Rattle.std.specs.Prelude.{◌≡◌, ◌≤◌, ◌++◌, ◌∷◌, [], OnOk, IfOk, IfErr, length};
ghost use Rattle.std.specs.List.Sorted.{IsPermutation, IsSorted};
ghost use Rattle.bor_records.specs.Promises.{Kept, Promised};
ghost use Rattle.bor_records.specs.Links.Growth.{Grown};
ghost use Rattle.bor_chains.specs.Promises.{WalkAccounts};
ghost use Rattle.bor_chains.specs.Crossings.{crossing_cmp, counted_at, IsCountedOf, IsCrossingInto, AreCrossings};

use crate::fault::WalkFault;
use crate::marks::{Mark, Marked, Marks};
use crate::source::LinkSource;
use bor_records::links::Link;
use std::alloc::{AllocError, Global};

/// A link that counts, with the place of the mark that it leads down to. They are ordered by their
/// links.
#[derive(Drop, PartialEq, Eq, PartialOrd, Ord)]
pub(crate) struct Crossing {
    pub(crate) link: Link,
    pub(crate) below: usize,
}

fn push(crossings: &mut Vec<Crossing>, crossing: Crossing) -> Result<(), AllocError>
    ensures { OnOk result (crossings.new.items ≡ crossings.old.items ++ crossing ∷ []) }
{
    Ok(crossings.push(crossing)?)
}

// Puts a link at the end with a mark's place, where it counts at the mark.
fn push_one(
    crossings: &mut Vec<Crossing>,
    link: Link,
    mark: Mark,
    below: usize,
) -> Result<(), AllocError>
    ensures { OnOk result (crossings.new.items
        ≡ crossings.old.items ++ counted_at mark below link) }
{
    if mark.counts(&link) {
        push(crossings, Crossing { link, below })
    } else {
        Ok(())
    }
}

// Puts those of the links that count at a mark at the end, with the mark's place.
fn push_counted(
    crossings: &mut Vec<Crossing>,
    links: Vec<Link>,
    mark: Mark,
    below: usize,
) -> Result<(), AllocError>
    ensures { OnOk result (Grown (IsCountedOf links.items mark below)
        crossings.old.items crossings.new.items) }
{
    let mut left = links;
    while let Some(link) = left.pop() {
        push_one(crossings, link, mark, below)?;
    }
    Ok(())
}

// Puts the links that count into a marked node at the end, with the mark's place.
fn cross_one<S: LinkSource>(
    source: &mut S,
    crossings: &mut Vec<Crossing>,
    marked: &Marked,
    below: usize,
) -> Result<(), WalkFault<S::Fault>>
    ensures same_reference { S.lender source.new ≡ S.lender source.old }
    ensures kept { Kept S.meaning source.old source.new }
    ensures accounted { WalkAccounts S.meaning source.old source.new result }
    ensures crossed { OnOk result (Promised S.meaning source.old source.new (λ m.
        Grown (IsCrossingInto (S.shown m) marked.now below)
        crossings.old.items crossings.new.items)) }
{
    if marked.mark.is_holder() {
        return Ok(());
    }
    let links = match source.links_into(&marked.node) {
        Ok(links) => links,
        Err(fault) => return Err(WalkFault::Source(fault)),
    };
    push_counted(crossings, links, marked.mark, below)?;
    Ok(())
}

/// The links that count into the marks from `start` on, each with the place of its mark.
pub(crate) fn crossings_from<S: LinkSource>(
    alloc: Global,
    source: &mut S,
    marks: &Marks,
    start: usize,
) -> Result<Vec<Crossing>, WalkFault<S::Fault>>
    requires { start ≤ length marks.now }
    ensures same_reference { S.lender source.new ≡ S.lender source.old }
    ensures kept { Kept S.meaning source.old source.new }
    ensures accounted { WalkAccounts S.meaning source.old source.new result }
    ensures crossed { IfOk result (λ crossings.
        Promised S.meaning source.old source.new (λ m.
        AreCrossings (S.shown m) marks.now start (length marks.now) crossings.items)) }
{
    let mut crossings = Vec::new(alloc);
    for place in start..marks.len() {
        cross_one(source, &mut crossings, marks.at(place), place)?;
    }
    Ok(crossings)
}

/// The crossings in their order. Links mostly come in a few runs that are in order, which this sort
/// joins.
pub(crate) fn in_order(crossings: Vec<Crossing>) -> Result<Vec<Crossing>, AllocError>
    ensures same { IfOk result (λ out. IsPermutation crossings.items out.items) }
    ensures sorted { IfOk result (λ out. IsSorted crossing_cmp out.items) }
{
    let mut out = crossings;
    out.sort()?;
    Ok(out)
}
