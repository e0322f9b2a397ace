//! Why the persons of an entity's chains are named.

ghost use Rattle.std.specs.Prelude.{◌≡◌, ◌≢◌, [], OnOk, IfOk, IfErr};
ghost use Rattle.std.specs.List.Sorted.{IsPermutation, IsSorted};
ghost use Rattle.std.specs.List.Retain.{IsFiltered, DiffersFromLast};
ghost use Rattle.bor_records.specs.Promises.{Kept, Promised};
ghost use Rattle.bor_records.specs.Links.Shown.{IsEntity};
ghost use Rattle.bor_chains.specs.Lines.{same_evidence, evidence_cmp, same_in_tree, tree_cmp};
ghost use Rattle.bor_chains.specs.Evidence.{AreEvidenced};
ghost use Rattle.bor_chains.specs.Promises.{OnNoEntity, ReportAccounts};

use crate::branches::branches_of;
use crate::fault::ChainFault;
use crate::report::find_entity;
use crate::source::LinkSource;
use crate::trail::trail_from;
use crate::tree::{Evidence, EvidenceLink, EvidencePerson};
use bor_records::links::Node;
use bor_terms::Listed;
use std::alloc::Global;

/// The persons from whom a chain of majority stakes and a last holding leads to the target (UK
/// Companies Act 2006, Schedule 1A, paragraph 18), each once, by agent, declaration and record, and
/// one such chain of each: of those with the fewest links the least, where links are compared from
/// the person's end on. So it is told by what is shown alone, and not by the order in which a
/// source lists links.
///
/// In these chains each link has one that follows it, or is the last. So they are a tree, and a
/// person's chain is read off it, from the person's first link on. The tree has each link once,
/// however many persons stand behind it.
///
/// The target and the faults are those of `persons_of`, whose report has the same persons.
pub fn evidence_of<S: LinkSource>(
    alloc: Global,
    source: &mut S,
    target: &Node,
) -> Result<Evidence, ChainFault<S::Fault>>
    // As for `persons_of`.
    ensures same_reference { S.lender source.new ≡ S.lender source.old }
    ensures kept { Kept S.meaning source.old source.new }
    ensures accounted { ReportAccounts S.meaning source.old source.new result }

    // The report, and when there is none.
    ensures evidenced { Promised S.meaning source.old source.new (λ m.
        IfOk result (λ tree. AreEvidenced (S.shown m) target.now tree)) }
    ensures entity { Promised S.meaning source.old source.new (λ m.
        OnOk result (IsEntity (S.shown m) target.now)) }
    ensures no_entity { Promised S.meaning source.old source.new (λ m.
        IfErr result (λ f. OnNoEntity f (IsEntity (S.shown m) target.now → ⊥))) }
{
    find_entity(source, target)?;
    let trail = trail_from(alloc, source, target)?;
    let found = branches_of(alloc, trail.steps)?;
    let persons = each_person_once(persons_in_order(found.persons));
    let links = each_link_once(links_in_order(found.links));
    Ok(Evidence {
        persons: Listed::new(persons),
        links: Listed::new(links),
    })
}

// The persons in order.
fn persons_in_order(persons: Vec<EvidencePerson>) -> Vec<EvidencePerson>
    ensures same { IsPermutation persons.items result.items }
    ensures sorted { IsSorted evidence_cmp result.items }
{
    let mut out = persons;
    out.sort_unstable();
    out
}

// Of persons in order one of each node.
fn each_person_once(persons: Vec<EvidencePerson>) -> Vec<EvidencePerson>
    ensures { IsFiltered (DiffersFromLast same_evidence) [] persons.items result.items }
{
    let mut out = persons;
    out.dedup();
    out
}

// The links in order.
fn links_in_order(links: Vec<EvidenceLink>) -> Vec<EvidenceLink>
    ensures same { IsPermutation links.items result.items }
    ensures sorted { IsSorted tree_cmp result.items }
{
    let mut out = links;
    out.sort_unstable();
    out
}

// Of links in order each once.
fn each_link_once(links: Vec<EvidenceLink>) -> Vec<EvidenceLink>
    ensures { IsFiltered (DiffersFromLast same_in_tree) [] links.items result.items }
{
    let mut out = links;
    out.dedup();
    out
}
