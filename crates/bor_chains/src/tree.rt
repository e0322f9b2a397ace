//! Evidence: the links by which persons are named, as a tree.

ghost use Rattle.std.specs.Prelude.{◌≡◌, Some, refl};
ghost use Rattle.std.specs.Cmp.{partial_equiv_from_equiv};
ghost use Rattle.bor_records.specs.Links.Nodes.{link_record};
ghost use Rattle.bor_chains.specs.Lines.{reading_cmp, same_evidence, evidence_cmp, evidence_equiv, evidence_po, evidence_total, evidence_ties, same_in_tree, tree_cmp, tree_equiv, tree_po, tree_total};

use crate::line::reading_cmp;
use bor_records::links::{Link, Node, PersonInfo};
use bor_terms::Listed;
use std::cmp::Ordering;

/// Why the persons of a report are named. A person's chain is read off the links: it begins with
/// the person's first one, and after each comes the one that follows it, up to one that none
/// follows.
#[derive(Drop)]
pub struct Evidence {
    /// The persons, by agent, declaration and record.
    pub persons: Listed<EvidencePerson>,
    /// Each link of their chains once, by the agent, declaration and record of its record.
    pub links: Listed<EvidenceLink>,
}

/// A person of a report, with where the reason begins.
#[derive(Drop)]
pub struct EvidencePerson {
    /// The record of the person.
    pub node: Node,
    /// What is shown of the person.
    pub info: PersonInfo,
    /// The first link of the person's chain: of the chains from the person that have the fewest
    /// links the least, link by link from the person's end on.
    pub first: Link,
    /// The number of links of that chain.
    pub links: u64,
}

/// A link of these chains.
#[derive(Drop)]
pub struct EvidenceLink {
    /// The link.
    pub link: Link,
    /// The link that follows it in each chain that has it; `None` where it is the last.
    pub next: Option<Link>,
}

/// Two persons are compared by their nodes alone: in one tree a node stands once.
impl PartialEq for EvidencePerson {
    ghost eq = { same_evidence };

    ghost laws = { partial_equiv_from_equiv evidence_equiv };

    fn eq(&self, other: &EvidencePerson) -> bool {
        self.node == other.node
    }
}

impl Eq for EvidencePerson {
    ghost laws = { evidence_equiv };
}

impl PartialOrd for EvidencePerson {
    ghost partial_cmp = { λ x y. Some (evidence_cmp x y) };

    ghost laws = { evidence_po };

    fn partial_cmp(&self, other: &EvidencePerson) -> Option<Ordering> {
        Some(self.cmp(other))
    }
}

/// They are ordered as the lines of a report.
impl Ord for EvidencePerson {
    ghost cmp = { evidence_cmp };

    ghost total = { evidence_total };

    ghost matches_partial_cmp = { λ x y. refl };

    ghost matches_eq = { evidence_ties };

    fn cmp(&self, other: &EvidencePerson) -> Ordering {
        reading_cmp(&self.node, &other.node)
    }
}

// Two links by their records, as a reader looks for them.
fn record_cmp(one: &Link, other: &Link) -> Ordering
    ensures { result ≡ reading_cmp (link_record one.now) (link_record other.now) }
{
    match one.subject.agent.cmp(&other.subject.agent) {
        Ordering::Equal => match one.subject.declaration.cmp(&other.subject.declaration) {
            Ordering::Equal => one.rec.cmp(&other.rec),
            unequal => unequal,
        },
        unequal => unequal,
    }
}

/// Two are compared by their links alone: in one tree a link has one that follows it, or none.
impl PartialEq for EvidenceLink {
    ghost eq = { same_in_tree };

    ghost laws = { partial_equiv_from_equiv tree_equiv };

    fn eq(&self, other: &EvidenceLink) -> bool {
        self.cmp(other) == Ordering::Equal
    }
}

impl Eq for EvidenceLink {
    ghost laws = { tree_equiv };
}

impl PartialOrd for EvidenceLink {
    ghost partial_cmp = { λ x y. Some (tree_cmp x y) };

    ghost laws = { tree_po };

    fn partial_cmp(&self, other: &EvidenceLink) -> Option<Ordering> {
        Some(self.cmp(other))
    }
}

/// They are ordered by the agents of their records, then the declarations, then the records, and
/// links of one record as links are.
impl Ord for EvidenceLink {
    ghost cmp = { tree_cmp };

    ghost total = { tree_total };

    ghost matches_partial_cmp = { λ x y. refl };

    ghost matches_eq = { λ x y. refl };

    fn cmp(&self, other: &EvidenceLink) -> Ordering {
        match record_cmp(&self.link, &other.link) {
            Ordering::Equal => self.link.cmp(&other.link),
            unequal => unequal,
        }
    }
}
