//! A person of a report.

ghost use Rattle.std.specs.Prelude.{◌≡◌, Some, refl};
ghost use Rattle.std.specs.Cmp.{partial_equiv_from_equiv};
ghost use Rattle.bor_chains.specs.Lines.{reading_cmp, same_line, line_cmp, line_equiv, line_po, line_total, line_ties};

use bor_records::links::{Node, PersonInfo};
use std::cmp::Ordering;

/// A person of a report.
#[derive(Drop)]
pub struct PersonLine {
    /// The record of the person.
    pub node: Node,
    /// What is shown of the person.
    pub info: PersonInfo,
    /// The least number of links of a chain from the person.
    pub links: u64,
}

/// Two nodes as a reader looks for them.
pub(crate) fn reading_cmp(one: &Node, other: &Node) -> Ordering
    ensures { result ≡ reading_cmp one.now other.now }
{
    match one.agent.cmp(&other.agent) {
        Ordering::Equal => match one.declaration.cmp(&other.declaration) {
            Ordering::Equal => one.rec.cmp(&other.rec),
            unequal => unequal,
        },
        unequal => unequal,
    }
}

/// Two lines are compared by their nodes alone: in one report a node has one line.
impl PartialEq for PersonLine {
    ghost eq = { same_line };

    ghost laws = { partial_equiv_from_equiv line_equiv };

    fn eq(&self, other: &PersonLine) -> bool {
        self.node == other.node
    }
}

impl Eq for PersonLine {
    ghost laws = { line_equiv };
}

impl PartialOrd for PersonLine {
    ghost partial_cmp = { λ x y. Some (line_cmp x y) };

    ghost laws = { line_po };

    fn partial_cmp(&self, other: &PersonLine) -> Option<Ordering> {
        Some(self.cmp(other))
    }
}

/// Lines are ordered by the agents of their nodes, then the declarations, then the records.
impl Ord for PersonLine {
    ghost cmp = { line_cmp };

    ghost total = { line_total };

    ghost matches_partial_cmp = { λ x y. refl };

    ghost matches_eq = { line_ties };

    fn cmp(&self, other: &PersonLine) -> Ordering {
        reading_cmp(&self.node, &other.node)
    }
}
