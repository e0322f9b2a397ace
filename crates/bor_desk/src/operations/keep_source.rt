//! A keep as a source of nodes and links.

ghost use Rattle.std.specs.Prelude.{◌≡◌};

use bor_chains::LinkSource;
use bor_records::links::{Link, Node, NodeInfo};
use bor_register::StoreFault;
use bor_register::keeping::Keep;
use bor_terms::{AgentName, Day};

/// The part of a keep's register that a viewer sees, as nodes and links on a day: those of the
/// viewer's own live filings, and of the others' published ones. Each node is asked for at the keep
/// by its key; the keep stays as it is, and its faults are those of the source.
#[derive(Drop)]
pub struct KeepSource<'a, K> {
    keep: &'a mut K,
    viewer: &'a AgentName,
    day: Day,
}

impl<'a, K: Keep> KeepSource<'a, K> {
    /// The source of what the viewer sees. It takes no memory, and asks the keep nothing.
    pub fn new(keep: &'a mut K, viewer: &'a AgentName, day: Day) -> KeepSource<'a, K>
        ensures viewer { result.viewer.now ≡ viewer.now }
        ensures day { result.day ≡ day }
        ensures keep { result.keep.now ≡ keep.entry.now }
        ensures same_reference { result.keep.ghost_name ≡ keep.entry.ghost_name }
    {
        KeepSource { keep, viewer, day }
    }
}

impl<'a, K: Keep> LinkSource for KeepSource<'a, K> {
    ghost use Rattle.std.specs.Prelude.{◌≡◌};
    ghost use Rattle.std.specs.Borrow.{GName};
    ghost use Rattle.bor_desk.specs.Operations.Outlook.{Outlook, shown_to};

    type Fault = StoreFault;

    ghost Content = { Outlook };

    ghost shown = { shown_to };

    ghost Left = { K.Left };

    ghost meaning = { record {
      shows = λ x m. (x.viewer.now ≡ m.viewer) × (x.day ≡ m.day)
          × K.meaning.shows x.keep.now m.register;
      is_clean = λ x. K.meaning.is_clean x.keep.now;
      is_sound = λ x. K.meaning.is_sound x.keep.now;
      may_leave = λ x left. K.meaning.may_leave x.keep.now left;
      left_shows = λ left m. K.meaning.left_shows left m.register;
      fault_count = λ x. K.meaning.fault_count x.keep.now;
      may_tell = K.meaning.may_tell;
    } };

    ghost Lender = { GName };

    ghost lender = { λ x. x.keep.ghost_name };

    fn faults(&self) -> u64 {
        self.keep.faults()
    }

    fn node(&mut self, node: &Node) -> Result<Option<NodeInfo>, StoreFault> {
        self.keep.node(self.viewer, self.day, node)
    }

    fn aliases(&mut self, node: &Node) -> Result<Vec<Node>, StoreFault> {
        self.keep.aliases(self.viewer, self.day, node)
    }

    fn same(&mut self, node: &Node) -> Result<Vec<Node>, StoreFault> {
        self.keep.same(self.viewer, self.day, node)
    }

    fn links_into(&mut self, node: &Node) -> Result<Vec<Link>, StoreFault> {
        self.keep.links_into(self.viewer, self.day, node)
    }
}
