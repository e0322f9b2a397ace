//! By which records two entities are one.

ghost use Rattle.std.specs.Prelude.{◌≡◌, IfOk, OnOk, Some};
ghost use Rattle.bor_records.specs.Links.Shown.{Shown};
ghost use Rattle.bor_records.specs.Links.Aliases.{Same};
ghost use Rattle.bor_records.specs.Promises.{Kept, Promised};
ghost use Rattle.bor_register.specs.Seen.{seen_at};
ghost use Rattle.bor_desk.specs.Operations.Outcomes.{Accounts, store_fault};
ghost use Rattle.bor_desk.specs.Evidence.{IsBridge};
ghost use Rattle.bor_desk.specs.Ways.{AreGoals, AreWaysTo};

use crate::evidence::ways::Ways;
use crate::operations::{Keep, StoreFault};
use bor_chains::Node;
use bor_terms::{AgentName, Day};
use std::alloc::{AllocError, Global};
use std::collections::BTreeMap;

/// The ways that were looked for, by their goals, so that links with one goal share a search.
#[derive(Drop)]
pub(crate) struct Goals {
    ways: BTreeMap<Node, Ways>,
}

impl Goals {
    /// No goal.
    pub(crate) fn new(alloc: Global) -> Goals
        ensures { (s : Shown) → AreGoals s result }
    {
        Goals {
            ways: BTreeMap::new(alloc),
        }
    }

    // A goal with the ways to it, as far as they were looked for. Both are taken out.
    fn take(&mut self, alloc: Global, goal: &Node) -> Result<(Node, Ways), AllocError>
        ensures goal { IfOk result (λ taken. taken.0 ≡ goal.now) }
        ensures ways { IfOk result (λ taken. (s : Shown) → AreGoals s self.old
            → AreGoals s self.new × AreWaysTo s goal.now taken.1) }
    {
        match self.ways.remove_entry(goal) {
            Some(taken) => Ok(taken),
            None => Ok((goal.copy(alloc)?, Ways::to(alloc, goal)?)),
        }
    }

    // Puts a goal back, with the ways to it.
    fn put(&mut self, goal: Node, ways: Ways) -> Result<(), AllocError>
        ensures { OnOk result ((s : Shown) → AreGoals s self.old → AreWaysTo s goal ways
            → AreGoals s self.new) }
    {
        self.ways.insert(goal, ways)?;
        Ok(())
    }

    /// The records by which an entity is one with another: none where it is that record itself,
    /// else the least of the shortest lists in which neighbours are aliases, both included. For
    /// each goal the keep is asked once for its aliases; and, where an entity is further away than
    /// these, once for its class, and once for each record of that.
    pub(crate) fn same<K: Keep>(
        &mut self,
        alloc: Global,
        keep: &mut K,
        viewer: &AgentName,
        day: Day,
        node: &Node,
        goal: &Node,
    ) -> Result<Vec<Node>, StoreFault>
        ensures kept { Kept K.meaning keep.old keep.new }
        ensures accounted { Accounts K.meaning keep.old keep.new (store_fault Some result) }
        ensures answer { Promised K.meaning keep.old keep.new (λ r. IfOk result (λ same.
            AreGoals (seen_at viewer.now day r) self.old
            → Same (seen_at viewer.now day r) node.now goal.now
            → AreGoals (seen_at viewer.now day r) self.new
            × IsBridge (seen_at viewer.now day r) node.now goal.now same.items)) }
    {
        if node == goal {
            return Ok(Vec::new(alloc));
        }
        let (key, mut ways) = self.take(alloc, goal)?;
        let way = ways.way(alloc, keep, viewer, day, node, goal)?;
        self.put(key, ways)?;
        Ok(way)
    }
}
