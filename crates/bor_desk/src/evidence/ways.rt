//! Ways by aliases to an entity.

ghost use Rattle.std.specs.Prelude.{◌≡◌, ◌↔◌, ◌∷◌, ◌++◌, ◌<◌, [], Contains, IfOk, OnOk, IsSome, IsTrue, IsFalse, Some, None, length, option_map};
ghost use Rattle.std.specs.Option.{option_and_then};
ghost use Rattle.std.specs.List.Sorted.{IsSorted};
ghost use Rattle.std.specs.BTreeMap.{get};
ghost use Rattle.bor_records.specs.declared.links.node.Node.{Node};
ghost use Rattle.bor_records.specs.Links.Nodes.{node_cmp};
ghost use Rattle.bor_records.specs.Links.Shown.{Shown};
ghost use Rattle.bor_records.specs.Links.Aliases.{Same};
ghost use Rattle.bor_records.specs.Promises.{Kept, Promised};
ghost use Rattle.bor_register.specs.Seen.{seen_at};
ghost use Rattle.bor_desk.specs.Operations.Outcomes.{Accounts, store_fault};
ghost use Rattle.bor_desk.specs.Evidence.{IsLeastWay};
ghost use Rattle.bor_desk.specs.Kin.{IsKinOf};
ghost use Rattle.bor_desk.specs.Ways.{AreAdded, AreAll, AreFoundFrom, AreOfClass, AreWaysTo};

use crate::evidence::kin::Kin;
use crate::operations::{Keep, StoreFault};
use bor_chains::Node;
use bor_terms::{AgentName, Day};
use std::alloc::{AllocError, Global};
use std::collections::BTreeMap;

// Adds a copy of a record.
fn add_copy(alloc: Global, found: &mut Vec<Node>, node: &Node) -> Result<(), AllocError>
    ensures { OnOk result (found.new.items ≡ found.old.items ++ node.now ∷ []) }
{
    found.push(node.copy(alloc)?)?;
    Ok(())
}

// Adds an entity that an alias leads from to the node, unless it was found before.
fn add(
    alloc: Global,
    after: &mut BTreeMap<Node, Option<Node>>,
    found: &mut Vec<Node>,
    alias: Node,
    node: &Node,
) -> Result<(), AllocError>
    ensures { OnOk result (AreAdded node.now (alias ∷ []) (λ x. get node_cmp after.old x)
        (λ x. get node_cmp after.new x) found.old.items found.new.items) }
{
    if after.contains_key(&alias) {
        return Ok(());
    }
    add_copy(alloc, found, &alias)?;
    let next = node.copy(alloc)?;
    after.insert(alias, Some(next))?;
    Ok(())
}

// Adds those of the aliases of a node that weren't found before.
#[tactic(auto, using(bor_records::proofs::OnLinks::Found::none))]
fn add_new(
    alloc: Global,
    after: &mut BTreeMap<Node, Option<Node>>,
    found: &mut Vec<Node>,
    aliases: Vec<Node>,
    node: &Node,
) -> Result<(), AllocError>
    ensures { OnOk result (AreAdded node.now aliases.items (λ x. get node_cmp after.old x)
        (λ x. get node_cmp after.new x) found.old.items found.new.items) }
{
    for alias in aliases {
        add(alloc, after, found, alias, node)?;
    }
    Ok(())
}

// The aliases of those in a level that weren't found before, among the entities of the class.
#[tactic(auto, using(bor_records::proofs::OnLinks::Found::none))]
fn found_from(
    alloc: Global,
    kin: &mut Kin,
    after: &mut BTreeMap<Node, Option<Node>>,
    level: &[Node],
) -> Result<Vec<Node>, AllocError>
    ensures { IfOk result (λ found. (s : Shown) (goal : Node)
        → AreOfClass s goal level.now (λ x. get node_cmp after.old x)
        → IsKinOf s goal (λ x. IsSome (get node_cmp after.old x)) kin.old
        → AreFoundFrom s level.now (length level.now) (λ x. get node_cmp after.old x)
        (λ x. get node_cmp after.new x) found.items
        × IsKinOf s goal (λ x. IsSome (get node_cmp after.new x)) kin.new) }
{
    let mut found = Vec::new(alloc);
    for node in level {
        let near = kin.take_near(alloc, node)?;
        add_new(alloc, after, &mut found, near, node)?;
    }
    Ok(found)
}

// A level in order.
fn in_order(found: Vec<Node>) -> Vec<Node>
    ensures same { (x : Node) → Contains result.items x ↔ Contains found.items x }
    ensures sorted { IsSorted node_cmp result.items }
{
    let mut level = found;
    level.sort_unstable();
    level
}

// The one that follows an entity, where one does.
fn next_of<'a>(after: &'a BTreeMap<Node, Option<Node>>, node: &Node) -> Option<&'a Node>
    ensures { option_map (λ next. next.now) result
        ≡ option_and_then (λ next. next) (get node_cmp after.now node.now) }
{
    match after.get(node) {
        Some(Some(next)) => Some(next),
        _ => None,
    }
}

/// The entities that are one with a goal, as far as they were looked for: level by level, from the
/// goal on. Each is followed by the least of the aliases that are nearer to the goal, so a shortest
/// way to it is read off, and of those the least, record by record. The keep is asked for the
/// aliases of the goal, where most ways end, and only for what is further away for the class.
#[derive(Drop)]
pub(crate) struct Ways {
    // Each entity that was found, with the one that follows it. The goal itself is followed by
    // none.
    after: BTreeMap<Node, Option<Node>>,
    // The nodes that were found, by levels, each in order. The search goes on from the last.
    levels: Vec<Vec<Node>>,
    // The class, once more than the aliases of the goal were looked for.
    kin: Option<Kin>,
}

impl Ways {
    /// The goal alone.
    pub(crate) fn to(alloc: Global, goal: &Node) -> Result<Ways, AllocError>
        ensures { IfOk result (λ ways. (s : Shown) → AreWaysTo s goal.now ways) }
    {
        let mut after = BTreeMap::new(alloc);
        after.insert(goal.copy(alloc)?, None)?;
        let mut level = Vec::with_capacity(alloc, 1)?;
        level.push(goal.copy(alloc)?)?;
        let mut levels = Vec::new(alloc);
        levels.push(level)?;
        Ok(Ways {
            after,
            levels,
            kin: None,
        })
    }

    /// Whether the entity was found.
    fn has(&self, node: &Node) -> bool
        ensures { IsTrue result ↔ IsSome (get node_cmp self.now.after node.now) }
    {
        self.after.contains_key(node)
    }

    // Whether there may be more to find.
    fn goes_on(&self) -> bool
        ensures there { IsTrue result → 0 < length self.now.levels.items }
        ensures all { (s : Shown) (goal : Node) → AreWaysTo s goal self.now → IsFalse result
            → AreAll s goal self.now }
    {
        match self.levels.last() {
            Some(level) => !level.is_empty(),
            None => false,
        }
    }

    // Adds a level.
    fn add_level(&mut self, level: Vec<Node>) -> Result<(), AllocError>
        ensures levels { OnOk result
            (self.new.levels.items ≡ self.old.levels.items ++ level ∷ []) }
        ensures after { OnOk result (self.new.after ≡ self.old.after) }
        ensures kin { OnOk result (self.new.kin ≡ self.old.kin) }
    {
        self.levels.push(level)?;
        Ok(())
    }

    // Looks for the aliases of the goal, unless that was done.
    fn look_near<K: Keep>(
        &mut self,
        alloc: Global,
        keep: &mut K,
        viewer: &AgentName,
        day: Day,
        goal: &Node,
    ) -> Result<(), StoreFault>
        ensures kept { Kept K.meaning keep.old keep.new }
        ensures accounted { Accounts K.meaning keep.old keep.new (store_fault Some result) }
        ensures answer { Promised K.meaning keep.old keep.new (λ r. OnOk result
            (AreWaysTo (seen_at viewer.now day r) goal.now self.old
            → AreWaysTo (seen_at viewer.now day r) goal.now self.new)) }
    {
        if self.levels.len() > 1 {
            return Ok(());
        }
        let aliases = keep.aliases(viewer, day, goal)?;
        let mut found = Vec::new(alloc);
        add_new(alloc, &mut self.after, &mut found, aliases, goal)?;
        self.add_level(in_order(found))?;
        Ok(())
    }

    // The class of the goal. It is taken out.
    fn take_kin<K: Keep>(
        &mut self,
        alloc: Global,
        keep: &mut K,
        viewer: &AgentName,
        day: Day,
        goal: &Node,
    ) -> Result<Kin, StoreFault>
        ensures kept { Kept K.meaning keep.old keep.new }
        ensures accounted { Accounts K.meaning keep.old keep.new (store_fault Some result) }
        ensures answer { Promised K.meaning keep.old keep.new (λ r. IfOk result (λ kin.
            AreWaysTo (seen_at viewer.now day r) goal.now self.old
            → AreWaysTo (seen_at viewer.now day r) goal.now self.new
            × IsKinOf (seen_at viewer.now day r) goal.now
            (λ x. IsSome (get node_cmp self.new.after x)) kin)) }
    {
        match self.kin.take() {
            Some(kin) => Ok(kin),
            None => Kin::of(alloc, keep, viewer, day, goal),
        }
    }

    // Looks for the next level, among the entities of the class.
    fn look_on(&mut self, alloc: Global, kin: &mut Kin) -> Result<(), AllocError>
        ensures answer { OnOk result ((s : Shown) (goal : Node) → AreWaysTo s goal self.old
            → IsKinOf s goal (λ x. IsSome (get node_cmp self.old.after x)) kin.old
            → AreWaysTo s goal self.new
            × IsKinOf s goal (λ x. IsSome (get node_cmp self.new.after x)) kin.new) }
        ensures longer { OnOk result (0 < length self.old.levels.items
            → length self.old.levels.items < length self.new.levels.items) }
    {
        let Some(level) = self.levels.last() else {
            return Ok(());
        };
        let found = found_from(alloc, kin, &mut self.after, level)?;
        self.add_level(in_order(found))?;
        Ok(())
    }

    // Looks on until the entity is found, or nothing more is.
    fn look_for<K: Keep>(
        &mut self,
        alloc: Global,
        keep: &mut K,
        viewer: &AgentName,
        day: Day,
        node: &Node,
        goal: &Node,
    ) -> Result<(), StoreFault>
        ensures kept { Kept K.meaning keep.old keep.new }
        ensures accounted { Accounts K.meaning keep.old keep.new (store_fault Some result) }
        ensures answer { Promised K.meaning keep.old keep.new (λ r. OnOk result
            (AreWaysTo (seen_at viewer.now day r) goal.now self.old
            → Same (seen_at viewer.now day r) node.now goal.now
            → AreWaysTo (seen_at viewer.now day r) goal.now self.new
            × IsSome (get node_cmp self.new.after node.now))) }
    {
        self.look_near(alloc, keep, viewer, day, goal)?;
        if self.has(node) {
            return Ok(());
        }
        let mut kin = self.take_kin(alloc, keep, viewer, day, goal)?;
        while !self.has(node) && self.goes_on() {
            self.look_on(alloc, &mut kin)?;
        }
        self.kin = Some(kin);
        Ok(())
    }

    // The way from an entity that was found to the goal, both included.
    fn way_from(&self, alloc: Global, node: &Node) -> Result<Vec<Node>, AllocError>
        ensures { IfOk result (λ way. (s : Shown) (goal : Node) → AreWaysTo s goal self.now
            → IsSome (get node_cmp self.now.after node.now)
            → IsLeastWay s node.now way.items goal) }
    {
        let mut way = Vec::new(alloc);
        way.push(node.copy(alloc)?)?;
        let mut at = node;
        while let Some(next) = next_of(&self.after, at) {
            way.push(next.copy(alloc)?)?;
            at = next;
        }
        Ok(way)
    }

    /// The way from an entity to the goal, both included. It looks on until the entity is found.
    pub(crate) fn way<K: Keep>(
        &mut self,
        alloc: Global,
        keep: &mut K,
        viewer: &AgentName,
        day: Day,
        node: &Node,
        goal: &Node,
    ) -> Result<Vec<Node>, StoreFault>
        ensures kept { Kept K.meaning keep.old keep.new }
        ensures accounted { Accounts K.meaning keep.old keep.new (store_fault Some result) }
        ensures answer { Promised K.meaning keep.old keep.new (λ r. IfOk result (λ way.
            AreWaysTo (seen_at viewer.now day r) goal.now self.old
            → Same (seen_at viewer.now day r) node.now goal.now
            → AreWaysTo (seen_at viewer.now day r) goal.now self.new
            × IsLeastWay (seen_at viewer.now day r) node.now way.items goal.now)) }
    {
        self.look_for(alloc, keep, viewer, day, node, goal)?;
        Ok(self.way_from(alloc, node)?)
    }
}
