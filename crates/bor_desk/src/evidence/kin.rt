//! The entities of a class by their signs.

ghost use Rattle.std.specs.Prelude.{◌≡◌, ◌++◌, ◌∷◌, [], IfOk, OnOk, IsTrue, List, Some};
ghost use Rattle.bor_records.specs.declared.links.node.Node.{Node};
ghost use Rattle.bor_records.specs.Links.Shown.{Shown, is_entity, listed_at};
ghost use Rattle.bor_records.specs.Links.Rows.{node_in};
ghost use Rattle.bor_records.specs.Links.Signs.{sign_cmp};
ghost use Rattle.bor_records.specs.Links.Values.{under};
ghost use Rattle.bor_records.specs.Promises.{Kept, Promised};
ghost use Rattle.bor_register.specs.Seen.{seen_at};
ghost use Rattle.bor_desk.specs.Kin.{AreKin, AreTaken, IsKinOf, NoneFound, signed_in, signs_listed};
ghost use Rattle.bor_desk.specs.Operations.Outcomes.{Accounts, store_fault};

use crate::operations::{Keep, StoreFault};
use bor_chains::Node;
use bor_records::Row;
use bor_records::links::values::{self, Values};
use bor_records::links::{OpenNode, Sign, node_of, signs_of};
use bor_terms::{AgentName, Day};
use std::alloc::{AllocError, Global};
use std::collections::BTreeMap;

// Takes the entities that have a sign out of the map, to those that were taken before.
fn take_signed(
    signed: &mut BTreeMap<Sign, Values<Node>>,
    sign: &Sign,
    taken: &mut Vec<Node>,
) -> Result<(), AllocError>
    ensures { OnOk result (AreTaken (sign.now ∷ []) (under sign_cmp signed.old)
        (under sign_cmp signed.new) taken.old.items taken.new.items) }
{
    let Some(nodes) = signed.remove(sign) else {
        return Ok(());
    };
    nodes.move_to(taken)?;
    Ok(())
}

// Takes the entities that have one of some signs out of the map.
#[tactic(auto, using(bor_records::proofs::OnLinks::Found::none, std::proofs::lemmas::List::take_all))]
fn take_all(
    alloc: Global,
    signed: &mut BTreeMap<Sign, Values<Node>>,
    signs: &[Sign],
) -> Result<Vec<Node>, AllocError>
    ensures { IfOk result (λ taken. AreTaken signs.now (under sign_cmp signed.old)
        (under sign_cmp signed.new) [] taken.items) }
{
    let mut taken = Vec::new(alloc);
    for sign in signs {
        take_signed(signed, sign, &mut taken)?;
    }
    Ok(taken)
}

// What is listed of a row's record.
fn node_in(alloc: Global, row: Row) -> Result<Option<OpenNode>, AllocError>
    ensures { IfOk result (λ node. node ≡ node_in row) }
{
    let made = node_of(alloc, &row);
    drop(row);
    made
}

// What is listed of a record.
fn listed_of<K: Keep>(
    alloc: Global,
    keep: &mut K,
    viewer: &AgentName,
    day: Day,
    node: &Node,
) -> Result<Option<OpenNode>, StoreFault>
    ensures kept { Kept K.meaning keep.old keep.new }
    ensures accounted { Accounts K.meaning keep.old keep.new (store_fault Some result) }
    ensures answer { Promised K.meaning keep.old keep.new (λ r. IfOk result (λ listed.
        listed_at (seen_at viewer.now day r).nodes node.now ≡ listed)) }
{
    match keep.open_row(viewer, day, node)? {
        Some(row) => Ok(node_in(alloc, row)?),
        None => Ok(None),
    }
}

/// The entities of a class by their signs, so that the aliases of one are found in memory.
#[derive(Drop)]
pub(crate) struct Kin {
    // The signs of each entity.
    signs: BTreeMap<Node, Vec<Sign>>,
    // The entities that have a sign, until they are taken by it.
    signed: BTreeMap<Sign, Values<Node>>,
}

impl Kin {
    // No entity.
    fn new(alloc: Global) -> Kin
        ensures { (s : Shown) → AreKin s [] NoneFound result }
    {
        Kin {
            signs: BTreeMap::new(alloc),
            signed: BTreeMap::new(alloc),
        }
    }

    // Adds an open entity.
    fn add(&mut self, alloc: Global, one: &OpenNode) -> Result<(), AllocError>
        ensures { OnOk result ((s : Shown) (nodes : List Node) → AreKin s nodes NoneFound self.old
            → listed_at s.nodes one.now.node ≡ Some one.now → IsTrue (is_entity one.now.info)
            → AreKin s (nodes ++ one.now.node ∷ []) NoneFound self.new) }
    {
        let keys = signs_of(alloc, one)?;
        values::note(alloc, &mut self.signed, keys, &one.node)?;
        let signs = signs_of(alloc, one)?;
        self.signs.insert(one.node.copy(alloc)?, signs)?;
        Ok(())
    }

    // Adds what is listed of a record, where it is an open entity.
    fn add_listed(&mut self, alloc: Global, listed: &Option<OpenNode>) -> Result<(), AllocError>
        ensures { OnOk result ((s : Shown) (nodes : List Node) (node : Node)
            → AreKin s nodes NoneFound self.old → listed_at s.nodes node ≡ listed.now
            → AreKin s (nodes ++ node ∷ []) NoneFound self.new) }
    {
        let Some(one) = listed else {
            return Ok(());
        };
        if !one.info.is_entity() {
            return Ok(());
        }
        self.add(alloc, one)?;
        Ok(())
    }

    // Adds a record, where it is an open entity.
    fn add_open<K: Keep>(
        &mut self,
        alloc: Global,
        keep: &mut K,
        viewer: &AgentName,
        day: Day,
        node: &Node,
    ) -> Result<(), StoreFault>
        ensures kept { Kept K.meaning keep.old keep.new }
        ensures accounted { Accounts K.meaning keep.old keep.new (store_fault Some result) }
        ensures answer { Promised K.meaning keep.old keep.new (λ r. OnOk result
            ((nodes : List Node) → AreKin (seen_at viewer.now day r) nodes NoneFound self.old
            → AreKin (seen_at viewer.now day r) (nodes ++ node.now ∷ []) NoneFound self.new)) }
    {
        let listed = listed_of(alloc, keep, viewer, day, node)?;
        let added = self.add_listed(alloc, &listed);
        drop(listed);
        added?;
        Ok(())
    }

    // Those of these records that are open entities.
    #[tactic(auto, using(std::proofs::lemmas::List::take_all))]
    fn among<K: Keep>(
        alloc: Global,
        keep: &mut K,
        viewer: &AgentName,
        day: Day,
        nodes: &[Node],
    ) -> Result<Kin, StoreFault>
        ensures kept { Kept K.meaning keep.old keep.new }
        ensures accounted { Accounts K.meaning keep.old keep.new (store_fault Some result) }
        ensures answer { Promised K.meaning keep.old keep.new (λ r. IfOk result (λ kin.
            AreKin (seen_at viewer.now day r) nodes.now NoneFound kin)) }
    {
        let mut kin = Kin::new(alloc);
        for node in nodes {
            kin.add_open(alloc, keep, viewer, day, node)?;
        }
        Ok(kin)
    }

    /// The entities that are one with a goal. The keep is asked for the class, and for each record
    /// of it once.
    pub(crate) fn of<K: Keep>(
        alloc: Global,
        keep: &mut K,
        viewer: &AgentName,
        day: Day,
        goal: &Node,
    ) -> Result<Kin, StoreFault>
        ensures kept { Kept K.meaning keep.old keep.new }
        ensures accounted { Accounts K.meaning keep.old keep.new (store_fault Some result) }
        ensures answer { Promised K.meaning keep.old keep.new (λ r. IfOk result (λ kin.
            IsKinOf (seen_at viewer.now day r) goal.now NoneFound kin)) }
    {
        let class = keep.same(viewer, day, goal)?;
        Kin::among(alloc, keep, viewer, day, &class)
    }

    /// Takes the entities that share a sign with this one, itself among them. A sign leads to its
    /// entities once: by one that was asked for before, none are taken.
    pub(crate) fn take_near(&mut self, alloc: Global, node: &Node) -> Result<Vec<Node>, AllocError>
        ensures same { self.new.signs ≡ self.old.signs }
        ensures taken { IfOk result (λ near. AreTaken (signs_listed self.old node.now)
            (signed_in self.old) (signed_in self.new) [] near.items) }
    {
        match self.signs.get(node) {
            Some(signs) => take_all(alloc, &mut self.signed, signs),
            None => Ok(Vec::new(alloc)),
        }
    }
}
