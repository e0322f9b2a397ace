//! The walk that keeps the reason for each mark.

ghost use Rattle.std.specs.Prelude.{◌≡◌, ◌+◌, ◌≤◌, ℕ, [], true, None, Some, ◌↔◌, Contains, IsTrue, OnOk, IfOk, length};
ghost use Rattle.bor_records.specs.Promises.{Kept, Promised};
ghost use Rattle.bor_records.specs.declared.links.node.Node.{Node};
ghost use Rattle.bor_records.specs.declared.links.node.NodeInfo.TheVariants as infos;
ghost use Rattle.bor_chains.specs.declared.marks.Mark.TheVariants.{Middle, Holder};
ghost use Rattle.bor_chains.specs.Promises.{WalkAccounts};
ghost use Rattle.bor_records.specs.Links.Shown.{info_of};
ghost use Rattle.bor_chains.specs.Marks.{IsOneOf, IsSameAs};
ghost use Rattle.bor_chains.specs.Trail.{step_by, IsFilled, GivesMarks, GivesUnlessThere, AreBeside, AreWhole, Follows, FollowsTo, IsAtLevel, IsAll};

use crate::crossed::{Crossing, crossings_from, in_order};
use crate::fault::WalkFault;
use crate::marks::{Mark, Marked, Marks};
use crate::source::LinkSource;
use bor_records::links::{Link, Node, NodeInfo};
use std::alloc::{AllocError, Global};

/// The link by which a mark was given, with the place of the mark that it leads down to, and what
/// the link's party is.
#[derive(Drop)]
pub(crate) struct Step {
    pub(crate) link: Link,
    pub(crate) below: usize,
    pub(crate) info: NodeInfo,
}

// The step over a crossing to what its link's party is.
fn step_over(alloc: Global, crossing: &Crossing, info: &NodeInfo) -> Result<Step, AllocError>
    ensures { IfOk result (λ step. step ≡ step_by crossing.now info.now) }
{
    let info = info.copy(alloc)?;
    let link = crossing.link.copy(alloc)?;
    Ok(Step {
        link,
        below: crossing.below,
        info,
    })
}

// The party of a crossing's link with this mark.
fn party_marked(alloc: Global, crossing: &Crossing, mark: Mark) -> Result<Marked, AllocError>
    ensures { IfOk result (λ marked.
        marked ≡ record { node = crossing.now.link.party; mark = mark }) }
{
    Ok(Marked {
        node: crossing.link.party.copy(alloc)?,
        mark,
    })
}

// Puts the step over a crossing at the end until there are so many.
fn fill(
    alloc: Global,
    steps: &mut Vec<Option<Step>>,
    count: usize,
    crossing: &Crossing,
    info: &NodeInfo,
) -> Result<(), AllocError>
    ensures { OnOk result (IsFilled count (Some (step_by crossing.now info.now))
        steps.old.items steps.new.items) }
{
    while steps.len() < count {
        let step = step_over(alloc, crossing, info)?;
        steps.push(Some(step))?;
    }
    Ok(())
}

// Places for the steps of so many marks, each without one.
fn without_steps(alloc: Global, count: usize) -> Result<Vec<Option<Step>>, AllocError>
    ensures { IfOk result (λ steps. IsFilled count None [] steps.items) }
{
    let mut steps = Vec::new(alloc);
    while steps.len() < count {
        steps.push(None)?;
    }
    Ok(steps)
}

/// The marks that a walk has given, and of each the step by which it was: those that stand for the
/// target have none.
#[derive(Drop)]
pub(crate) struct Trail {
    pub(crate) marks: Marks,
    pub(crate) steps: Vec<Option<Step>>,
}

impl Trail {
    // Gives each of the nodes this mark, with the step over the crossing.
    fn give(
        &mut self,
        alloc: Global,
        nodes: Vec<Node>,
        mark: Mark,
        crossing: &Crossing,
        info: &NodeInfo,
    ) -> Result<(), AllocError>
        ensures longer { OnOk result (length self.old.marks ≤ length self.new.marks) }
        ensures gives { OnOk result (GivesMarks (IsOneOf nodes.items mark)
            (Some (step_by crossing.now info.now)) self.old self.new) }
    {
        self.marks.add_all(nodes, mark)?;
        fill(alloc, &mut self.steps, self.marks.len(), crossing, info)?;
        Ok(())
    }

    // Gives the person on a crossing a mark, unless the person has it.
    fn mark_person(
        &mut self,
        alloc: Global,
        crossing: &Crossing,
        info: &NodeInfo,
    ) -> Result<(), AllocError>
        ensures longer { OnOk result (length self.old.marks ≤ length self.new.marks) }
        ensures gives { OnOk result
            (GivesUnlessThere (record { node = crossing.now.link.party; mark = Holder })
            (λ n. n ≡ record { node = crossing.now.link.party; mark = Holder })
            (Some (step_by crossing.now info.now)) self.old self.new) }
    {
        let marked = party_marked(alloc, crossing, Mark::Holder)?;
        let is_new = self.marks.add(marked)?;
        if !is_new {
            return Ok(());
        }
        fill(alloc, &mut self.steps, self.marks.len(), crossing, info)?;
        Ok(())
    }

    // Whether the entity on a crossing has a mark.
    fn has_class(&self, alloc: Global, crossing: &Crossing) -> Result<bool, AllocError>
        ensures { IfOk result (λ has. IsTrue has ↔ Contains self.now.marks
            (record { node = crossing.now.link.party; mark = Middle })) }
    {
        let marked = party_marked(alloc, crossing, Mark::Middle)?;
        Ok(self.marks.has(&marked))
    }

    // Gives all nodes that are the same as the entity on a crossing a mark, unless it has it.
    fn mark_class<S: LinkSource>(
        &mut self,
        alloc: Global,
        source: &mut S,
        crossing: &Crossing,
    ) -> Result<(), WalkFault<S::Fault>>
        ensures longer { OnOk result (length self.old.marks ≤ length self.new.marks) }
        ensures same_reference { S.lender source.new ≡ S.lender source.old }
        ensures kept { Kept S.meaning source.old source.new }
        ensures accounted { WalkAccounts S.meaning source.old source.new result }
        ensures walked { OnOk result (Promised S.meaning source.old source.new (λ m.
            GivesUnlessThere (record { node = crossing.now.link.party; mark = Middle })
            (IsSameAs (S.shown m) crossing.now.link.party Middle)
            (Some (step_by crossing.now (infos.Entity true))) self.old self.new)) }
    {
        let has = self.has_class(alloc, crossing)?;
        if has {
            return Ok(());
        }
        let nodes = match source.same(&crossing.link.party) {
            Ok(nodes) => nodes,
            Err(fault) => return Err(WalkFault::Source(fault)),
        };
        let info = NodeInfo::Entity { legal: true };
        self.give(alloc, nodes, Mark::Middle, crossing, &info)?;
        Ok(())
    }

    // Goes on over one crossing, whose link's party is this.
    fn go_to<S: LinkSource>(
        &mut self,
        alloc: Global,
        source: &mut S,
        crossing: &Crossing,
        info: &NodeInfo,
    ) -> Result<(), WalkFault<S::Fault>>
        ensures longer { OnOk result (length self.old.marks ≤ length self.new.marks) }
        ensures same_reference { S.lender source.new ≡ S.lender source.old }
        ensures kept { Kept S.meaning source.old source.new }
        ensures accounted { WalkAccounts S.meaning source.old source.new result }
        ensures walked { OnOk result (Promised S.meaning source.old source.new (λ m.
            Some info.now ≡ info_of (S.shown m) crossing.now.link.party
            → AreWhole (S.shown m) self.old.marks → AreWhole (S.shown m) self.new.marks
            × Follows (S.shown m) crossing.now self.old self.new)) }
    {
        match info {
            NodeInfo::Person(_) => {
                self.mark_person(alloc, crossing, info)?;
                Ok(())
            }
            NodeInfo::Entity { legal: false } => Ok(()),
            NodeInfo::Entity { legal: true } => {
                self.mark_class(alloc, source, crossing)?;
                Ok(())
            }
        }
    }

    // Goes on over one crossing.
    fn follow<S: LinkSource>(
        &mut self,
        alloc: Global,
        source: &mut S,
        crossing: &Crossing,
    ) -> Result<(), WalkFault<S::Fault>>
        ensures longer { OnOk result (length self.old.marks ≤ length self.new.marks) }
        ensures same_reference { S.lender source.new ≡ S.lender source.old }
        ensures kept { Kept S.meaning source.old source.new }
        ensures accounted { WalkAccounts S.meaning source.old source.new result }
        ensures walked { OnOk result (Promised S.meaning source.old source.new (λ m.
            AreWhole (S.shown m) self.old.marks → AreWhole (S.shown m) self.new.marks
            × Follows (S.shown m) crossing.now self.old self.new)) }
    {
        match source.node(&crossing.link.party) {
            Err(fault) => Err(WalkFault::Source(fault)),
            Ok(None) => Ok(()),
            Ok(Some(info)) => {
                self.go_to(alloc, source, crossing, &info)?;
                Ok(())
            }
        }
    }

    // Goes on over each of the crossings, in their order.
    fn follow_all<S: LinkSource>(
        &mut self,
        alloc: Global,
        source: &mut S,
        crossings: Vec<Crossing>,
    ) -> Result<(), WalkFault<S::Fault>>
        ensures longer { OnOk result (length self.old.marks ≤ length self.new.marks) }
        ensures same_reference { S.lender source.new ≡ S.lender source.old }
        ensures kept { Kept S.meaning source.old source.new }
        ensures accounted { WalkAccounts S.meaning source.old source.new result }
        ensures walked { OnOk result (Promised S.meaning source.old source.new (λ m.
            AreBeside self.old → AreWhole (S.shown m) self.old.marks
            → AreWhole (S.shown m) self.new.marks
            × FollowsTo (S.shown m) crossings.items (length crossings.items)
            self.old self.new)) }
    {
        for crossing in crossings {
            let followed = self.follow(alloc, source, &crossing);
            drop(crossing);
            followed?;
        }
        Ok(())
    }

    // Goes on over the links into the marks from `start` on. Of those that lead to one entity or
    // person the least comes first, so by it a mark is given.
    fn go_on<S: LinkSource>(
        &mut self,
        alloc: Global,
        source: &mut S,
        start: usize,
    ) -> Result<(), WalkFault<S::Fault>>
        requires { start ≤ length self.old.marks }
        ensures longer { OnOk result (length self.old.marks ≤ length self.new.marks) }
        ensures same_reference { S.lender source.new ≡ S.lender source.old }
        ensures kept { Kept S.meaning source.old source.new }
        ensures accounted { WalkAccounts S.meaning source.old source.new result }
        ensures walked { OnOk result (Promised S.meaning source.old source.new (λ m.
            (e : Node) (level : ℕ) → IsAtLevel (S.shown m) e start level self.old
            → IsAtLevel (S.shown m) e (length self.old.marks) (level + 1) self.new)) }
    {
        let found = crossings_from(alloc, source, &self.marks, start)?;
        let crossings = in_order(found)?;
        self.follow_all(alloc, source, crossings)?;
        Ok(())
    }
}

// The marks of all that stand for the target.
fn begin<S: LinkSource>(
    alloc: Global,
    source: &mut S,
    target: &Node,
) -> Result<Trail, WalkFault<S::Fault>>
    ensures same_reference { S.lender source.new ≡ S.lender source.old }
    ensures kept { Kept S.meaning source.old source.new }
    ensures accounted { WalkAccounts S.meaning source.old source.new result }
    ensures walked { IfOk result (λ trail. Promised S.meaning source.old source.new (λ m.
        IsAtLevel (S.shown m) target.now 0 0 trail)) }
{
    let nodes = match source.same(target) {
        Ok(nodes) => nodes,
        Err(fault) => return Err(WalkFault::Source(fault)),
    };
    let mut marks = Marks::new(alloc);
    marks.add_all(nodes, Mark::Target)?;
    let steps = without_steps(alloc, marks.len())?;
    Ok(Trail { marks, steps })
}

/// Walks from an entity until a level adds nothing. Each mark is given once, by the first link of
/// the least of its chains, so the walk ends, and a class and the links into a node are asked for
/// at most twice.
pub(crate) fn trail_from<S: LinkSource>(
    alloc: Global,
    source: &mut S,
    target: &Node,
) -> Result<Trail, WalkFault<S::Fault>>
    ensures same_reference { S.lender source.new ≡ S.lender source.old }
    ensures kept { Kept S.meaning source.old source.new }
    ensures accounted { WalkAccounts S.meaning source.old source.new result }
    ensures walked { IfOk result (λ trail. Promised S.meaning source.old source.new (λ m.
        IsAll (S.shown m) target.now trail)) }
{
    let mut trail = begin(alloc, source, target)?;
    let mut start = 0;
    while start < trail.marks.len() {
        let end = trail.marks.len();
        trail.go_on(alloc, source, start)?;
        start = end;
    }
    Ok(trail)
}
