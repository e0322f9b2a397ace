//! From the steps of a walk to the persons and links of its evidence.

ghost use Rattle.std.specs.Prelude.{◌≡◌, ◌+◌, ◌++◌, ◌∷◌, [], ◌<◌, ◌≤◌, Bool, false, true, Contains, Some, None, OnOk, IfOk, IfSome, IfNone, length};
ghost use Rattle.std.specs.List.{slice_get};
ghost use Rattle.bor_chains.specs.Branches.{step_down, step_link, persons_by, persons_at, links_at, IsCount, AreCounts, AreNeeded, ArePersonsFrom, AreLinksFrom};

use crate::trail::Step;
use crate::tree::{EvidenceLink, EvidencePerson};
use bor_records::links::{Link, NodeInfo, PersonInfo};
use std::alloc::{AllocError, Global};

// The step at a place, where it leads down.
fn step_at(steps: &[Option<Step>], place: usize) -> Option<&Step>
    ensures some { IfSome result (λ step. step_down steps.now place ≡ Some step.now) }
    ensures none { IfNone result (step_down steps.now place ≡ None) }
{
    match steps.get(place) {
        Some(Some(step)) if step.below < place => Some(step),
        _ => None,
    }
}

// How many links lead down from a place, by the counts of the places before it.
fn count_at(steps: &[Option<Step>], counts: &[u64], place: usize) -> u64
    ensures { AreCounts steps.now place counts.now
        → (result ≤ place) × IsCount steps.now place result }
{
    match step_at(steps, place) {
        Some(step) => match counts.get(step.below) {
            Some(count) => count.saturating_add(1),
            None => 0,
        },
        None => 0,
    }
}

// How many links lead down from each place.
fn counts_of(alloc: Global, steps: &[Option<Step>]) -> Result<Vec<u64>, AllocError>
    ensures { IfOk result (λ counts. AreCounts steps.now (length steps.now) counts.items) }
{
    let mut counts = Vec::with_capacity(alloc, steps.len())?;
    for place in 0..steps.len() {
        let count = count_at(steps, counts.as_slice(), place);
        counts.push(count)?;
    }
    Ok(counts)
}

// So many times no.
fn none_of(alloc: Global, count: usize) -> Result<Vec<bool>, AllocError>
    ensures long { IfOk result (λ list. length list.items ≡ count) }
    ensures all { IfOk result (λ list. (x : Bool) → Contains list.items x → x ≡ false) }
{
    let mut list = Vec::with_capacity(alloc, count)?;
    for _ in 0..count {
        list.push(false)?;
    }
    Ok(list)
}

// Where a place leads down from a person, the place below it does.
fn need_below(steps: &[Option<Step>], needed: &mut Vec<bool>, place: usize)
    requires within { place < length steps.now }
    requires long { length needed.old.items ≡ length steps.now }
    ensures long { length needed.new.items ≡ length needed.old.items }
    ensures needed { AreNeeded steps.now (place + 1) needed.old.items
        → AreNeeded steps.now place needed.new.items }
{
    if let Some(step) = step_at(steps, place) {
        if !step.info.is_entity() || needed[place] {
            needed[place] = true;
            needed[step.below] = true;
        }
    }
}

// The places that lead down from a person, and those of persons.
fn needed_of(alloc: Global, steps: &[Option<Step>]) -> Result<Vec<bool>, AllocError>
    ensures { IfOk result (λ needed. AreNeeded steps.now 0 needed.items) }
{
    let mut needed = none_of(alloc, steps.len())?;
    let mut place = steps.len();
    while place > 0 {
        place -= 1;
        need_below(steps, &mut needed, place);
    }
    Ok(needed)
}

// The link at a place, where there is one.
fn link_at(alloc: Global, steps: &[Option<Step>], place: usize) -> Result<Option<Link>, AllocError>
    ensures { IfOk result (λ link. link ≡ step_link (slice_get steps.now place)) }
{
    match steps.get(place) {
        Some(Some(step)) => Ok(Some(step.link.copy(alloc)?)),
        _ => Ok(None),
    }
}

/// The persons that a walk has met, and the links that lead down from them, in no order.
#[derive(Drop)]
pub(crate) struct Branches {
    pub(crate) persons: Vec<EvidencePerson>,
    pub(crate) links: Vec<EvidenceLink>,
}

impl Branches {
    fn push_person(
        &mut self,
        alloc: Global,
        info: PersonInfo,
        link: &Link,
        links: u64,
    ) -> Result<(), AllocError>
        ensures persons { OnOk result (self.new.persons.items ≡ self.old.persons.items
            ++ record { node = link.now.party; info = info; first = link.now; links = links }
            ∷ []) }
        ensures links { self.new.links ≡ self.old.links }
    {
        let node = link.party.copy(alloc)?;
        let first = link.copy(alloc)?;
        let person = EvidencePerson {
            node,
            info,
            first,
            links,
        };
        Ok(self.persons.push(person)?)
    }

    fn push_link(&mut self, link: EvidenceLink) -> Result<(), AllocError>
        ensures persons { self.new.persons ≡ self.old.persons }
        ensures links { OnOk result (self.new.links.items ≡ self.old.links.items ++ link ∷ []) }
    {
        Ok(self.links.push(link)?)
    }

    // Adds a person, where a step leads to one.
    fn add_person(
        &mut self,
        alloc: Global,
        info: NodeInfo,
        link: &Link,
        links: u64,
    ) -> Result<(), AllocError>
        ensures persons { OnOk result
            (self.new.persons.items ≡ self.old.persons.items ++ persons_by info link.now links) }
        ensures links { OnOk result (self.new.links.items ≡ self.old.links.items) }
    {
        match info {
            NodeInfo::Person(info) => self.push_person(alloc, info, link, links),
            NodeInfo::Entity { .. } => Ok(()),
        }
    }

    // Adds a link, with the one that follows it, and a person, where it leads to one.
    fn add_link(
        &mut self,
        alloc: Global,
        info: NodeInfo,
        link: Link,
        next: Option<Link>,
        links: u64,
    ) -> Result<(), AllocError>
        ensures persons { OnOk result
            (self.new.persons.items ≡ self.old.persons.items ++ persons_by info link links) }
        ensures links { OnOk result (self.new.links.items
            ≡ self.old.links.items ++ record { link = link; next = next } ∷ []) }
    {
        self.add_person(alloc, info, &link, links)?;
        self.push_link(EvidenceLink { link, next })
    }

    // Adds a step's link and, where it leads to one, a person. `below` are the steps before it.
    fn add_step(
        &mut self,
        alloc: Global,
        below: &[Option<Step>],
        step: Step,
        links: u64,
    ) -> Result<(), AllocError>
        ensures persons { OnOk result (self.new.persons.items
            ≡ self.old.persons.items ++ persons_by step.info step.link links) }
        ensures links { OnOk result (self.new.links.items
            ≡ self.old.links.items ++ links_at true (Some step) below.now) }
    {
        let next = link_at(alloc, below, step.below)?;
        self.add_link(alloc, step.info, step.link, next, links)
    }

    // Adds what a step tells, where it leads down from a person. `below` are the steps before it.
    fn add(
        &mut self,
        alloc: Global,
        below: &[Option<Step>],
        step: Option<Step>,
        links: u64,
        needed: bool,
    ) -> Result<(), AllocError>
        ensures persons { OnOk result (self.new.persons.items
            ≡ self.old.persons.items ++ persons_at needed step links) }
        ensures links { OnOk result (self.new.links.items
            ≡ self.old.links.items ++ links_at needed step below.now) }
    {
        if !needed {
            return Ok(());
        }
        match step {
            Some(step) => self.add_step(alloc, below, step, links),
            None => Ok(()),
        }
    }
}

// The evidence of the steps, by how many links lead down from each place and whether they lead down
// from a person.
fn gathered(
    alloc: Global,
    steps: Vec<Option<Step>>,
    counts: &[u64],
    needed: &[bool],
) -> Result<Branches, AllocError>
    requires counts { AreCounts steps.items (length steps.items) counts.now }
    requires needed { AreNeeded steps.items 0 needed.now }
    ensures persons { IfOk result (λ found. ArePersonsFrom steps.items 0 found.persons.items) }
    ensures links { IfOk result (λ found. AreLinksFrom steps.items 0 found.links.items) }
{
    let persons = Vec::with_capacity(alloc, steps.len())?;
    let links = Vec::with_capacity(alloc, steps.len())?;
    let mut found = Branches { persons, links };
    let mut left = steps;
    while let Some(step) = left.pop() {
        let place = left.len();
        found.add(alloc, left.as_slice(), step, counts[place], needed[place])?;
    }
    Ok(found)
}

/// The persons that a walk has met, and the links that lead down from them. Each step is gone over
/// three times, whatever the length of the chains.
pub(crate) fn branches_of(alloc: Global, steps: Vec<Option<Step>>) -> Result<Branches, AllocError>
    ensures persons { IfOk result (λ found. ArePersonsFrom steps.items 0 found.persons.items) }
    ensures links { IfOk result (λ found. AreLinksFrom steps.items 0 found.links.items) }
{
    let counts = counts_of(alloc, steps.as_slice())?;
    let needed = needed_of(alloc, steps.as_slice())?;
    gathered(alloc, steps, counts.as_slice(), needed.as_slice())
}
