//! Which nodes stand for one entity with a node, which are one alias away from it, and which have
//! an identifier: of records that are read by key.

ghost use Rattle.std.specs.Prelude.{◌≡◌, ◌↔◌, ◌∷◌, [], true, Contains, IsTrue, OnOk, if◌then◌else◌, map};
ghost use Rattle.std.specs.BTreeSet.{contains};
ghost use Rattle.std.specs.Ordering.{is_eq};
ghost use Rattle.bor_records.specs.declared.links.sign.Sign.{Sign};
ghost use Rattle.bor_records.specs.Reading.{ReadsSo};
ghost use Rattle.bor_records.specs.Links.Alike.{Expands};
ghost use Rattle.bor_records.specs.Links.Answers.{AreAliases, AreDistinct, AreIdentified, AreSame};
ghost use Rattle.bor_records.specs.Links.Candidates.{IsFound, IsFoundIn};
ghost use Rattle.bor_records.specs.Links.Growth.{Grown};
ghost use Rattle.bor_records.specs.Links.Signs.{by_identifier, sign_cmp, signs_in};

use crate::links::class::Class;
use crate::links::node::Node;
use crate::links::records::Records;
use crate::links::sign::Sign;
use bods_read::Identifier;
use std::alloc::{AllocError, Global};
use std::collections::BTreeSet;
use std::convert::AsSlice;

// Whether a record is an open entity that has the sign.
fn has_sign<R: Records>(records: &mut R, sign: &Sign, candidate: &Node) -> Result<bool, R::Fault>
    ensures { ReadsSo R.reading records.old records.new result (λ m has.
        IsTrue has ↔ Contains (signs_in (R.shown m) candidate.now) sign.now) }
{
    match records.identifiers(candidate)? {
        Some(identifiers) => Ok(sign.is_of(candidate, identifiers.as_slice())),
        None => Ok(false),
    }
}

// Adds a candidate, where it is an open entity that has the sign. One that is there isn't looked at
// again.
fn add_if_signed<R: Records>(
    records: &mut R,
    alloc: Global,
    class: &mut Class,
    sign: &Sign,
    candidate: &Node,
) -> Result<(), R::Fault>
    ensures { ReadsSo R.reading records.old records.new result (λ m _.
        Grown (IsFound (R.shown m) sign.now candidate.now) class.old class.new) }
{
    if class.has(candidate) {
        return Ok(());
    }
    if !has_sign(records, sign, candidate)? {
        return Ok(());
    }
    class.add(candidate.copy(alloc)?)?;
    Ok(())
}

// Adds those of the candidates that are open entities and have the sign.
fn add_signed<R: Records>(
    records: &mut R,
    alloc: Global,
    class: &mut Class,
    sign: &Sign,
    candidates: &[Node],
) -> Result<(), R::Fault>
    ensures { ReadsSo R.reading records.old records.new result (λ m _.
        Grown (IsFoundIn (R.shown m) sign.now candidates.now) class.old class.new) }
{
    for candidate in candidates {
        add_if_signed(records, alloc, class, sign, candidate)?;
    }
    Ok(())
}

// Adds all open entities that have the sign, and answers how many candidates were looked at.
fn add_all_signed<R: Records>(
    records: &mut R,
    alloc: Global,
    class: &mut Class,
    sign: &Sign,
) -> Result<usize, R::Fault>
    ensures { ReadsSo R.reading records.old records.new result (λ m _.
        Grown (λ n. Contains (signs_in (R.shown m) n) sign.now) class.old class.new) }
{
    let candidates = records.signed(sign)?;
    add_signed(records, alloc, class, sign, candidates.as_slice())?;
    Ok(candidates.as_slice().len())
}

// Notes that a sign has been looked up.
fn note(looked: &mut BTreeSet<Sign>, sign: Sign) -> Result<(), AllocError>
    ensures { OnOk result ((k : Sign) → contains sign_cmp looked.new k
        ≡ (if is_eq (sign_cmp sign k) then true else contains sign_cmp looked.old k)) }
{
    looked.insert(sign)?;
    Ok(())
}

// Adds all open entities that have the sign, unless it has been looked up. A sign that comes once in
// its node, and has no other candidate, isn't noted: nobody asks for it again.
fn add_by_sign<R: Records>(
    records: &mut R,
    alloc: Global,
    class: &mut Class,
    looked: &mut BTreeSet<Sign>,
    sign: Sign,
    comes_once: bool,
) -> Result<(), R::Fault>
    ensures { ReadsSo R.reading records.old records.new result (λ m _.
        Expands (R.shown m) (sign ∷ []) class.old class.new
        (λ k. contains sign_cmp looked.old k) (λ k. contains sign_cmp looked.new k)) }
{
    if looked.contains(&sign) {
        return Ok(());
    }
    let candidates = add_all_signed(records, alloc, class, &sign)?;
    if comes_once && candidates < 2 {
        return Ok(());
    }
    note(looked, sign)?;
    Ok(())
}

// Adds, in the same way, all that have one of the identifiers.
fn add_by_identifiers<R: Records>(
    records: &mut R,
    alloc: Global,
    class: &mut Class,
    looked: &mut BTreeSet<Sign>,
    identifiers: &[Identifier],
) -> Result<(), R::Fault>
    ensures { ReadsSo R.reading records.old records.new result (λ m _.
        Expands (R.shown m) (map by_identifier identifiers.now) class.old class.new
        (λ k. contains sign_cmp looked.old k) (λ k. contains sign_cmp looked.new k)) }
{
    let comes_once = identifiers.len() == 1;
    for identifier in identifiers {
        let sign = Sign::of_identifier(alloc, identifier)?;
        add_by_sign(records, alloc, class, looked, sign, comes_once)?;
    }
    Ok(())
}

// Adds, in the same way, all that have one of the signs of a node: its aliases and the node, where
// it is an open entity.
fn add_by_node<R: Records>(
    records: &mut R,
    alloc: Global,
    class: &mut Class,
    looked: &mut BTreeSet<Sign>,
    node: &Node,
) -> Result<(), R::Fault>
    ensures { ReadsSo R.reading records.old records.new result (λ m _.
        Expands (R.shown m) (signs_in (R.shown m) node.now) class.old class.new
        (λ k. contains sign_cmp looked.old k) (λ k. contains sign_cmp looked.new k)) }
{
    let Some(identifiers) = records.identifiers(node)? else {
        return Ok(());
    };
    let sign = Sign::of_node(alloc, node)?;
    add_by_sign(records, alloc, class, looked, sign, true)?;
    add_by_identifiers(records, alloc, class, looked, identifiers.as_slice())
}

/// The nodes one alias away from a node, each once and in any order; none where the node isn't an
/// open entity.
pub fn aliases<R: Records>(
    records: &mut R,
    alloc: Global,
    node: &Node,
) -> Result<Vec<Node>, R::Fault>
    ensures { ReadsSo R.reading records.old records.new result (λ m nodes.
        AreAliases (R.shown m) node.now nodes.items) }
{
    let mut class = Class::new(alloc);
    let mut looked = BTreeSet::new(alloc);
    add_by_node(records, alloc, &mut class, &mut looked, node)?;
    Ok(class.into_others(node))
}

/// All nodes that stand for one entity with a node, by finitely many aliases, each once and in any
/// order; the node is one of them, whether or not it is open. Each sign of them is looked up once.
pub fn same<R: Records>(records: &mut R, alloc: Global, node: &Node) -> Result<Vec<Node>, R::Fault>
    ensures { ReadsSo R.reading records.old records.new result (λ m nodes.
        AreSame (R.shown m) node.now nodes.items) }
{
    let mut class = Class::new(alloc);
    class.add(node.copy(alloc)?)?;
    let mut looked = BTreeSet::new(alloc);
    let mut next = 0;
    while next < class.len() {
        let one = class.copy_at(next)?;
        add_by_node(records, alloc, &mut class, &mut looked, &one)?;
        next += 1;
    }
    Ok(class.into_nodes())
}

/// The open entities that have an identifier, each once and in any order, where no node is shown
/// twice. Beside the records that have it as a sign, none is read.
pub fn identified<R: Records>(
    records: &mut R,
    alloc: Global,
    identifier: &Identifier,
) -> Result<Vec<Node>, R::Fault>
    ensures { ReadsSo R.reading records.old records.new result (λ m nodes.
        AreDistinct (R.shown m).nodes
        → AreIdentified (R.shown m) identifier.now nodes.items) }
{
    let sign = Sign::of_identifier(alloc, identifier)?;
    let mut class = Class::new(alloc);
    add_all_signed(records, alloc, &mut class, &sign)?;
    Ok(class.into_nodes())
}
