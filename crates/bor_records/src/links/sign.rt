//! By what two open entities may be alike, so that the aliases of one are looked for among few.

ghost use Rattle.std.specs.Prelude.{◌≡◌, ◌↔◌, ◌&&◌, ◌++◌, Contains, IfOk, OnOk, IsTrue, map};
ghost use Rattle.std.specs.List.{list_any};
ghost use Rattle.bor_terms.specs.Texts.{is_same};
ghost use Rattle.bor_records.specs.Links.Signs.{by_record, by_identifier, signs, signs_with};

use crate::links::node::{Node, OpenNode};
use bods_read::{FreeText, Identifier};
use std::alloc::{AllocError, Global};

/// An agent with a record, or a scheme with an identifier. Two entities that are alike have one in
/// common. The name is compared first: most signs are of few agents and schemes.
#[derive(Drop, PartialEq, Eq, PartialOrd, Ord)]
pub struct Sign {
    /// The record, or the identifier.
    pub name: FreeText,
    /// The agent, or the scheme.
    pub group: FreeText,
    /// It is an agent with a record.
    pub of_record: bool,
}

impl Sign {
    /// The agent with the record.
    pub fn of_node(alloc: Global, node: &Node) -> Result<Sign, AllocError>
        ensures { IfOk result (λ sign. sign ≡ by_record node.now) }
    {
        Ok(Sign {
            name: node.rec.shared(alloc)?,
            group: node.agent.shared(alloc)?,
            of_record: true,
        })
    }

    /// The scheme with the identifier.
    pub fn of_identifier(alloc: Global, identifier: &Identifier) -> Result<Sign, AllocError>
        ensures { IfOk result (λ sign. sign ≡ by_identifier identifier.now) }
    {
        Ok(Sign {
            name: identifier.id.copy(alloc)?,
            group: identifier.scheme.copy(alloc)?,
            of_record: false,
        })
    }

    fn names_record(&self, node: &Node) -> bool
        ensures { result
            ≡ (is_same self.now.name node.now.rec && is_same self.now.group node.now.agent) }
    {
        self.name.as_str() == node.rec.as_str() && self.group.as_str() == node.agent.as_str()
    }

    fn names_one(&self, identifiers: &[Identifier]) -> bool
        ensures { result ≡ list_any
            (λ i. is_same i.id self.now.name && is_same i.scheme self.now.group) identifiers.now }
    {
        identifiers
            .iter()
            .any(|one| one.id == self.name && one.scheme == self.group)
    }

    /// Whether an entity of this record, with these identifiers, has the sign.
    pub fn is_of(&self, node: &Node, identifiers: &[Identifier]) -> bool
        ensures { IsTrue result ↔ Contains (signs_with node.now identifiers.now) self.now }
    {
        if self.of_record {
            self.names_record(node)
        } else {
            self.names_one(identifiers)
        }
    }
}

/// Adds the signs of identifiers.
pub fn push_signs(
    alloc: Global,
    signs: &mut Vec<Sign>,
    identifiers: &[Identifier],
) -> Result<(), AllocError>
    ensures { OnOk result (signs.new.items ≡ signs.old.items ++ map by_identifier identifiers.now) }
{
    for identifier in identifiers {
        signs.push(Sign::of_identifier(alloc, identifier)?)?;
    }
    Ok(())
}

/// The signs that an entity has.
pub fn signs_of(alloc: Global, one: &OpenNode) -> Result<Vec<Sign>, AllocError>
    ensures { IfOk result (λ found. found.items ≡ signs one.now) }
{
    let mut signs = Vec::new(alloc);
    signs.push(Sign::of_node(alloc, &one.node)?)?;
    push_signs(alloc, &mut signs, one.identifiers.as_slice())?;
    Ok(signs)
}
