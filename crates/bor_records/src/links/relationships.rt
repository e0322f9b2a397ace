//! Relationships that are read by key, and the links into a node that they state.

ghost use Rattle.std.specs.Prelude.{◌≡◌, true, IfOk, Some};
ghost use Rattle.std.specs.List.{filter_map};
ghost use Rattle.bor_records.specs.Reading.{ReadsSo};
ghost use Rattle.bor_records.specs.Links.Answers.{AreLinksInto};
ghost use Rattle.bor_records.specs.Links.Rows.{is_entity_info, is_some_info};
ghost use Rattle.bor_records.specs.Links.Shown.{info_of};
ghost use Rattle.bor_records.specs.Links.Relationships.{HaveNaming, IsOfRows, link_of, with_open_party};

use crate::links::class::once;
use crate::links::list::push_some;
use crate::links::node::{Link, Node};
use crate::links::records::Records;
use std::alloc::{AllocError, Global};
use std::convert::AsSlice;

/// Records of rows, whose relationships are read by key too.
pub trait Relationships: Records {
    /// Records among which are those of all links into a node.
    fn naming(&mut self, subject: &Node) -> Result<Self::Nodes, Self::Fault>
        ensures { ReadsSo Self.reading self.old self.new result (λ m nodes.
            HaveNaming (Self.shown m) subject.now (Self.Nodes.items nodes)) };

    /// The link into an open entity that a record states. Its party may not be open: then, and where
    /// there is none, no link into the entity is listed of this record.
    fn stated(&mut self, subject: &Node, rec: &Node) -> Result<Option<Link>, Self::Fault>
        ensures { ReadsSo Self.reading self.old self.new result (λ m link.
            is_entity_info (info_of (Self.shown m) subject.now) ≡ true →
            with_open_party (Self.shown m) link ≡ link_of (Self.shown m) subject.now rec.now) };

    /// Whether a record is an open entity or person.
    fn is_open(&mut self, node: &Node) -> Result<bool, Self::Fault>
        ensures { ReadsSo Self.reading self.old self.new result (λ m is.
            is ≡ is_some_info (info_of (Self.shown m) node.now)) };

    /// What is shown are nodes and links of rows.
    ghost of_rows: { (m : Self.Records.Content) → IsOfRows (Self.Records.shown m) };
}

// The link into an open entity that a record makes.
fn link_of<R: Relationships>(
    records: &mut R,
    subject: &Node,
    rec: &Node,
) -> Result<Option<Link>, R::Fault>
    ensures { ReadsSo R.reading records.old records.new result (λ m link.
        is_entity_info (info_of (R.shown m) subject.now) ≡ true
        → link ≡ link_of (R.shown m) subject.now rec.now) }
{
    match records.stated(subject, rec)? {
        Some(link) => if_open(records, link),
        None => Ok(None),
    }
}

// Whether the party of a link is open.
fn has_open_party<R: Relationships>(records: &mut R, link: &Link) -> Result<bool, R::Fault>
    ensures { ReadsSo R.reading records.old records.new result (λ m is.
        is ≡ is_some_info (info_of (R.shown m) link.now.party)) }
{
    records.is_open(&link.party)
}

// A link, where its party is open.
fn if_open<R: Relationships>(records: &mut R, link: Link) -> Result<Option<Link>, R::Fault>
    ensures { ReadsSo R.reading records.old records.new result (λ m kept.
        kept ≡ with_open_party (R.shown m) (Some link)) }
{
    if has_open_party(records, &link)? {
        Ok(Some(link))
    } else {
        Ok(None)
    }
}

// The links into an open entity that these records make.
fn links_of<R: Relationships>(
    records: &mut R,
    alloc: Global,
    subject: &Node,
    candidates: &[Node],
) -> Result<Vec<Link>, R::Fault>
    ensures { ReadsSo R.reading records.old records.new result (λ m links.
        is_entity_info (info_of (R.shown m) subject.now) ≡ true
        → links.items ≡ filter_map (link_of (R.shown m) subject.now) candidates.now) }
{
    let mut links = Vec::new(alloc);
    for rec in candidates {
        let link = link_of(records, subject, rec)?;
        push_some(&mut links, link)?;
    }
    Ok(links)
}

fn copied(alloc: Global, nodes: &[Node]) -> Result<Vec<Node>, AllocError>
    ensures { IfOk result (λ copied. copied.items ≡ nodes.now) }
{
    let mut copied = Vec::new(alloc);
    for node in nodes {
        copied.push(node.copy(alloc)?)?;
    }
    Ok(copied)
}

// The links into an open entity, by the records that name it, some maybe more than once.
fn links_named<R: Relationships>(
    records: &mut R,
    alloc: Global,
    subject: &Node,
    naming: &[Node],
) -> Result<Vec<Link>, R::Fault>
    ensures { ReadsSo R.reading records.old records.new result (λ m links.
        is_entity_info (info_of (R.shown m) subject.now) ≡ true
        → HaveNaming (R.shown m) subject.now naming.now
        → AreLinksInto (R.shown m) subject.now links.items) }
{
    if naming.len() < 2 {
        return links_of(records, alloc, subject, naming);
    }
    let candidates = once(copied(alloc, naming)?)?;
    links_of(records, alloc, subject, &candidates)
}

/// The links into a node, each once and in any order; none where the node isn't an open entity.
pub fn links_into<R: Relationships>(
    records: &mut R,
    alloc: Global,
    node: &Node,
) -> Result<Vec<Link>, R::Fault>
    ensures { ReadsSo R.reading records.old records.new result (λ m links.
        AreLinksInto (R.shown m) node.now links.items) }
{
    if records.identifiers(node)?.is_none() {
        return Ok(Vec::new(alloc));
    }
    let naming = records.naming(node)?;
    links_named(records, alloc, node, naming.as_slice())
}
