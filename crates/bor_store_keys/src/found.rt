//! The answers that a report last read, for one viewer and day.

ghost use Rattle.std.specs.Prelude.{◌≡◌, true, None, Option, Some, IfOk, IfSome, IsSomeAnd, OnOk};
ghost use Rattle.bor_records.specs.declared.links.node.NodeInfo.{NodeInfo};
ghost use Rattle.bor_records.specs.declared.links.node.OpenNode.{OpenNode};
ghost use Rattle.bor_records.specs.Links.ByKey.{node_at};
ghost use Rattle.bor_records.specs.Links.Series.{open_at};
ghost use Rattle.bor_records.specs.Links.Shown.{info_of};
ghost use Rattle.bor_register.specs.Register.{Register, filings_of};
ghost use Rattle.bor_store_reads.specs.Asking.{is_number_seen};
ghost use Rattle.bor_store_sql.specs.Rows.Stored.{IsStored};
ghost use Rattle.bor_records.specs.declared.links.node.Node.{Node};
ghost use Rattle.bor_store_keys.specs.declared.view.View.{View};
ghost use Rattle.bor_store_keys.specs.Finding.{AreOf, AreRecordsAt};
ghost use Rattle.bor_store_keys.specs.Signed.{record_standing};
ghost use Rattle.bor_store_keys.specs.Viewed.{rows_seen, seen};

use crate::view::View;
use bor_chains::ListSource;
use bor_records::Row;
use bor_records::links::{Node, NodeInfo, OpenNode, info_stated, node_of};
use bor_store_sql::rows::{At, FilingKey};
use std::alloc::{AllocError, Global};
use std::collections::BTreeMap;
use std::mem::drop;

// How many records are read before it is first asked whether all should be read.
const MANY: usize = 128;

// All are read where the register has at most so many statements per record that was read.
const SHARE: usize = 16;

/// For a view, whether the viewer sees a filing and which row a record shows, where that was read;
/// of these rows the records, by where they stand; and all that the viewer sees as lists, where it
/// was read.
#[derive(Drop)]
pub(crate) struct Found {
    pub(crate) view: View,
    pub(crate) filings: BTreeMap<FilingKey, bool>,
    pub(crate) rows: BTreeMap<Node, Option<Row>>,
    pub(crate) places: BTreeMap<At, Node>,
    pub(crate) lists: Option<ListSource>,
    /// How many records are read before it is next asked whether all should be read.
    pub(crate) many: usize,
}

impl Found {
    /// Nothing was read yet.
    pub(crate) fn new(alloc: Global, view: View) -> Found
        ensures view { result.view ≡ view }
        ensures nothing { (r : Register) → view.today ≡ r.day → AreOf r result }
    {
        Found {
            view,
            filings: BTreeMap::new(alloc),
            rows: BTreeMap::new(alloc),
            places: BTreeMap::new(alloc),
            lists: None,
            many: MANY,
        }
    }

    /// All that the viewer sees was read.
    pub(crate) fn listed(alloc: Global, view: View, lists: ListSource) -> Found
        ensures { (r : Register) → view.today ≡ r.day → lists.shown ≡ seen view r → AreOf r result }
    {
        let mut found = Found::new(alloc, view);
        found.lists = Some(lists);
        found
    }

    /// How many statements the register may have at most for all of it to be read now: `SHARE` per
    /// record that was read. `None` where too few records were read since it last gave a limit: a
    /// limit doubles the records that it takes to give the next.
    pub(crate) fn most(&mut self) -> Option<u32>
        ensures view { self.new.view ≡ self.old.view }
        ensures same { (r : Register) → AreOf r self.old → AreOf r self.new }
    {
        let read = self.rows.len();
        if read < self.many {
            return None;
        }
        self.many = read.saturating_mul(2);
        u32::try_from(read.saturating_mul(SHARE)).ok()
    }

    /// The lists, which are taken out so that they can be asked.
    pub(crate) fn take_lists(&mut self) -> Option<ListSource>
        ensures view { self.new.view ≡ self.old.view }
        ensures same { (r : Register) → AreOf r self.old → AreOf r self.new }
        ensures lists { result ≡ self.old.lists }
    {
        self.lists.take()
    }

    /// Whether the viewer sees the filing.
    pub(crate) fn filing(&self, key: &FilingKey) -> Option<bool>
        ensures { IfSome result (λ seen. (r : Register) → AreOf r self.now
            → seen ≡ is_number_seen self.now.view.viewer self.now.view.today key.now.agent
            (filings_of key.now.agent r.members) key.now.number) }
    {
        match self.filings.get(key) {
            Some(seen) => Some(*seen),
            None => None,
        }
    }

    /// The answers with this filing too; nothing where memory is wanting.
    pub(crate) fn with_filing(self, key: FilingKey, seen: bool) -> Option<Found>
        ensures { IfSome result (λ found. (r : Register) → AreOf r self
            → seen ≡ is_number_seen self.view.viewer self.view.today key.agent
            (filings_of key.agent r.members) key.number → AreOf r found) }
    {
        let Found {
            view,
            mut filings,
            rows,
            places,
            lists,
            many,
        } = self;
        match filings.insert(key, seen) {
            Ok(_) => Some(Found {
                view,
                filings,
                rows,
                places,
                lists,
                many,
            }),
            Err(_) => None,
        }
    }

    /// The data that a chain needs of the node that a record makes. `None` where it wasn't read
    /// yet, `Some(None)` where the record makes no open node.
    #[tactic(auto, using(bor_records::proofs::OnLinks::Stated::row_closed))]
    pub(crate) fn info(
        &self,
        alloc: Global,
        node: &Node,
    ) -> Result<Option<Option<NodeInfo>>, AllocError>
        ensures { IfOk result (λ found.
            (r : Register) (info : Option NodeInfo) → AreOf r self.now → found ≡ Some info
            → info ≡ info_of (seen self.now.view r) node.now) }
    {
        match self.rows.get(node) {
            Some(Some(row)) => Ok(Some(info_stated(alloc, &row.statement.details)?)),
            Some(None) => Ok(Some(None)),
            None => Ok(None),
        }
    }

    /// The node that a record makes. `None` where it wasn't read yet, `Some(None)` where the record
    /// makes no open node.
    pub(crate) fn node(
        &self,
        alloc: Global,
        node: &Node,
    ) -> Result<Option<Option<OpenNode>>, AllocError>
        ensures { IfOk result (λ found.
            (r : Register) (one : Option OpenNode) → AreOf r self.now → found ≡ Some one
            → one ≡ node_at self.now.view.day node.now (rows_seen self.now.view r)) }
    {
        match self.rows.get(node) {
            Some(Some(row)) => Ok(Some(node_of(alloc, row)?)),
            Some(None) => Ok(Some(None)),
            None => Ok(None),
        }
    }

    /// The answers with the row that this record shows too; nothing where memory is wanting.
    pub(crate) fn with_row(mut self, alloc: Global, node: Node, row: Option<Row>) -> Option<Found>
        ensures { IfSome result (λ found. (r : Register) → IsStored r → AreOf r self
            → row ≡ open_at self.view.day node (rows_seen self.view r) → AreOf r found) }
    {
        match self.put_row(alloc, node, row) {
            Ok(()) => Some(self),
            Err(_) => None,
        }
    }

    // Puts the row that this record shows, and the record under its place.
    fn put_row(&mut self, alloc: Global, node: Node, row: Option<Row>) -> Result<(), AllocError>
        ensures { OnOk result ((r : Register) → IsStored r → AreOf r self.old
            → row ≡ open_at self.old.view.day node (rows_seen self.old.view r) → AreOf r self.new) }
    {
        let placed = put_place(alloc, &mut self.places, &node, &row);
        drop(self.rows.insert(node, row)?);
        placed
    }

    /// The record of the statement at a place.
    pub(crate) fn placed(&self, alloc: Global, at: &At) -> Result<Option<Node>, AllocError>
        ensures { IfOk result (λ found.
            (r : Register) (n : Node) → AreOf r self.now → found ≡ Some n
            → record_standing r.members at.now ≡ Some n) }
    {
        match self.places.get(at) {
            Some(node) => Ok(Some(node.copy(alloc)?)),
            None => Ok(None),
        }
    }
}

// Whether answers were found for this view.
fn is_for(found: &Option<Found>, view: &View) -> bool
    ensures { result ≡ true → IsSomeAnd found.now (λ one. one.view ≡ view.now) }
{
    match found {
        Some(one) => one.view.is(view),
        None => false,
    }
}

/// The answers that were found, which are taken out where they are for this view.
pub(crate) fn taken(found: &mut Option<Found>, view: &View) -> Option<Found>
    ensures left { result ≡ None → found.new ≡ found.old }
    ensures view { IfSome result (λ one. one.view ≡ view.now) }
    ensures was { IfSome result (λ one. found.old ≡ Some one) }
{
    if is_for(found, view) {
        found.take()
    } else {
        None
    }
}

// Puts the record under the place of the row that it shows; tables have no place past 32 bits.
fn put_place(
    alloc: Global,
    places: &mut BTreeMap<At, Node>,
    node: &Node,
    row: &Option<Row>,
) -> Result<(), AllocError>
    ensures { OnOk result ((r : Register) (view : View) → IsStored r → AreRecordsAt r places.old
        → row.now ≡ open_at view.day node.now (rows_seen view r) → AreRecordsAt r places.new) }
{
    let Some(row) = row else {
        return Ok(());
    };
    let Ok(place) = u32::try_from(row.place) else {
        return Ok(());
    };
    let at = At {
        filing: row.filing,
        place,
        agent: row.agent.copy(alloc)?,
    };
    places.insert(at, node.copy(alloc)?)?;
    Ok(())
}
