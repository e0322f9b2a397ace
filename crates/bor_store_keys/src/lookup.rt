//! A connection, with what was found over it for a viewer and a day.

ghost use Rattle.std.specs.Prelude.{◌≡◌, length, map, nat_le, not, option_map, slice_get, Option, Some, IfOk, IfSome};
ghost use Rattle.sqlite.specs.Held.{state};
ghost use Rattle.bor_records.specs.declared.links.node.Node.{Node};
ghost use Rattle.bor_records.specs.declared.links.node.NodeInfo.{NodeInfo};
ghost use Rattle.bor_records.specs.declared.links.node.OpenNode.{OpenNode};
ghost use Rattle.bor_records.specs.Links.ByKey.{node_at};
ghost use Rattle.bor_records.specs.Links.Series.{open_at};
ghost use Rattle.bor_records.specs.Links.Shown.{info_of};
ghost use Rattle.bor_register.specs.Register.{filings_of};
ghost use Rattle.bor_register.specs.Rows.{visible};
ghost use Rattle.bor_store_sql.specs.Rows.Placed.{bare, placed};
ghost use Rattle.bor_store_sql.specs.Selected.{identified_by, identifiers_at, in_record, in_series, interests_at, placed_of, standing_at, with_subject};
ghost use Rattle.bor_store_sql.specs.Shown.{IsUp};
ghost use Rattle.bor_store_reads.specs.Answering.{ReadsIn};
ghost use Rattle.bor_store_reads.specs.Asking.{is_number_seen};
ghost use Rattle.bor_store_keys.specs.Finding.{Holds};
ghost use Rattle.bor_store_keys.specs.Signed.{record_standing};
ghost use Rattle.bor_store_keys.specs.Viewed.{rows_seen, seen};

use crate::found::{Found, taken};
use crate::view::View;
use bor_chains::ListSource;
use bor_records::Row;
use bor_records::links::{Node, NodeInfo, OpenNode};
use bor_store_reads::{
    ReadError, has_more, identifiers_of_one, interests_of_one, is_number_seen, read_day,
    read_identified, read_place, read_record, read_series, read_subject, read_visible,
};
use bor_store_sql::rows::{At, FilingKey, IdentifierRow, InterestRow, StatementRow};
use bor_terms::{AgentName, Day};
use sqlite::{Alter, Connection};
use std::alloc::{AllocError, Global};
use std::marker::Model;
use std::mem::drop;

/// A connection to a register's tables, with the answers that a report last read over it: of one
/// viewer and day the filings that are seen and what nodes show, with where it stands. So a report
/// reads each of them once. Where a report has met much of the register, all is read at once, and
/// the report asks lists in memory from then on. The answers are forgotten where the connection is
/// used for anything else.
#[derive(Drop)]
pub struct Lookup<S: Alter + Drop> {
    conn: Connection<S>,
    found: Option<Found>,
}

impl<S: Alter + Drop> Model for Lookup<S> {
    ghost use Rattle.sqlite.specs.Held.{Held, held_code};

    ghost Value = { Held S };

    ghost coded = { held_code S.code };

    ghost use Rattle.sqlite.specs.Held.{state};
    ghost use Rattle.bor_store_keys.specs.Finding.{IsCurrent};

    ghost view = { λ l. l.conn };

    // The answers that were found are of the register that the connection shows.
    ghost invariant = { λ l. IsCurrent (state S.Store l.conn) l.found };
}

impl<S: Alter + Drop> Lookup<S> {
    ghost use Rattle.std.specs.Borrow.{Lends, sem};
    ghost use Rattle.sqlite.specs.contracts.connection.Connection as held;
    ghost use Rattle.bor_store_keys.specs.contracts.lookup.Lookup.{the_row};

    /// A connection over which nothing has been found.
    pub fn new(conn: Connection<S>) -> Lookup<S>
        ensures { result ≡ conn }
    {
        Lookup { conn, found: None }
    }

    /// The connection, for whatever is asked of it. What was found is forgotten.
    pub fn connection(&mut self) -> &mut Connection<S>
        ensures* writes_back { sem 𝓛 (Lends (the_row S.row S.Store)
            (held.the_row S.row S.Store) self.entry result (λ w. w)) }
        ensures value { result.now ≡ self.old }
    {
        self.found = None;
        &mut self.conn
    }

    /// The connection.
    pub fn into_connection(self) -> Connection<S>
        ensures { result ≡ self }
    {
        self.conn
    }
}

// A read of the tables leaves the answers that have been found.
#[tactic(auto, using(crate::proofs::Holding::still_found, crate::proofs::Holding::read_within, bor_store_reads::proofs::Reading::read_fails))]
impl<S: Alter + Drop> Lookup<S> {
    /// The register's day, as it is read.
    pub(crate) fn read_today(&mut self, alloc: Global) -> Result<Day, ReadError>
        ensures { ReadsIn S.Store self.old self.new result (λ r day. day ≡ r.day) }
    {
        read_day(&mut self.conn, alloc)
    }

    /// Whether the viewer sees the agent's filing with this number.
    pub(crate) fn filing_seen(
        &mut self,
        alloc: Global,
        view: &View,
        agent: &AgentName,
        number: u32,
    ) -> Result<bool, ReadError>
        ensures { ReadsIn S.Store self.old self.new result (λ r seen.
            seen ≡ is_number_seen view.now.viewer view.now.today agent.now
            (filings_of agent.now r.members) number) }
    {
        is_number_seen(
            &mut self.conn,
            alloc,
            &view.viewer,
            agent,
            view.today,
            number,
        )
    }

    /// The rows of a record's live statements, by filing and place.
    pub(crate) fn series(
        &mut self,
        alloc: Global,
        node: &Node,
    ) -> Result<Vec<StatementRow>, ReadError>
        ensures { ReadsIn S.Store self.old self.new result (λ r rows.
            rows.items ≡ map bare
            (in_series node.now.declaration node.now.rec (placed_of node.now.agent r))) }
    {
        read_series(
            &mut self.conn,
            alloc,
            &node.agent,
            &node.declaration,
            &node.rec,
        )
    }

    /// The rows of the live statements that name this record as their subject, by filing and place.
    pub(crate) fn naming(
        &mut self,
        alloc: Global,
        node: &Node,
    ) -> Result<Vec<StatementRow>, ReadError>
        ensures { ReadsIn S.Store self.old self.new result (λ r rows.
            rows.items ≡ map bare
            (with_subject node.now.declaration node.now.rec (placed_of node.now.agent r))) }
    {
        read_subject(
            &mut self.conn,
            alloc,
            &node.agent,
            &node.declaration,
            &node.rec,
        )
    }

    /// The rows of the live statements of the agent's records with this identifier, of whatever
    /// declaration.
    pub(crate) fn recorded(
        &mut self,
        alloc: Global,
        agent: &str,
        rec: &str,
    ) -> Result<Vec<StatementRow>, ReadError>
        ensures { ReadsIn S.Store self.old self.new result (λ r rows.
            rows.items ≡ map bare (in_record rec.now (placed_of agent.now r))) }
    {
        read_record(&mut self.conn, alloc, agent, rec)
    }

    /// The rows of the identifiers of all live statements that are these.
    pub(crate) fn identified(
        &mut self,
        alloc: Global,
        scheme: &str,
        id: &str,
    ) -> Result<Vec<IdentifierRow>, ReadError>
        ensures { ReadsIn S.Store self.old self.new result (λ r rows.
            rows.items ≡ identified_by scheme.now id.now r.members) }
    {
        read_identified(&mut self.conn, alloc, scheme, id)
    }

    /// The row of the live statement at a place.
    pub(crate) fn standing(
        &mut self,
        alloc: Global,
        at: &At,
    ) -> Result<Option<StatementRow>, ReadError>
        ensures { ReadsIn S.Store self.old self.new result (λ r row.
            row ≡ option_map bare (slice_get (standing_at at.now r.members) 0)) }
    {
        read_place(&mut self.conn, alloc, at)
    }

    /// The interests of the statement at a place.
    pub(crate) fn interests(
        &mut self,
        alloc: Global,
        at: &At,
    ) -> Result<Vec<InterestRow>, ReadError>
        ensures { ReadsIn S.Store self.old self.new result (λ r rows.
            rows.items ≡ interests_at at.now r.members) }
    {
        interests_of_one(&mut self.conn, alloc, at)
    }

    /// The identifiers of the statement at a place.
    pub(crate) fn identifiers(
        &mut self,
        alloc: Global,
        at: &At,
    ) -> Result<Vec<IdentifierRow>, ReadError>
        ensures { ReadsIn S.Store self.old self.new result (λ r rows.
            rows.items ≡ identifiers_at at.now r.members) }
    {
        identifiers_of_one(&mut self.conn, alloc, at)
    }

    // Whether there are more live statements than so many.
    fn has_more(&mut self, most: u32) -> Result<bool, ReadError>
        ensures reads { ReadsIn S.Store self.old self.new result (λ r more.
            more ≡ not (nat_le (length (placed r.members)) most)) }
        ensures up { IfOk result (λ _. IsUp (state S.Store self.new)) }
    {
        has_more(&mut self.conn, most)
    }

    // All rows that the viewer sees on the register's day.
    fn visible(&mut self, alloc: Global, viewer: &AgentName) -> Result<Vec<Row>, ReadError>
        ensures { ReadsIn S.Store self.old self.new result (λ r rows.
            rows.items ≡ visible viewer.now r.day r.members) }
    {
        read_visible(&mut self.conn, alloc, viewer)
    }
}

// The answers that have been found.
impl<S: Alter + Drop> Lookup<S> {
    /// The register's day, where something was found for this viewer on this day.
    pub(crate) fn today(&self, viewer: &AgentName, day: Day) -> Option<Day>
        ensures { IfSome result (λ today. Holds (state S.Store self.now) (λ r. today ≡ r.day)) }
    {
        match &self.found {
            Some(found) if found.view.is_of(viewer, day) => Some(found.view.today),
            _ => None,
        }
    }

    /// From here on what is found is for this view.
    pub(crate) fn begin(&mut self, alloc: Global, view: View)
        requires { Holds (state S.Store self.old) (λ r. view.today ≡ r.day) }
        ensures { self.new ≡ self.old }
    {
        self.found = Some(Found::new(alloc, view));
    }

    /// Whether the viewer sees the filing, where that was found.
    pub(crate) fn is_seen(&self, view: &View, key: &FilingKey) -> Option<bool>
        ensures { IfSome result (λ seen. Holds (state S.Store self.now) (λ r.
            seen ≡ is_number_seen view.now.viewer view.now.today key.now.agent
            (filings_of key.now.agent r.members) key.now.number)) }
    {
        match &self.found {
            Some(found) if found.view.is(view) => found.filing(key),
            _ => None,
        }
    }

    /// Notes whether the viewer sees the filing.
    pub(crate) fn note_filing(&mut self, view: &View, key: FilingKey, seen: bool)
        requires { Holds (state S.Store self.old) (λ r.
            seen ≡ is_number_seen view.now.viewer view.now.today key.agent
            (filings_of key.agent r.members) key.number) }
        ensures { self.new ≡ self.old }
    {
        if let Some(found) = taken(&mut self.found, view) {
            self.found = found.with_filing(key, seen);
        }
    }

    /// The data that a chain needs of the node that a record makes, where that was found. `None`
    /// where it wasn't read yet for this view, `Some(None)` where the record makes no open node.
    pub(crate) fn info(
        &self,
        alloc: Global,
        view: &View,
        node: &Node,
    ) -> Result<Option<Option<NodeInfo>>, AllocError>
        ensures { IfOk result (λ found.
            (info : Option NodeInfo) → found ≡ Some info → Holds (state S.Store self.now) (λ r.
            info ≡ info_of (seen view.now r) node.now)) }
    {
        match &self.found {
            Some(found) if found.view.is(view) => found.info(alloc, node),
            _ => Ok(None),
        }
    }

    /// The node that a record makes, where that was found. `None` where it wasn't read yet for this
    /// view, `Some(None)` where the record makes no open node.
    pub(crate) fn node(
        &self,
        alloc: Global,
        view: &View,
        node: &Node,
    ) -> Result<Option<Option<OpenNode>>, AllocError>
        ensures { IfOk result (λ found.
            (one : Option OpenNode) → found ≡ Some one → Holds (state S.Store self.now) (λ r.
            one ≡ node_at view.now.day node.now (rows_seen view.now r))) }
    {
        match &self.found {
            Some(found) if found.view.is(view) => found.node(alloc, node),
            _ => Ok(None),
        }
    }

    /// The record of the statement at a place, where that was found.
    pub(crate) fn placed(&self, alloc: Global, at: &At) -> Result<Option<Node>, AllocError>
        ensures { IfOk result (λ found.
            (n : Node) → found ≡ Some n → Holds (state S.Store self.now) (λ r.
            record_standing r.members at.now ≡ Some n)) }
    {
        match &self.found {
            Some(found) => found.placed(alloc, at),
            None => Ok(None),
        }
    }

    /// Notes the row that a record shows.
    pub(crate) fn note_row(&mut self, alloc: Global, view: &View, node: Node, row: Option<Row>)
        requires { Holds (state S.Store self.old) (λ r.
            row ≡ open_at view.now.day node (rows_seen view.now r)) }
        ensures { self.new ≡ self.old }
    {
        match taken(&mut self.found, view) {
            Some(found) => self.found = found.with_row(alloc, node, row),
            None => drop(row),
        }
    }

    // How many statements the register may have at most for all of it to be read now; `None` where
    // too few records were read.
    fn most(&mut self, view: &View) -> Option<u32>
        ensures kept { self.new ≡ self.old }
        ensures today { IfSome result (λ _.
            Holds (state S.Store self.old) (λ r. view.now.today ≡ r.day)) }
    {
        let mut found = taken(&mut self.found, view)?;
        let most = found.most();
        self.found = Some(found);
        most
    }

    // Notes all rows that the viewer sees, as lists; nothing where memory is wanting.
    fn note_rows(&mut self, alloc: Global, view: &View, rows: &[Row])
        requires today { Holds (state S.Store self.old) (λ r. view.now.today ≡ r.day) }
        requires rows { Holds (state S.Store self.old) (λ r. rows.now ≡ rows_seen view.now r) }
        ensures { self.new ≡ self.old }
    {
        if let Ok(view) = view.copy(alloc) {
            if let Ok(lists) = ListSource::from_rows(alloc, rows, view.day) {
                self.found = Some(Found::listed(alloc, view, lists));
            }
        }
    }

    /// The lists of all that the viewer sees, where all was read. They are taken out, so that they
    /// can be asked.
    pub(crate) fn take_lists(&mut self, view: &View) -> Option<ListSource>
        ensures kept { self.new ≡ self.old }
        ensures lists { IfSome result (λ lists.
            Holds (state S.Store self.old) (λ r. lists.shown ≡ seen view.now r)) }
    {
        let mut found = taken(&mut self.found, view)?;
        let lists = found.take_lists();
        self.found = Some(found);
        lists
    }

    /// Puts back the lists that were taken out.
    pub(crate) fn put_lists(&mut self, view: &View, lists: ListSource)
        requires { Holds (state S.Store self.old) (λ r. lists.shown ≡ seen view.now r) }
        ensures { self.new ≡ self.old }
    {
        match self.found.take() {
            Some(mut found) if found.view.is(view) => {
                found.lists = Some(lists);
                self.found = Some(found);
            }
            other => self.found = other,
        }
    }
}

// The rows that are read at once.
impl<S: Alter + Drop> Lookup<S> {
    // Reads and notes all rows that the viewer sees, where the register has at most so many
    // statements.
    fn list(&mut self, alloc: Global, view: &View, most: u32) -> Result<(), ReadError>
        requires { Holds (state S.Store self.old) (λ r. view.now.today ≡ r.day) }
        ensures { ReadsIn S.Store self.old self.new result (λ r _. Unit {0}) }
    {
        if self.has_more(most)? {
            return Ok(());
        }
        let rows = self.visible(alloc, &view.viewer)?;
        self.note_rows(alloc, view, &rows);
        Ok(())
    }

    /// Where many records were read one by one, and the register isn't much larger, reads and notes
    /// all that the viewer sees. Where memory is wanting for it, records are read one by one as
    /// before; the store is asked once more then, since it may have shut.
    pub(crate) fn list_where_many(&mut self, alloc: Global, view: &View) -> Result<(), ReadError>
        ensures { ReadsIn S.Store self.old self.new result (λ r _. Unit {0}) }
    {
        let Some(most) = self.most(view) else {
            return Ok(());
        };
        match self.list(alloc, view, most) {
            Err(ReadError::Memory) => {
                self.has_more(most)?;
                Ok(())
            }
            told => told,
        }
    }
}
