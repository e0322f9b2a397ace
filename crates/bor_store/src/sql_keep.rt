//! A register in tables.

ghost use Rattle.std.specs.Prelude.{◌≡◌, false};
ghost use Rattle.std.proofs.Common.{sym};
ghost use Rattle.sqlite.specs.Held.{state};
ghost use Rattle.sqlite.specs.Tree.{Trees};
ghost use Rattle.bor_records.specs.Promises.{counted};
ghost use Rattle.bor_store_sql.proofs.Ending.{stands_in};
ghost use Rattle.bor_store.specs.Tables.{of_tables};
ghost use Rattle.bor_store.specs.Telling.{tells, tells_made, store_fault_of};

use crate::lodging::add_next_filing;
use bods_read::{Identifier, Statement};
use bor_desk::mirror::{MirrorStore, StoreState};
use bor_records::links::{Link, Node, NodeInfo};
use bor_records::{Last, Row};
use bor_register::keeping::Keep;
use bor_register::memory::ListKeep;
use bor_register::{AgentLine, Caller, Filing, FilingLine, Outward, StoreFault};
use bor_store_keys::{
    Lookup, read_aliases, read_identified, read_links_into, read_node, read_open_row, read_same,
};
use bor_store_reads::{
    ReadError, filing_count, has_agent, has_file, has_statement, has_successor, read_agents,
    read_day, read_filing, read_filings, read_last, read_line, read_published, read_rows_of,
    read_visible, read_who, read_whole,
};
use bor_store_sql::{add_agent, set_day, set_token, withdraw_filing};
use bor_terms::{AgentName, Day, Ident, LodgeKey, Token};
use sqlite::{Alter, Error, ErrorCode};
use std::alloc::Global;

/// A register in the tables of a connection. No transaction is open between its calls.
#[derive(Drop)]
pub struct SqlKeep<S: Alter + Drop> {
    pub(crate) alloc: Global,
    pub(crate) conn: Lookup<S>,
    pub(crate) faults: u64,
    ghost settled: { conn.in_transaction ≡ false },
}

impl<S: Alter + Drop> SqlKeep<S> {
    // The answer, or the fault of an error, which is counted.
    fn told<T>(&mut self, answer: Result<T, ReadError>) -> Result<T, StoreFault>
        ensures conn { self.new.conn ≡ self.old.conn }
        ensures told { result ≡ tells answer }
        ensures counts { self.new.faults ≡ counted answer self.old.faults }
    {
        match answer {
            Ok(answer) => Ok(answer),
            Err(error) => {
                self.faults = self.faults.wrapping_add(1);
                Err(StoreFault::from(error))
            }
        }
    }

    // The answer of a change, or the fault of its error, in the same way: want of memory is
    // `Memory`, and each other error a store that failed.
    fn made<T>(&mut self, made: Result<T, Error>) -> Result<T, StoreFault>
        ensures conn { self.new.conn ≡ self.old.conn }
        ensures told { result ≡ tells_made made }
        ensures counts { self.new.faults ≡ counted made self.old.faults }
    {
        match made {
            Ok(made) => Ok(made),
            Err(error) => {
                self.faults = self.faults.wrapping_add(1);
                Err(fault_of(error))
            }
        }
    }
}

// The fault of an error of the store.
fn fault_of(error: Error) -> StoreFault
    ensures { result ≡ store_fault_of error }
{
    match error {
        Error::SqliteFailure(ErrorCode::OutOfMemory) => StoreFault::Memory,
        _ => StoreFault::Store,
    }
}

#[tactic(auto, using(bor_store_reads::proofs::Found::still_shows, crate::proofs::Telling::still_kept, crate::proofs::Telling::lasts_told, crate::proofs::Telling::up_told, crate::proofs::Telling::undamaged_told))]
impl<S: Alter + Drop> Keep for SqlKeep<S> {
    ghost Left = { Trees };

    ghost meaning = { of_tables (λ k. state S.Store k.conn) (λ k. k.faults) };

    fn faults(&self) -> u64 {
        self.faults
    }

    fn who(&mut self, token: &Token) -> Result<Option<Caller>, StoreFault> {
        let answer = read_who(self.conn.connection(), self.alloc, token);
        self.told(answer)
    }

    fn has_agent(&mut self, agent: &AgentName) -> Result<bool, StoreFault> {
        let answer = has_agent(self.conn.connection(), agent);
        self.told(answer)
    }

    fn day(&mut self) -> Result<Day, StoreFault> {
        let answer = read_day(self.conn.connection(), self.alloc);
        self.told(answer)
    }

    fn filing(&mut self, agent: &AgentName, key: &LodgeKey) -> Result<Option<Filing>, StoreFault> {
        let answer = read_filing(self.conn.connection(), self.alloc, agent, key);
        self.told(answer)
    }

    fn line(
        &mut self,
        agent: &AgentName,
        key: &LodgeKey,
    ) -> Result<Option<FilingLine>, StoreFault> {
        let answer = read_line(self.conn.connection(), self.alloc, agent, key);
        self.told(answer)
    }

    fn has_file(
        &mut self,
        agent: &AgentName,
        key: &LodgeKey,
        bytes: &[u8],
    ) -> Result<bool, StoreFault> {
        let answer = has_file(self.conn.connection(), agent, key, bytes);
        self.told(answer)
    }

    fn filing_count(&mut self, agent: &AgentName) -> Result<usize, StoreFault> {
        let answer = filing_count(self.conn.connection(), self.alloc, agent);
        self.told(answer)
    }

    fn filings(&mut self, agent: &AgentName) -> Result<Vec<FilingLine>, StoreFault> {
        let answer = read_filings(self.conn.connection(), self.alloc, agent);
        self.told(answer)
    }

    fn last(
        &mut self,
        agent: &AgentName,
        declaration: &Ident,
        rec: &Ident,
    ) -> Result<Option<Last>, StoreFault> {
        let answer = read_last(self.conn.connection(), self.alloc, agent, declaration, rec);
        self.told(answer)
    }

    fn has_statement(&mut self, agent: &AgentName, id: &Ident) -> Result<bool, StoreFault> {
        let answer = has_statement(self.conn.connection(), agent, id);
        self.told(answer)
    }

    fn has_successor(&mut self, agent: &AgentName, number: u32) -> Result<bool, StoreFault> {
        let answer = has_successor(self.conn.connection(), self.alloc, agent, number);
        self.told(answer)
    }

    fn rows_of(
        &mut self,
        viewer: &AgentName,
        agent: &AgentName,
        declaration: &Ident,
    ) -> Result<Vec<Row>, StoreFault> {
        let answer = read_rows_of(
            self.conn.connection(),
            self.alloc,
            viewer,
            agent,
            declaration,
        );
        self.told(answer)
    }

    fn visible_rows(&mut self, viewer: &AgentName) -> Result<Vec<Row>, StoreFault> {
        let answer = read_visible(self.conn.connection(), self.alloc, viewer);
        self.told(answer)
    }

    fn open_row(
        &mut self,
        viewer: &AgentName,
        day: Day,
        node: &Node,
    ) -> Result<Option<Row>, StoreFault> {
        let answer = read_open_row(&mut self.conn, self.alloc, viewer, day, node);
        self.told(answer)
    }

    fn node(
        &mut self,
        viewer: &AgentName,
        day: Day,
        node: &Node,
    ) -> Result<Option<NodeInfo>, StoreFault> {
        let answer = read_node(&mut self.conn, self.alloc, viewer, day, node);
        self.told(answer)
    }

    fn aliases(
        &mut self,
        viewer: &AgentName,
        day: Day,
        node: &Node,
    ) -> Result<Vec<Node>, StoreFault> {
        let answer = read_aliases(&mut self.conn, self.alloc, viewer, day, node);
        self.told(answer)
    }

    fn same(&mut self, viewer: &AgentName, day: Day, node: &Node) -> Result<Vec<Node>, StoreFault> {
        let answer = read_same(&mut self.conn, self.alloc, viewer, day, node);
        self.told(answer)
    }

    fn identified(
        &mut self,
        viewer: &AgentName,
        day: Day,
        identifier: &Identifier,
    ) -> Result<Vec<Node>, StoreFault> {
        let answer = read_identified(&mut self.conn, self.alloc, viewer, day, identifier);
        self.told(answer)
    }

    fn links_into(
        &mut self,
        viewer: &AgentName,
        day: Day,
        node: &Node,
    ) -> Result<Vec<Link>, StoreFault> {
        let answer = read_links_into(&mut self.conn, self.alloc, viewer, day, node);
        self.told(answer)
    }

    fn published(&mut self) -> Result<Vec<Outward>, StoreFault> {
        let answer = read_published(self.conn.connection(), self.alloc);
        self.told(answer)
    }

    fn agents(&mut self) -> Result<Vec<AgentLine>, StoreFault> {
        let answer = read_agents(self.conn.connection(), self.alloc);
        self.told(answer)
    }

    fn add_filing(
        &mut self,
        agent: &AgentName,
        count: usize,
        key: &LodgeKey,
        due: Day,
        bytes: &[u8],
        statements: &[Statement],
    ) -> Result<(), StoreFault> {
        let made = add_next_filing(
            self.conn.connection(),
            self.alloc,
            agent,
            count,
            key,
            due,
            bytes,
            statements,
        );
        self.made(made)
    }

    fn withdraw(&mut self, agent: &AgentName, number: u32) -> Result<(), StoreFault> {
        let made = withdraw_filing(self.conn.connection(), agent.as_str(), number);
        self.made(made)
    }

    fn set_day(&mut self, day: Day) -> Result<(), StoreFault> {
        let made = set_day(self.conn.connection(), day);
        self.made(made)
    }

    fn add_agent(&mut self, agent: &AgentName, token: &Token) -> Result<(), StoreFault> {
        let made = add_agent(self.conn.connection(), agent, token);
        self.made(made)
    }

    fn set_token(&mut self, agent: &AgentName, token: &Token) -> Result<(), StoreFault> {
        let made = set_token(self.conn.connection(), agent, token);
        self.made(made)
    }

    ghost lasting = { λ k clean trees may r shows. stands_in r _ trees
        (sym (S.settled k.conn.store trees clean.1 may)) (shows.has, shows.stored) };
}

impl<S: Alter + Drop> StoreState for SqlKeep<S> {
    ghost use Rattle.sqlite.specs.State.{HasCleanDisk};
    ghost use Rattle.bor_store_sql.specs.Shown.{IsClean};

    ghost is_open = { λ k. HasCleanDisk (state S.Store k.conn) → IsClean (state S.Store k.conn) };
}

#[tactic(auto, using(bor_store_reads::proofs::Found::still_shows, crate::proofs::Telling::still_kept, crate::proofs::Telling::lasts_told, crate::proofs::Telling::up_told, crate::proofs::Telling::undamaged_told))]
impl<S: Alter + Drop> MirrorStore for SqlKeep<S> {
    fn whole(&mut self, most: u32) -> Result<Option<ListKeep>, StoreFault> {
        let answer = read_whole(self.conn.connection(), self.alloc, most);
        match self.told(answer) {
            Ok(Some(whole)) => Ok(ListKeep::of_members(
                self.alloc,
                whole.registrar,
                whole.day,
                whole.members,
            )),
            Ok(None) => Ok(None),
            Err(fault) => Err(fault),
        }
    }

    ghost open_is_clean = { λ k. ((λ clean. clean), (λ clean. clean)) };
}
