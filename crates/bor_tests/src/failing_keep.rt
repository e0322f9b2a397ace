//! A keep that notes its calls and fails at the one that it is told to.

ghost use Rattle.std.specs.Prelude.{◌≡◌};
ghost use Rattle.bor_records.specs.Promises.{counted};

use bods_read::{Identifier, Statement};
use bor_chains::{Link, Node, NodeInfo};
use bor_desk::Text;
use bor_desk::operations::{AgentLine, Caller, Filing, FilingLine, Keep, Outward, StoreFault};
use bor_program::connections::{Limits, Watch, serve_within};
use bor_program::{Answering, Reply, Report, replay, report_in};
use bor_records::{Last, Row};
use bor_terms::{AgentName, Day, Ident, LodgeKey, Token};
use std::alloc::{AllocError, Global};
use std::io::{Read, Write};
use std::net::{OpenListener, OpenStream};
use std::time::Clock;

/// A keep that notes each call and hands on as many as are left, and then answers each by the
/// fault.
#[derive(Drop)]
pub(crate) struct FailingKeep<K> {
    /// The keep that calls are handed on to.
    pub(crate) keep: K,
    /// How many calls are still handed on.
    pub(crate) left: u32,
    /// The answer of the calls after them.
    pub(crate) fault: StoreFault,
    /// The calls in order, each after a space; those of a node with its record.
    pub(crate) calls: String,
    faults: u64,
}

impl<K> FailingKeep<K> {
    /// The keep, with so many calls left.
    pub(crate) fn new(alloc: Global, keep: K, left: u32, fault: StoreFault) -> FailingKeep<K> {
        FailingKeep {
            keep,
            left,
            fault,
            calls: String::new(alloc),
            faults: 0,
        }
    }

    fn begin(&mut self, call: &str) -> Result<(), StoreFault>
        ensures keep { self.new.keep ≡ self.old.keep }
        ensures counts { self.new.faults ≡ counted result self.old.faults }
    {
        let _ = self.calls.push(' ');
        let _ = self.calls.push_str(call);
        if self.left == 0 {
            self.faults = self.faults.wrapping_add(1);
            return Err(self.fault);
        }
        self.left -= 1;
        Ok(())
    }

    fn begin_of(&mut self, call: &str, node: &Node) -> Result<(), StoreFault>
        ensures keep { self.new.keep ≡ self.old.keep }
        ensures counts { self.new.faults ≡ counted result self.old.faults }
    {
        let begun = self.begin(call);
        let _ = self.calls.push_str(node.rec.as_str());
        begun
    }

    fn end<T>(&mut self, told: Result<T, StoreFault>) -> Result<T, StoreFault>
        ensures told { result ≡ told }
        ensures keep { self.new.keep ≡ self.old.keep }
        ensures counts { self.new.faults ≡ counted told self.old.faults }
    {
        match told {
            Ok(answer) => Ok(answer),
            Err(fault) => {
                self.faults = self.faults.wrapping_add(1);
                Err(fault)
            }
        }
    }
}

impl<K: Keep> Keep for FailingKeep<K> {
    ghost Left = { K.Left };

    ghost meaning = { record {
      shows = λ k r. K.meaning.shows k.keep r;
      is_clean = λ k. K.meaning.is_clean k.keep;
      is_sound = λ k. K.meaning.is_sound k.keep;
      may_leave = λ k left. K.meaning.may_leave k.keep left;
      left_shows = K.meaning.left_shows;
      fault_count = λ k. k.faults;
      may_tell = λ fault. Unit {0};
    } };

    fn faults(&self) -> u64 {
        self.faults
    }

    fn who(&mut self, token: &Token) -> Result<Option<Caller>, StoreFault> {
        self.begin("who")?;
        let told = self.keep.who(token);
        self.end(told)
    }

    fn has_agent(&mut self, agent: &AgentName) -> Result<bool, StoreFault> {
        self.begin("has_agent")?;
        let told = self.keep.has_agent(agent);
        self.end(told)
    }

    fn day(&mut self) -> Result<Day, StoreFault> {
        self.begin("day")?;
        let told = self.keep.day();
        self.end(told)
    }

    fn filing(&mut self, agent: &AgentName, key: &LodgeKey) -> Result<Option<Filing>, StoreFault> {
        self.begin("filing")?;
        let told = self.keep.filing(agent, key);
        self.end(told)
    }

    fn line(
        &mut self,
        agent: &AgentName,
        key: &LodgeKey,
    ) -> Result<Option<FilingLine>, StoreFault> {
        self.begin("line")?;
        let told = self.keep.line(agent, key);
        self.end(told)
    }

    fn has_file(
        &mut self,
        agent: &AgentName,
        key: &LodgeKey,
        bytes: &[u8],
    ) -> Result<bool, StoreFault> {
        self.begin("has_file")?;
        let told = self.keep.has_file(agent, key, bytes);
        self.end(told)
    }

    fn filing_count(&mut self, agent: &AgentName) -> Result<usize, StoreFault> {
        self.begin("filing_count")?;
        let told = self.keep.filing_count(agent);
        self.end(told)
    }

    fn filings(&mut self, agent: &AgentName) -> Result<Vec<FilingLine>, StoreFault> {
        self.begin("filings")?;
        let told = self.keep.filings(agent);
        self.end(told)
    }

    fn last(
        &mut self,
        agent: &AgentName,
        declaration: &Ident,
        rec: &Ident,
    ) -> Result<Option<Last>, StoreFault> {
        self.begin("last")?;
        let told = self.keep.last(agent, declaration, rec);
        self.end(told)
    }

    fn has_statement(&mut self, agent: &AgentName, id: &Ident) -> Result<bool, StoreFault> {
        self.begin("has_statement")?;
        let told = self.keep.has_statement(agent, id);
        self.end(told)
    }

    fn has_successor(&mut self, agent: &AgentName, number: u32) -> Result<bool, StoreFault> {
        self.begin("has_successor")?;
        let told = self.keep.has_successor(agent, number);
        self.end(told)
    }

    fn rows_of(
        &mut self,
        viewer: &AgentName,
        agent: &AgentName,
        declaration: &Ident,
    ) -> Result<Vec<Row>, StoreFault> {
        self.begin("rows_of")?;
        let told = self.keep.rows_of(viewer, agent, declaration);
        self.end(told)
    }

    fn visible_rows(&mut self, viewer: &AgentName) -> Result<Vec<Row>, StoreFault> {
        self.begin("visible_rows")?;
        let told = self.keep.visible_rows(viewer);
        self.end(told)
    }

    fn open_row(
        &mut self,
        viewer: &AgentName,
        day: Day,
        node: &Node,
    ) -> Result<Option<Row>, StoreFault> {
        self.begin_of("open_row:", node)?;
        let told = self.keep.open_row(viewer, day, node);
        self.end(told)
    }

    fn node(
        &mut self,
        viewer: &AgentName,
        day: Day,
        node: &Node,
    ) -> Result<Option<NodeInfo>, StoreFault> {
        self.begin_of("node:", node)?;
        let told = self.keep.node(viewer, day, node);
        self.end(told)
    }

    fn aliases(
        &mut self,
        viewer: &AgentName,
        day: Day,
        node: &Node,
    ) -> Result<Vec<Node>, StoreFault> {
        self.begin_of("aliases:", node)?;
        let told = self.keep.aliases(viewer, day, node);
        self.end(told)
    }

    fn same(&mut self, viewer: &AgentName, day: Day, node: &Node) -> Result<Vec<Node>, StoreFault> {
        self.begin_of("same:", node)?;
        let told = self.keep.same(viewer, day, node);
        self.end(told)
    }

    fn identified(
        &mut self,
        viewer: &AgentName,
        day: Day,
        identifier: &Identifier,
    ) -> Result<Vec<Node>, StoreFault> {
        self.begin("identified")?;
        let told = self.keep.identified(viewer, day, identifier);
        self.end(told)
    }

    fn links_into(
        &mut self,
        viewer: &AgentName,
        day: Day,
        node: &Node,
    ) -> Result<Vec<Link>, StoreFault> {
        self.begin_of("links_into:", node)?;
        let told = self.keep.links_into(viewer, day, node);
        self.end(told)
    }

    fn published(&mut self) -> Result<Vec<Outward>, StoreFault> {
        self.begin("published")?;
        let told = self.keep.published();
        self.end(told)
    }

    fn agents(&mut self) -> Result<Vec<AgentLine>, StoreFault> {
        self.begin("agents")?;
        let told = self.keep.agents();
        self.end(told)
    }

    fn add_filing(
        &mut self,
        agent: &AgentName,
        count: usize,
        key: &LodgeKey,
        due: Day,
        bytes: &[u8],
        statements: &[Statement],
    ) -> Result<(), StoreFault> {
        self.begin("add_filing")?;
        let told = self
            .keep
            .add_filing(agent, count, key, due, bytes, statements);
        self.end(told)
    }

    fn withdraw(&mut self, agent: &AgentName, number: u32) -> Result<(), StoreFault> {
        self.begin("withdraw")?;
        let told = self.keep.withdraw(agent, number);
        self.end(told)
    }

    fn set_day(&mut self, day: Day) -> Result<(), StoreFault> {
        self.begin("set_day")?;
        let told = self.keep.set_day(day);
        self.end(told)
    }

    fn add_agent(&mut self, agent: &AgentName, token: &Token) -> Result<(), StoreFault> {
        self.begin("add_agent")?;
        let told = self.keep.add_agent(agent, token);
        self.end(told)
    }

    fn set_token(&mut self, agent: &AgentName, token: &Token) -> Result<(), StoreFault> {
        self.begin("set_token")?;
        let told = self.keep.set_token(agent, token);
        self.end(told)
    }

    ghost lasting = { λ k clean left may r shows. K.lasting k.keep clean left may r shows };
}

impl<K: Keep> Answering for FailingKeep<K> {
    ghost use Rattle.std.specs.Prelude.{⊤};
    ghost use Rattle.bor_program.specs.Failures.{MayTell};

    ghost Left = { K.Left };

    ghost meaning = { ⟦<FailingKeep<K> as Keep>⟧.meaning };

    ghost tells = { MayTell ⟦<FailingKeep<K> as Keep>⟧.meaning };

    ghost serves = { λ _ _ _ _ _ _. ⊤ };

    fn answer_all(&mut self, alloc: Global, inputs: &[Vec<u8>]) -> Result<Vec<Reply>, AllocError> {
        replay(alloc, self, inputs)
    }

    fn tell(&mut self, alloc: Global, asked: &Report<'_>) -> Result<Text, StoreFault> {
        report_in(alloc, self, asked)
    }

    fn attend<R: Clock + AllocGlobal, L: OpenListener, W: Watch<L>>(
        &mut self,
        rt: &R,
        listener: &L,
        watch: &mut W,
        connections: u32,
        limits: Limits,
    ) -> u8
    where
        L::Stream: Read + Write + OpenStream,
    {
        serve_within(rt, self, listener, watch, connections, limits)
    }

    ghost lasting = { λ k clean left may r shows. K.lasting k.keep clean left may r shows };
}
