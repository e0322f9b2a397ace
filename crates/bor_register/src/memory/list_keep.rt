//! The register in memory.

ghost use Rattle.std.specs.Prelude.{◌≡◌, ◌+◌, ◌++◌, ◌∷◌, [], ◌%◌, ◌^◌, ◌<◌, true, IfOk, IfSome, List, length, min};
ghost use Rattle.std.specs.Result.{result_map_both};
ghost use Rattle.bor_records.specs.Admission.{last_of};
ghost use Rattle.bor_records.specs.Promises.{counted};
ghost use Rattle.bor_records.specs.Settling.{has_id};
ghost use Rattle.bor_records.specs.Links.Answers.{AreAliases, AreIdentified, AreLinksInto, AreSame};
ghost use Rattle.bor_records.specs.Links.Series.{open_at};
ghost use Rattle.bor_records.specs.Links.Shown.{info_of};
ghost use Rattle.bor_register.specs.declared.filing.AcceptedFiling.{AcceptedFiling};
ghost use Rattle.bor_register.specs.Memory.Indexed.{IsIndex};
ghost use Rattle.bor_register.specs.Memory.Sighted.{IsIndexed, rows_in_sight};
ghost use Rattle.bor_register.specs.Held.{statement_count};
ghost use Rattle.bor_register.specs.Limits.{filings_limit};
ghost use Rattle.bor_register.specs.Live.{live_of};
ghost use Rattle.bor_register.specs.declared.member.Member.{Member};
ghost use Rattle.bor_register.specs.Register.{IsOrdered, empty_register, filings_of, is_enrolled, with_filings};
ghost use Rattle.bor_register.specs.Rows.{visible};
ghost use Rattle.bor_register.specs.Seen.{seen_at};
ghost use Rattle.bor_register.specs.Withdrawal.{has_successor};
ghost use Rattle.bor_terms.specs.Texts.{is_below};

use crate::keeping::Keep;
use crate::member::find_filings;
use crate::memory::index::{Index, key_named, node_named};
use crate::memory::records::Sighted;
use crate::memory::sight::{Sight, node_told, row_told};
use crate::memory::standing::{any_stands, last_known};
use crate::memory::succession;
use crate::{
    AcceptedFiling, AgentLine, Caller, FILINGS_LIMIT, Filing, FilingLine, Member, Outward,
    StoreFault, all_agents, all_lines, all_published, all_visible, caller_with, enrol_member,
    filing_under, is_enrolled, is_filed, line_under, push_filing, renew_token, rows_seen,
    statement_count, withdraw_of,
};
use bods_read::{Identifier, Statement};
use bor_records::links::{Link, Node, NodeInfo, aliases, identified, links_into, same};
use bor_records::{Last, Row};
use bor_terms::{AgentName, Day, Ident, LodgeKey, Token};
use std::alloc::{AllocError, Global};
use std::marker::Model;

/// A register in memory: the plain implementation of `Keep`. It has no store that could fail, so
/// its one fault is want of memory.
///
/// Maps beside the filings (`Index`) follow each change, so what is asked of a record is read by
/// its key, and a report takes what it meets. Where memory is wanting for them while a filing is
/// added, it isn't added and they are let go. They are made again where they are asked for next. An
/// addition that doesn't fit the register is answered as want of memory, too, and changes nothing.
#[derive(Drop)]
pub struct ListKeep {
    alloc: Global,
    day: Day,
    registrar: Token,
    members: Vec<Member>,
    index: Option<Index>,
    faults: u64,
}

impl Model for ListKeep {
    ghost use Rattle.std.specs.Prelude.{◌≡◌, IfSome};
    ghost use Rattle.bor_register.specs.Memory.Holding.{Holding};
    ghost use Rattle.bor_register.specs.Memory.Indexed.{IsIndex};
    ghost use Rattle.bor_register.specs.Register.{IsOrdered};

    ghost Value = { Holding };

    ghost view = { λ k. record {
      register = record { day = k.day; registrar = k.registrar; members = k.members.items };
      faults = k.faults;
    } };

    // Members stand in the order of their names, and the maps are of the register as it is.
    ghost invariant = { λ k. IsOrdered k.members.items
        × IfSome k.index (λ x. IsIndex k.members.items x) };
}

impl ListKeep {
    /// The register with no agents and no filings. It takes no memory.
    pub fn new(alloc: Global, registrar: Token, day: Day) -> Self
        ensures holds { result ≡ record { register = empty_register registrar day; faults = 0 } }
        ensures shown { ⟦<ListKeep as Keep>⟧.meaning.shows result (empty_register registrar day) }
        ensures clean { ⟦<ListKeep as Keep>⟧.meaning.is_clean result }
    {
        ListKeep {
            alloc,
            day,
            registrar,
            members: Vec::new(alloc),
            index: Some(Index::new(alloc)),
            faults: 0,
        }
    }

    /// The register of these members; `None` where their names don't go up, or memory is wanting
    /// for the maps.
    pub fn of_members(
        alloc: Global,
        registrar: Token,
        day: Day,
        members: Vec<Member>,
    ) -> Option<Self>
        ensures { IfSome result (λ keep. keep ≡ record {
          register = record { day = day; registrar = registrar; members = members.items };
          faults = 0;
        }) }
    {
        if !are_ordered(&members) {
            return None;
        }
        match index_of(alloc, &members) {
            Ok(index) => Some(ListKeep {
                alloc,
                day,
                registrar,
                members,
                index: Some(index),
                faults: 0,
            }),
            Err(_) => None,
        }
    }

    /// How many live statements it has; `usize::MAX` where there are more.
    pub fn statement_count(&self) -> usize
        ensures { result ≡ min (statement_count self.now.register.members) usize.MAX }
    {
        statement_count(&self.members)
    }

    // The part that the viewer sees on a day, by these maps.
    fn sight_by<'a>(&'a self, index: &'a Index, viewer: &'a AgentName, day: Day) -> Sight<'a>
        requires { IsIndex self.now.register.members index.now }
        ensures indexed { IsIndexed result }
        ensures day { result.day ≡ day }
        ensures rows { rows_in_sight result
            ≡ visible viewer.now self.now.register.day self.now.register.members }
    {
        Sight {
            alloc: self.alloc,
            index,
            members: &self.members,
            viewer,
            today: self.day,
            day,
        }
    }

    // The same, as records that are read by key.
    fn records_by<'a>(&'a self, index: &'a Index, viewer: &'a AgentName, day: Day) -> Sighted<'a>
        requires { IsIndex self.now.register.members index.now }
        ensures { result ≡ record {
          day = day;
          rows = visible viewer.now self.now.register.day self.now.register.members;
        } }
    {
        let sight = self.sight_by(index, viewer, day);
        Sighted { sight }
    }

    // The maps, which are made again where they were let go. They are taken out, so that they can
    // be asked.
    fn take_maps(&mut self) -> Result<Index, AllocError>
        ensures kept { self.new ≡ self.old }
        ensures maps { IfOk result (λ index. IsIndex self.old.register.members index) }
    {
        match self.index.take() {
            Some(index) => Ok(index),
            None => index_of(self.alloc, &self.members),
        }
    }

    // Puts them back.
    fn put_maps(&mut self, index: Index)
        requires { IsIndex self.old.register.members index }
        ensures { self.new ≡ self.old }
    {
        self.index = Some(index);
    }

    fn row_seen(
        &mut self,
        viewer: &AgentName,
        day: Day,
        node: &Node,
    ) -> Result<Option<Row>, AllocError>
        ensures kept { self.new ≡ self.old }
        ensures told { IfOk result (λ row. row ≡ open_at day node.now
            (visible viewer.now self.old.register.day self.old.register.members)) }
    {
        let index = self.take_maps()?;
        let told = row_told(&self.sight_by(&index, viewer, day), node);
        self.put_maps(index);
        told
    }

    fn aliases_seen(
        &mut self,
        viewer: &AgentName,
        day: Day,
        node: &Node,
    ) -> Result<Vec<Node>, AllocError>
        ensures kept { self.new ≡ self.old }
        ensures told { IfOk result (λ nodes.
            AreAliases (seen_at viewer.now day self.old.register) node.now nodes.items) }
    {
        let index = self.take_maps()?;
        let mut records = self.records_by(&index, viewer, day);
        let told = aliases(&mut records, self.alloc, node);
        self.put_maps(index);
        told
    }

    fn identified_seen(
        &mut self,
        viewer: &AgentName,
        day: Day,
        identifier: &Identifier,
    ) -> Result<Vec<Node>, AllocError>
        ensures kept { self.new ≡ self.old }
        ensures told { IfOk result (λ nodes.
            AreIdentified (seen_at viewer.now day self.old.register) identifier.now nodes.items) }
    {
        let index = self.take_maps()?;
        let mut records = self.records_by(&index, viewer, day);
        let told = identified(&mut records, self.alloc, identifier);
        self.put_maps(index);
        told
    }

    fn node_seen(
        &mut self,
        viewer: &AgentName,
        day: Day,
        node: &Node,
    ) -> Result<Option<NodeInfo>, AllocError>
        ensures kept { self.new ≡ self.old }
        ensures told { IfOk result (λ info.
            info ≡ info_of (seen_at viewer.now day self.old.register) node.now) }
    {
        let index = self.take_maps()?;
        let told = node_told(&self.sight_by(&index, viewer, day), node);
        self.put_maps(index);
        told
    }

    fn same_seen(
        &mut self,
        viewer: &AgentName,
        day: Day,
        node: &Node,
    ) -> Result<Vec<Node>, AllocError>
        ensures kept { self.new ≡ self.old }
        ensures told { IfOk result (λ nodes.
            AreSame (seen_at viewer.now day self.old.register) node.now nodes.items) }
    {
        let index = self.take_maps()?;
        let mut records = self.records_by(&index, viewer, day);
        let told = same(&mut records, self.alloc, node);
        self.put_maps(index);
        told
    }

    fn links_seen(
        &mut self,
        viewer: &AgentName,
        day: Day,
        node: &Node,
    ) -> Result<Vec<Link>, AllocError>
        ensures kept { self.new ≡ self.old }
        ensures told { IfOk result (λ links.
            AreLinksInto (seen_at viewer.now day self.old.register) node.now links.items) }
    {
        let index = self.take_maps()?;
        let mut records = self.records_by(&index, viewer, day);
        let told = links_into(&mut records, self.alloc, node);
        self.put_maps(index);
        told
    }

    fn last_of(
        &mut self,
        agent: &AgentName,
        declaration: &Ident,
        rec: &Ident,
    ) -> Result<Option<Last>, AllocError>
        ensures kept { self.new ≡ self.old }
        ensures told { IfOk result (λ last. last ≡ last_of declaration.now rec.now
            (live_of (filings_of agent.now self.old.register.members))) }
    {
        let node = node_named(self.alloc, agent, declaration, rec)?;
        let index = self.take_maps()?;
        let filings = find_filings(&self.members, agent);
        let told = last_known(filings, index.places_of(&node), &node);
        self.put_maps(index);
        Ok(told)
    }

    fn has_id(&mut self, agent: &AgentName, id: &Ident) -> Result<bool, AllocError>
        ensures kept { self.new ≡ self.old }
        ensures told { IfOk result (λ has. has ≡ has_id id.now
            (live_of (filings_of agent.now self.old.register.members))) }
    {
        let key = key_named(self.alloc, agent, id)?;
        let index = self.take_maps()?;
        let filings = find_filings(&self.members, agent);
        let told = any_stands(filings, index.places_named(&key), &key);
        self.put_maps(index);
        Ok(told)
    }

    // Whether a later filing of the agent stands on the one with this number.
    fn is_followed(&mut self, agent: &AgentName, number: u32) -> Result<bool, AllocError>
        ensures kept { self.new ≡ self.old }
        ensures told { IfOk result (λ has. has
            ≡ has_successor number (filings_of agent.now self.old.register.members)) }
    {
        let index = self.take_maps()?;
        let filings = find_filings(&self.members, agent);
        let told = succession::has_successor(self.alloc, &index, agent, filings, number);
        self.put_maps(index);
        told
    }

    // Whether the agent is enrolled and has room for one more filing.
    fn has_room(&self, agent: &AgentName) -> bool
        ensures { result ≡ true → (is_enrolled agent.now self.now.register.members ≡ true)
            × (length (filings_of agent.now self.now.register.members) < filings_limit) }
    {
        is_enrolled(&self.members, agent)
            && find_filings(&self.members, agent).len() < FILINGS_LIMIT
    }

    // The maps with a filing that is to be added to an agent's. They are taken out.
    fn take_grown(
        &mut self,
        agent: &AgentName,
        statements: &[Statement],
    ) -> Result<Index, AllocError>
        ensures kept { self.new ≡ self.old }
        ensures grown { IfOk result (λ index. (f : AcceptedFiling) → f.statements ≡ statements.now
            → is_enrolled agent.now self.old.register.members ≡ true
            → IsIndex (with_filings agent.now
            (filings_of agent.now self.old.register.members ++ f ∷ [])
            self.old.register.members) index) }
    {
        let filing = find_filings(&self.members, agent).len();
        let index = self.take_maps()?;
        index.with_filing(self.alloc, agent, filing, statements)
    }

    fn want_of_memory(&mut self) -> StoreFault
        ensures fault { result ≡ StoreFault.Memory }
        ensures counted { self.new ≡ record self.old { faults = (self.old.faults + 1) % 2 ^ 64 } }
    {
        self.faults = self.faults.wrapping_add(1);
        StoreFault::Memory
    }

    // The answer, or want of memory, which is counted.
    fn told<T>(&mut self, answer: Result<T, AllocError>) -> Result<T, StoreFault>
        ensures told { result ≡ result_map_both (λ x. x) (λ _. StoreFault.Memory) answer }
        ensures counts { self.new ≡ record self.old { faults = counted answer self.old.faults } }
    {
        match answer {
            Ok(answer) => Ok(answer),
            Err(_) => Err(self.want_of_memory()),
        }
    }
}

// Whether the name of the one is below that of the other.
fn is_before(one: &Member, other: &Member) -> bool
    ensures { result ≡ is_below one.now.name other.now.name }
{
    one.name < other.name
}

// Whether the names go up.
fn are_ordered(members: &[Member]) -> bool
    ensures { result ≡ true → IsOrdered members.now }
{
    for i in 1..members.len() {
        if !is_before(&members[i - 1], &members[i]) {
            return false;
        }
    }
    true
}

// The maps of the members' filings.
fn index_of(alloc: Global, members: &[Member]) -> Result<Index, AllocError>
    requires { IsOrdered members.now }
    ensures { IfOk result (λ index. IsIndex members.now index) }
{
    let mut index = Index::new(alloc);
    for member in members {
        index = index_with(alloc, index, &member.name, member.filings.as_slice())?;
    }
    Ok(index)
}

// The maps with the filings of an agent who had none.
fn index_with(
    alloc: Global,
    old: Index,
    agent: &AgentName,
    filings: &[AcceptedFiling],
) -> Result<Index, AllocError>
    ensures { IfOk result (λ index. (ms : List Member) → is_enrolled agent.now ms ≡ true
        → filings_of agent.now ms ≡ [] → IsIndex ms old
        → IsIndex (with_filings agent.now filings.now ms) index) }
{
    let mut index = old;
    for (i, filing) in filings.iter().enumerate() {
        index = index.with_filing(alloc, agent, i, filing.statements.as_slice())?;
    }
    Ok(index)
}

impl Keep for ListKeep {
    ghost use Rattle.std.specs.Prelude.{◌≡◌};
    ghost use Rattle.bor_register.specs.declared.fault.StoreFault.TheVariants.{Memory};

    ghost Left = { Unit {0} };

    ghost meaning = { record {
      shows = λ k r. k.register ≡ r;
      is_clean = λ k. Unit {0};
      is_sound = λ k. Unit {0};
      may_leave = λ k left. ⊥;
      left_shows = λ left r. ⊥;
      fault_count = λ k. k.faults;
      may_tell = λ fault. fault ≡ Memory;
    } };

    fn faults(&self) -> u64 {
        self.faults
    }

    fn who(&mut self, token: &Token) -> Result<Option<Caller>, StoreFault> {
        if self.registrar == *token {
            return Ok(Some(Caller::Registrar));
        }
        let caller = caller_with(self.alloc, &self.members, token);
        self.told(caller)
    }

    fn has_agent(&mut self, agent: &AgentName) -> Result<bool, StoreFault> {
        Ok(is_enrolled(&self.members, agent))
    }

    fn day(&mut self) -> Result<Day, StoreFault> {
        Ok(self.day)
    }

    fn filing(&mut self, agent: &AgentName, key: &LodgeKey) -> Result<Option<Filing>, StoreFault> {
        let filing = filing_under(self.alloc, find_filings(&self.members, agent), key);
        self.told(filing)
    }

    fn line(
        &mut self,
        agent: &AgentName,
        key: &LodgeKey,
    ) -> Result<Option<FilingLine>, StoreFault> {
        let filings = find_filings(&self.members, agent);
        let line = line_under(self.alloc, filings, key, self.day);
        self.told(line)
    }

    fn has_file(
        &mut self,
        agent: &AgentName,
        key: &LodgeKey,
        bytes: &[u8],
    ) -> Result<bool, StoreFault> {
        Ok(is_filed(find_filings(&self.members, agent), key, bytes))
    }

    fn filing_count(&mut self, agent: &AgentName) -> Result<usize, StoreFault> {
        Ok(find_filings(&self.members, agent).len())
    }

    fn filings(&mut self, agent: &AgentName) -> Result<Vec<FilingLine>, StoreFault> {
        let lines = all_lines(self.alloc, find_filings(&self.members, agent), self.day);
        self.told(lines)
    }

    fn last(
        &mut self,
        agent: &AgentName,
        declaration: &Ident,
        rec: &Ident,
    ) -> Result<Option<Last>, StoreFault> {
        let last = self.last_of(agent, declaration, rec);
        self.told(last)
    }

    fn has_statement(&mut self, agent: &AgentName, id: &Ident) -> Result<bool, StoreFault> {
        let has = self.has_id(agent, id);
        self.told(has)
    }

    fn has_successor(&mut self, agent: &AgentName, number: u32) -> Result<bool, StoreFault> {
        let is_followed = self.is_followed(agent, number);
        self.told(is_followed)
    }

    fn rows_of(
        &mut self,
        viewer: &AgentName,
        agent: &AgentName,
        declaration: &Ident,
    ) -> Result<Vec<Row>, StoreFault> {
        let filings = find_filings(&self.members, agent);
        let rows = rows_seen(self.alloc, viewer, self.day, agent, declaration, filings);
        self.told(rows)
    }

    fn visible_rows(&mut self, viewer: &AgentName) -> Result<Vec<Row>, StoreFault> {
        let rows = all_visible(self.alloc, viewer, self.day, &self.members);
        self.told(rows)
    }

    fn open_row(
        &mut self,
        viewer: &AgentName,
        day: Day,
        node: &Node,
    ) -> Result<Option<Row>, StoreFault> {
        let row = self.row_seen(viewer, day, node);
        self.told(row)
    }

    fn node(
        &mut self,
        viewer: &AgentName,
        day: Day,
        node: &Node,
    ) -> Result<Option<NodeInfo>, StoreFault> {
        let info = self.node_seen(viewer, day, node);
        self.told(info)
    }

    fn aliases(
        &mut self,
        viewer: &AgentName,
        day: Day,
        node: &Node,
    ) -> Result<Vec<Node>, StoreFault> {
        let nodes = self.aliases_seen(viewer, day, node);
        self.told(nodes)
    }

    fn same(&mut self, viewer: &AgentName, day: Day, node: &Node) -> Result<Vec<Node>, StoreFault> {
        let nodes = self.same_seen(viewer, day, node);
        self.told(nodes)
    }

    fn identified(
        &mut self,
        viewer: &AgentName,
        day: Day,
        identifier: &Identifier,
    ) -> Result<Vec<Node>, StoreFault> {
        let nodes = self.identified_seen(viewer, day, identifier);
        self.told(nodes)
    }

    fn links_into(
        &mut self,
        viewer: &AgentName,
        day: Day,
        node: &Node,
    ) -> Result<Vec<Link>, StoreFault> {
        let links = self.links_seen(viewer, day, node);
        self.told(links)
    }

    fn published(&mut self) -> Result<Vec<Outward>, StoreFault> {
        let outwards = all_published(self.alloc, &self.members, self.day);
        self.told(outwards)
    }

    fn agents(&mut self) -> Result<Vec<AgentLine>, StoreFault> {
        let lines = all_agents(self.alloc, &self.members, self.day);
        self.told(lines)
    }

    fn add_filing(
        &mut self,
        agent: &AgentName,
        // The number is one more than there are filings: it isn't asked for.
        _count: usize,
        key: &LodgeKey,
        due: Day,
        bytes: &[u8],
        statements: &[Statement],
    ) -> Result<(), StoreFault> {
        if !self.has_room(agent) {
            return Err(self.want_of_memory());
        }
        let Ok(index) = self.take_grown(agent, statements) else {
            return Err(self.want_of_memory());
        };
        match push_filing(
            self.alloc,
            &mut self.members,
            agent,
            key,
            due,
            bytes,
            statements,
        ) {
            Ok(()) => {
                self.index = Some(index);
                Ok(())
            }
            Err(_) => Err(self.want_of_memory()),
        }
    }

    fn withdraw(&mut self, agent: &AgentName, number: u32) -> Result<(), StoreFault> {
        withdraw_of(self.alloc, &mut self.members, agent, number);
        Ok(())
    }

    fn set_day(&mut self, day: Day) -> Result<(), StoreFault> {
        self.day = day;
        Ok(())
    }

    fn add_agent(&mut self, agent: &AgentName, token: &Token) -> Result<(), StoreFault> {
        if is_enrolled(&self.members, agent) {
            return Err(self.want_of_memory());
        }
        let made = enrol_member(self.alloc, &mut self.members, agent, token);
        self.told(made)
    }

    fn set_token(&mut self, agent: &AgentName, token: &Token) -> Result<(), StoreFault> {
        let made = renew_token(self.alloc, &mut self.members, agent, token);
        self.told(made)
    }

    ghost lasting = { λ k clean left may. absurd may };
}
