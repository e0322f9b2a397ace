//! A keep and its mirror.

ghost use Rattle.std.specs.Prelude.{◌≡◌, ◌≤◌, ◌-◌, ⊤, [], IfSome, IsSome, None, Ok, length, min, option_map};
ghost use Rattle.std.specs.Fn.{FnOnceReturnsAtMut};
ghost use Rattle.bor_records.specs.Promises.{Kept, StaysClean};
ghost use Rattle.bor_register.specs.Additions.{MayEnrol, MayFile, with_agent, with_filing, with_renewal, with_withdrawal};
ghost use Rattle.bor_register.specs.Held.{statement_count};
ghost use Rattle.bor_register.specs.Register.{Register};
ghost use Rattle.bor_register.specs.Memory.Holding.{Holding};
ghost use Rattle.bor_desk.specs.Mirror.Following.{IsFollowed};
ghost use Rattle.bor_desk.specs.Mirror.Reading.{IsReadOfEither};

use crate::mirror::mirror_store::{MirrorStore, StoreState};
use crate::mirror::notice::Notice;
use bods_read::{Identifier, Statement};
use bor_records::links::{Link, Node, NodeInfo};
use bor_records::{Last, Row};
use bor_register::keeping::Keep;
use bor_register::memory::ListKeep;
use bor_register::{AgentLine, Caller, Filing, FilingLine, Outward, StoreFault};
use bor_terms::{AgentName, Day, Ident, LodgeKey, Token};
use std::marker::Model;

/// A keep, its store, and the same register in memory without the files of its filings, its mirror.
///
/// Reads that need no file are answered by the mirror, where it is there and has the memory for the
/// answer; the others by the store. So a fault is always the store's. A change goes to the store,
/// and then to the mirror; where memory is wanting for the mirror's, or it would have taken more
/// statements than it may, the mirror is let go, a [`Notice`] is given, and all is asked of the
/// store from then on. Who has a token is answered by the mirror as long as no call of the store
/// has answered a fault since the store last said who has one: a store that has shut answers no
/// request.
#[derive(Drop)]
pub struct MirroredKeep<K: StoreState + Drop, N: Drop> {
    store: K,
    notice: N,
    // The live statements that a mirror may hold as it is made.
    most: u32,
    // How many more it may take. Those of a withdrawn filing count on: the maps keep their places.
    room: usize,
    mirror: Option<ListKeep>,
    is_up: bool,
}

impl<K: StoreState + Drop, N: Drop> Model for MirroredKeep<K, N> {
    ghost use Rattle.std.specs.Prelude.{◌≡◌, Option, option_map, true};
    ghost use Rattle.bor_register.specs.Memory.Holding.{Holding};
    ghost use Rattle.bor_register.specs.Register.{Register};

    ghost Value = { K × Option Register × N };

    ghost view = { λ k.
        (k.store, option_map (λ (h : Holding). h.register) k.mirror, k.notice) };

    // Where the mirror may tell who has a token, the store is open, if it has returned what was
    // written.
    ghost invariant = { λ k. k.is_up ≡ true → K.is_open k.store };
}

impl<K: StoreState + Drop, N: Drop> MirroredKeep<K, N> {
    /// The store, without a mirror. One that is made later holds at most so many live statements;
    /// the notice is given where it is let go.
    pub fn new(store: K, most: u32, notice: N) -> Self
        ensures { result ≡ (store, None, notice) }
    {
        MirroredKeep {
            store,
            notice,
            most,
            room: 0,
            mirror: None,
            is_up: false,
        }
    }

    /// The store.
    pub fn into_store(self) -> K
        ensures { result ≡ self.0 }
    {
        self.store
    }

    /// How many live statements the mirror holds, and `usize::MAX` of more; `None` where there is
    /// no mirror.
    pub fn mirrored(&self) -> Option<usize>
        ensures { result ≡ option_map
            (λ (m : Register). min (statement_count m.members) usize.MAX) self.now.1 }
    {
        match &self.mirror {
            Some(mirror) => Some(mirror.statement_count()),
            None => None,
        }
    }
}

impl<K: MirrorStore + Drop, N: Notice + Drop> MirroredKeep<K, N> {
    /// Makes the mirror, where there is none and it may hold a statement: where the register has no
    /// more live statements than it may hold, there is memory for it, and the store tells its
    /// register.
    pub fn fill(&mut self)
        ensures { Kept ⟦<MirroredKeep<K, N> as Keep>⟧.meaning
            self.old self.new }
    {
        if self.most == 0 || self.mirror.is_some() {
            return;
        }
        let whole = self.store.whole(self.most);
        self.is_up = whole.is_ok();
        let mirror = whole.unwrap_or(None);
        self.room = room_beside(&mirror, self.most);
        put(&mut self.mirror, mirror);
    }

    // Has it noticed where there was a mirror and no longer is.
    fn notice_from(&self, was_mirrored: bool) {
        if was_mirrored && self.mirror.is_none() {
            self.notice.let_go();
        }
    }

    // The answer of the mirror, where it is there and has the memory for it; else the store's.
    fn read<T, M, S>(&mut self, by_mirror: M, by_store: S) -> Result<T, StoreFault>
    where
        M: FnOnce(&mut ListKeep) -> Result<T, StoreFault>,
        S: FnOnce(&mut K) -> Result<T, StoreFault>,
        requires mirror { M.IsAlwaysCallable by_mirror }
        requires store { S.IsAlwaysCallable by_store }
        requires lasts { (old new : K) (x : T)
            → FnOnceReturnsAtMut S.FnOnce by_store old (Ok x) new → StaysClean K.meaning old new }
        ensures { IsReadOfEither (λ old x new. FnOnceReturnsAtMut M.FnOnce by_mirror old x new)
            (λ old x new. FnOnceReturnsAtMut S.FnOnce by_store old x new)
            self.old self.new result }
    {
        if let Some(mirror) = &mut self.mirror {
            if let Ok(answer) = by_mirror(mirror) {
                return Ok(answer);
            }
        }
        let told = by_store(&mut self.store);
        self.is_up = self.is_up && told.is_ok();
        told
    }
}

// How many more statements a mirror may take that may hold so many.
fn room_beside(mirror: &Option<ListKeep>, most: u32) -> usize
    ensures { IfSome mirror.now (λ (h : Holding).
        result ≡ most - min (statement_count h.register.members) usize.MAX) }
{
    match mirror {
        Some(mirror) => (most as usize).saturating_sub(mirror.statement_count()),
        None => 0,
    }
}

// Puts a mirror in its place, or lets the one there go.
fn put(place: &mut Option<ListKeep>, mirror: Option<ListKeep>)
    ensures { place.new ≡ mirror }
{
    *place = mirror;
}

// Adds the filing to the mirror, without its file. `None` where there is no mirror, or it is let
// go: memory is wanting, or the filing has more than so many statements.
fn filed(
    held: &mut Option<ListKeep>,
    room: usize,
    agent: &AgentName,
    count: usize,
    key: &LodgeKey,
    due: Day,
    statements: &[Statement],
) -> Option<()>
    ensures bounded { IsSome held.new → length statements.now ≤ room }
    ensures followed { IsFollowed held.old held.new (MayFile agent.now count key.now statements.now)
        (with_filing agent.now key.now due [] statements.now) }
{
    if statements.len() > room {
        put(held, None);
        return None;
    }
    let Some(mirror) = held else {
        return None;
    };
    match mirror.add_filing(agent, count, key, due, &[], statements) {
        Ok(()) => Some(()),
        Err(_) => {
            put(held, None);
            None
        }
    }
}

// Withdraws the filing in the mirror. `None` where there is none, or it is let go.
fn withdrawn(held: &mut Option<ListKeep>, agent: &AgentName, number: u32) -> Option<()>
    ensures { IsFollowed held.old held.new (λ _. ⊤) (with_withdrawal agent.now number) }
{
    let Some(mirror) = held else {
        return None;
    };
    match mirror.withdraw(agent, number) {
        Ok(()) => Some(()),
        Err(_) => {
            put(held, None);
            None
        }
    }
}

// Sets the day in the mirror. `None` where there is none, or it is let go.
fn dated(held: &mut Option<ListKeep>, day: Day) -> Option<()>
    ensures { IsFollowed held.old held.new (λ _. ⊤) (λ r. record r { day = day }) }
{
    let Some(mirror) = held else {
        return None;
    };
    match mirror.set_day(day) {
        Ok(()) => Some(()),
        Err(_) => {
            put(held, None);
            None
        }
    }
}

// Adds the agent to the mirror. `None` where there is none, or it is let go, as memory is wanting.
fn enrolled(held: &mut Option<ListKeep>, agent: &AgentName, token: &Token) -> Option<()>
    ensures { IsFollowed held.old held.new (MayEnrol agent.now token.now)
        (with_agent agent.now token.now) }
{
    let Some(mirror) = held else {
        return None;
    };
    match mirror.add_agent(agent, token) {
        Ok(()) => Some(()),
        Err(_) => {
            put(held, None);
            None
        }
    }
}

// Gives the agent the token in the mirror. `None` where there is none, or it is let go, as memory
// is wanting.
fn renewed(held: &mut Option<ListKeep>, agent: &AgentName, token: &Token) -> Option<()>
    ensures { IsFollowed held.old held.new (λ _. ⊤) (with_renewal agent.now token.now) }
{
    let Some(mirror) = held else {
        return None;
    };
    match mirror.set_token(agent, token) {
        Ok(()) => Some(()),
        Err(_) => {
            put(held, None);
            None
        }
    }
}

impl<K: MirrorStore + Drop, N: Notice + Drop> Keep for MirroredKeep<K, N> {
    ghost use Rattle.bor_desk.specs.Mirror.Following.{mirrored};

    ghost Left = { K.Left };

    ghost meaning = { mirrored K.meaning };

    fn faults(&self) -> u64 {
        self.store.faults()
    }

    fn who(&mut self, token: &Token) -> Result<Option<Caller>, StoreFault> {
        if self.is_up {
            if let Some(mirror) = &mut self.mirror {
                if let Ok(caller) = mirror.who(token) {
                    return Ok(caller);
                }
            }
        }
        let told = self.store.who(token);
        self.is_up = told.is_ok();
        told
    }

    fn has_agent(&mut self, agent: &AgentName) -> Result<bool, StoreFault> {
        self.read(
            |mirror| mirror.has_agent(agent),
            |store| store.has_agent(agent),
        )
    }

    fn day(&mut self) -> Result<Day, StoreFault> {
        self.read(|mirror| mirror.day(), |store| store.day())
    }

    fn filing(&mut self, agent: &AgentName, key: &LodgeKey) -> Result<Option<Filing>, StoreFault> {
        let told = self.store.filing(agent, key);
        self.is_up = self.is_up && told.is_ok();
        told
    }

    fn line(
        &mut self,
        agent: &AgentName,
        key: &LodgeKey,
    ) -> Result<Option<FilingLine>, StoreFault> {
        self.read(
            |mirror| mirror.line(agent, key),
            |store| store.line(agent, key),
        )
    }

    fn has_file(
        &mut self,
        agent: &AgentName,
        key: &LodgeKey,
        bytes: &[u8],
    ) -> Result<bool, StoreFault> {
        let told = self.store.has_file(agent, key, bytes);
        self.is_up = self.is_up && told.is_ok();
        told
    }

    fn filing_count(&mut self, agent: &AgentName) -> Result<usize, StoreFault> {
        self.read(
            |mirror| mirror.filing_count(agent),
            |store| store.filing_count(agent),
        )
    }

    fn filings(&mut self, agent: &AgentName) -> Result<Vec<FilingLine>, StoreFault> {
        self.read(|mirror| mirror.filings(agent), |store| store.filings(agent))
    }

    fn last(
        &mut self,
        agent: &AgentName,
        declaration: &Ident,
        rec: &Ident,
    ) -> Result<Option<Last>, StoreFault> {
        self.read(
            |mirror| mirror.last(agent, declaration, rec),
            |store| store.last(agent, declaration, rec),
        )
    }

    fn has_statement(&mut self, agent: &AgentName, id: &Ident) -> Result<bool, StoreFault> {
        self.read(
            |mirror| mirror.has_statement(agent, id),
            |store| store.has_statement(agent, id),
        )
    }

    fn has_successor(&mut self, agent: &AgentName, number: u32) -> Result<bool, StoreFault> {
        self.read(
            |mirror| mirror.has_successor(agent, number),
            |store| store.has_successor(agent, number),
        )
    }

    fn rows_of(
        &mut self,
        viewer: &AgentName,
        agent: &AgentName,
        declaration: &Ident,
    ) -> Result<Vec<Row>, StoreFault> {
        self.read(
            |mirror| mirror.rows_of(viewer, agent, declaration),
            |store| store.rows_of(viewer, agent, declaration),
        )
    }

    fn visible_rows(&mut self, viewer: &AgentName) -> Result<Vec<Row>, StoreFault> {
        self.read(
            |mirror| mirror.visible_rows(viewer),
            |store| store.visible_rows(viewer),
        )
    }

    fn open_row(
        &mut self,
        viewer: &AgentName,
        day: Day,
        node: &Node,
    ) -> Result<Option<Row>, StoreFault> {
        self.read(
            |mirror| mirror.open_row(viewer, day, node),
            |store| store.open_row(viewer, day, node),
        )
    }

    fn node(
        &mut self,
        viewer: &AgentName,
        day: Day,
        node: &Node,
    ) -> Result<Option<NodeInfo>, StoreFault> {
        self.read(
            |mirror| mirror.node(viewer, day, node),
            |store| store.node(viewer, day, node),
        )
    }

    fn aliases(
        &mut self,
        viewer: &AgentName,
        day: Day,
        node: &Node,
    ) -> Result<Vec<Node>, StoreFault> {
        self.read(
            |mirror| mirror.aliases(viewer, day, node),
            |store| store.aliases(viewer, day, node),
        )
    }

    fn same(&mut self, viewer: &AgentName, day: Day, node: &Node) -> Result<Vec<Node>, StoreFault> {
        self.read(
            |mirror| mirror.same(viewer, day, node),
            |store| store.same(viewer, day, node),
        )
    }

    fn identified(
        &mut self,
        viewer: &AgentName,
        day: Day,
        identifier: &Identifier,
    ) -> Result<Vec<Node>, StoreFault> {
        self.read(
            |mirror| mirror.identified(viewer, day, identifier),
            |store| store.identified(viewer, day, identifier),
        )
    }

    fn links_into(
        &mut self,
        viewer: &AgentName,
        day: Day,
        node: &Node,
    ) -> Result<Vec<Link>, StoreFault> {
        self.read(
            |mirror| mirror.links_into(viewer, day, node),
            |store| store.links_into(viewer, day, node),
        )
    }

    fn published(&mut self) -> Result<Vec<Outward>, StoreFault> {
        self.read(|mirror| mirror.published(), |store| store.published())
    }

    fn agents(&mut self) -> Result<Vec<AgentLine>, StoreFault> {
        self.read(|mirror| mirror.agents(), |store| store.agents())
    }

    fn add_filing(
        &mut self,
        agent: &AgentName,
        count: usize,
        key: &LodgeKey,
        due: Day,
        bytes: &[u8],
        statements: &[Statement],
    ) -> Result<(), StoreFault> {
        match self
            .store
            .add_filing(agent, count, key, due, bytes, statements)
        {
            Ok(()) => {
                let was_mirrored = self.mirror.is_some();
                filed(
                    &mut self.mirror,
                    self.room,
                    agent,
                    count,
                    key,
                    due,
                    statements,
                );
                self.room = self.room.saturating_sub(statements.len());
                self.notice_from(was_mirrored);
                Ok(())
            }
            Err(fault) => {
                self.is_up = false;
                Err(fault)
            }
        }
    }

    fn withdraw(&mut self, agent: &AgentName, number: u32) -> Result<(), StoreFault> {
        match self.store.withdraw(agent, number) {
            Ok(()) => {
                let was_mirrored = self.mirror.is_some();
                withdrawn(&mut self.mirror, agent, number);
                self.notice_from(was_mirrored);
                Ok(())
            }
            Err(fault) => {
                self.is_up = false;
                Err(fault)
            }
        }
    }

    fn set_day(&mut self, day: Day) -> Result<(), StoreFault> {
        match self.store.set_day(day) {
            Ok(()) => {
                let was_mirrored = self.mirror.is_some();
                dated(&mut self.mirror, day);
                self.notice_from(was_mirrored);
                Ok(())
            }
            Err(fault) => {
                self.is_up = false;
                Err(fault)
            }
        }
    }

    fn add_agent(&mut self, agent: &AgentName, token: &Token) -> Result<(), StoreFault> {
        match self.store.add_agent(agent, token) {
            Ok(()) => {
                let was_mirrored = self.mirror.is_some();
                enrolled(&mut self.mirror, agent, token);
                self.notice_from(was_mirrored);
                Ok(())
            }
            Err(fault) => {
                self.is_up = false;
                Err(fault)
            }
        }
    }

    fn set_token(&mut self, agent: &AgentName, token: &Token) -> Result<(), StoreFault> {
        match self.store.set_token(agent, token) {
            Ok(()) => {
                let was_mirrored = self.mirror.is_some();
                renewed(&mut self.mirror, agent, token);
                self.notice_from(was_mirrored);
                Ok(())
            }
            Err(fault) => {
                self.is_up = false;
                Err(fault)
            }
        }
    }

    ghost lasting = { λ k clean left may r shows. K.lasting k.0 clean left may r shows.0 };
}
