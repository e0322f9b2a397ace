//! The keep of a register, whatever it consists of.

ghost use Rattle.std.specs.Prelude.{◌≡◌, ℕ, IfOk, map, option_map, length};
ghost use Rattle.bor_register.specs.declared.fault.StoreFault.{StoreFault};
ghost use Rattle.bor_register.specs.Register.{Register, caller_of, is_enrolled, filings_of, filing_keyed};
ghost use Rattle.bor_register.specs.Publication.{agent_line, published, line_of, filing_shown, has_bytes};
ghost use Rattle.bor_register.specs.Live.{live_of};
ghost use Rattle.bor_register.specs.Rows.{rows_of, visible};
ghost use Rattle.bor_register.specs.Seen.{seen_at};
ghost use Rattle.bor_register.specs.Withdrawal.{has_successor};
ghost use Rattle.bor_register.specs.Additions.{MayEnrol, MayFile, with_agent, with_filing, with_renewal, with_withdrawal};
ghost use Rattle.bor_records.specs.Admission.{last_of};
ghost use Rattle.bor_records.specs.Settling.{has_id};
ghost use Rattle.bor_records.specs.Promises.{Changes, ChangesWhere, Meaning, Reads};
ghost use Rattle.bor_records.specs.Links.Series.{open_at};
ghost use Rattle.bor_records.specs.Links.Shown.{info_of};
ghost use Rattle.bor_records.specs.Links.Answers.{AreAliases, AreIdentified, AreSame, AreLinksInto};

use crate::{AgentLine, Caller, Filing, FilingLine, Outward, StoreFault};
use bods_read::{Identifier, Statement};
use bor_records::links::{Link, Node, NodeInfo};
use bor_records::{Last, Row};
use bor_terms::{AgentName, Day, Ident, LodgeKey, Token};

/// A keep of a register.
///
/// Its states show registers (`shows` of `meaning`): none, one or more, as each keep says. It
/// promises something of a register only where it showed that one and ends clean (`is_clean`: its
/// store has returned what was written, and is open; that a clean keep is sound, each keep says). A
/// read leaves what is shown (`Reads`); a change makes what it says of it (`Changes`); an addition
/// does so of a register that it fits, and of another may leave anything, but for a fault
/// (`ChangesWhere`). A fault leaves what was shown, and adds one to `faults`. No call has a
/// condition, so a keep over another one can hand each call on. While the store returns what was
/// written (`is_sound`), an answer leaves a clean keep clean, and `who` answers only from a clean
/// one; other calls may answer from a store that has shut. The state that a stop, as a crash,
/// leaves (`may_leave`), whether a call goes well or answers a fault, is what one before it might
/// have left, or, after a change of a clean keep, what shows the changed register (`left_shows`),
/// while the store returns what was written; of a register that an addition doesn't fit, anything.
///
/// A live statement is one that its filing lists; that a withdrawn filing lists none is a rule of
/// legal registers. A viewer sees its own live filings and others' published ones, always by the
/// register's day; a day that a call is given may be any.
pub trait Keep {
    /// The states that a stop leaves for the next keep to open.
    ghost Left: { Type 0 };

    /// What the states mean.
    ghost meaning: { Meaning Self Register Left StoreFault };

    /// The count of faults, modulo 2^64: each call that answers one adds one to it.
    fn faults(&self) -> u64
        ensures { result ≡ meaning.fault_count self.now };

    /// Who has the token, `None` if nobody. A sound store that has shut, or shuts, returns a fault.
    fn who(&mut self, token: &Token) -> Result<Option<Caller>, StoreFault>
        ensures reads { Reads meaning self.old self.new result (λ r caller.
            caller ≡ caller_of token.now r) }
        ensures up { IfOk result (λ _. meaning.is_sound self.new → meaning.is_clean self.new) };

    /// Whether an agent has the name.
    fn has_agent(&mut self, agent: &AgentName) -> Result<bool, StoreFault>
        ensures { Reads meaning self.old self.new result (λ r has.
            has ≡ is_enrolled agent.now r.members) };

    /// The register's day.
    fn day(&mut self) -> Result<Day, StoreFault>
        ensures { Reads meaning self.old self.new result (λ r day. day ≡ r.day) };

    /// The agent's filing under a key, a withdrawn one too; `None` where it has lodged none under
    /// it.
    fn filing(&mut self, agent: &AgentName, key: &LodgeKey) -> Result<Option<Filing>, StoreFault>
        ensures { Reads meaning self.old self.new result (λ r filing.
            filing ≡ option_map filing_shown
            (filing_keyed key.now (filings_of agent.now r.members))) };

    /// The line of the agent's filing under a key, on the register's day; `None` where it has
    /// lodged none under it.
    fn line(&mut self, agent: &AgentName, key: &LodgeKey) -> Result<Option<FilingLine>, StoreFault>
        ensures { Reads meaning self.old self.new result (λ r line.
            line ≡ option_map (line_of r.day)
            (filing_keyed key.now (filings_of agent.now r.members))) };

    /// Whether the agent has a filing under the key, withdrawn or not, whose file is these bytes.
    fn has_file(
        &mut self,
        agent: &AgentName,
        key: &LodgeKey,
        bytes: &[u8],
    ) -> Result<bool, StoreFault>
        ensures { Reads meaning self.old self.new result (λ r has. has
            ≡ has_bytes bytes.now (filing_keyed key.now (filings_of agent.now r.members))) };

    /// How many filings the agent has, withdrawn ones included.
    fn filing_count(&mut self, agent: &AgentName) -> Result<usize, StoreFault>
        ensures { Reads meaning self.old self.new result (λ r count.
            count ≡ length (filings_of agent.now r.members)) };

    /// The lines of the agent's filings, in order of acceptance, on the register's day.
    fn filings(&mut self, agent: &AgentName) -> Result<Vec<FilingLine>, StoreFault>
        ensures { Reads meaning self.old self.new result (λ r lines.
            lines.items ≡ map (line_of r.day) (filings_of agent.now r.members)) };

    /// The record's live statement that was accepted last, as far as the rules ask; `rec` is the
    /// record's identifier. `None` where the record has none.
    fn last(
        &mut self,
        agent: &AgentName,
        declaration: &Ident,
        rec: &Ident,
    ) -> Result<Option<Last>, StoreFault>
        ensures { Reads meaning self.old self.new result (λ r last. last
            ≡ last_of declaration.now rec.now (live_of (filings_of agent.now r.members))) };

    /// Whether a live statement of the agent has the identifier.
    fn has_statement(&mut self, agent: &AgentName, id: &Ident) -> Result<bool, StoreFault>
        ensures { Reads meaning self.old self.new result (λ r has.
            has ≡ has_id id.now (live_of (filings_of agent.now r.members))) };

    /// Whether a filing of the agent that was accepted after the one with this number has a live
    /// statement of a record of that one. `false` where the agent has no filing with this number,
    /// and where that one lists no statements, as a withdrawn one of a legal register.
    fn has_successor(&mut self, agent: &AgentName, number: u32) -> Result<bool, StoreFault>
        ensures { Reads meaning self.old self.new result (λ r has.
            has ≡ has_successor number (filings_of agent.now r.members)) };

    /// The rows of a declaration of the agent that the viewer sees: of its own live filings, and of
    /// another's published ones. They stand in order of acceptance and of place.
    fn rows_of(
        &mut self,
        viewer: &AgentName,
        agent: &AgentName,
        declaration: &Ident,
    ) -> Result<Vec<Row>, StoreFault>
        ensures { Reads meaning self.old self.new result (λ r rows. rows.items
            ≡ rows_of viewer.now r.day agent.now declaration.now
            (filings_of agent.now r.members)) };

    /// The rows of all agents that the viewer sees: of its own live filings, and of the others'
    /// published ones. They stand by agent, then in order of acceptance and of place. A viewer that
    /// isn't enrolled sees what is published.
    fn visible_rows(&mut self, viewer: &AgentName) -> Result<Vec<Row>, StoreFault>
        ensures { Reads meaning self.old self.new result (λ r rows.
            rows.items ≡ visible viewer.now r.day r.members) };

    /// The row that a record shows on a day by what the viewer sees: of its statements dated at or
    /// before the day the last accepted; `None` where it has none, and where that one is closed.
    /// The day is any day; what the viewer sees goes by the register's.
    fn open_row(
        &mut self,
        viewer: &AgentName,
        day: Day,
        node: &Node,
    ) -> Result<Option<Row>, StoreFault>
        ensures { Reads meaning self.old self.new result (λ r row.
            row ≡ open_at day node.now (visible viewer.now r.day r.members)) };

    /// What is known of a node on a day by what the viewer sees: a legal entity, another entity, or
    /// a person with a name; `None` where it is none of these that is open, as a relationship. The
    /// day is any day; what the viewer sees goes by the register's.
    fn node(
        &mut self,
        viewer: &AgentName,
        day: Day,
        node: &Node,
    ) -> Result<Option<NodeInfo>, StoreFault>
        ensures { Reads meaning self.old self.new result (λ r info.
            info ≡ info_of (seen_at viewer.now day r) node.now) };

    /// The nodes one alias away from a node on a day by what the viewer sees, each once and in any
    /// order: the other open entities that have its record in another declaration of its agent, or
    /// share an identifier with it. A node that isn't an open entity has none.
    fn aliases(
        &mut self,
        viewer: &AgentName,
        day: Day,
        node: &Node,
    ) -> Result<Vec<Node>, StoreFault>
        ensures { Reads meaning self.old self.new result (λ r nodes.
            AreAliases (seen_at viewer.now day r) node.now nodes.items) };

    /// All nodes that stand for one entity with a node on a day by what the viewer sees, by
    /// finitely many aliases, each once and in any order. The node itself is one of them; where it
    /// isn't an open entity, it is the only one.
    fn same(&mut self, viewer: &AgentName, day: Day, node: &Node) -> Result<Vec<Node>, StoreFault>
        ensures { Reads meaning self.old self.new result (λ r nodes.
            AreSame (seen_at viewer.now day r) node.now nodes.items) };

    /// The open entities that have an identifier on a day by what the viewer sees, each once and in
    /// any order. The day is any day; what the viewer sees goes by the register's.
    fn identified(
        &mut self,
        viewer: &AgentName,
        day: Day,
        identifier: &Identifier,
    ) -> Result<Vec<Node>, StoreFault>
        ensures { Reads meaning self.old self.new result (λ r nodes.
            AreIdentified (seen_at viewer.now day r) identifier.now nodes.items) };

    /// The links with this subject on a day by what the viewer sees, each once and in any order: no
    /// two are of one record.
    fn links_into(
        &mut self,
        viewer: &AgentName,
        day: Day,
        node: &Node,
    ) -> Result<Vec<Link>, StoreFault>
        ensures { Reads meaning self.old self.new result (λ r links.
            AreLinksInto (seen_at viewer.now day r) node.now links.items) };

    /// The outward forms of the published filings, which all see: by agent, those of an agent in
    /// order of acceptance.
    fn published(&mut self) -> Result<Vec<Outward>, StoreFault>
        ensures { Reads meaning self.old self.new result (λ r outwards.
            outwards.items ≡ published r.day r.members) };

    /// The agents by name, each with how many filings it has published.
    fn agents(&mut self) -> Result<Vec<AgentLine>, StoreFault>
        ensures { Reads meaning self.old self.new result (λ r lines.
            lines.items ≡ map (agent_line r.day) r.members) };

    /// Adds a filing to those of an agent, which has `count` of them; its number is one more. That
    /// is promised of each register that the filing fits (`MayFile`): the agent is enrolled, and has
    /// that many filings, room for one more and none under the key; each statement has a status,
    /// and their identifiers are distinct and no live statement's of the agent. Whether it fits is
    /// for the caller to test.
    fn add_filing(
        &mut self,
        agent: &AgentName,
        count: usize,
        key: &LodgeKey,
        due: Day,
        bytes: &[u8],
        statements: &[Statement],
    ) -> Result<(), StoreFault>
        ensures { ChangesWhere meaning self.old self.new result
            (MayFile agent.now count key.now statements.now)
            (with_filing agent.now key.now due bytes.now statements.now) };

    /// Withdraws the agent's filing with this number: its statements are gone, its number, key, due
    /// day and bytes stay; with no such filing all stays. What may be withdrawn the caller tests.
    fn withdraw(&mut self, agent: &AgentName, number: u32) -> Result<(), StoreFault>
        ensures { Changes meaning self.old self.new result (with_withdrawal agent.now number) };

    /// Sets the register's day. That it isn't an earlier one is for the caller to test.
    fn set_day(&mut self, day: Day) -> Result<(), StoreFault>
        ensures { Changes meaning self.old self.new result (λ r. record r { day = day }) };

    /// Adds an agent. That is promised of each register to which its name and its token are new
    /// (`MayEnrol`). Whether they are is for the caller to test.
    fn add_agent(&mut self, agent: &AgentName, token: &Token) -> Result<(), StoreFault>
        ensures { ChangesWhere meaning self.old self.new result
            (MayEnrol agent.now token.now) (with_agent agent.now token.now) };

    /// Gives an agent another token; with no such agent all stays. That the token is nobody's is for
    /// the caller to test.
    fn set_token(&mut self, agent: &AgentName, token: &Token) -> Result<(), StoreFault>
        ensures { Changes meaning self.old self.new result (with_renewal agent.now token.now) };

    /// Answered changes last: the state that a stop of a clean keep leaves shows each register that
    /// it showed.
    ghost lasting: { (k : Self) → meaning.is_clean k → (left : Left) → meaning.may_leave k left
        → (r : Register) → meaning.shows k r → meaning.left_shows left r };
}
