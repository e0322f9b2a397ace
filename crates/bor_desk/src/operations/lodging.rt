//! Lodging a file.

ghost use Rattle.std.specs.Prelude.{◌≡◌, ◌<◌, ◌≤◌, ◌+◌, ◌++◌, ℕ, List, Some, None, IfOk, length, true, nat_le, int_lt, Ok, Err, if◌then◌else◌};
ghost use Rattle.bods_read.specs.File.{reading};
ghost use Rattle.bods_read.specs.Limits.{statements_limit};
ghost use Rattle.bor_records.specs.Admission.{Live, last_of};
ghost use Rattle.bor_records.specs.Settling.{has_id, settled, verdict};
ghost use Rattle.bor_register.specs.declared.filing.AcceptedFiling.{AcceptedFiling};
ghost use Rattle.bor_register.specs.Register.{Register, is_enrolled, filings_of, filing_keyed};
ghost use Rattle.bor_register.specs.Live.{accepted, live_of};
ghost use Rattle.bor_register.specs.Additions.{MayFile, with_filing};
ghost use Rattle.bor_register.specs.Publication.{state_of_live, line_of};
ghost use Rattle.bor_records.specs.Promises.{Changes, Kept, Leaves, Promised, Sure, Reads};
ghost use Rattle.bor_desk.specs.declared.operations.fault.LodgeFault.TheVariants as lodge_faults;
ghost use Rattle.bor_register.specs.Limits.{filings_limit};
ghost use Rattle.bor_desk.specs.Operations.Earlier.{AreFound, record_of};
ghost use Rattle.bor_desk.specs.Operations.Lodging.{as_read, told_settled, told_verdict, settled_reading, repeated, addition, lodge_step};
ghost use Rattle.bor_desk.specs.Operations.Outcomes.{Accounts, store_fault, of_lodging, IsOutcome, IsDone, IsMadeAlone};
ghost use Rattle.bor_desk.specs.Operations.Legality.{IsLegal};
ghost use Rattle.bor_desk.specs.Operations.Sight.{sight_of};

use crate::operations::earlier::{Earlier, RecordKey};
use crate::operations::fault::LodgeFault;
use bods_read::{ReadFault, Statement, Status, read_file};
use bor_records::{Last, admit};
use bor_register::keeping::Keep;
use bor_register::{FILINGS_LIMIT, FilingLine, State, StoreFault};
use bor_terms::{AgentName, Day, Ident, LodgeKey};
use std::alloc::Global;

/// The reply to an agent on a filing that it lodged.
#[derive(Clone, Copy, PartialEq, Eq)]
pub struct Lodged {
    /// Its number, from 1, in order of acceptance.
    pub number: u32,
    /// The day from which on it is published, unless it is withdrawn.
    pub due: Day,
    /// Its state on the register's day.
    pub state: State,
    /// Whether the filing is new, and not one that was lodged before in the same way.
    pub fresh: bool,
}

fn read(alloc: Global, bytes: &[u8]) -> Result<Vec<Statement>, LodgeFault>
    ensures few { IfOk result (λ statements. length statements.items ≤ statements_limit) }
    ensures read { IsMadeAlone (λ statements. statements.items) result
        (as_read (reading bytes.now)) }
{
    match read_file(alloc, bytes) {
        Ok(statements) => Ok(statements),
        Err(ReadFault::File(fault)) => Err(LodgeFault::Read(fault)),
        Err(ReadFault::Memory) => Err(LodgeFault::Store(StoreFault::Memory)),
    }
}

// Whether a live statement of the agent or an earlier one of the file has the identifier.
#[tactic(auto, using(crate::proofs::OnOperations::Earlier::file_rules, crate::proofs::OnOperations::Lodgings::moved))]
fn is_taken<K: Keep>(
    keep: &mut K,
    agent: &AgentName,
    earlier: &Earlier,
    id: &Ident,
) -> Result<bool, StoreFault>
    ensures { Reads K.meaning
        keep.old keep.new result (λ r taken.
        (live : List Live) → AreFound live earlier.now →
        taken ≡ has_id id.now (live_of (filings_of agent.now r.members) ++ live)) }
{
    if earlier.has_id(id) {
        return Ok(true);
    }
    keep.has_statement(agent, id)
}

// The record's last statement, in the file or before it, as far as the rules ask.
#[tactic(auto, using(crate::proofs::OnOperations::Earlier::file_rules, crate::proofs::OnOperations::Lodgings::moved))]
fn last<K: Keep>(
    keep: &mut K,
    agent: &AgentName,
    statement: &Statement,
    in_file: Option<Last>,
) -> Result<Option<Last>, StoreFault>
    ensures { Reads K.meaning
        keep.old keep.new result (λ r last.
        (live : List Live) → in_file ≡ last_of statement.now.declaration statement.now.rec live →
        last ≡ last_of statement.now.declaration statement.now.rec
        (live_of (filings_of agent.now r.members) ++ live)) }
{
    match in_file {
        Some(last) => Ok(Some(last)),
        None => keep.last(agent, &statement.declaration, &statement.rec),
    }
}

// The status that a statement is settled as after those before it, or why it is refused.
#[tactic(auto, using(crate::proofs::OnOperations::Lodgings::verdict_rules, crate::proofs::OnOperations::Lodgings::moved))]
fn settled_status<K: Keep>(
    keep: &mut K,
    agent: &AgentName,
    due: Day,
    earlier: &Earlier,
    key: &RecordKey,
    statement: &Statement,
    place: u32,
) -> Result<Status, LodgeFault>
    requires { key.now ≡ record_of statement.now }
    ensures kept { Kept K.meaning keep.old keep.new }
    ensures accounted { Accounts K.meaning keep.old keep.new (store_fault of_lodging result) }
    ensures answer { Promised K.meaning keep.old keep.new (λ r.
        (live : List Live) → AreFound live earlier.now →
        IsDone of_lodging (λ status. status) result (told_verdict place
        (verdict (live_of (filings_of agent.now r.members) ++ live) statement.now due))) }
{
    if is_taken(keep, agent, earlier, &statement.id)? {
        return Err(LodgeFault::StatementTwice(place));
    }
    match admit(
        last(keep, agent, statement, earlier.last(key))?,
        statement,
        due,
    ) {
        Ok(status) => Ok(status),
        Err(fault) => Err(LodgeFault::Record { place, fault }),
    }
}

// Settles the statements of a file, one after the other; or the first place that is refused.
fn settle<K: Keep>(
    alloc: Global,
    keep: &mut K,
    agent: &AgentName,
    due: Day,
    statements: &mut [Statement],
) -> Result<(), LodgeFault>
    requires few { length statements.old ≤ statements_limit }
    ensures kept { Kept K.meaning keep.old keep.new }
    ensures accounted { Accounts K.meaning keep.old keep.new (store_fault of_lodging result) }
    ensures answer { Promised K.meaning keep.old keep.new (λ r.
        IsDone of_lodging (λ _. statements.new) result
        (told_settled (settled (live_of (filings_of agent.now r.members)) due statements.old))) }
{
    let mut earlier = Earlier::new(alloc);
    for i in 0..statements.len() {
        let place = i as u32 + 1;
        let key = RecordKey::of(alloc, &statements[i])?;
        let status = settled_status(keep, agent, due, &earlier, &key, &statements[i], place)?;
        statements[i].status = Some(status);
        earlier.add(alloc, key, &statements[i], due)?;
    }
    Ok(())
}

// The statements of a file with their statuses settled, or why it is refused.
#[tactic(auto, using(crate::proofs::OnOperations::Lodgings::reading_rules))]
fn settled<K: Keep>(
    alloc: Global,
    keep: &mut K,
    agent: &AgentName,
    due: Day,
    bytes: &[u8],
) -> Result<Vec<Statement>, LodgeFault>
    ensures kept { Kept K.meaning keep.old keep.new }
    ensures accounted { Accounts K.meaning keep.old keep.new (store_fault of_lodging result) }
    ensures answer { Promised K.meaning keep.old keep.new (λ r.
        IsDone of_lodging (λ statements. statements.items) result
        (settled_reading (live_of (filings_of agent.now r.members)) due (reading bytes.now))) }
{
    let mut statements = read(alloc, bytes)?;
    settle(alloc, keep, agent, due, &mut statements)?;
    Ok(statements)
}

// The answer where the agent has a filing under the key, by its line.
fn repeat<K: Keep>(
    keep: &mut K,
    agent: &AgentName,
    key: &LodgeKey,
    due: Day,
    bytes: &[u8],
    line: &FilingLine,
) -> Result<Lodged, LodgeFault>
    ensures kept { Kept K.meaning keep.old keep.new }
    ensures accounted { Accounts K.meaning keep.old keep.new (store_fault of_lodging result) }
    ensures answer { Promised K.meaning keep.old keep.new (λ r.
        (f : AcceptedFiling) → filing_keyed key.now (filings_of agent.now r.members) ≡ Some f →
        line.now ≡ line_of r.day f
        → IsDone of_lodging (λ lodged. lodged) result (repeated r.day due bytes.now f)) }
{
    if line.due != due || !keep.has_file(agent, key, bytes)? {
        return Err(LodgeFault::KeyReused);
    }
    Ok(Lodged {
        number: line.number,
        due,
        state: line.state,
        fresh: false,
    })
}

// How many filings the agent has, where it may have one more.
fn count_for<K: Keep>(keep: &mut K, agent: &AgentName) -> Result<usize, LodgeFault>
    ensures kept { Kept K.meaning keep.old keep.new }
    ensures accounted { Accounts K.meaning keep.old keep.new (store_fault of_lodging result) }
    ensures answer { Promised K.meaning keep.old keep.new (λ r.
        let count = length (filings_of agent.now r.members) in
        IsDone of_lodging (λ count. count) result
        (if nat_le filings_limit count then Err lodge_faults.FilingsFull else Ok count)) }
    ensures few { IfOk result (λ count. count < filings_limit) }
{
    let count = keep.filing_count(agent)?;
    if count >= FILINGS_LIMIT {
        return Err(LodgeFault::FilingsFull);
    }
    Ok(count)
}

// The register's day, where the due day isn't past.
fn day_for<K: Keep>(keep: &mut K, due: Day) -> Result<Day, LodgeFault>
    ensures kept { Kept K.meaning keep.old keep.new }
    ensures accounted { Accounts K.meaning keep.old keep.new (store_fault of_lodging result) }
    ensures answer { Promised K.meaning keep.old keep.new (λ r.
        IsDone of_lodging (λ day. day) result
        (if int_lt due r.day then Err lodge_faults.DuePast else Ok r.day)) }
{
    let day = keep.day()?;
    if due < day {
        return Err(LodgeFault::DuePast);
    }
    Ok(day)
}

// The filing that a lodging under a new key adds, behind so many.
#[derive(Drop)]
struct Prepared {
    count: usize,
    statements: Vec<Statement>,
    state: State,
}

// The filing that a lodging adds, or why it is refused.
fn prepare<K: Keep>(
    alloc: Global,
    keep: &mut K,
    agent: &AgentName,
    due: Day,
    bytes: &[u8],
) -> Result<Prepared, LodgeFault>
    ensures kept { Kept K.meaning keep.old keep.new }
    ensures accounted { Accounts K.meaning keep.old keep.new (store_fault of_lodging result) }
    ensures answer { Promised K.meaning keep.old keep.new (λ r.
        (key : List ℕ) → IsDone of_lodging
        (λ new. accepted (filings_of agent.now r.members) key due bytes.now new.statements.items)
        result (addition (sight_of agent.now r) key due bytes.now)) }
    ensures count { Promised K.meaning keep.old keep.new (λ r.
        IfOk result (λ new. new.count ≡ length (filings_of agent.now r.members))) }
    ensures few { IfOk result (λ new. new.count < filings_limit) }
    ensures state { Promised K.meaning keep.old keep.new (λ r.
        IfOk result (λ new. new.state ≡ state_of_live due r.day)) }
{
    let count = count_for(keep, agent)?;
    let day = day_for(keep, due)?;
    let statements = settled(alloc, keep, agent, due, bytes)?;
    Ok(Prepared {
        count,
        statements,
        state: State::of_live(due, day),
    })
}

// Adds a filing that fits each register that is shown.
fn add_filing<K: Keep>(
    keep: &mut K,
    agent: &AgentName,
    count: usize,
    key: &LodgeKey,
    due: Day,
    bytes: &[u8],
    statements: &[Statement],
) -> Result<(), StoreFault>
    requires { Sure K.meaning keep.old (MayFile agent.now count key.now statements.now) }
    ensures { Changes K.meaning keep.old keep.new result
        (with_filing agent.now key.now due bytes.now statements.now) }
{
    keep.add_filing(agent, count, key, due, bytes, statements)
}

// Lodges a file under a key that is new to the agent.
fn lodge_new<K: Keep>(
    alloc: Global,
    keep: &mut K,
    agent: &AgentName,
    key: &LodgeKey,
    due: Day,
    bytes: &[u8],
) -> Result<Lodged, LodgeFault>
    requires enrolled { Sure K.meaning keep.old (λ r.
        is_enrolled agent.now r.members ≡ true) }
    requires new_key { Sure K.meaning keep.old (λ r.
        filing_keyed key.now (filings_of agent.now r.members) ≡ None) }
    ensures leaves { Leaves K.meaning keep.old keep.new (λ r left.
        K.meaning.left_shows left (lodge_step r agent.now key.now due bytes.now).register) }
    ensures step { Promised K.meaning keep.old keep.new (λ r.
        IsOutcome of_lodging result (K.meaning.shows keep.new) r
        (lodge_step r agent.now key.now due bytes.now)) }
    ensures accounted { Accounts K.meaning keep.old keep.new (store_fault of_lodging result) }
{
    let new = prepare(alloc, keep, agent, due, bytes)?;
    add_filing(keep, agent, new.count, key, due, bytes, &new.statements)?;
    Ok(Lodged {
        number: new.count as u32 + 1,
        due,
        state: new.state,
        fresh: true,
    })
}

/// Lodges a file for an agent: reads it, settles its statements, adds it as the agent's next filing
/// and tells its number, due day and state.
///
/// It asks that the agent is enrolled; `has_agent` is the test.
///
/// Where the agent has a filing under the key with the same due day and bytes, the reply has that
/// filing with its state now, `fresh` is false and nothing changes. Else the refusals are, in their
/// order: `KeyReused`; `FilingsFull`; `DuePast`; `Read` with the file's first fault; then by
/// statement in file order `StatementTwice` and `Record`, each with its place. A refusal leaves the
/// register as it was, and so does `Store`, unless the store shut in its commit. The keep is asked
/// at most once for each statement's identifier and once for its record, and is changed at most
/// once, last; none of its calls lists the agent's filings or copies a file. Beside the keep, n
/// statements take the time of n look-ups among n.
pub fn lodge<K: Keep>(
    alloc: Global,
    keep: &mut K,
    agent: &AgentName,
    key: &LodgeKey,
    due: Day,
    bytes: &[u8],
) -> Result<Lodged, LodgeFault>
    requires enrolled { Sure K.meaning keep.old (λ r.
        is_enrolled agent.now r.members ≡ true) }
    ensures leaves { Leaves K.meaning keep.old keep.new (λ r left.
        K.meaning.left_shows left (lodge_step r agent.now key.now due bytes.now).register) }
    ensures step { Promised K.meaning keep.old keep.new (λ r.
        IsOutcome of_lodging result (K.meaning.shows keep.new) r
        (lodge_step r agent.now key.now due bytes.now)) }
    ensures accounted { Accounts K.meaning keep.old keep.new (store_fault of_lodging result) }
    ensures legal { Promised K.meaning keep.old keep.new (λ r.
        IsLegal r → (left : Register) × K.meaning.shows keep.new left × IsLegal left) }
{
    match keep.line(agent, key)? {
        Some(line) => repeat(keep, agent, key, due, bytes, &line),
        None => lodge_new(alloc, keep, agent, key, due, bytes),
    }
}
