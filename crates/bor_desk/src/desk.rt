//! Who asks, and what is answered.

ghost use Rattle.std.specs.Prelude.{◌≡◌, IfOk, IfErr, unwrap_or, true, false};
ghost use Rattle.bor_register.specs.Register.{Register, IsOrdered, caller_of, is_enrolled, filings_of, filing_keyed};
ghost use Rattle.bor_records.specs.Promises.{Kept, Leaves, Promised, Reads, Sure};
ghost use Rattle.bor_desk.specs.Operations.Legality.{IsLegal};
ghost use Rattle.bor_desk.specs.Operations.Sight.{seen_by};
ghost use Rattle.bor_desk.specs.Operations.Outcomes.{Accounts};
ghost use Rattle.bor_desk.specs.Step.{entities, step, agent_step, registrar_step, file_answer, chains_answer, evidence_answer, snapshot_answer};
ghost use Rattle.bor_desk.specs.declared.request.Request.TheVariants as of;
ghost use Rattle.bor_desk.specs.declared.request.RegistrarRequest.TheVariants as office;
ghost use Rattle.bor_desk.specs.Laws.{IsToldAlone};
ghost use Rattle.bor_desk.specs.Outcomes.{fault_of, UnlessReplyFailed, IsAnswered, IsLeft, IsNamed, IsOrderedFor, agent_of, reply_of, denial};

use crate::evidence::{entities_seen, evidence_seen};
use crate::operations::{Caller, Keep, StoreFault, advance, enrol, lodge, renew, withdraw};
use crate::refusal::{DeskFault, Refusal};
use crate::reply::{Answered, DeskReply};
use crate::report::persons_seen;
use crate::request::{AgentRequest, RegistrarRequest, Request};
use bods_read::Identifier;
use bor_chains::Node;
use bor_records::snapshot;
use bor_terms::{AgentName, Day, Ident, Listed, LodgeKey, Token};
use std::alloc::Global;

impl From<DeskFault> for DeskReply {
    ghost from_gives = { λ fault given. given ≡ denial fault };

    fn from(fault: DeskFault) -> Self {
        match fault {
            DeskFault::Refused(refusal) => DeskReply::Refused(refusal),
            DeskFault::Failed(fault) => DeskReply::Failed(fault),
        }
    }
}

/// The date that is asked for, or the register's day.
///
/// # Errors
///
/// The keep failed.
pub fn date_or_day<K: Keep>(keep: &mut K, date: Option<Day>) -> Result<Day, StoreFault>
    ensures { Reads K.meaning keep.old keep.new result (λ r day. day ≡ unwrap_or date r.day) }
{
    match date {
        Some(date) => Ok(date),
        None => keep.day(),
    }
}

// The bytes of the agent's filing under a key, of a withdrawn one too.
#[tactic(auto, using(crate::proofs::Steps::file_told, crate::proofs::Steps::file_missing))]
fn file_for<K: Keep>(keep: &mut K, name: &AgentName, key: &LodgeKey) -> Result<DeskReply, DeskFault>
    ensures kept { Kept K.meaning keep.old keep.new }
    ensures accounted { Accounts K.meaning keep.old keep.new (fault_of (reply_of result)) }
    ensures answer { Promised K.meaning keep.old keep.new (λ r.
        IsAnswered (reply_of result)
        (file_answer (filing_keyed key.now (filings_of name.now r.members)))) }
{
    match keep.filing(name, key)? {
        Some(filing) => Ok(DeskReply::File(filing.bytes)),
        None => Err(DeskFault::Refused(Refusal::NoSuchFiling)),
    }
}

// The snapshot of an agent's declaration, as the viewer sees it.
fn snapshot_for<K: Keep>(
    alloc: Global,
    keep: &mut K,
    viewer: &AgentName,
    agent: &AgentName,
    declaration: &Ident,
    date: Option<Day>,
) -> Result<DeskReply, DeskFault>
    ensures kept { Kept K.meaning keep.old keep.new }
    ensures accounted { Accounts K.meaning keep.old keep.new (fault_of (reply_of result)) }
    ensures answer { Promised K.meaning keep.old keep.new (λ r.
        IsOrdered r.members → IsAnswered (reply_of result)
        (snapshot_answer (seen_by viewer.now r) agent.now declaration.now (unwrap_or date r.day))) }
{
    let date = date_or_day(keep, date)?;
    let rows = keep.rows_of(viewer, agent, declaration)?;
    Ok(DeskReply::Snapshot {
        date,
        records: Listed::new(snapshot(alloc, &rows, declaration, date)?),
    })
}

// The persons behind an entity on a date, as the viewer sees it.
fn chains_for<K: Keep>(
    alloc: Global,
    keep: &mut K,
    viewer: &AgentName,
    entity: &Node,
    date: Option<Day>,
) -> Result<DeskReply, DeskFault>
    ensures kept { Kept K.meaning keep.old keep.new }
    ensures accounted { Accounts K.meaning keep.old keep.new (fault_of (reply_of result)) }
    ensures answer { Promised K.meaning keep.old keep.new (λ r.
        IsAnswered (reply_of result)
        (chains_answer (seen_by viewer.now r) entity.now (unwrap_or date r.day))) }
{
    let date = date_or_day(keep, date)?;
    let persons = persons_seen(alloc, keep, viewer, entity, date)?;
    Ok(DeskReply::Chains {
        entity: entity.copy(alloc)?,
        date,
        persons: Listed::new(persons),
    })
}

// Why the persons behind an entity are named on a date, as the viewer sees it.
fn evidence_for<K: Keep>(
    alloc: Global,
    keep: &mut K,
    viewer: &AgentName,
    entity: &Node,
    date: Option<Day>,
) -> Result<DeskReply, DeskFault>
    ensures kept { Kept K.meaning keep.old keep.new }
    ensures accounted { Accounts K.meaning keep.old keep.new (fault_of (reply_of result)) }
    ensures answer { Promised K.meaning keep.old keep.new (λ r.
        IsAnswered (reply_of result)
        (evidence_answer (seen_by viewer.now r) entity.now (unwrap_or date r.day))) }
{
    let date = date_or_day(keep, date)?;
    let evidence = evidence_seen(alloc, keep, viewer, entity, date)?;
    Ok(DeskReply::Evidence {
        entity: entity.copy(alloc)?,
        date,
        evidence,
    })
}

// The open entities that have an identifier on a date, as the viewer sees it.
fn entities_for<K: Keep>(
    alloc: Global,
    keep: &mut K,
    viewer: &AgentName,
    identifier: &Identifier,
    date: Option<Day>,
) -> Result<DeskReply, DeskFault>
    ensures kept { Kept K.meaning keep.old keep.new }
    ensures accounted { Accounts K.meaning keep.old keep.new (fault_of (reply_of result)) }
    ensures answer { Promised K.meaning keep.old keep.new (λ r.
        IsAnswered (reply_of result)
        (entities identifier.now (unwrap_or date r.day) (seen_by viewer.now r))) }
{
    let date = date_or_day(keep, date)?;
    let records = entities_seen(alloc, keep, viewer, identifier, date)?;
    Ok(DeskReply::Entities {
        identifier: identifier.copy(alloc)?,
        date,
        records: Listed::new(records),
    })
}

#[tactic(auto, using(bor_register::proofs::Members::with_filings_same))]
fn answer_agent<K: Keep>(
    alloc: Global,
    keep: &mut K,
    name: &AgentName,
    request: &AgentRequest,
) -> Result<DeskReply, DeskFault>
    requires enrolled { Sure K.meaning keep.old (λ r.
        is_enrolled name.now r.members ≡ true) }
    ensures leaves { Leaves K.meaning keep.old keep.new
        (λ r left. K.meaning.left_shows left (agent_step r name.now request.now).register) }
    ensures step { Promised K.meaning keep.old keep.new (λ r.
        IsOrderedFor (of.Agent request.now) r
        → IsAnswered (reply_of result) (agent_step r name.now request.now).answer) }
    ensures left { Promised K.meaning keep.old keep.new (λ r.
        IsLeft (reply_of result) (K.meaning.shows keep.new) r
        (agent_step r name.now request.now).register) }
    ensures accounted { Accounts K.meaning keep.old keep.new (fault_of (reply_of result)) }
{
    match request {
        AgentRequest::Lodge { key, due, file } => Ok(DeskReply::Lodged(lodge(
            alloc,
            keep,
            name,
            key,
            *due,
            file.as_slice(),
        )?)),
        AgentRequest::Withdraw { key } => Ok(DeskReply::Withdrawn(withdraw(keep, name, key)?)),
        AgentRequest::Filings => Ok(DeskReply::Filings(Listed::new(keep.filings(name)?))),
        AgentRequest::File { key } => file_for(keep, name, key),
        AgentRequest::Published => Ok(DeskReply::Published(Listed::new(keep.published()?))),
        AgentRequest::Snapshot {
            agent,
            declaration,
            date,
        } => snapshot_for(alloc, keep, name, agent, declaration, *date),
        AgentRequest::Chains { entity, date } => chains_for(alloc, keep, name, entity, *date),
        AgentRequest::Evidence { entity, date } => evidence_for(alloc, keep, name, entity, *date),
        AgentRequest::Entities { identifier, date } => {
            entities_for(alloc, keep, name, identifier, *date)
        }
    }
}

// The register's day and its agents, as the registrar sees them.
fn overview<K: Keep>(keep: &mut K) -> Result<DeskReply, DeskFault>
    ensures kept { Kept K.meaning keep.old keep.new }
    ensures accounted { Accounts K.meaning keep.old keep.new (fault_of (reply_of result)) }
    ensures answer { Promised K.meaning keep.old keep.new (λ r.
        IsAnswered (reply_of result) (registrar_step r office.Register).answer) }
{
    let day = keep.day()?;
    let agents = keep.agents()?;
    Ok(DeskReply::Register {
        agents: Listed::new(agents),
        day,
    })
}

fn answer_registrar<K: Keep>(
    alloc: Global,
    keep: &mut K,
    request: &RegistrarRequest,
) -> Result<DeskReply, DeskFault>
    ensures leaves { Leaves K.meaning keep.old keep.new
        (λ r left. K.meaning.left_shows left (registrar_step r request.now).register) }
    ensures step { Promised K.meaning keep.old keep.new (λ r.
        IsAnswered (reply_of result) (registrar_step r request.now).answer) }
    ensures left { Promised K.meaning keep.old keep.new (λ r.
        IsLeft (reply_of result) (K.meaning.shows keep.new) r
        (registrar_step r request.now).register) }
    ensures accounted { Accounts K.meaning keep.old keep.new (fault_of (reply_of result)) }
{
    match request {
        RegistrarRequest::Day { date } => Ok(DeskReply::Day(advance(keep, *date)?)),
        RegistrarRequest::Enrol { name, token } => {
            let name = name.copy(alloc)?;
            let token = token.copy(alloc)?;
            Ok(DeskReply::Enrolled(enrol(keep, name, token)?))
        }
        RegistrarRequest::Renew { name, token } => {
            let name = name.copy(alloc)?;
            let token = token.copy(alloc)?;
            Ok(DeskReply::Renewed(renew(keep, name, token)?))
        }
        RegistrarRequest::Register => overview(keep),
    }
}

// The reply, and the agent that it is for.
fn named(agent: Option<AgentName>, made: Result<DeskReply, DeskFault>) -> Answered
    ensures agent { result.agent ≡ agent }
    ensures reply { result.reply ≡ reply_of made }
{
    match made {
        Ok(reply) => Answered { agent, reply },
        Err(fault) => Answered {
            agent,
            reply: DeskReply::from(fault),
        },
    }
}

/// Answers the request of whoever has the token, as [`answer`] does, and names the agent that has
/// it; beside `Failed` it may name none. `alone` and `legal` of [`answer`] aren't repeated here.
///
/// The name is the one that the keep returned for the answer: it isn't asked once more.
pub fn answer_naming<K: Keep>(
    alloc: Global,
    keep: &mut K,
    token: &Token,
    request: &Request,
) -> Answered
    ensures leaves { Leaves K.meaning keep.old keep.new (λ r left.
        K.meaning.left_shows left (step r (caller_of token.now r) request.now).register) }
    ensures step { Promised K.meaning keep.old keep.new (λ r. IsOrderedFor request.now r
        → IsAnswered result.reply (step r (caller_of token.now r) request.now).answer) }
    ensures left { Promised K.meaning keep.old keep.new (λ r.
        IsLeft result.reply (K.meaning.shows keep.new) r
        (step r (caller_of token.now r) request.now).register) }
    ensures agent { Promised K.meaning keep.old keep.new (λ r.
        IsNamed result.reply result.agent (agent_of (caller_of token.now r))) }
    ensures accounted { Accounts K.meaning keep.old keep.new (fault_of result.reply) }
    ensures up { UnlessReplyFailed result.reply (K.meaning.is_sound keep.new
        → K.meaning.is_clean keep.new) }
{
    match (keep.who(token), request) {
        (Err(fault), _) => named(None, Err(DeskFault::Failed(fault))),
        (Ok(None), _) => named(None, Err(DeskFault::Refused(Refusal::NoAgent))),
        (Ok(Some(Caller::Registrar)), Request::Registrar(request)) => {
            named(None, answer_registrar(alloc, keep, request))
        }
        (Ok(Some(Caller::Registrar)), Request::Agent(_)) => {
            named(None, Err(DeskFault::Refused(Refusal::NotAgent)))
        }
        (Ok(Some(Caller::Agent(name))), Request::Agent(request)) => {
            let made = answer_agent(alloc, keep, &name, request);
            named(Some(name), made)
        }
        (Ok(Some(Caller::Agent(name))), Request::Registrar(_)) => {
            named(Some(name), Err(DeskFault::Refused(Refusal::NotRegistrar)))
        }
    }
}

/// Answers the request of whoever has the token.
///
/// The refusals are, in their order: `NoAgent` where nobody has the token; `NotRegistrar` where an
/// agent asks for the registrar's doing; `NotAgent` where the registrar asks for anything else;
/// then the operation's own. `Failed` may come in place of any other reply: for want of memory, or
/// where the keep's count of faults has moved (`accounted`). Where the store has shut, or shuts
/// meanwhile, it is `Failed`, if the store has returned what was written (`up`).
///
/// The rest is said of each register that the keep showed, where it ends clean. A refusal leaves it
/// as it was, and so does `Failed` (`left`). The reply is that of `step`; of a snapshot only where
/// agents stand in order of their names, as each legal register's do. Of a legal one, an agent gets
/// the reply that it would get alone with what others have published: no draft of theirs changes it
/// (`alone`); and a legal one is left (`legal`). After a stop the next keep shows what it might
/// have shown after a stop before the call or, where the keep was clean, the register after the
/// request, while the store returns what was written (`leaves`).
pub fn answer<K: Keep>(alloc: Global, keep: &mut K, token: &Token, request: &Request) -> DeskReply
    ensures leaves { Leaves K.meaning keep.old keep.new (λ r left.
        K.meaning.left_shows left (step r (caller_of token.now r) request.now).register) }
    ensures step { Promised K.meaning keep.old keep.new (λ r.
        IsOrderedFor request.now r
        → IsAnswered result (step r (caller_of token.now r) request.now).answer) }
    ensures left { Promised K.meaning keep.old keep.new (λ r.
        IsLeft result (K.meaning.shows keep.new) r
        (step r (caller_of token.now r) request.now).register) }
    ensures alone { Promised K.meaning keep.old keep.new (λ r.
        IsLegal r → IsToldAlone result (caller_of token.now r) r request.now) }
    ensures accounted { Accounts K.meaning keep.old keep.new (fault_of result) }
    ensures up { UnlessReplyFailed result (K.meaning.is_sound keep.new
        → K.meaning.is_clean keep.new) }
    ensures legal { Promised K.meaning keep.old keep.new (λ r.
        IsLegal r → (left : Register) × K.meaning.shows keep.new left × IsLegal left) }
{
    let Answered { reply, .. } = answer_naming(alloc, keep, token, request);
    reply
}
