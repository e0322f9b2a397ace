//! Withdrawing a filing.

ghost use Rattle.std.specs.Prelude.{◌≡◌, Some, IfOk, option_map};
ghost use Rattle.bor_register.specs.Register.{Register, filings_of, filing_keyed};
ghost use Rattle.bor_register.specs.Publication.{line_of};
ghost use Rattle.bor_records.specs.Promises.{Kept, Leaves, Promised};
ghost use Rattle.bor_desk.specs.Operations.Sight.{sight_of};
ghost use Rattle.bor_desk.specs.Operations.Withdrawing.{line_withdrawn, withdrawal, withdraw_step};
ghost use Rattle.bor_desk.specs.Operations.Outcomes.{Accounts, store_fault, of_withdrawal, IsOutcome, IsDone};
ghost use Rattle.bor_desk.specs.Operations.Legality.{IsLegal};

use crate::operations::fault::WithdrawFault;
use bor_register::keeping::Keep;
use bor_register::{FilingLine, State};
use bor_terms::{AgentName, LodgeKey};

// The line of the agent's filing under a key, where it is withdrawn already or may be.
fn withdrawable<K: Keep>(
    keep: &mut K,
    agent: &AgentName,
    key: &LodgeKey,
) -> Result<FilingLine, WithdrawFault>
    ensures kept { Kept K.meaning keep.old keep.new }
    ensures accounted { Accounts K.meaning keep.old keep.new (store_fault of_withdrawal result) }
    ensures answer { Promised K.meaning keep.old keep.new (λ r.
        IsDone of_withdrawal line_withdrawn result
        (withdrawal (sight_of agent.now r) key.now)) }
    ensures found { Promised K.meaning keep.old keep.new (λ r. IfOk result (λ line.
        Some line ≡ option_map (line_of r.day)
        (filing_keyed key.now (filings_of agent.now r.members)))) }
{
    let Some(line) = keep.line(agent, key)? else {
        return Err(WithdrawFault::NoSuchFiling);
    };
    if line.state == State::Published {
        return Err(WithdrawFault::Published);
    }
    if line.state == State::Draft && keep.has_successor(agent, line.number)? {
        return Err(WithdrawFault::HasSuccessor);
    }
    Ok(line)
}

/// Withdraws an agent's draft: its statements are gone, its number, key, due day and bytes stay.
///
/// Returns the filing's line, also for a filing that is withdrawn already. The refusals are, in
/// their order: `NoSuchFiling`; `Published`; `HasSuccessor` where a later live filing of the agent
/// has a statement of one of its records. A refusal leaves the register as it was, and so does
/// `Store`, unless the store shut in its commit. No call of the keep is made twice, and the one
/// that changes it last; none copies a file.
pub fn withdraw<K: Keep>(
    keep: &mut K,
    agent: &AgentName,
    key: &LodgeKey,
) -> Result<FilingLine, WithdrawFault>
    ensures leaves { Leaves K.meaning keep.old keep.new
        (λ r left. K.meaning.left_shows left (withdraw_step r agent.now key.now).register) }
    ensures step { Promised K.meaning keep.old keep.new (λ r.
        IsOutcome of_withdrawal result (K.meaning.shows keep.new) r
        (withdraw_step r agent.now key.now)) }
    ensures accounted { Accounts K.meaning keep.old keep.new (store_fault of_withdrawal result) }
    ensures legal { Promised K.meaning keep.old keep.new (λ r.
        IsLegal r → (left : Register) × K.meaning.shows keep.new left × IsLegal left) }
{
    let line = withdrawable(keep, agent, key)?;
    if line.state == State::Withdrawn {
        return Ok(line);
    }
    keep.withdraw(agent, line.number)?;
    Ok(FilingLine {
        state: State::Withdrawn,
        ..line
    })
}
