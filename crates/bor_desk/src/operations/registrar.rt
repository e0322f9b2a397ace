//! The registrar's operations: the day goes on, agents are enrolled, and their tokens renewed.

ghost use Rattle.std.specs.Prelude.{◌≡◌, false};
ghost use Rattle.bor_register.specs.Register.{Register, is_enrolled, is_taken};
ghost use Rattle.bor_register.specs.Additions.{with_agent};
ghost use Rattle.bor_records.specs.Promises.{Changes, Leaves, Promised, Reads, Sure};
ghost use Rattle.bor_desk.specs.Operations.Registrar.{advance_step, enrol_step, renew_step};
ghost use Rattle.bor_desk.specs.Operations.Outcomes.{Accounts, store_fault, of_advance, of_enrolment, of_renewal, IsOutcome};
ghost use Rattle.bor_desk.specs.Operations.Legality.{IsLegal};

use crate::operations::fault::{AdvanceFault, EnrolFault, RenewFault};
use bor_register::keeping::Keep;
use bor_register::{Caller, StoreFault};
use bor_terms::{AgentName, Day, Token};

/// Moves the register's day to this one, and hands it back. What is due by then is published.
///
/// `DayBack` is the one refusal: the day is before the register's; the same day is taken. It leaves
/// the register as it was, and so does `Store`, unless the store shut in its commit.
pub fn advance<K: Keep>(keep: &mut K, day: Day) -> Result<Day, AdvanceFault>
    ensures leaves { Leaves K.meaning keep.old keep.new
        (λ r left. K.meaning.left_shows left (advance_step r day).register) }
    ensures step { Promised K.meaning keep.old keep.new (λ r.
        IsOutcome of_advance result (K.meaning.shows keep.new) r (advance_step r day)) }
    ensures accounted { Accounts K.meaning keep.old keep.new (store_fault of_advance result) }
    ensures legal { Promised K.meaning keep.old keep.new (λ r.
        IsLegal r → (left : Register) × K.meaning.shows keep.new left × IsLegal left) }
{
    if day < keep.day()? {
        return Err(AdvanceFault::DayBack);
    }
    keep.set_day(day)?;
    Ok(day)
}

// Whether an agent or the registrar has the token.
#[tactic(auto, using(bor_register::proofs::Callers::callers))]
fn is_taken<K: Keep>(keep: &mut K, token: &Token) -> Result<bool, StoreFault>
    ensures { Reads K.meaning
        keep.old keep.new result (λ r taken.
        taken ≡ is_taken token.now r) }
{
    Ok(keep.who(token)?.is_some())
}

// Adds an agent whose name and token are new to each register that is shown.
fn add_agent<K: Keep>(keep: &mut K, name: &AgentName, token: &Token) -> Result<(), StoreFault>
    requires new_name { Sure K.meaning keep.old (λ r.
        is_enrolled name.now r.members ≡ false) }
    requires new_token { Sure K.meaning keep.old (λ r. is_taken token.now r ≡ false) }
    ensures { Changes K.meaning keep.old keep.new result (with_agent name.now token.now) }
{
    keep.add_agent(name, token)
}

/// Enrols an agent under a name and a token, and hands the name back.
///
/// The refusals are, in their order: `NameTaken` where an agent has the name, and `TokenTaken`
/// where an agent or the registrar has the token. A refusal leaves the register as it was, and so
/// does `Store`, unless the store shut in its commit; name and token are dropped then.
pub fn enrol<K: Keep>(keep: &mut K, name: AgentName, token: Token) -> Result<AgentName, EnrolFault>
    ensures leaves { Leaves K.meaning keep.old keep.new
        (λ r left. K.meaning.left_shows left (enrol_step r name token).register) }
    ensures step { Promised K.meaning keep.old keep.new (λ r.
        IsOutcome of_enrolment result (K.meaning.shows keep.new) r (enrol_step r name token)) }
    ensures accounted { Accounts K.meaning keep.old keep.new (store_fault of_enrolment result) }
    ensures legal { Promised K.meaning keep.old keep.new (λ r.
        IsLegal r → (left : Register) × K.meaning.shows keep.new left × IsLegal left) }
{
    if keep.has_agent(&name)? {
        return Err(EnrolFault::NameTaken);
    }
    if is_taken(keep, &token)? {
        return Err(EnrolFault::TokenTaken);
    }
    add_agent(keep, &name, &token)?;
    Ok(name)
}

/// Gives an agent another token, and hands its name back. From then on its old token is nobody's.
///
/// The refusals are, in their order: `NoSuchAgent` where no agent has the name, and `TokenTaken`
/// where another agent or the registrar has the token. The agent's own token changes nothing, so a
/// renewal that is sent again acts once. A refusal leaves the register as it was, and so does
/// `Store`, unless the store shut in its commit; name and token are dropped then.
pub fn renew<K: Keep>(keep: &mut K, name: AgentName, token: Token) -> Result<AgentName, RenewFault>
    ensures leaves { Leaves K.meaning keep.old keep.new
        (λ r left. K.meaning.left_shows left (renew_step r name token).register) }
    ensures step { Promised K.meaning keep.old keep.new (λ r.
        IsOutcome of_renewal result (K.meaning.shows keep.new) r (renew_step r name token)) }
    ensures accounted { Accounts K.meaning keep.old keep.new (store_fault of_renewal result) }
    ensures legal { Promised K.meaning keep.old keep.new (λ r.
        IsLegal r → (left : Register) × K.meaning.shows keep.new left × IsLegal left) }
{
    if !keep.has_agent(&name)? {
        return Err(RenewFault::NoSuchAgent);
    }
    match keep.who(&token)? {
        None => {
            keep.set_token(&name, &token)?;
            Ok(name)
        }
        Some(Caller::Agent(owner)) if owner == name => Ok(name),
        Some(_) => Err(RenewFault::TokenTaken),
    }
}
