//! Agents with what is theirs.

ghost use Rattle.std.specs.Prelude.{◌≡◌, ◌+◌, ◌<◌, ◌++◌, ◌∷◌, [], length, IfSome, IfNone, IfOk, OnOk, OnErr, option_map, true, false};
ghost use Rattle.bor_register.specs.Limits.{filings_limit};
ghost use Rattle.bor_register.specs.Register.{IsOrdered, agent_with, is_enrolled, filings_of, new_member, with_member, with_filings, with_token};
ghost use Rattle.bor_register.specs.Live.{accepted};
ghost use Rattle.bor_register.specs.Withdrawal.{with_withdrawn};
ghost use Rattle.bor_register.specs.Places.{IsPlace, IsPlaceFor};
ghost use Rattle.bor_register.specs.declared.caller.Caller.TheVariants.{Agent};

use crate::caller::Caller;
use crate::filing::AcceptedFiling;
use crate::statements::copied;
use crate::withdrawal::withdraw_from;
use bods_read::Statement;
use bor_terms::{AgentName, Day, Listed, LodgeKey, Token};
use std::alloc::{AllocError, Global};

/// The most filings that an agent may ever have, withdrawn ones included.
pub const FILINGS_LIMIT: usize = 999;

/// An agent of the register, with its filings in order of acceptance.
#[derive(Drop)]
pub struct Member {
    /// The agent's name; no other member has it.
    pub name: AgentName,
    /// The token by which the agent is known.
    pub token: Token,
    /// All that it has lodged, withdrawn filings included.
    pub filings: Listed<AcceptedFiling>,
}

// Where the agent stands among the members.
fn position(members: &[Member], name: &AgentName) -> Option<usize>
    ensures none { IfNone result (is_enrolled name.now members.now ≡ false) }
    ensures some { IfSome result (λ i. IsPlace name.now members.now i) }
{
    for (i, member) in members.iter().enumerate() {
        if member.name == *name {
            return Some(i);
        }
    }
    None
}

/// Whether an agent has the name.
pub fn is_enrolled(members: &[Member], name: &AgentName) -> bool
    ensures { result ≡ is_enrolled name.now members.now }
{
    position(members, name).is_some()
}

/// The agent that has the token, as a caller.
pub(crate) fn caller_with(
    alloc: Global,
    members: &[Member],
    token: &Token,
) -> Result<Option<Caller>, AllocError>
    ensures { IfOk result (λ caller. caller ≡ option_map Agent (agent_with token.now members.now)) }
{
    for member in members {
        if member.token == *token {
            return Ok(Some(Caller::Agent(member.name.copy(alloc)?)));
        }
    }
    Ok(None)
}

/// The agent's filings; none where there is no such agent. The members may stand in any order.
pub fn own_filings<'a>(members: &'a [Member], name: &AgentName) -> &'a [AcceptedFiling]
    ensures { result.now ≡ filings_of name.now members.now }
{
    for member in members {
        if member.name == *name {
            return member.filings.as_slice();
        }
    }
    &[]
}

/// The agent's filings, by binary search: the members stand in the order of their names.
pub(crate) fn find_filings<'a>(members: &'a [Member], name: &AgentName) -> &'a [AcceptedFiling]
    requires { IsOrdered members.now }
    ensures { result.now ≡ filings_of name.now members.now }
{
    match members.binary_search_by(|member| member.name.cmp(name)) {
        Ok(place) => members[place].filings.as_slice(),
        Err(_) => &[],
    }
}

// A filing with this number that is accepted.
fn accepted_filing(
    alloc: Global,
    number: u32,
    key: &LodgeKey,
    due: Day,
    bytes: &[u8],
    statements: &[Statement],
) -> Result<AcceptedFiling, AllocError>
    ensures { IfOk result (λ filing. filing ≡ record {
      number = number;
      key = key.now;
      due = due;
      withdrawn = false;
      bytes = bytes.now;
      statements = statements.now;
    }) }
{
    Ok(AcceptedFiling {
        number,
        key: key.copy(alloc)?,
        due,
        withdrawn: false,
        bytes: Listed::new(Vec::from_slice(alloc, bytes)?),
        statements: copied(alloc, statements)?,
    })
}

/// Adds a filing to those of an agent, who is enrolled and has room for one more, under the next
/// number.
pub fn push_filing(
    alloc: Global,
    members: &mut [Member],
    name: &AgentName,
    key: &LodgeKey,
    due: Day,
    bytes: &[u8],
    statements: &[Statement],
) -> Result<(), AllocError>
    requires enrolled { is_enrolled name.now members.old ≡ true }
    requires room { length (filings_of name.now members.old) < filings_limit }
    ensures ok { OnOk result (let own = filings_of name.now members.old in members.new
        ≡ with_filings name.now (own ++ accepted own key.now due bytes.now statements.now ∷ [])
        members.old) }
    ensures err { OnErr result (members.new ≡ members.old) }
{
    let Some(at) = position(members, name) else {
        unreachable!()
    };
    let member = &mut members[at];
    let number = member.filings.as_slice().len() as u32 + 1;
    let filing = accepted_filing(alloc, number, key, due, bytes, statements)?;
    Ok(member.filings.push(filing)?)
}

/// Withdraws the agent's filing with this number, where there is one. It takes no memory.
#[tactic(auto, using(crate::proofs::Members::with_filings_absent))]
pub fn withdraw_of(alloc: Global, members: &mut [Member], name: &AgentName, number: u32)
    ensures { members.new
        ≡ with_filings name.now
        (with_withdrawn number (filings_of name.now members.old)) members.old }
{
    if let Some(at) = position(members, name) {
        let member = &mut members[at];
        withdraw_from(alloc, &mut member.filings, number);
    }
}

/// Gives the agent, where there is one, another token.
#[tactic(auto, using(crate::proofs::Members::with_token_absent))]
pub(crate) fn renew_token(
    alloc: Global,
    members: &mut [Member],
    name: &AgentName,
    token: &Token,
) -> Result<(), AllocError>
    ensures ok { OnOk result (members.new ≡ with_token name.now token.now members.old) }
    ensures err { OnErr result (members.new ≡ members.old) }
{
    if let Some(at) = position(members, name) {
        let token = token.copy(alloc)?;
        members[at].token = token;
    }
    Ok(())
}

fn place_for(members: &[Member], name: &AgentName) -> usize
    ensures { IsPlaceFor name.now members.now result }
{
    for (i, member) in members.iter().enumerate() {
        if member.name >= *name {
            return i;
        }
    }
    members.len()
}

#[tactic(auto, using(crate::proofs::Places::inserted_at))]
fn insert_member(members: &mut Vec<Member>, member: Member) -> Result<(), AllocError>
    ensures ok { OnOk result (members.new.items ≡ with_member member members.old.items) }
    ensures err { OnErr result (members.new.items ≡ members.old.items) }
{
    let at = place_for(members, &member.name);
    if members.insert(at, member).is_err() {
        return Err(AllocError);
    }
    Ok(())
}

/// Adds an agent who has no filings, at the place of its name.
pub fn enrol_member(
    alloc: Global,
    members: &mut Vec<Member>,
    name: &AgentName,
    token: &Token,
) -> Result<(), AllocError>
    ensures ok { OnOk result
        (members.new.items ≡ with_member (new_member name.now token.now) members.old.items) }
    ensures err { OnErr result (members.new.items ≡ members.old.items) }
{
    let member = Member {
        name: name.copy(alloc)?,
        token: token.copy(alloc)?,
        filings: Listed::new(Vec::new(alloc)),
    };
    insert_member(members, member)
}
