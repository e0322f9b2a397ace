//! The check of a file.

ghost use Rattle.std.specs.Prelude.{◌≡◌, ◌++◌, codes, IfOk, IfErr, OnOk, true};
ghost use Rattle.bor_register.specs.declared.fault.StoreFault.TheVariants.{Memory};
ghost use Rattle.bor_register.specs.Register.{empty_register};
ghost use Rattle.bor_desk.specs.Texts.{answering, accepted_line, outward_lines};
ghost use Rattle.bor_desk.specs.CheckReport.{check_day, check_register, check_step, outcome_text, check_report, IsFaultTold};

use crate::operations::{Keep, ListKeep, Lodged, Outward, StoreFault, lodge};
use crate::refusal::DeskFault;
use crate::text::{Text, add_accepted, add_outwards, answering, refused_as, refused_text};
use bor_terms::{AgentName, Day, Form, LodgeKey, Token};
use std::alloc::{AllocError, Global};

/// The greatest file that is checked, in bytes.
pub const FILE_LIMIT: usize = 1_048_576;

// A text that has its form.
fn constant<F: Form>(alloc: Global, text: &str) -> Result<bor_terms::Text<F>, AllocError>
    requires { F.is_form text.now ≡ true }
    ensures { IfOk result (λ made. made ≡ text.now) }
{
    bor_terms::Text::new(alloc, String::from_str(alloc, text)?)
}

// The day on which a file is checked, 2000-01-01.
fn check_day() -> Day
    ensures { result ≡ check_day }
{
    Day::from_number(10_957).unwrap()
}

// Enrols the agent that lodges the file, in a new register.
#[tactic(auto, unfolding(bor_terms::specs::Texts::is_agent_name, bor_terms::specs::Texts::is_token))]
fn enrol_agent(alloc: Global, keep: &mut ListKeep) -> Result<(), StoreFault>
    requires { keep.old.register ≡ empty_register (codes "check-registrar-0001") check_day }
    ensures shown { OnOk result (keep.new.register ≡ check_register) }
    ensures err { IfErr result (λ fault. fault ≡ Memory) }
{
    let agent: AgentName = constant(alloc, "check")?;
    let token: Token = constant(alloc, "check-token-0001")?;
    keep.add_agent(&agent, &token)?;
    Ok(())
}

fn accepted(alloc: Global, lodged: &Lodged, outwards: &[Outward]) -> Result<Text, AllocError>
    ensures { IfOk result (λ text.
        text ≡ answering (accepted_line lodged.now ++ outward_lines outwards.now)) }
{
    let mut text = String::new(alloc);
    add_accepted(&mut text, lodged)?;
    add_outwards(&mut text, outwards)?;
    Ok(answering(text))
}

fn fault_text(alloc: Global, fault: DeskFault) -> Result<Text, StoreFault>
    ensures { IsFaultTold fault result }
{
    match fault {
        DeskFault::Refused(refusal) => Ok(refused_text(alloc, refusal)?),
        DeskFault::Failed(fault) => Err(fault),
    }
}

// The reply to the lodging of a file by that agent, and the outward form that is published then.
#[tactic(auto, unfolding(bor_terms::specs::Texts::is_agent_name, bor_terms::specs::Texts::is_lodge_key))]
fn lodged_in(alloc: Global, keep: &mut ListKeep, bytes: &[u8]) -> Result<Text, StoreFault>
    requires { keep.old.register ≡ check_register }
    ensures text { IfOk result (λ text. text ≡ outcome_text (check_step bytes.now)) }
    ensures err { IfErr result (λ fault. fault ≡ Memory) }
{
    let agent: AgentName = constant(alloc, "check")?;
    let key: LodgeKey = constant(alloc, "check")?;
    match lodge(alloc, keep, &agent, &key, check_day(), bytes) {
        Ok(lodged) => Ok(accepted(alloc, &lodged, &keep.published()?)?),
        Err(fault) => fault_text(alloc, DeskFault::from(fault)),
    }
}

#[tactic(auto, unfolding(bor_terms::specs::Texts::is_token))]
fn lodged_text(alloc: Global, bytes: &[u8]) -> Result<Text, StoreFault>
    ensures text { IfOk result (λ text. text ≡ outcome_text (check_step bytes.now)) }
    ensures err { IfErr result (λ fault. fault ≡ Memory) }
{
    let token: Token = constant(alloc, "check-registrar-0001")?;
    let mut keep = ListKeep::new(alloc, token, check_day());
    enrol_agent(alloc, &mut keep)?;
    lodged_in(alloc, &mut keep, bytes)
}

/// The text of `bor check`: what lodging a file in a new register is answered, and the statements
/// that are published then.
///
/// The register has the agent `check` and no filings; the file is lodged by that agent, due on the
/// register's day, so that an accepted filing is published at once. A file of more than
/// [`FILE_LIMIT`] bytes is refused as `BodyTooLarge` before anything else.
///
/// # Errors
///
/// Want of memory alone.
#[tactic(auto, unfolding(crate::specs::CheckReport::check_report))]
pub fn check_text(alloc: Global, bytes: &[u8]) -> Result<Text, StoreFault>
    ensures text { IfOk result (λ text. text ≡ check_report bytes.now) }
    ensures err { IfErr result (λ fault. fault ≡ Memory) }
{
    if bytes.len() > FILE_LIMIT {
        return Ok(refused_as(alloc, "BodyTooLarge", None, None)?);
    }
    lodged_text(alloc, bytes)
}
