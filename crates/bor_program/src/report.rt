//! `bor report`.

ghost use Rattle.std.specs.Prelude.{◌≡◌, ◌≤◌, IfOk, IfErr, OnOk, Some};
ghost use Rattle.bor_records.specs.Promises.{Kept, Promised};
ghost use Rattle.bor_desk.specs.Operations.Outcomes.{Accounts, store_fault};
ghost use Rattle.bor_program.specs.Failures.{IsMetOnKeep};
ghost use Rattle.bor_program.specs.Performing.{Reports};
ghost use Rattle.bor_program.specs.Program.{exit_code};
ghost use Rattle.bor_program.specs.Reporting.{EndsTelling, IsReportOf, IsToldOf, entity_asked};
ghost use Rattle.bor_program.specs.Streams.{streams_of};

use crate::check::text_status;
use crate::failure::Failure;
use crate::host::{OpenRegister, Registers, Stage};
use crate::output::{Output, write_text};
use crate::status::Status;
use bor_desk::operations::{Keep, StoreFault};
use bor_desk::{Text, date_or_day, evidence_text, report_text};
use bor_records::links::Node;
use bor_words::Report;
use std::alloc::{AllocError, Global};
use std::io::Write;

/// Prints who stands behind an entity, by the register in a file, which is closed then.
pub fn report<H: Registers, O: Output, E: Write>(
    alloc: Global,
    host: &mut H,
    asked: &Report<'_>,
    output: &mut O,
    errors: &mut E,
) -> Status
    ensures done { Reports H.Register.meaning H.Register.tells
        (record { does = H.does; begun = host.old; ended = host.new }) asked.now
        (streams_of (O.contents output.old) (O.contents output.new)
        (E.contents errors.old) (E.contents errors.new) (exit_code result)) }
    ensures flushed { exit_code result ≤ 1 → O.is_flushed output.new }
{
    host.reach(Stage::Opening(asked.db));
    match host.open(asked.db) {
        Ok(mut register) => {
            host.reach(Stage::Reporting);
            let told = report_on(alloc, &mut register, asked, output);
            host.close(asked.db, register);
            match told {
                Ok(status) => status,
                Err(failure) => failure.tell(errors),
            }
        }
        Err(failure) => failure.tell(errors),
    }
}

/// Prints who stands behind an entity, by a register that is open.
///
/// # Errors
///
/// `Store`, `Memory`: nothing is printed. `Unwritable`: the text can't be written, or not to its
/// end, or not handed on.
pub fn report_on<'a, K: OpenRegister, O: Output>(
    alloc: Global,
    register: &mut K,
    asked: &Report<'_>,
    output: &mut O,
) -> Result<Status, Failure<'a>>
    ensures kept { Kept K.meaning register.old register.new }
    ensures told { EndsTelling (IsToldOf K.meaning register.old register.new asked.now)
        (O.contents output.old) (O.contents output.new) result }
    ensures flushed { OnOk result (O.is_flushed output.new) }
    ensures err { IfErr result (IsMetOnKeep (λ fault. K.tells register.old fault register.new)
        (O.contents output.old) (O.contents output.new)) }
{
    let text = register.report(alloc, asked)?;
    write_text(output, text.bytes.as_slice())?;
    Ok(text_status(&text))
}

/// The text that tells who stands behind an entity, by the register of a keep.
///
/// # Errors
///
/// The keep failed, or memory was wanting.
pub fn report_in<K: Keep>(
    alloc: Global,
    keep: &mut K,
    asked: &Report<'_>,
) -> Result<Text, StoreFault>
    ensures kept { Kept K.meaning keep.old keep.new }
    ensures text { Promised K.meaning keep.old keep.new (λ r.
        IfOk result (IsReportOf asked.now r)) }
    ensures accounted { Accounts K.meaning keep.old keep.new (store_fault Some result) }
{
    let entity = entity_of(alloc, asked)?;
    let day = date_or_day(keep, asked.date)?;
    if asked.evidence {
        evidence_text(alloc, keep, &asked.viewer, &entity, day)
    } else {
        report_text(alloc, keep, &asked.viewer, &entity, day)
    }
}

// The entity that is asked for.
fn entity_of(alloc: Global, asked: &Report<'_>) -> Result<Node, AllocError>
    ensures { IfOk result (λ entity. entity ≡ entity_asked asked.now) }
{
    Ok(Node {
        agent: asked.agent.copy(alloc)?,
        declaration: asked.declaration.copy(alloc)?,
        rec: asked.rec.copy(alloc)?,
    })
}
