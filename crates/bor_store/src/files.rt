//! The days of interests that the files of a register's live filings have, over tables of either
//! version.

ghost use Rattle.std.specs.Prelude.{◌≡◌, false, MatchResult, Err, Ok, Some, option_map};
ghost use Rattle.sqlite.specs.Held.{state};
ghost use Rattle.bods_read.specs.File.{reading};
ghost use Rattle.bods_read.specs.declared.fault.FileFault.{FileFault};
ghost use Rattle.bor_register.specs.Publication.{filing_shown};
ghost use Rattle.bor_register.specs.Register.{Register};
ghost use Rattle.bor_register.specs.declared.filing.AcceptedFiling.{AcceptedFiling};
ghost use Rattle.bor_store_sql.specs.Rows.Placed.{filing_lines};
ghost use Rattle.bor_store_sql.specs.Shown.{IsClean, ShowsLists};
ghost use Rattle.bor_store_sql.specs.Found.{ReadsOnly};
ghost use Rattle.bor_store_reads.specs.declared.fault.ReadError.TheVariants as errors;
ghost use Rattle.bor_store.specs.Migrating.{AnswersEither, FileSays, FilesSay, Gathers, GathersAll, LineSays, LinesSay, filed_at};

use crate::days::add_days;
use bods_read::{ReadFault, Statement, read_file};
use bor_register::Filing;
use bor_store_reads::{ReadError, all_values, first_value};
use bor_store_sql::rows::{FilingKey, FilingRow, PeriodRow};
use bor_store_sql::{all_filings, file_by_number, keeps_statements};
use bor_terms::AgentName;
use sqlite::{Alter, Connection};
use std::alloc::Global;

// The agent's filing with this number, with its file.
fn found_file<S: Alter>(
    conn: &mut Connection<S>,
    alloc: Global,
    agent: &AgentName,
    number: u32,
) -> Result<Option<Filing>, ReadError>
    ensures reads { ReadsOnly (state S.Store conn.old) (state S.Store conn.new) }
    ensures answer { AnswersEither (state S.Store conn.old)
        (state S.Store conn.new) result (λ r file.
        file ≡ option_map filing_shown (filed_at agent.now number r.members)) }
{
    first_value(alloc, file_by_number(conn, agent.as_str(), number))
}

// All filings without their files, by agent and number.
fn found_lines<S: Alter>(
    conn: &mut Connection<S>,
    alloc: Global,
) -> Result<Vec<FilingRow>, ReadError>
    ensures reads { ReadsOnly (state S.Store conn.old) (state S.Store conn.new) }
    ensures answer { AnswersEither (state S.Store conn.old)
        (state S.Store conn.new) result (λ r lines.
        lines.items ≡ filing_lines r.members) }
{
    all_values(alloc, all_filings(conn))
}

// The statements that a file is read to.
fn statements_of(alloc: Global, bytes: &[u8]) -> Result<Vec<Statement>, ReadError>
    ensures { MatchResult result (λ statements. reading bytes.now ≡ Ok statements.items)
        (λ error. error ≡ errors.Damaged → (why : FileFault) × (reading bytes.now ≡ Err why)) }
{
    match read_file(alloc, bytes) {
        Ok(statements) => Ok(statements),
        Err(ReadFault::Memory) => Err(ReadError::Memory),
        Err(ReadFault::File(_)) => Err(ReadError::Damaged),
    }
}

// Adds the days that a filing's file says, where what it is read to is what the tables have of the
// filing.
fn add_file<S: Alter>(
    conn: &mut Connection<S>,
    alloc: Global,
    days: &mut Vec<PeriodRow>,
    agent: &AgentName,
    number: u32,
    bytes: &[u8],
) -> Result<(), ReadError>
    ensures reads { ReadsOnly (state S.Store conn.old) (state S.Store conn.new) }
    ensures gathered { IsClean (state S.Store conn.new)
        → (r : Register) → ShowsLists r (state S.Store conn.old)
        → (f : AcceptedFiling) → filed_at agent.now number r.members ≡ Some f → f.bytes ≡ bytes.now
        → Gathers (FileSays agent.now number f) days.old.items days.new.items result }
{
    let filing = FilingKey {
        number,
        agent: agent.copy(alloc)?,
    };
    let statements = statements_of(alloc, bytes)?;
    let fits = keeps_statements(conn, filing, statements.as_slice())?;
    if !fits {
        return Err(ReadError::Damaged);
    }
    add_days(alloc, days, agent, number, statements.as_slice())
}

// Adds the days that the file of a filing says, where the filing is live.
fn add_line<S: Alter>(
    conn: &mut Connection<S>,
    alloc: Global,
    days: &mut Vec<PeriodRow>,
    line: &FilingRow,
) -> Result<(), ReadError>
    ensures reads { ReadsOnly (state S.Store conn.old) (state S.Store conn.new) }
    ensures gathered { IsClean (state S.Store conn.new)
        → (r : Register) → ShowsLists r (state S.Store conn.old)
        → Gathers (LineSays r.members line.now) days.old.items days.new.items result }
{
    if line.withdrawn {
        return Ok(());
    }
    match found_file(conn, alloc, &line.agent, line.number)? {
        Some(file) => add_file(
            conn,
            alloc,
            days,
            &line.agent,
            line.number,
            file.bytes.as_slice(),
        ),
        None => Err(ReadError::Damaged),
    }
}

// The days that the files of these filings say, one file after the other.
fn gather<S: Alter>(
    conn: &mut Connection<S>,
    alloc: Global,
    lines: &[FilingRow],
) -> Result<Vec<PeriodRow>, ReadError>
    ensures reads { ReadsOnly (state S.Store conn.old) (state S.Store conn.new) }
    ensures gathered { IsClean (state S.Store conn.new)
        → (r : Register) → ShowsLists r (state S.Store conn.old)
        → GathersAll (LinesSay r.members lines.now) result }
{
    let mut days = Vec::new(alloc);
    for line in lines {
        add_line(conn, alloc, &mut days, line)?;
    }
    Ok(days)
}

/// The days of interests that the files of the register's live filings say, by agent, filing, place
/// and item. `Damaged` comes where one of the files isn't read, or doesn't fit the statements of
/// its filing.
pub(crate) fn days_in_files<S: Alter>(
    conn: &mut Connection<S>,
    alloc: Global,
) -> Result<Vec<PeriodRow>, ReadError>
    ensures reads { ReadsOnly (state S.Store conn.old) (state S.Store conn.new) }
    ensures gathered { IsClean (state S.Store conn.new)
        → (r : Register) → ShowsLists r (state S.Store conn.old)
        → GathersAll (FilesSay r.members) result }
{
    let lines = found_lines(conn, alloc)?;
    gather(conn, alloc, lines.as_slice())
}
