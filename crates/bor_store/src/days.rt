//! The days of the interests of statements, as rows of the table `period`.

ghost use Rattle.std.specs.Prelude.{◌≡◌, ◌++◌, OnOk, IfErr};
ghost use Rattle.std.specs.List.{flat_map};
ghost use Rattle.bor_store_sql.specs.Rows.Placed.{interest_rows, period_rows, placed_from};
ghost use Rattle.bor_store_sql.specs.Fitting.{standing};
ghost use Rattle.bor_store_reads.specs.Answering.{IsNoDamage};
ghost use Rattle.bor_store.specs.Migrating.{interest_days};

use bods_read::{Interest, Statement};
use bor_store_reads::ReadError;
use bor_store_sql::rows::{At, PeriodRow};
use bor_store_sql::{has_days, interests, next_number};
use bor_terms::AgentName;
use std::alloc::Global;

// Adds the days of an interest, where it has any.
fn add_one(
    alloc: Global,
    rows: &mut Vec<PeriodRow>,
    agent: &AgentName,
    filing: u32,
    place: u32,
    item: u32,
    interest: &Interest,
) -> Result<(), ReadError>
    ensures added { OnOk result (rows.new.items ≡ rows.old.items ++ period_rows (record {
      at = record { agent = agent.now; filing = filing; place = place };
      item = item;
      interest = interest.now;
    })) }
    ensures failed { IfErr result IsNoDamage }
{
    if !has_days(interest) {
        return Ok(());
    }
    let agent = agent.copy(alloc)?;
    rows.push(PeriodRow {
        at: At {
            agent,
            filing,
            place,
        },
        item,
        starts: interest.starts,
        ends: interest.ends,
    })?;
    Ok(())
}

// Adds the days of a statement's interests.
fn add_statement(
    alloc: Global,
    rows: &mut Vec<PeriodRow>,
    agent: &AgentName,
    filing: u32,
    place: u32,
    statement: &Statement,
) -> Result<(), ReadError>
    ensures added { OnOk result (rows.new.items
        ≡ rows.old.items ++ flat_map period_rows
        (interest_rows (standing agent.now filing place statement.now))) }
    ensures failed { IfErr result IsNoDamage }
{
    let mut item = 0;
    for interest in interests(&statement.details) {
        item = next_number(item)?;
        add_one(alloc, rows, agent, filing, place, item, interest)?;
    }
    Ok(())
}

/// Adds the days of the interests of a filing's statements, which stand at the places from 1 on.
pub(crate) fn add_days(
    alloc: Global,
    rows: &mut Vec<PeriodRow>,
    agent: &AgentName,
    filing: u32,
    statements: &[Statement],
) -> Result<(), ReadError>
    ensures added { OnOk result (rows.new.items
        ≡ rows.old.items ++ interest_days (placed_from agent.now filing 1 statements.now)) }
    ensures failed { IfErr result IsNoDamage }
{
    let mut place = 0;
    for statement in statements {
        place = next_number(place)?;
        add_statement(alloc, rows, agent, filing, place, statement)?;
    }
    Ok(())
}
