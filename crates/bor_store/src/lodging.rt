//! The next filing of an agent.

ghost use Rattle.std.specs.Prelude.{◌≡◌, ◌+◌, All, IfOk};
ghost use Rattle.bods_read.specs.Forms.{IsFormedStatement};
ghost use Rattle.bor_store_sql.specs.Shown.{Alters};
ghost use Rattle.bor_store_sql.specs.Changing.{MayAdd, added};

use crate::forms::all_formed;
use bods_read::Statement;
use bor_store_sql::rows::FilingKey;
use bor_store_sql::{add_filing, next_number};
use bor_terms::{AgentName, Day, LodgeKey};
use sqlite::{Alter, Connection, Error, ErrorCode};
use std::alloc::Global;

// The key of the agent's filing behind so many.
fn next_filing(alloc: Global, agent: &AgentName, count: usize) -> Result<FilingKey, Error>
    ensures { IfOk result (λ key. (key.agent ≡ agent.now) × (key.number ≡ count + 1)) }
{
    let Ok(last) = u32::try_from(count) else {
        return Err(Error::SqliteFailure(ErrorCode::TooBig));
    };
    let number = next_number(last)?;
    match agent.copy(alloc) {
        Ok(agent) => Ok(FilingKey { number, agent }),
        Err(_) => Err(Error::SqliteFailure(ErrorCode::OutOfMemory)),
    }
}

/// Adds the agent's next filing, behind `count` others. A connection with a transaction open is
/// refused.
pub(crate) fn add_next_filing<S: Alter>(
    conn: &mut Connection<S>,
    alloc: Global,
    agent: &AgentName,
    count: usize,
    key: &LodgeKey,
    due: Day,
    bytes: &[u8],
    statements: &[Statement],
) -> Result<(), Error>
    ensures formed { All IsFormedStatement statements.now }
    ensures altered { Alters S.Store conn.old conn.new result
        (MayAdd agent.now (count + 1) statements.now)
        (added agent.now key.now due bytes.now statements.now) }
{
    all_formed(statements);
    let filing = next_filing(alloc, agent, count)?;
    add_filing(conn, filing, key, due, bytes, statements)
}
