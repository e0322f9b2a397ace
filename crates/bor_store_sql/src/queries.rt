//! Asking a query with parameters.

ghost use Rattle.sqlite.specs.Held.{state};
ghost use Rattle.sqlite.specs.Values.{bound};
ghost use Rattle.bor_store_sql.specs.Found.{IsQuery, AnswersQuery};

use sqlite::types::ValueRef;
use sqlite::{Alter, Connection, Error, ErrorCode, Row};

/// The rows of a query over the last commit. A connection with a transaction open is refused.
pub(crate) fn query<S: Alter>(
    conn: &mut Connection<S>,
    sql: &str,
    params: &[ValueRef<'_>],
) -> Result<Vec<Row>, Error>
    ensures { IsQuery sql.now → AnswersQuery sql.now (bound params.now) (state S.Store conn.old)
        (state S.Store conn.new) result }
{
    if !conn.is_autocommit() {
        return Err(Error::SqliteFailure(ErrorCode::TransactionState));
    }
    conn.query_all(sql, params)
}
