//! Registers on connections to stores: those that are there, and new ones.

ghost use Rattle.std.specs.Prelude.{IfOk};
ghost use Rattle.sqlite.specs.Held.{state};
ghost use Rattle.bor_register.specs.Register.{empty_register};
ghost use Rattle.bor_store_sql.specs.Shown.{IsClean};
ghost use Rattle.bor.specs.Machine.{ComesOpen};

use crate::served::ServedRegister;
use bor_desk::mirror::Notice;
use bor_desk::operations::Keep;
use bor_program::{Answering, Opened, Origin};
use bor_store::{OpenFault, Refused, SqlKeep, set_up};
use bor_terms::{Day, Token};
use sqlite::{Alter, Connection};
use std::alloc::Global;

/// The register that the tables of a store are, without a mirror, or one that is set up where the
/// store has no table, no index and no view. With a transaction open it is [`OpenFault::Store`].
pub fn find_or_set_up<S: Alter + Drop, N: Notice + Drop>(
    alloc: Global,
    conn: Connection<S>,
    registrar: &Token,
    day: Day,
    notice: N,
) -> Result<Opened<ServedRegister<S, N>>, OpenFault>
    ensures { let served = ⟦<ServedRegister<S, N> as Answering>⟧ in IfOk result (λ opened.
        ComesOpen served.meaning registrar.now day (state S.Store conn)
        opened.register opened.origin) }
{
    match SqlKeep::adopt(alloc, conn) {
        Ok(store) => Ok(Opened {
            register: ServedRegister::new(store, 0, notice),
            origin: Origin::Found,
        }),
        Err(
            Refused {
                fault: OpenFault::NoRegister,
                conn,
            },
        ) => Ok(Opened {
            register: ServedRegister::new(set_up_on(alloc, conn, registrar, day)?, 0, notice),
            origin: Origin::New,
        }),
        Err(refused) => Err(refused.fault),
    }
}

// Sets a register up in a store.
fn set_up_on<S: Alter + Drop>(
    alloc: Global,
    conn: Connection<S>,
    registrar: &Token,
    day: Day,
) -> Result<SqlKeep<S>, OpenFault>
    ensures began { let keep = ⟦<SqlKeep<S> as Keep>⟧ in IfOk result (λ register.
        keep.meaning.is_clean register → IsClean (state S.Store conn)) }
    ensures made { let keep = ⟦<SqlKeep<S> as Keep>⟧ in IfOk result (λ register.
        keep.meaning.is_clean register
        → keep.meaning.shows register (empty_register registrar.now day)) }
{
    let mut conn = conn;
    set_up(&mut conn, registrar, day)?;
    let register = SqlKeep::adopt(alloc, conn)?;
    Ok(register)
}
