//! Registers in files, from opening to closing.

ghost use Rattle.std.specs.Prelude.{◌≡◌, false, IfErr, IfOk};
ghost use Rattle.sqlite.specs.Files.{file_state};
ghost use Rattle.sqlite.specs.Start.{FindsIn};
ghost use Rattle.sqlite.specs.State.{HasCleanDisk};
ghost use Rattle.sqlite_wal.specs.Files.{image_at};
ghost use Rattle.bor_register.specs.Register.{Register};
ghost use Rattle.bor_store_sql.specs.Shown.{IsClean, IsUp, ShowsIn};
ghost use Rattle.bor_store.specs.Opening.{ComesBack, HoldsRegister, IsClosing, IsConnected, IsFailure, IsRegister};

use crate::open_fault::OpenFault;
use crate::refused::Refused;
use crate::sql_keep::SqlKeep;
use sqlite::{Connection, Error, FileFrom, FileStore, Files, Start};
use sqlite_disk::Disk;

/// A connection to the file of this path, which is made where there is none; `start` stands for
/// what the file and its log hold. `:memory:` and files that are no database are
/// [`OpenFault::Store`].
#[tactic(auto, using(crate::proofs::Judging::fault_fails))]
pub fn connect<S: Start>(
    rt: &HostRuntime,
    path: &str,
    start: S,
) -> Result<Connection<FileStore<FileFrom<S>>>, OpenFault>
    ensures mode { IfOk result (λ conn. conn.in_transaction ≡ false) }
    ensures connected { IfOk result (λ conn. HasCleanDisk (file_state conn)
        → IsConnected (image_at S.Start) (file_state conn)) }
    ensures err { IfErr result IsFailure }
{
    match Connection::open_from(rt, path, false, start) {
        Ok(conn) => Ok(conn),
        Err((error, _)) => Err(OpenFault::from(error)),
    }
}

impl<S: Start> SqlKeep<FileStore<FileFrom<S>>> {
    /// The register in the file of this path, which is made where there is none; `start` stands for
    /// what the file and its log hold. The tables that it has are those of a register, as
    /// [`SqlKeep::adopt`] asks, and they are what the files recover to. `:memory:` and files that
    /// are no database are [`OpenFault::Store`], without a connection; the rest is
    /// [`SqlKeep::adopt`]'s, with the connection, over which the tables were only read.
    pub fn open(
        rt: &HostRuntime,
        path: &str,
        start: S,
    ) -> Result<
        SqlKeep<FileStore<FileFrom<S>>>,
        Refused<Option<Connection<FileStore<FileFrom<S>>>>>,
    >
        ensures up { IfOk result (λ k. IsUp (file_state k.conn)) }
        ensures is { IfOk result (λ k.
            HasCleanDisk (file_state k.conn) → IsRegister (file_state k.conn)) }
        ensures held { IfOk result (λ k. HasCleanDisk (file_state k.conn)
            → FindsIn (image_at S.Start) (file_state k.conn)) }
        ensures found { IfOk result (λ k. IsClean (file_state k.conn)
            → (r : Register) → HoldsRegister (image_at S.Start) r → ShowsIn r (file_state k.conn)) }
        ensures one { IfOk result (λ k.
            (r q : Register) → ShowsIn r (file_state k.conn)
            → ShowsIn q (file_state k.conn) → r ≡ q) }
        ensures unfaulted { IfOk result (λ k. k.faults ≡ 0) }
        ensures refused { IfErr result (λ refused.
            ComesBack (image_at S.Start) refused.fault refused.conn) }
    {
        match connect(rt, path, start) {
            Ok(conn) => match SqlKeep::adopt(rt.alloc(), conn) {
                Ok(register) => Ok(register),
                Err(Refused { fault, conn }) => Err(Refused {
                    fault,
                    conn: Some(conn),
                }),
            },
            Err(fault) => Err(Refused { fault, conn: None }),
        }
    }
}

impl<D: Disk + Drop> SqlKeep<FileStore<D>> {
    /// Closes the register: the database file has all of it, without the log. Gives the files,
    /// which hold what the keep showed: the next one to open them finds it.
    ///
    /// # Errors
    ///
    /// The store's: the log can't be copied into the database file. Nothing that was committed is
    /// lost.
    pub fn close(self) -> Result<Files<D>, Error>
        ensures { IsClosing self.conn result }
    {
        close_files(self.into_connection())
    }
}

/// Closes a connection: the database file has all that it showed, without the log. Gives the files,
/// as [`SqlKeep::close`] does.
///
/// # Errors
///
/// The store's: the log can't be copied into the database file. Nothing that was committed is lost.
pub fn close_files<D: Disk + Drop>(conn: Connection<FileStore<D>>) -> Result<Files<D>, Error>
    ensures { IsClosing conn result }
{
    match conn.close_files() {
        Ok(files) => Ok(files),
        Err((error, _)) => Err(error),
    }
}
