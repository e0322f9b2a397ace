//! Laws of registers in tables and files. Each function does nothing: its contract is the law.

ghost use Rattle.bor_store.specs.Laws.{FirstTablesTellOneLegal, LegalAreStored};
ghost use Rattle.bor_store.specs.Stopping.{StopsLeaveRegisters};

use sqlite_disk::Disk;

/// The files that a stop of a connection leaves, on a disk that has returned what was written, have
/// trees that `may_leave` of [`SqlKeep`](crate::SqlKeep) names, and hold each register for which
/// these stand. So the next [`SqlKeep::open`](crate::SqlKeep::open) of such files shows it.
pub fn stops_leave_registers<D: Disk>()
    ensures { StopsLeaveRegisters D.Disk }
{}

/// A legal register whose values have their forms is stored: its names go up, its filings are
/// numbered from 1 on, and the statements of a file, their interests and their identifiers are few
/// enough for the columns that number them. So tables that have the rows of a legal register show
/// it. Requests lead from such a register, and from a new one, to such registers alone.
pub fn legal_registers_are_stored()
    ensures { LegalAreStored }
{}

/// Tables of version 1 have the rows of one legal register at most. So moving them, which leaves a
/// legal register as it was, has no choice.
pub fn first_tables_tell_one_legal()
    ensures { FirstTablesTellOneLegal }
{}
