//! Laws of tables. Each function does nothing: its contract is the law, and it is proved for all
//! tables.

ghost use Rattle.bor_store_sql.specs.Laws.{FirstTablesTellAllButDays, OpenTablesLast, TablesShowOneRegister};

use sqlite::Alter;

/// Tables show one register at most: of two registers that they show, each is the other. So their
/// rows tell all of it: the day, tokens, names, filings with their files, statements, interests
/// with their days, and identifiers.
pub fn tables_show_one_register()
    ensures { TablesShowOneRegister }
{}

/// Tables of version 1 tell all of a register but the days of its interests: whichever two registers
/// they show, these are one where no interest has a day. And they have the rows of each register
/// that differs in these days alone.
pub fn first_tables_tell_all_but_days()
    ensures { FirstTablesTellAllButDays }
{}

/// Answered changes last: where the machine stops while a connection is open, its disk has returned
/// what was written, and it shows a register, the next one to open the files finds that register.
pub fn open_tables_last<S: Alter>()
    ensures { OpenTablesLast S.Store }
{}
