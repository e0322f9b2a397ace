//! A register as rows of seven tables, and back.
//!
//! `specs/Rows/Encoding` says what rows the tables have of a register, column by column.
//! [`TableRow`] reads a row of SQL as the value whose columns it has. [`with_periods`] puts
//! interests together from the rows of both their tables, [`joined`] statements from theirs, and
//! [`members_of`] the members of a register from agents, filings and statements, without the files
//! of the filings. [`agent_lines`] counts what each agent has published. Nothing here speaks to a
//! store.

mod agents;
mod answers;
mod fault;
mod joining;
mod members;
mod parts;
mod places;
mod reader;
mod seen;
mod split;
mod timing;
mod typed;
mod values;
mod words;

pub use agents::agent_lines;
pub use answers::{first_flag, first_row, lines_of};
pub use fault::RowFault;
pub use joining::joined;
pub use members::members_of;
pub use places::{At, FilingKey};
pub use reader::{TableRow, read_rows};
pub use timing::with_periods;
pub use typed::{
    AgentRow, FilingRow, IdentifierRow, InterestLine, InterestRow, Part, PeriodRow, Placed,
    RegisterRow, StatementRow,
};
pub use values::value_at;
