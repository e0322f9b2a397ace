//! The answers of a register in tables to each question of a keep, over a connection. What is asked
//! of open records, nodes and links is in `bor_store_keys`.
//!
//! Each read but those of all rows (`read_visible`, `read_published`, `read_agents`, `has_more`)
//! asks by key for the rows that it needs. Where the connection shows a register
//! (`bor_store_sql`), the answer is what `Keep` of `bor_register::keeping` says of that register,
//! or, of the reads of single rows, the rows that a definition names; or memory or the store
//! failed: [`ReadError::Damaged`] is never answered of such tables (`specs/Answering`).
#![tactic(auto, using(crate::proofs::Reading::read_fails, crate::proofs::Reading::read_wants))]

mod agents;
mod declarations;
mod fault;
mod filings;
mod known;
mod records;
mod register;
mod statements;
mod successors;
mod tables;
mod values;
mod views;

pub use agents::{has_agent, read_agents, read_who};
pub use declarations::{identifiers_of_one, interests_of_one, read_rows_of};
pub use fault::ReadError;
pub use filings::{filing_count, has_file, read_filing, read_filings, read_line};
pub use known::is_number_seen;
pub use records::{read_identified, read_place, read_record, read_series, read_subject};
pub use register::read_day;
pub use statements::{has_statement, read_last};
pub use successors::has_successor;
pub use tables::{WholeRegister, has_more, read_whole};
pub use values::{all_values, first_value};
pub use views::{read_published, read_visible};
