//! A register in the tables of a connection: each change is one transaction, each read one query.
//!
//! `specs/Shown` says which register a connection shows: what the last commit left is the schema of
//! [`texts`] with the rows of [`rows`], in any order. A change that returns `Ok` shows the changed
//! register, and one that fails leaves what the last commit left, unless the store shut in its
//! commit. A read leaves it too, and gives the rows of the part that is asked for; [`rows`] reads
//! their values. Where a transaction is open, a change and a read are refused.
#![tactic(auto)]

mod additions;
mod columns;
mod creation;
mod fitting;
mod items;
mod keyed;
pub mod laws;
mod moving;
mod queries;
mod reads;
mod records;
mod register;
pub mod rows;
mod running;
pub mod texts;
mod withdrawal;

pub use additions::{add_filing, interests};
pub use creation::set_up;
pub use fitting::keeps_statements;
pub use items::{has_days, next_number};
pub use keyed::{
    agent_by_name, agent_by_token, file_by_number, filing_by_key, filings_of_agent,
    identifiers_of_statement, interests_of_statement, last_filing, last_of_series, line_by_key,
    line_by_number, periods_of_statement, same_bytes, statement_by_id, statements_of_declaration,
    statements_of_filing,
};
pub use moving::move_tables;
pub use reads::{
    all_agents, all_filings, all_identifiers, all_interests, all_periods, all_register,
    all_statements, more_statements,
};
pub use records::{
    identifiers_by_id, statement_by_place, statements_of_record, statements_of_series,
    statements_of_subject,
};
pub use register::{add_agent, set_day, set_token};
pub use withdrawal::withdraw_filing;
