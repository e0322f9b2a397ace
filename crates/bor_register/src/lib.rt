//! A register of filings as a value: what it holds, and what it answers.
//!
//! Agents lodge files of statements. A filing is a draft until its due day, seen by its agent
//! alone, and published from then on. A register holds its agents by name, each a [`Member`] with
//! its filings in order of acceptance:
//!
//! ```
//! let mut members = Vec::new(alloc);
//! enrol_member(alloc, &mut members, &alder, &token)?;
//! push_filing(alloc, &mut members, &alder, &key, tomorrow, b"[]", &statements)?;
//! assert_eq!(rt; own_filings(&members, &alder).len(), 1);
//! assert_eq!(rt; all_published(alloc, &members, today)?.len(), 0);
//! assert_eq!(rt; all_published(alloc, &members, tomorrow)?.len(), 1);
//! ```
//!
//! What is asked of members stands here, for whatever keeps them: the rows that a viewer sees
//! ([`rows_seen`]), what is published ([`all_published`]), and how much of it each agent has
//! ([`all_agents`]). What a keep of a register promises stands in [`keeping`], and one in memory in
//! [`memory`].
#![tactic(auto)]

mod agents;
mod caller;
mod fault;
mod filing;
mod filings;
mod held;
pub mod keeping;
pub mod laws;
mod member;
pub mod memory;
mod publication;
mod rows;
mod statements;
mod withdrawal;

pub use agents::{AgentLine, all_agents};
pub use caller::Caller;
pub use fault::StoreFault;
pub use filing::{AcceptedFiling, Filing, FilingLine, Outward, State};
pub use filings::is_filed;
pub(crate) use filings::{all_lines, filing_under, line_under};
pub use held::statement_count;
pub use member::{
    FILINGS_LIMIT, Member, enrol_member, is_enrolled, own_filings, push_filing, withdraw_of,
};
pub(crate) use member::{caller_with, renew_token};
pub use publication::all_published;
pub(crate) use rows::row_of;
pub use rows::{all_visible, rows_seen};
pub use statements::known;
