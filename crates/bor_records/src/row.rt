//! Statements as the register keeps them.

use bods_read::{Statement, Status};
use bor_terms::AgentName;

/// A live statement with the agent and the filing that it stands in.
#[derive(Drop)]
pub struct Row {
    /// The agent that lodged it.
    pub agent: AgentName,
    /// The filing's number, which counts from 1 for each agent.
    pub filing: u32,
    /// The statement's place in its file, from 1.
    pub place: usize,
    /// The settled status.
    pub status: Status,
    /// The statement.
    pub statement: Statement,
}

/// The entry of a record in a snapshot: its latest statement, with its settled status.
#[derive(Drop)]
pub struct Entry {
    /// The settled status.
    pub status: Status,
    /// The record's latest statement.
    pub statement: Statement,
}
