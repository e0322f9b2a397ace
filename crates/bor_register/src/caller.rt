//! Who asks.

use bor_terms::AgentName;

/// Who has a token of the register.
#[derive(Drop)]
pub enum Caller {
    /// The registrar, who moves the day and enrols agents.
    Registrar,
    /// The agent with this name.
    Agent(AgentName),
}
