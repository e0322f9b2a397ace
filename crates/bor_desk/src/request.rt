//! The requests of a caller.

use bods_read::Identifier;
use bor_chains::Node;
use bor_terms::{AgentName, Day, Ident, Listed, LodgeKey, Token};

/// A request. Only an agent may ask an agent's, and only the registrar the registrar's.
#[derive(Drop)]
pub enum Request {
    /// An agent's.
    Agent(AgentRequest),
    /// The registrar's.
    Registrar(RegistrarRequest),
}

/// A request of an agent.
#[derive(Drop)]
pub enum AgentRequest {
    /// Lodges a file under a key, due on a day.
    Lodge {
        key: LodgeKey,
        due: Day,
        file: Listed<u8>,
    },
    /// Withdraws the draft under a key.
    Withdraw {
        key: LodgeKey,
    },
    /// Lists the caller's own filings.
    Filings,
    /// Gives the bytes of the caller's own filing under a key.
    File {
        key: LodgeKey,
    },
    /// Lists what is published.
    Published,
    /// Shows the open records of an agent's declaration on a day; without one, on the register's.
    Snapshot {
        agent: AgentName,
        declaration: Ident,
        date: Option<Day>,
    },
    /// Names the persons behind an entity on a day; without one, on the register's.
    Chains {
        entity: Node,
        date: Option<Day>,
    },
    /// Tells why the persons behind an entity are named on a day; without one, on the register's.
    Evidence {
        entity: Node,
        date: Option<Day>,
    },
    /// Finds the open entities that have an identifier on a day; without one, on the register's.
    Entities {
        identifier: Identifier,
        date: Option<Day>,
    },
}

/// A request of the registrar.
#[derive(Drop)]
pub enum RegistrarRequest {
    /// Moves the register's day.
    Day { date: Day },
    /// Enrols an agent.
    Enrol { name: AgentName, token: Token },
    /// Gives an agent another token.
    Renew { name: AgentName, token: Token },
    /// Shows the register's day, and its agents with how much each has published.
    Register,
}
