//! Which filing, and where a statement stands.

ghost use Rattle.std.specs.Prelude.{◌≡◌};

use bor_terms::AgentName;

/// A filing, by its number and its agent.
#[derive(Drop, PartialEq, Eq, PartialOrd, Ord)]
pub struct FilingKey {
    /// The filing's number, from 1.
    pub number: u32,
    /// The agent that lodged it.
    pub agent: AgentName,
}

/// Where a statement stands: its filing's number, its place in the file, and its agent.
#[derive(Drop, PartialEq, Eq, PartialOrd, Ord)]
pub struct At {
    /// The filing's number, from 1.
    pub filing: u32,
    /// The statement's place in its file, from 1.
    pub place: u32,
    /// The agent that lodged it.
    pub agent: AgentName,
}

impl FilingKey {
    /// The place before that of its first statement.
    pub(crate) fn start(self) -> At
        ensures { result ≡ record { agent = self.agent; filing = self.number; place = 0 } }
    {
        At {
            agent: self.agent,
            filing: self.number,
            place: 0,
        }
    }
}
