//! The replies to a caller.

use crate::evidence::{EntityEvidence, RecordEvidence};
use crate::operations::{AgentLine, FilingLine, Lodged, Outward, StoreFault};
use crate::refusal::Refusal;
use bods_read::Identifier;
use bor_chains::{Node, PersonLine};
use bor_records::Entry;
use bor_terms::{AgentName, Day, Listed};

/// An answer.
#[derive(Drop)]
pub enum DeskReply {
    /// The filing that was lodged, now or before in the same way.
    Lodged(Lodged),
    /// The filing that is withdrawn.
    Withdrawn(FilingLine),
    /// The caller's own filings, by number.
    Filings(Listed<FilingLine>),
    /// The file as it was lodged.
    File(Listed<u8>),
    /// The outward forms of all published filings: by agent, those of an agent in order of
    /// acceptance.
    Published(Listed<Outward>),
    /// The open records of the declaration on the date, by their identifiers.
    Snapshot {
        date: Day,
        records: Listed<Entry>,
    },
    /// The persons behind the entity on the date, by agent, declaration and record.
    Chains {
        entity: Node,
        date: Day,
        persons: Listed<PersonLine>,
    },
    /// Why the persons behind the entity are named on the date, and what the records say that this
    /// stands on.
    Evidence {
        entity: Node,
        date: Day,
        evidence: EntityEvidence,
    },
    /// The open entities that have the identifier on the date, as their records say, by agent,
    /// declaration and record.
    Entities {
        identifier: Identifier,
        date: Day,
        records: Listed<RecordEvidence>,
    },
    /// The register's day, once it is moved.
    Day(Day),
    /// The agent that is enrolled.
    Enrolled(AgentName),
    /// The agent whose token is the one that was given.
    Renewed(AgentName),
    /// The register's day, and its agents by name.
    Register {
        agents: Listed<AgentLine>,
        day: Day,
    },
    /// The request is refused. The register is as before.
    Refused(Refusal),
    /// The keep failed, or memory was wanting. The register is as before, unless the store shut in
    /// its commit.
    Failed(StoreFault),
}

/// An answer, and the agent that was answered.
#[derive(Drop)]
pub struct Answered {
    /// The agent that has the token; `None` where the registrar or nobody has it, or where the keep
    /// failed before that was known.
    pub agent: Option<AgentName>,
    /// The answer.
    pub reply: DeskReply,
}
