//! Nodes, links, aliases and open rows of a register in tables, read by key over a connection.
//!
//! A read asks by the indexes of the tables for the statements of the records that it meets. What a
//! record shows is the latest statement of its series that the viewer sees, where it isn't closed;
//! what is found by a subject, by a record or by an identifier is confirmed by it. Where a report
//! has met much of the register, all that the viewer sees is read at once, and lists in memory
//! (`bor_chains`) answer the rest. Where the connection shows a register (`bor_store_sql`), the
//! answers are those of the nodes and links of all rows that the viewer sees
//! (`bor_records::links`), or memory or the store failed.
#![tactic(auto, using(bor_store_reads::proofs::Reading::read_fails, bor_store_reads::proofs::Reading::read_wants))]

mod alike;
mod found;
mod identified;
mod latest;
mod links;
mod listed;
mod lookup;
mod nodes;
mod opened;
mod records;
mod seen;
mod view;
mod views;

pub use alike::{read_aliases, read_same};
pub use identified::read_identified;
pub use links::read_links_into;
pub use lookup::Lookup;
pub use nodes::read_node;
pub use opened::read_open_row;
