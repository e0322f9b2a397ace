//! Nodes and links: what the rows of a register say on a day of entities, persons and who holds
//! what, and which entities are one (UK Companies Act 2006, Schedule 1A, paragraph 18; BODS 0.4).
//!
//! A node is an open record of an entity or a person, a link an open relationship between two of
//! them, with what its interests are on the day:
//!
//! ```
//! // e1 and a1 have one number of one scheme; `votes` are 60 percent of the votes.
//! let latest = open_rows(alloc, &rows, day)?;
//! let e1 = node_of(alloc, latest[0])?.ok_or("no node")?;
//! let a1 = node_of(alloc, latest[1])?.ok_or("no node")?;
//! assert!(rt; e1.is_alias(&a1));
//! assert!(rt; stake_of(&votes, day));
//! assert!(rt; holding_of(&votes, day));
//! ```
//!
//! `specs/Links` says which nodes and links all rows have, and what a source may answer of one
//! node. By the [`laws`] a node and its aliases can be read by their keys, and the links into a
//! node by candidates, with no list of all rows.
//!
//! Whatever holds records that can be read by key is [`Records`]. Over it, [`same`] finds all nodes
//! that stand for one entity, [`aliases`] those that are one step away, and [`identified`] the
//! entities of an identifier. Over [`Relationships`], [`links_into`] finds the links into a
//! node. [`link_stated`] makes the link that a statement states.
//!
//! Maps with several values under a key, as from a sign to its entities, stand in [`values`].
//!
//! Left out: how links are followed, and who may see which rows.

mod class;
pub mod laws;
mod list;
mod node;
mod records;
mod relationships;
mod rows;
mod search;
mod sign;
mod stake;
pub mod values;

pub use class::{Class, once};
pub use list::push_some;
pub use node::{Link, Node, NodeInfo, OpenNode, PersonInfo};
pub use records::Records;
pub use relationships::{Relationships, links_into};
pub use rows::{info_stated, link_stated, node_of, record_of};
pub use search::{aliases, identified, same};
pub use sign::{Sign, push_signs, signs_of};
pub use stake::{holding_of, stake_of};
