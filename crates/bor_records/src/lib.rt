//! The records of a beneficial ownership register: which statement may follow which, what a record
//! says on a day, and snapshots.
//!
//! A record is known by its agent, its declaration and its identifier. Each statement of it is
//! settled by what is known of the record's last live statement, whatever the file left out:
//!
//! ```
//! // `one` and `two` are statements of one entity, read from a file in which neither gives a status.
//! assert_eq!(rt; admit(None, one, due), Ok(Status::New));
//! let last = Last {
//!     kind: RecordType::Entity,
//!     status: Status::New,
//!     day: one.day,
//!     due,
//! };
//! assert_eq!(rt; admit(Some(last), two, due), Ok(Status::Updated));
//! assert_eq!(rt; admit(None, two, due), Ok(Status::New));
//! ```
//!
//! `snapshot` answers for one agent's declaration, `open_rows` for all agents and declarations at
//! once, each in the time of n look-ups among n.
//!
//! The nodes that open records make, and the links between them, are in [`links`].
//!
//! Who may lodge, what is published and who sees which rows is not decided here: the callers hand
//! over the rows that they may see. Nor are the ends of a relationship looked at, so a snapshot may
//! show a relationship of records that are closed or were never lodged.
#![tactic(auto)]

mod admission;
mod dated;
mod fault;
pub mod laws;
pub mod links;
mod row;
mod series;
mod snapshots;

pub use admission::{Last, admit};
pub use dated::latest;
pub use fault::RecordFault;
pub use row::{Entry, Row};
pub use series::open_rows;
pub use snapshots::snapshot;
