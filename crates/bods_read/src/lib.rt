//! Reads a BODS 0.4 file to its statements, or tells the first of its faults.
//!
//! ```
//! let file =
//!     b"[{\"statementId\":\"s1\",\"statementDate\":\"2024-01-10\",\"declarationSubject\":\"c1\",\"recordId\":\"p1\",\"recordType\":\"person\",\"recordDetails\":{}}]";
//! let statements = read_file(rt.alloc(), file)?;
//! assert_eq!(rt; statements.len(), 1);
//! assert_eq!(rt; statements[0].record_type(), RecordType::Person);
//! let fault = FileFault::At {
//!     place: 1,
//!     fault: Fault::Missing(Field::StatementDate),
//! };
//! let refused = read_file(rt.alloc(), b"[{\"statementId\":\"s1\"}]");
//! assert_eq!(rt; refused.err(), Some(ReadFault::File(fault)));
//! ```
//!
//! A file is a JSON array of 1 to 1,000 statements, each of an entity, a person or a relationship
//! between two records. What BODS leaves open is settled in this register's profile: null counts as
//! absent, unknown members are passed over, and unknown kinds are read as `Other`. Each statement
//! that is read has its form ([`laws`]).
//!
//! Left out: fractions of a percent, statements without a date, and all that the members of
//! [`Statement`] do not name.
#![tactic(auto)]

mod details;
mod ends;
mod entity;
mod fault;
mod file;
mod free_text;
mod identifiers;
mod interest;
mod interests;
pub mod laws;
mod member;
mod numeral;
mod person;
mod reading;
mod relationship;
mod share;
mod statement;
mod trouble;
mod words;

pub use details::{Details, EntityKind, Identifier, PersonKind};
pub use fault::{Fault, Field, FileFault, ReadFault};
pub use file::{STATEMENTS_LIMIT, read_file};
pub use free_text::{FreeForm, FreeText};
pub use interest::{Directness, Interest, InterestKind};
pub use member::ITEMS_LIMIT;
pub use statement::{RecordType, Statement, Status};
pub use words::Worded;
