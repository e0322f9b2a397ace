//! The words of the program's command line: which command they ask for, with each value read as
//! what it has to be.
//!
//! ```
//! let words = ["report", "--db", "register.db", "--viewer", "alder", "--agent", "alder", "--declaration", "c1", "--record", "e1"];
//! let Ok(Command::Report(asked)) = Command::read(alloc, &words) else { .. };
//! assert!(rt; asked.viewer.as_str() == "alder");
//! assert!(rt; asked.date.is_none());
//! ```
//!
//! `clap` says which word is what. `specs/Words.antt` defines the words for it, and what
//! some words ask for is computed from that, so that a contract can say it. No file is opened here.
#![tactic(auto)]

mod command;
mod exchange;
mod help;
mod hyphens;
mod init;
mod matches;
mod migrate;
mod numbers;
mod parser;
mod registrar;
mod report;
mod serve;
mod source;
mod unread;
mod values;

pub use command::Command;
pub use exchange::Exchange;
pub use help::{
    CHECK_HELP, EXCHANGE_HELP, HELP, INIT_HELP, MIGRATE_HELP, REPORT_HELP, SERVE_HELP, help_for,
};
pub use hyphens::joined;
pub use init::Init;
pub use migrate::Migrate;
pub use registrar::RegistrarSource;
pub use report::Report;
pub use serve::Serve;
pub use source::Source;
pub use unread::{Unfit, Unread};
