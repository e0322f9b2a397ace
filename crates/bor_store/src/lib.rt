//! A register in the tables of SQLite.
//!
//! [`SqlKeep`] is a `Keep` (`bor_register::keeping`) over a connection to a store in memory or in a
//! file. What it shows is what the last commit left (`bor_store_sql`): a change that returns `Ok`
//! is in the file, and a fault leaves the file as it was, unless the store shut in its commit. Then
//! the next opening shows the change whole or not at all, if the disk has returned what was
//! written. The tables are of version 2; [`migrate`] moves those of version 1, which have nothing
//! of the days of interests.
#![tactic(auto)]

mod adoption;
mod days;
mod files;
mod forms;
pub mod laws;
mod lodging;
mod migration;
mod open_fault;
mod opening;
mod refused;
mod room;
mod setup;
mod sql_keep;

pub use adoption::examine;
pub use migration::migrate;
pub use open_fault::OpenFault;
pub use opening::{close_files, connect};
pub use refused::Refused;
pub use room::statements_within;
pub use setup::set_up;
pub use sql_keep::SqlKeep;
