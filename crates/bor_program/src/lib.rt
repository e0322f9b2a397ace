//! The program as a function of its words and its streams, over whatever opens registers and
//! listens on ports.
//!
//! ```
//! let words = ["check", "filing.json"];
//! let status = run(&rt, &mut host, &words, &mut rt.stdin(), &mut rt.stdout(), &mut rt.stderr());
//! ```
//!
//! Each command is a function of its own over a register that is open ([`OpenRegister`], as
//! whatever is [`Answering`] is): [`exchange_on`] prints the replies to requests, [`report_on`] who
//! stands behind an entity. [`run`] says what is written where, and what each exit status stands
//! for. How a register is kept in a file ([`Registers`]) and what a socket is ([`Ports`]) are no
//! part of it. A socket is served in [`connections`].
#![tactic(auto)]

mod check;
pub mod connections;
mod exchange;
mod failure;
mod host;
mod init;
mod inputs;
pub mod log;
mod migrate;
mod output;
mod program;
mod registrar;
mod report;
mod serve;
mod status;

pub use bor_wire::{Reply, replay};
pub use bor_words::{Report, joined};
pub use exchange::exchange_on;
pub use failure::Failure;
pub use host::{Answering, NamedFiles, OpenRegister, Opened, Origin, Ports, Registers, Stage};
pub use output::{Output, write_text};
pub use program::run;
pub use report::{report_in, report_on};
pub use status::Status;
