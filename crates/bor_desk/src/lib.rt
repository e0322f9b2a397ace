//! The desk: who asks, what is answered, and the texts that replies have of a register.
//!
//! [`answer`] takes the token and the request of a caller to a keep of a register, and gives the
//! reply:
//!
//! ```
//! let mut keep = ListKeep::new(alloc, registrar.copy(alloc)?, day);
//! let token = alder.copy(alloc)?;
//! let enrol = Request::Registrar(RegistrarRequest::Enrol { name, token });
//! let reply = answer(alloc, &mut keep, &registrar, &enrol);
//! assert!(rt; matches!(&reply, DeskReply::Enrolled(_)));
//!
//! let published = Request::Agent(AgentRequest::Published);
//! let reply = answer(alloc, &mut keep, &alder, &published);
//! assert!(rt; matches!(&reply, DeskReply::Published(outwards) if outwards.as_slice().is_empty()));
//! ```
//!
//! [`check_text`], [`report_text`] and [`evidence_text`] give what `bor check` and `bor report`
//! print. What is done to a register on the way stands in [`operations`], and a keep with a
//! register in memory beside it in [`mirror`].
//!
//! Nothing is read or printed here, and no HTTP is known of: requests come in as values, and
//! replies go out as values or as bytes of a text.
#![tactic(auto)]

mod check;
mod desk;
mod evidence;
pub mod laws;
pub mod mirror;
pub mod operations;
mod refusal;
mod reply;
mod report;
mod request;
mod text;

pub use check::{FILE_LIMIT, check_text};
pub use desk::{answer, answer_naming, date_or_day};
pub use evidence::{EntityEvidence, LinkEvidence, PersonEvidence, RecordEvidence, evidence_text};
pub use refusal::Refusal;
pub use reply::{Answered, DeskReply};
pub use report::report_text;
pub use request::{AgentRequest, RegistrarRequest, Request};
pub use text::{Text, settled_word};
