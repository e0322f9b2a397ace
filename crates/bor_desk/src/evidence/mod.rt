//! Evidence: why the persons behind an entity are named, and what the records say that this stands
//! on.

mod keys;
mod kin;
mod lines;
mod same;
mod seen;
mod text;
mod ways;

pub use lines::{EntityEvidence, LinkEvidence, PersonEvidence, RecordEvidence};
pub(crate) use seen::{entities_seen, evidence_seen};
pub use text::evidence_text;
