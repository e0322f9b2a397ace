//! The register in memory.
//!
//! [`ListKeep`] is a `Keep` of `bor_register::keeping` that holds its register in memory. With
//! `enrol` of that page:
//!
//! ```
//! let mut keep = ListKeep::new(alloc, registrar, today);
//! enrol(&mut keep, &alder, &token)?;
//! assert!(rt; keep.has_agent(&alder)?);
//! assert_eq!(rt; keep.filings(&alder)?.len(), 0);
//! ```
//!
//! Maps beside the filings lead from a record, an identifier, a subject or a sign to the statements
//! that are asked for. Where memory was wanting for the maps, they are made again when they are asked
//! for next.

mod index;
mod list_keep;
mod records;
mod sight;
mod standing;
mod succession;

pub use list_keep::ListKeep;
