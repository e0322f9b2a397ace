//! The operations of a register of filings: lodging and withdrawing by its agents, the day and the
//! agents' enrolment and tokens by its registrar.
//!
//! Agents lodge files of statements. A filing is a draft until its due day, seen by its agent
//! alone, and published from then on; a draft may be withdrawn. Any [`Keep`] keeps a register;
//! [`ListKeep`] does in memory:
//!
//! ```
//! let mut keep = ListKeep::new(alloc, registrar, today);
//! let alder = enrol(&mut keep, alder, token)?;
//! assert!(rt; keep.has_agent(&alder)?);
//! let lodged = lodge(alloc, &mut keep, &alder, &key, tomorrow, file)?;
//! assert_eq!(rt; (lodged.number, lodged.state), (1, State::Draft));
//! assert_eq!(rt; advance(&mut keep, tomorrow), Ok(tomorrow));
//! assert_eq!(rt; keep.published()?.len(), 1);
//! ```
//!
//! [`KeepSource`] is any keep as a source of nodes and links, as a viewer sees them on a day: what
//! a walk of `bor_chains` asks.
//!
//! Which statement may follow which is defined in `bor_records`, and how a file is read in
//! `bods_read`. Who asks is not looked into here: the callers say which agent it is.

mod earlier;
mod fault;
mod keep_source;
pub mod laws;
mod lodging;
mod registrar;
mod withdrawal;

pub use bor_register::keeping::Keep;
pub use bor_register::memory::ListKeep;
pub use bor_register::{
    AcceptedFiling, AgentLine, Caller, FILINGS_LIMIT, Filing, FilingLine, Member, Outward, State,
    StoreFault,
};
pub use fault::{AdvanceFault, EnrolFault, LodgeFault, RenewFault, WithdrawFault};
pub use keep_source::KeepSource;
pub use lodging::{Lodged, lodge};
pub use registrar::{advance, enrol, renew};
pub use withdrawal::withdraw;
