//! The keeps of a register, in memory or in tables.
//!
//! Any [`Keep`] keeps a register of filings:
//!
//! ```
//! fn enrol<K: Keep>(keep: &mut K, agent: &AgentName, token: &Token) -> Result<(), StoreFault> {
//!     if !keep.has_agent(agent)? && keep.who(token)?.is_none() {
//!         keep.add_agent(agent, token)?;
//!     }
//!     Ok(())
//! }
//! ```
//!
//! A keep does what it is asked and tests nothing of it: `bor_desk::operations`, which hands this
//! on, says which lodging, which withdrawal and which day may be. The register in memory is
//! [`ListKeep`](crate::memory::ListKeep).

mod keep;

pub use keep::Keep;
