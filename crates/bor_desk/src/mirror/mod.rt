//! A keep with its register in memory beside it.
//!
//! [`MirroredKeep`] is a keep over another one, its store. Beside it, it has the same register in
//! memory, without the files of its filings: its mirror. A change goes to the store, and then to
//! the mirror; a question that needs no file is answered by the mirror, and any other by the store:
//!
//! ```
//! let mut keep = MirroredKeep::new(store, 200_000, notice);
//! keep.fill();
//! answer(alloc, &mut keep, &token, &Request::Agent(AgentRequest::Published)); // the store isn't asked
//! ```
//!
//! A store that can be mirrored is a [`MirrorStore`]. What the mirror holds is bounded: where it
//! would be more, or memory is wanting, it is let go, all is asked of the store, and a [`Notice`]
//! is given.

mod mirror_store;
mod mirrored_keep;
mod notice;

pub use mirror_store::{MirrorStore, StoreState};
pub use mirrored_keep::MirroredKeep;
pub use notice::Notice;
