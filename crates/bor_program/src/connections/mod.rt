//! A server of a register on a socket: many clients at once, of each an exchange of one request and
//! its reply.
//!
//! [`serve_on`] takes a keep of a register, a listener that doesn't block, and what lets clients in
//! and tells when something may be read or written ([`Watch`]):
//!
//! ```
//! let status = serve_on(&rt, &mut keep, &listener, &mut watch, 1000);       // 0, or 3 where a connection failed
//! ```
//!
//! A client's bytes are gathered until its request is whole; then it is answered over the bytes in
//! memory, and the reply is written as its client takes it. So no client waits for another one's
//! reading or writing. A client has ten seconds for its request; of its reply it takes something
//! within each ten seconds, and in all 16,384 bytes a second ([`Limits`]). Else it is given up.
//!
//! `bor_wire` says what is on the wire, and `bor_register` what a register is. The clauses say that
//! what was answered is a run over the bytes of requests and replies, which are known; and of
//! streams that tell their bytes, that each reply is written to the stream that its request was
//! read from, and how much of that is read at most. A server ends before all its clients came only
//! where its watch can't go on.

mod limits;
mod phase;
mod reading;
mod seats;
mod server;
mod service;
mod serving;
mod step;
mod taking;
mod timing;
mod watch;
mod writing;

pub use limits::Limits;
pub use serving::{serve_on, serve_within};
pub use watch::{PLACES, Places, Watch, accepted};
