//! The bytes of every reply (HTTP/1.1, RFC 9112): a status line, the fields, and compact JSON with
//! the keys of each object in byte order.
//!
//! [`render`] gives the reply to what the desk answers, in memory of its own. What follows a
//! change, and what refuses bytes that are no request, is written into room that was reserved
//! before ([`RESERVED`] bytes), by [`render_short`] and [`render_refusal`], which can't fail:
//!
//! ```
//! let mut out = Vec::with_capacity(alloc, RESERVED)?;
//! render_refusal(&mut out, Refusal::WrongMethod(Path::Filings));
//! assert!(rt; out.as_slice().starts_with(b"HTTP/1.1 405 Method Not Allowed\r\n"));
//! ```
//!
//! Lists of filings and of records go filing by filing, record by record, into one buffer. Where
//! the store failed or memory was wanting, the reply is [`UNAVAILABLE`].
//!
//! Nothing is read, asked or sent here.

mod body;
mod evidence;
mod filings;
mod head;
pub mod laws;
mod persons;
mod records;
mod reply;
mod room;
mod short;
mod shown;

pub use head::{desk_status, refusal_status};
pub(crate) use reply::render_owned;
pub use reply::{RESERVED, UNAVAILABLE, is_long, render, render_refusal, render_short};
