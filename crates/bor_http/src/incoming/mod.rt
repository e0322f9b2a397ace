//! HTTP requests as bytes: what of an input is one request.
//!
//! [`read_request`] takes the head of a request and as many bytes behind it as the head says of any
//! reader, in whatever pieces they come, and no more than it has to. [`message_in`] takes bytes
//! apart:
//!
//! ```
//! let mut reader = Counted::new(b"GET /filings HTTP/1.1\r\nHost: localhost\r\n\r\n".as_slice());
//! let bytes = read_request(alloc, &mut reader)?;
//! let request = message_in(alloc, &bytes)?;
//! assert!(rt; request.method() == b"GET".as_slice() && request.target() == b"/filings".as_slice());
//! assert!(rt; request.only(b"host") == Some(b"localhost".as_slice()) && request.body().is_empty());
//! ```
//!
//! Every reader and writer is a [`Counted`], which tells how often it failed; [`send`] writes a
//! reply.
//!
//! The meaning of the target and of the fields is not looked at here, but for `Content-Length` and
//! `Transfer-Encoding`.

mod counted;
mod fault;
mod head;
pub mod laws;
mod message;
mod progress;
mod request;
mod sending;

pub use counted::Counted;
pub use fault::{Name, Path, Refusal, WireFault};
pub use message::{MessageHead, RawRequest, message_in, split_at_first};
pub use progress::Progress;
pub use request::{REQUEST_LIMIT, read_request};
pub use sending::send;
