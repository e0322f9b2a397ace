//! The request that an input spells, and its token.
//!
//! ```
//! let input = b"GET /filings HTTP/1.1\r\nAuthorization: Bearer alder-token-000001\r\n\r\n";
//! let request = message_in(alloc, input)?;
//! let asking = parse(alloc, &request)?;
//! assert!(rt; asking.token.as_str() == "alder-token-000001");
//! assert!(rt; matches!(asking.request, Request::Agent(AgentRequest::Filings)));
//! ```
//!
//! Refusals come in the order of the table in `specs/Spelling/Refusals.antt`. No register is asked
//! here: the desk says whose token it is, and whether the request may be asked.

mod asking;
pub mod laws;
mod query;
mod target;
mod token;

pub use asking::{Asking, parse, parse_by, spelled};
pub use bor_http::routes::Paths;
