//! The terms of a beneficial ownership register: names, keys, identifiers and tokens, days, and the
//! ranges of shares.
//!
//! The other crates of the register take their parameters in these types, so a name that does not
//! fit, a day that the calendar lacks and an empty range are refused once, where they are read:
//!
//! ```
//! let day = Day::read("2024-02-01T09:00:00Z");
//! assert_eq!(rt; day.map(Day::number), Some(19_754));
//! let share = Span::new(50, true, 100, false);
//! assert_eq!(rt; share.map(Span::above_half), Some(true));
//! assert_eq!(rt; AgentName::read(rt.alloc(), "Acme Ltd")?, None);
//! ```
//!
//! A text is kept byte for byte: nothing is trimmed, folded or normalised. There are no times of
//! day, no time zones and no days outside the years 0 to 9999, and a share has whole percents
//! alone.
#![tactic(auto)]

mod agent_name;
mod day;
mod ident;
mod listed;
mod lodge_key;
mod period;
mod span;
mod text;
mod token;

pub use agent_name::{AgentName, NameForm};
pub use day::Day;
pub use ident::{Ident, IdentForm};
pub use listed::Listed;
pub use lodge_key::{KeyForm, LodgeKey};
pub use span::Span;
pub use text::{Form, Text};
pub use token::{Token, TokenForm};
