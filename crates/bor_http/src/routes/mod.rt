//! The routes: which paths there are, and what each asks for by which method.
//!
//! ```
//! let paths = Paths::new(alloc)?;
//! assert_eq!(rt; paths.find("/filings/f1"), Some(Path::Filing));
//! assert_eq!(rt; route_at(Path::Filing, b"PUT"), Some(Route::Lodge));
//! assert!(rt; line_of(Route::Lodge) == (Path::Filing, "PUT"));
//! assert_eq!(rt; route_at(Path::Filing, b"GET"), None);
//! assert_eq!(rt; allow_of(Path::Filing), "DELETE, PUT");
//! ```
//!
//! A path is matched as it stands: nothing is decoded, and no slash is added or dropped. Queries
//! and tokens are not looked at here.

mod path;
mod route;

pub use path::Paths;
pub use route::{Route, allow_of, line_of, route_at};
