//! The contents of a file as it is opened.

ghost use Rattle.std.specs.Prelude.{true, []};

use sqlite::Start;

/// Whatever a file and its log hold. No code can look at what is supposed here: what is said of
/// files is proved for each [`Start`], and `run` alone names this one.
#[derive(Clone, Copy)]
pub struct Anything;

impl Start for Anything {
    ghost log = { [] };

    ghost db = { [] };

    ghost is_mixing = { true };

    // A torn write leaves each byte old or new, as SQLite supposes.
    fn mixes() -> bool {
        true
    }
}
