//! A connection whose tables were not taken for a register.

ghost use Rattle.std.specs.Prelude.{◌≡◌};

use crate::open_fault::OpenFault;

/// Why tables were not taken for a register, with the connection to them.
#[derive(Drop)]
pub struct Refused<C> {
    /// Why they were not taken.
    pub fault: OpenFault,
    /// The connection, over which the tables were only read; or `None` where none could be opened.
    pub conn: C,
}

impl<C: Drop> From<Refused<C>> for OpenFault {
    ghost from_gives = { λ refused fault. fault ≡ refused.fault };

    /// The fault alone: the connection is dropped.
    fn from(refused: Refused<C>) -> Self {
        refused.fault
    }
}
