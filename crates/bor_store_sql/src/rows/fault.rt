//! Why a row is not read.

ghost use Rattle.std.specs.Prelude.{◌≡◌};
ghost use Rattle.bor_store_sql.specs.declared.rows.fault.RowFault.TheVariants as faults;

use std::alloc::AllocError;

/// Why a row of a table is not read as a value.
#[derive(Clone, Copy, Debug, PartialEq, Eq)]
pub enum RowFault {
    /// Memory was wanting.
    Memory,
    /// The row is none that a register has: a column is missing, of another type or out of its
    /// form.
    Damaged,
}

impl From<AllocError> for RowFault {
    ghost from_gives = { λ _ fault. fault ≡ faults.Memory };

    fn from(_error: AllocError) -> Self {
        RowFault::Memory
    }
}
