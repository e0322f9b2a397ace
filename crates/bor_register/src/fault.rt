//! Why a keep did not do what it was asked.

ghost use Rattle.std.specs.Prelude.{◌≡◌};
ghost use Rattle.bor_register.specs.declared.fault.StoreFault.TheVariants as store_faults;

use std::alloc::AllocError;
use thiserror::Error;

/// Why a keep did not do what it was asked. The register is as before, unless the store shut in its
/// commit: then the next opening may show the change.
#[derive(Clone, Copy, Debug, PartialEq, Eq, Error)]
pub enum StoreFault {
    /// Memory was wanting.
    #[error("out of memory")]
    Memory,
    /// The store failed.
    #[error("the store failed")]
    Store,
    /// The store holds what no register is.
    #[error("the store is damaged")]
    Damaged,
}

impl From<AllocError> for StoreFault {
    ghost from_gives = { λ _ fault. fault ≡ store_faults.Memory };

    fn from(_error: AllocError) -> Self {
        StoreFault::Memory
    }
}
