//! Why a store holds no register that can be used.

ghost use Rattle.std.specs.Prelude.{◌≡◌};
ghost use Rattle.bor_store.specs.Opening.{open_fault_of};
ghost use Rattle.bor_store.specs.declared.open_fault.OpenFault.TheVariants as faults;

use bor_store_reads::ReadError;
use sqlite::{Error, ErrorCode};
use std::alloc::AllocError;
use thiserror::Error as ThisError;

/// Why a register was not set up, or the tables of a store were not taken for one or not moved to
/// version 2. The tables are as they were, unless the store shut in its commit: then the next
/// opening may show the register that was set up, or the tables that were moved.
#[derive(Clone, Copy, Debug, PartialEq, Eq, ThisError)]
pub enum OpenFault {
    /// A table or a column of a register is missing, or the table `register` doesn't have exactly
    /// one row with a whole version.
    #[error("no register")]
    NoRegister,
    /// The table `register` has this version, which isn't 2, nor 1 where tables were to be moved.
    #[error("register of version {0}")]
    OtherVersion(i64),
    /// Where a register was to be set up, the store has a table, an index or a view; where tables of
    /// version 1 were to be moved, it has one of the name `period`. The store is as it was.
    #[error("not free for a register")]
    Taken,
    /// Where tables of version 1 were to be moved, the reader refuses the file of a live filing, or
    /// what it is read to isn't what the tables have of the filing, or a row of a filing has a
    /// value of no form.
    #[error("the register is damaged")]
    Damaged,
    /// Memory was wanting.
    #[error("out of memory")]
    Memory,
    /// The store failed, the file is no database, or a transaction is open.
    #[error("the store failed")]
    Store,
}

impl From<AllocError> for OpenFault {
    ghost from_gives = { λ _ fault. fault ≡ faults.Memory };

    fn from(_error: AllocError) -> Self {
        OpenFault::Memory
    }
}

impl From<Error> for OpenFault {
    ghost from_gives = { λ error fault. fault ≡ open_fault_of error };

    fn from(error: Error) -> Self {
        match error {
            Error::SqliteFailure(ErrorCode::OutOfMemory) => OpenFault::Memory,
            _ => OpenFault::Store,
        }
    }
}

impl From<ReadError> for OpenFault {
    ghost use Rattle.bor_store.specs.Migrating.{of_read};

    ghost from_gives = { λ error fault. fault ≡ of_read error };

    fn from(error: ReadError) -> Self {
        match error {
            ReadError::Memory => OpenFault::Memory,
            ReadError::Store => OpenFault::Store,
            ReadError::Damaged => OpenFault::Damaged,
        }
    }
}
