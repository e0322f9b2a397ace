//! Why a read gives no answer.

ghost use Rattle.std.specs.Prelude.{◌≡◌};
ghost use Rattle.bor_store_reads.specs.declared.fault.ReadError.TheVariants as errors;

use bor_register::StoreFault;
use bor_store_sql::rows::RowFault;
use sqlite::{Error, ErrorCode};
use std::alloc::{AllocError, AllocFailed};
use thiserror::Error as ThisError;

/// Why a read gives no answer.
#[derive(Clone, Copy, Debug, PartialEq, Eq, ThisError)]
pub enum ReadError {
    /// Memory was wanting.
    #[error("out of memory")]
    Memory,
    /// The store failed.
    #[error("the store failed")]
    Store,
    /// The tables have what no register has.
    #[error("the store is damaged")]
    Damaged,
}

impl From<AllocError> for ReadError {
    ghost from_gives = { λ _ error. error ≡ errors.Memory };

    fn from(_error: AllocError) -> Self {
        ReadError::Memory
    }
}

impl<T: Drop> From<AllocFailed<T>> for ReadError {
    ghost from_gives = { λ _ error. error ≡ errors.Memory };

    fn from(_error: AllocFailed<T>) -> Self {
        ReadError::Memory
    }
}

impl From<Error> for ReadError {
    ghost use Rattle.bor_store_reads.specs.Answering.{IsNoDamage, of_store};

    ghost from_gives = { λ error of. (of ≡ of_store error) × IsNoDamage of };

    fn from(error: Error) -> Self {
        match error {
            Error::SqliteFailure(ErrorCode::OutOfMemory) => ReadError::Memory,
            _ => ReadError::Store,
        }
    }
}

impl From<RowFault> for ReadError {
    ghost use Rattle.std.specs.Prelude.{◌≡◌};
    ghost use Rattle.bor_store_reads.specs.Answering.{of_row};

    ghost from_gives = { λ fault error. error ≡ of_row fault };

    fn from(fault: RowFault) -> Self {
        match fault {
            RowFault::Memory => ReadError::Memory,
            RowFault::Damaged => ReadError::Damaged,
        }
    }
}

impl From<ReadError> for StoreFault {
    ghost use Rattle.std.specs.Prelude.{◌≡◌};
    ghost use Rattle.bor_store_reads.specs.Answering.{told_as};

    ghost from_gives = { λ error fault. fault ≡ told_as error };

    fn from(error: ReadError) -> Self {
        match error {
            ReadError::Memory => StoreFault::Memory,
            ReadError::Store => StoreFault::Store,
            ReadError::Damaged => StoreFault::Damaged,
        }
    }
}
