//! The statements of a file, one after the other.

ghost use Rattle.std.specs.Prelude.{◌≡◌, IfOk};
ghost use Rattle.bor_records.specs.Admission.{known_of};
ghost use Rattle.bor_records.specs.Settling.{as_live};

use bods_read::{Statement, Status};
use bor_records::Last;
use bor_terms::{Day, Listed};
use std::alloc::{AllocError, Global};

/// A statement that is due on a day, as far as the rules ask.
pub fn known(statement: &Statement, due: Day) -> Last
    ensures { result ≡ known_of (as_live due statement.now) }
{
    Last {
        kind: statement.record_type(),
        status: statement.status.unwrap_or(Status::New),
        day: statement.day,
        due,
    }
}

/// A list of the same statements.
pub(crate) fn copied(
    alloc: Global,
    statements: &[Statement],
) -> Result<Listed<Statement>, AllocError>
    ensures { IfOk result (λ copied. copied ≡ statements.now) }
{
    let mut copied = Vec::new(alloc);
    for statement in statements {
        copied.push(statement.copy(alloc)?)?;
    }
    Ok(Listed::new(copied))
}
