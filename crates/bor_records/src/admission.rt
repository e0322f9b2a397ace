//! Which statement may follow which.

ghost use Rattle.std.specs.Prelude.{◌≡◌, ◌++◌, Some, None, int_lt};
ghost use Rattle.bor_records.specs.Admission.{admission, unless_refused, line, says_later, settled_status};
ghost use Rattle.bor_records.specs.declared.fault.RecordFault.TheVariants as RecordFault;

use crate::fault::RecordFault;
use bods_read::{RecordType, Statement, Status};
use bor_terms::Day;

/// A record's last live statement, as far as the rules ask (BODS 0.4, `recordType`, `recordStatus`,
/// `statementDate`; the due day is this register's).
#[derive(Clone, Copy, PartialEq, Eq)]
pub struct Last {
    /// The kind of the record.
    pub kind: RecordType,
    /// The settled status.
    pub status: Status,
    /// The statement's date.
    pub day: Day,
    /// The due day of the statement's filing.
    pub due: Day,
}

// The settled status of a record's first statement.
fn first(statement: &Statement) -> Result<Status, RecordFault>
    ensures { result ≡ unless_refused
        (line (says_later statement.now.status) RecordFault.RecordUnknown)
        (settled_status None statement.now.status) }
{
    match statement.status {
        None => Ok(Status::New),
        Some(Status::New) => Ok(Status::New),
        Some(_) => Err(RecordFault::RecordUnknown),
    }
}

// The settled status of a statement that follows an open one of its type.
fn in_time(last: Last, statement: &Statement, due: Day) -> Result<Status, RecordFault>
    ensures { result ≡ unless_refused
        (line (int_lt statement.now.day last.day) RecordFault.DateBack
        ++ line (int_lt due last.due) RecordFault.DueBeforeRecord)
        (settled_status (Some last) statement.now.status) }
{
    if statement.day < last.day {
        return Err(RecordFault::DateBack);
    }
    if due < last.due {
        return Err(RecordFault::DueBeforeRecord);
    }
    Ok(statement.status.unwrap_or(Status::Updated))
}

// The settled status of a statement that follows its record's last one.
fn next(last: Last, statement: &Statement, due: Day) -> Result<Status, RecordFault>
    ensures { result ≡ admission (Some last) statement.now due }
{
    if last.kind != statement.record_type() {
        return Err(RecordFault::TypeChanged);
    }
    if statement.status == Some(Status::New) {
        return Err(RecordFault::RecordExists);
    }
    if last.status == Status::Closed {
        return Err(RecordFault::RecordClosed);
    }
    in_time(last, statement, due)
}

/// The settled status of a statement due on a day, by what is known of its record's last live
/// statement (`None` where it has none), or the first refusal, in the order of `RecordFault`.
///
/// A status left out is settled as `new` where the record has no live statement, else as
/// `updated`, and meets neither `RecordExists` nor `RecordUnknown` (this register's profile of BODS
/// 0.4, `recordStatus`). It takes no memory.
pub fn admit(last: Option<Last>, statement: &Statement, due: Day) -> Result<Status, RecordFault>
    ensures { result ≡ admission last statement.now due }
{
    match last {
        Some(last) => next(last, statement, due),
        None => first(statement),
    }
}
