//! Laws of records. Each function does nothing: its contract is the law, and it is proved for all
//! lists of rows.

ghost use Rattle.bor_records.specs.Snapshot.{SnapshotIsDetermined};

/// A list of entries is the snapshot exactly where its entries are those of the declaration's open
/// records, and go up by the records' identifiers.
pub fn snapshot_is_determined()
    ensures { SnapshotIsDetermined }
{}
