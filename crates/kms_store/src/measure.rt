// How long a snapshot is.
ghost use Rattle.kms_store.specs.Snapshot.{IsSizeOf};

use crate::Tables;
use kms_record::base_len;

/// How many changes a snapshot has, and how many bytes.
#[derive(Clone, Copy)]
pub(crate) struct Size {
    pub changes: u64,
    pub bytes: u64,
}

/// How long the snapshot of the tables is. None where it has 2^64 bytes or more.
pub(crate) fn size_of(tables: &Tables) -> Option<Size>
    ensures { IsSizeOf result tables.now.kept }
{
    let mut rows = tables.rows_left();
    let mut changes = 0;
    let mut bytes: u64 = 8;
    while let Some(change) = rows.next() {
        bytes = bytes.checked_add(base_len(&change) as u64)?;
        changes += 1;
    }
    Some(Size { changes, bytes })
}
