// Why there are no rows.

/// Why the rows of a store weren't loaded.
#[derive(Clone, Copy, Debug, PartialEq, Eq)]
pub enum LoadFault {
    /// The snapshot, or a record, isn't in the grammar or has a change that doesn't apply. The number is the place of
    /// the commit mark before the first such record in the store's current file, and 0 for the snapshot.
    Damaged(u64),
    /// Out of memory.
    NoMemory,
}
