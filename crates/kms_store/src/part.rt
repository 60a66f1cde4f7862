// Where changes stand.

/// Where changes stand: in records, or in a snapshot.
#[derive(Clone, Copy, Debug, PartialEq, Eq)]
pub enum Part {
    Records,
    Snapshot,
}
