//! Folder tables and their records.

/// A folder: how deep it lies, and its label.
#[derive(Clone, Copy, PartialEq, Eq, Debug)]
pub struct Record<L> {
    pub depth: u32,
    pub label: L,
}

/// A folder table, read record by record; `level` nodes are open. The place is kept, since a fault tells the record's number.
#[derive(Drop)]
pub struct FolderTable<'a, L> {
    pub(crate) records: &'a [Record<L>],
    pub(crate) place: usize,
    pub(crate) level: usize,
}
