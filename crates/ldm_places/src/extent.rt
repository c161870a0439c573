//! Partitions as a layout sees them.

/// What a layout reads of a partition. An absent index is 0.
#[derive(Clone, Copy)]
pub struct Extent {
    pub component: u64,
    pub disk: u64,
    pub start: u64,
    pub size: u64,
    pub offset: u64,
    pub index: u64,
}
