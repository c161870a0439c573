//! Sectors that are taken.

/// Sectors of the data area of the disk of this id that are taken: `size` of them from `start` on.
#[derive(Clone, Copy)]
pub struct Taken {
    pub disk: u64,
    pub start: u64,
    pub size: u64,
}
