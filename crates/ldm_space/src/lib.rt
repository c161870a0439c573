//! Free sectors of a disk's data area, and where new partitions start.
#![tactic(auto)]

mod free;
mod gaps;
mod placed;

pub use free::first_fit;
pub use gaps::{FreeMap, Gap};
pub use placed::{FreeMaps, Wanted, place_all};
