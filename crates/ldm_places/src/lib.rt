//! The disk and sector at which each sector of a volume lies, by its shape and its partitions, and
//! the faults of what is laid out so.
#![tactic(auto)]

mod columns;
mod draft;
mod extent;
mod places;
mod shape;
mod stretches;
mod tiles;

pub use draft::{Draft, Extents, is_tiled};
pub use extent::Extent;
pub use places::Plan;
pub use shape::{LayoutError, LayoutFault, Place, Shape};
