//! The layout of a volume, as the records of a group say it: its shape, its first fault, and the plan
//! by which its sectors are found.
#![tactic(auto)]

mod faulty;
mod laying;
mod parts;
mod planning;

pub use faulty::{VolumeFault, faults};
pub use laying::shape_of;
pub use ldm_places::{Extent, LayoutError, LayoutFault, Place, Plan, Shape};
pub use parts::{Parts, Plex};
pub use planning::{plan, plan_of};
