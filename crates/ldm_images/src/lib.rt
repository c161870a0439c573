//! The images of a usual group with four volumes on them, for examples and tests.
#![tactic(auto)]

mod payloads;
mod usual;

pub use usual::usual_images;
