//! The body of a copy, which is what is written behind its gate: made of a database or read from a
//! disk, and put on a disk while the gate is closed.
//!
//! Sectors have 512 bytes, blocks 128. What a body is, is in `specs/Body.antt`; what the writing
//! leaves at each moment, in `specs/Rewriting.antt`.
#![tactic(auto)]

mod bodies;
mod body;
mod finding;
mod gate;
mod laws;
mod rewriting;

pub use bodies::{BodyError, read_body};
pub use body::{Body, body_of, counts_of, joined};
pub use gate::{close, fill, gate_at, unseal};
pub use laws::bodies_are_copies;
pub use rewriting::{refill, rewrite};
