//! The job `scan` over images of which some may not open or be read: each is said alone, so that a
//! fault of one doesn't end what is said of the others.
//!
//! What is said is in `specs/Findings.antt`. An image is read by way of `Lone`, a host with that
//! disk alone, which tells whether a read of it failed.
#![tactic(auto)]

mod finding;
mod finding_json;
mod finding_text;
mod lone;
mod running;
mod scanning;

pub use running::run_scan;
