//! What the whole program says on the console beside its answers: why words, or a line of a script,
//! have no reading, the help, also that of one job, the version, and how far a long job has come.
#![tactic(auto)]

mod job_help;
mod meter;
mod near;
mod reason;
mod telling;
mod usage;

pub use job_help::JobHelp;
pub use meter::{Counted, Meter, Progress, Tally};
pub use near::Nearest;
pub use reason::{line_error, usage_error};
pub use telling::tell;
pub use usage::UsageError;
