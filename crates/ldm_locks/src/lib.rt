//! Who else uses an image that is to be edited, and the lock that holds others off.
//!
//! What it answers rests on what the system tells in files.
#![tactic(auto)]

mod device;
mod holding;
mod locks;
mod loops;
mod system;
mod uses;

pub use holding::hold;
pub use system::System;

#[cfg(test)]
mod tests;
