//! A rule of a sound group that is broken.

/// A broken rule, and the least id of an object at which it is broken. The id is 0 where the group
/// record is missing.
#[derive(Clone, Copy, PartialEq, Eq)]
pub struct RuleFault {
    pub rule: u8,
    pub id: u64,
}
