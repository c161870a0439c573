//! Why a group isn't known to be sound.
ghost use Rattle.std.specs.Prelude.{◌≡◌};
ghost use Rattle.ldm_rules.specs.declared.fault.RuleError.TheVariants as errors;

use ldm_bytes::NoMemory;
use ldm_group::RuleFault;

/// Why a group isn't known to be sound.
#[derive(Clone, Copy)]
pub enum RuleError {
    Fault(RuleFault),
    NoMemory,
}

impl From<NoMemory> for RuleError {
    ghost from_gives = { λ _ error. error ≡ errors.NoMemory };

    fn from(_error: NoMemory) -> RuleError {
        RuleError::NoMemory
    }
}
