//! What a run past damage leaves.
ghost use Rattle.std.specs.Prelude.{◌≡◌};
ghost use Rattle.ldm_repair.specs.Repairing.{damage_status};

use ldm_damage::{Damage, DamageError};
use ldm_host::Host;
use ldm_view::Patched;
use ldm_words::Status;

/// What a run past damage leaves.
pub struct Ran<H: Host> {
    pub host: H,
    pub status: Status,
    /// What is damaged on each image. None where a fault came before that was known.
    pub damages: Option<Vec<Damage>>,
}

/// The status where it isn't known what is damaged.
pub fn damage_status(error: DamageError) -> Status
    ensures { result ≡ damage_status error }
{
    match error {
        DamageError::Disk => Status::DiskFault,
        DamageError::NoMemory => Status::NoMemory,
    }
}

/// Takes the host out of its patches.
pub fn host_of<H: Host>(under: Patched<H>) -> H
    ensures { result ≡ under.host }
{
    let Patched { host, patches: _ } = under;
    host
}
