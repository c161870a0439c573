//! What is damaged on all images.
ghost use Rattle.std.specs.Prelude.{◌≡◌, ◌++◌, ◌∷◌, [], IfOk, OnOk, IsErrOf, Ok};
ghost use Rattle.ldm_damage.specs.declared.damage.Damage.{Damage};
ghost use Rattle.ldm_damage.specs.Looked.{Looked};
ghost use Rattle.ldm_damage.specs.Views.{AreDamaged};
ghost use Rattle.ldm_view.specs.Patches.{shown};

use crate::damage::Damage;
use crate::error::DamageError;
use crate::passing::pass_disk;
use ldm_host::Host;
use ldm_view::Patched;
use std::alloc::Global;

// Notes what is damaged on the next image.
fn note(damages: &mut Vec<Damage>, found: Result<Damage, DamageError>) -> Result<(), DamageError>
    ensures noted { OnOk result (IfOk found (λ damage. damages.new.items
        ≡ damages.old.items ++ damage ∷ [])) }
    ensures found { OnOk result ((damage : Damage) × (found ≡ Ok damage)) }
    ensures disk { IsErrOf result DamageError.Disk → IsErrOf found DamageError.Disk }
{
    damages.push(found?)?;
    Ok(())
}

/// What is damaged on each image, and the host with the patches that get over it: they mend labels,
/// and show copies of the database that have a fault as closed. An image whose label can't be
/// mended stays as it is. `Disk` comes only where a call of a disk failed.
pub fn find_damage<H: Host>(
    alloc: Global,
    host: H,
) -> (Patched<H>, Result<Vec<Damage>, DamageError>)
    ensures is { H.tells_disks → IfOk result.1 (λ damages. AreDamaged (H.seen host).content
        damages.items (shown result.0.patches.items (H.seen host).content)) }
    ensures looked { Looked (H.seen host) (H.seen result.0.host)
        (IsErrOf result.1 DamageError.Disk) }
{
    let mut under = Patched::new(alloc, host);
    let mut damages = Vec::new(alloc);
    for disk in 0..under.host.disks() {
        let (next, found) = pass_disk(alloc, under, disk);
        under = next;
        if let Err(error) = note(&mut damages, found) {
            return (under, Err(error));
        }
    }
    (under, Ok(damages))
}
