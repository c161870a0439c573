//! Closes copies that are damaged.
ghost use Rattle.std.specs.Prelude.{◌≡◌, ℕ, List, Some, Result, get_or, is_some, slice_get};
ghost use Rattle.ldm_label.specs.declared.Label.{Label as LabelModel};
ghost use Rattle.ldm_label.specs.Laws.{IsClearOfLabel};
ghost use Rattle.ldm_found.specs.Facts.{LieOn};
ghost use Rattle.ldm_found.specs.Gathers.{Gathers};
ghost use Rattle.ldm_found.specs.Labels.{IsLabelOf};
ghost use Rattle.ldm_init.specs.Images.{NothingPending};
ghost use Rattle.ldm_damage.specs.Views.{AreDamaged, no_damage};
ghost use Rattle.ldm_repair.specs.Closing.{ClosesAll};

use ldm_body::close;
use ldm_damage::Damage;
use ldm_host::{Failed, Host};
use ldm_label::Label;

// Whether the copy on a disk is damaged.
fn is_damaged(damages: &[Damage], disk: usize) -> bool
    ensures { result ≡ is_some (get_or damages.now disk no_damage).copy }
{
    match damages.get(disk) {
        Some(damage) => damage.copy.is_some(),
        None => false,
    }
}

/// Closes each copy that is damaged, one after another. Past damage the images read at each moment
/// as before, and in the end they read so without that.
pub(crate) fn close_all<H: Host>(
    host: &mut H,
    labels: &[Label],
    damages: &[Damage],
) -> Result<(), Failed>
    requires lie { LieOn labels.now (H.seen host.old).sizes }
    requires clear { (disk : ℕ) (label : LabelModel) → slice_get labels.now disk ≡ Some label
        → IsClearOfLabel label }
    requires settled { NothingPending (H.seen host.old) }
    requires labelled { H.tells_disks → Gathers IsLabelOf (H.seen host.old).content
        (Result.Ok labels.now) }
    requires damaged { H.tells_disks → (views : List (List ℕ))
        × AreDamaged (H.seen host.old).content damages.now views }
    ensures { ClosesAll H.tells_disks result labels.now damages.now (H.seen host.old)
        (H.seen host.new) }
{
    for disk in 0..labels.len() {
        if is_damaged(damages, disk) {
            close(host, disk, &labels[disk])?;
        }
    }
    Ok(())
}
