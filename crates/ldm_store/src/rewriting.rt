//! Rewrites the copies on all disks, one after another.
ghost use Rattle.std.specs.Prelude.{◌≡◌, ◌+◌, ◌≤◌, ℕ, List, Some, length, slice_index, slice_get};
ghost use Rattle.std.specs.Prelude.{OnOk, IsErr};
ghost use Rattle.ldm_host.specs.Moves.{Works};
ghost use Rattle.ldm_host.specs.Seen.{image};
ghost use Rattle.ldm_label.specs.declared.Label.{Label};
ghost use Rattle.ldm_group.specs.Database.{Database};
ghost use Rattle.ldm_copy.specs.declared.answer.CopyState.{CopyState};
ghost use Rattle.ldm_body.specs.Body.{HasBody};
ghost use Rattle.ldm_changed.specs.Change.{Changed, ChangesFrom};
ghost use Rattle.ldm_changed.specs.Nexts.{bytes_in, most_in};
ghost use Rattle.ldm_changed.specs.declared.nexts.Next.TheVariants as nexts;
ghost use Rattle.ldm_found.specs.Facts.{LieOn};
ghost use Rattle.ldm_found.specs.Labels.{AreSameOutside};
ghost use Rattle.ldm_store.specs.Kept.{IsCurrent, AlwaysKept};
ghost use Rattle.ldm_store.specs.Turning.{IsBodyOnEach, AllSettled, AllHave, AlwaysOneOf};

use ldm_changed::{Next, rewrite_next};
use ldm_host::{Failed, Host};
use ldm_label::Label;

// Writes what is next on each disk in order, where each copy is open with one group.
pub fn rewrite_all<H: Host>(host: &mut H, labels: &[Label], next: &Next) -> Result<(), Failed>
    requires lie { LieOn labels.now (H.seen host.old).sizes }
    requires several { 2 ≤ length labels.now }
    requires body { (db : Database) × IsBodyOnEach db labels.now (bytes_in next.now) }
    requires settled { AllSettled labels.now (H.seen host.old) }
    requires current { H.tells_disks → (o : Database)
        × AllHave labels.now (H.seen host.old).content (IsCurrent o) }
    requires before { H.tells_disks → (change : Changed) → next.now ≡ nexts.Changed change
        → (disk : ℕ) (label : Label)
        → slice_get labels.now disk ≡ Some label
        → (old : List ℕ) × ChangesFrom old change × HasBody label old
        (image (H.seen host.old).content disk) }
    // At each moment the group before or the one after is found, whatever the outcome.
    ensures any_moment { H.tells_disks → (o n : Database)
        → AllHave labels.now (H.seen host.old).content (IsCurrent o)
        → IsBodyOnEach n labels.now (bytes_in next.now)
        → AlwaysKept labels.now o n (H.seen host.old) (H.seen host.new) }
    // At each moment each copy is closed, or open with one of these two groups.
    ensures copies { H.tells_disks → (o n : Database)
        → AllHave labels.now (H.seen host.old).content (IsCurrent o)
        → IsBodyOnEach n labels.now (bytes_in next.now)
        → AlwaysOneOf labels.now o n (H.seen host.old) (H.seen host.new) }
    ensures done { H.tells_disks → OnOk result ((n : Database)
        → IsBodyOnEach n labels.now (bytes_in next.now)
        → AllHave labels.now (H.seen host.new).content (λ copy. copy ≡ CopyState.Valid n)) }
    ensures has { H.tells_disks → OnOk result ((disk : ℕ) (label : Label)
        → slice_get labels.now disk ≡ Some label
        → HasBody label (bytes_in next.now) (image (H.seen host.new).content disk)) }
    ensures outside { H.tells_disks → AreSameOutside labels.now (H.seen host.old).content
        (H.seen host.new).content }
    ensures settled { OnOk result (AllSettled labels.now (H.seen host.new)) }
    ensures wrote { (disk : ℕ) → slice_index (H.seen host.new).wrote disk
        ≤ slice_index (H.seen host.old).wrote disk + most_in next.now }
    ensures works { Works (H.seen host.old) (H.seen host.new) (IsErr result) }
{
    for disk in 0..labels.len() {
        rewrite_next(host, disk, &labels[disk], next)?;
    }
    Ok(())
}
