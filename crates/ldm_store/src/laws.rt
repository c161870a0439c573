//! What a group, its faults and its editing depend on, and what images hold that are kept between
//! two groups.
ghost use Rattle.std.specs.Prelude.{◌≡◌, ◌⊎◌, List, None, Result, length, ℕ};
ghost use Rattle.ldm_label.specs.declared.Label.{Label};
ghost use Rattle.ldm_group.specs.Database.{Database, IsSameCore};
ghost use Rattle.ldm_group.specs.Looks.{HasSameDisks};
ghost use Rattle.ldm_copy.specs.declared.answer.CopyState.{CopyState};
ghost use Rattle.ldm_copy.specs.declared.fault.OpenFault.{OpenFault};
ghost use Rattle.ldm_copy.specs.declared.found.Found.{Found};
ghost use Rattle.ldm_found.specs.Editing.{AreLarge, blocked_in};
ghost use Rattle.ldm_found.specs.Gathers.{Gathers};
ghost use Rattle.ldm_found.specs.Labels.{IsLabelOf, AreSameOutside, stranger};
ghost use Rattle.ldm_found.specs.Opening.{group_faults, IsGroupOfCopies};
ghost use Rattle.ldm_store.specs.Alike.{AllAlike, AnswerAlike};
ghost use Rattle.ldm_store.specs.Kept.{IsNext, IsRecoverable, Opens};
ghost use Rattle.ldm_store.specs.Sessions.{IsEditable};

/// That the group that is found, its faults and whether it may be edited depend on the labels and
/// on what makes each copy's group, and not on the carried bytes of their headers. The call does
/// nothing.
pub fn group_alone()
    ensures faults { (a b : Database) (labels : List Label) → IsSameCore a b
        → group_faults a labels ≡ group_faults b labels }
    ensures blocked { (a b : Database) (labels : List Label) → IsSameCore a b
        → blocked_in a labels ≡ blocked_in b labels }
    ensures alike { (xs ys : List CopyState) (labels : List Label)
        (a b : Result Found OpenFault) → AllAlike xs ys
        → IsGroupOfCopies (Result.Ok xs) labels a → IsGroupOfCopies (Result.Ok ys) labels b
        → AnswerAlike a b }
{}

/// That what blocks editing depends on the disk records, the last VBLK sequence and the labels
/// alone, and which image is of a strange disk on the disk records and the labels; and that a group
/// which may be edited may be with another last VBLK sequence that fits each area. The call does
/// nothing.
pub fn disks_alone()
    ensures blocked { (a b : Database) (labels : List Label) → HasSameDisks a.records b.records
        → a.header.last ≡ b.header.last
        → blocked_in a labels ≡ blocked_in b labels }
    ensures growth { (a b : Database) (labels : List Label) → HasSameDisks a.records b.records
        → AreLarge b.header.last labels
        → blocked_in a labels ≡ None → blocked_in b labels ≡ None }
    ensures stranger { (a b : Database) (labels : List Label) → HasSameDisks a.records b.records
        → stranger a.records labels ≡ stranger b.records labels }
{}

/// That images which are kept between two groups open by their own labels as one of the two, and
/// may be edited: of disks which had these labels, and where nothing outside the config areas is
/// changed, both groups may be edited, and the newer is the older or has the next sequence. The
/// call does nothing.
pub fn kept_images_open()
    ensures { (labels : List Label) (older newer : Database) (old images : List (List ℕ))
        → Gathers IsLabelOf old (Result.Ok labels) → IsEditable older labels
        → IsEditable newer labels → IsNext older newer
        → length images ≡ length labels → AreSameOutside labels old images
        → IsRecoverable labels older newer images
        → Opens images older ⊎ Opens images newer }
{}
