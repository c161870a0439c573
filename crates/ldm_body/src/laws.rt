//! What a written copy reads as.
ghost use Rattle.std.specs.Prelude.{◌≡◌, ◌+◌, ◌*◌, ◌≤◌, ℕ, List, Result, length, take, slice_index};
ghost use Rattle.ldm_label.specs.declared.Label.{Label};
ghost use Rattle.ldm_group.specs.Database.{Database};
ghost use Rattle.ldm_copy.specs.declared.answer.CopyState.{CopyState};
ghost use Rattle.ldm_copy.specs.Copy.{gate_at, IsCopyOf, IsWritten};
ghost use Rattle.ldm_body.specs.Body.{IsBodyOf, IsBodyOn, HasBody};

/// That an area which begins with a body of a database is a valid copy with that database, and that
/// a body behind an open gate on a disk is. The call does nothing.
pub fn bodies_are_copies()
    ensures begun { (db : Database) (body area : List ℕ) (sectors : ℕ) → IsBodyOf db body
        → db.header.last ≤ 8192
        → db.header.last ≤ 4 * sectors
        → take (length body) area ≡ body → IsCopyOf area sectors (Result.Ok (CopyState.Valid db)) }
    ensures written { (db : Database) (label : Label) (body image : List ℕ) → IsBodyOn db label body
        → gate_at label + 512 * label.area_sectors ≤ length image
        → slice_index image (gate_at label) ≡ 0x56 → HasBody label body image
        → IsWritten label db image }
{}
