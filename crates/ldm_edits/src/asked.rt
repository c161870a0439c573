//! The sectors that a command asks for, and on which disks.
ghost use Rattle.std.specs.Prelude.{◌≡◌, All, ◌==◌, ◌<◌, ◌≤◌, ◌^◌, length, IfOk, IfSome, map};
ghost use Rattle.std.specs.List.{list_any};
ghost use Rattle.std.specs.Option.{option_map};
ghost use Rattle.ldm_group.specs.Looks.{disk_named};
ghost use Rattle.ldm_rules.specs.Ends.{data_size};
ghost use Rattle.ldm_words.specs.declared.command.Piece.{Piece};
ghost use Rattle.ldm_edits.specs.Asked.{words_by, has_twins};
ghost use Rattle.ldm_edits.specs.Extending.{is_bad_length};
ghost use Rattle.ldm_edits.specs.Answers.{FindsAs};
ghost use Rattle.ldm_edits.specs.Spots.{wanted_by};

use crate::error::StepError;
use crate::reply::Refusal;
use ldm_bytes::Bytes;
use ldm_group::Db;
use ldm_label::Labels;
use ldm_rules::sectors_of;
use ldm_space::Wanted;
use ldm_words::Piece;
use std::alloc::Global;

// This number of sectors on the disk of this name.
fn wanted_of(db: &Db, labels: &Labels, name: &[u8], size: u64) -> Option<Wanted>
    ensures is { result ≡ option_map (λ d. record {
      disk = d.head.id;
      limit = data_size labels.now db.now.records d.head.id;
      size = size;
    })
        (disk_named name.now db.now.records) }
    ensures low { IfSome result (λ w. w.limit < 2 ^ 64) }
{
    let disk = db.disk_named(name)?;
    Some(Wanted {
        disk: disk.head.id,
        limit: sectors_of(labels.as_slice(), disk.guid),
        size,
    })
}

/// What the pieces of a command ask of their disks, or the refusal of the first whose disk isn't
/// there.
#[tactic(auto, using(crate::proofs::AskedLaws::asks_first, crate::proofs::AskedLaws::asks_all))]
pub fn asked_pieces(
    alloc: Global,
    db: &Db,
    labels: &Labels,
    pieces: &[Piece],
) -> Result<Vec<Wanted>, StepError>
    ensures is { FindsAs result (wanted_by db.now labels.now (words_by pieces.now)) }
    ensures low { IfOk result (λ v. All (λ w. w.limit < 2 ^ 64) v.items) }
{
    let mut wanted = Vec::new(alloc);
    for at in 0..pieces.len() {
        let piece = &pieces[at];
        match wanted_of(db, labels, piece.disk.as_slice(), piece.len) {
            Some(one) => wanted.push(one)?,
            None => return Err(StepError::Refused(Refusal::NoDisk(at))),
        }
    }
    Ok(wanted)
}

/// This number of sectors on each of these disks, or the refusal of the first that isn't there.
#[tactic(auto, using(crate::proofs::AskedLaws::asks_first, crate::proofs::AskedLaws::asks_all))]
pub fn asked_disks(
    alloc: Global,
    db: &Db,
    labels: &Labels,
    disks: &[Bytes],
    size: u64,
) -> Result<Vec<Wanted>, StepError>
    ensures is { FindsAs result (wanted_by db.now labels.now
        (map (λ name. (name, size)) disks.now)) }
    ensures low { IfOk result (λ v. All (λ w. w.limit < 2 ^ 64) v.items) }
{
    let mut wanted = Vec::new(alloc);
    for at in 0..disks.len() {
        match wanted_of(db, labels, disks[at].as_slice(), size) {
            Some(one) => wanted.push(one)?,
            None => return Err(StepError::Refused(Refusal::NoDisk(at))),
        }
    }
    Ok(wanted)
}

// Whether one is asked of this disk.
fn asks_of(wanted: &[Wanted], disk: u64) -> bool
    ensures { result ≡ list_any (λ w. w.disk == disk) wanted.now }
{
    wanted.iter().any(|w| w.disk == disk)
}

/// Whether two are asked of one disk. There are few of them.
#[tactic(auto, using(crate::proofs::AskedLaws::no_twin))]
pub fn has_twins(wanted: &[Wanted]) -> bool
    ensures { result ≡ has_twins wanted.now }
{
    for at in 0..wanted.len() {
        let disk = wanted[at].disk;
        if asks_of(&wanted[at + 1..], disk) {
            return true;
        }
    }
    false
}

/// Whether one has length 0, or all of them together with a capacity are more than a number of the
/// format says.
pub fn is_bad_length(capacity: u64, wanted: &[Wanted]) -> bool
    requires { length wanted.now ≤ 64 }
    ensures { result ≡ is_bad_length capacity wanted.now }
{
    let mut sectors = u128::from(capacity);
    for w in wanted {
        if w.size == 0 {
            return true;
        }
        sectors += u128::from(w.size);
    }
    sectors > u128::from(u64::MAX)
}
