//! The copies of several images: the newest, and whether another differs from it.
ghost use Rattle.std.specs.Prelude.{◌≡◌, ◌+◌, ◌<◌, [], ◌∷◌, ◌++◌, List, length, take, zip};
ghost use Rattle.std.specs.Prelude.{slice_index, Ok, IfOk, IfErr, IfSome, IsErrOf};
ghost use Rattle.ldm_host.specs.Seen.{image};
ghost use Rattle.ldm_host.specs.Moves.{Looks};
ghost use Rattle.ldm_label.specs.LabelOf.{Fits};
ghost use Rattle.ldm_copy.specs.declared.answer.CopyState.{CopyState};
ghost use Rattle.ldm_copy.specs.Answers.{FitsHeader};
ghost use Rattle.ldm_found.specs.Copies.{IsCopyIn, note_of};
ghost use Rattle.ldm_found.specs.Facts.{LieOn};
ghost use Rattle.ldm_found.specs.Gathers.{Gathers};
ghost use Rattle.ldm_found.specs.Steps.{Adds, ReadsCopy, ReadsNext, ReadsCopies, IsNewestOf};
ghost use Rattle.ldm_found.specs.Steps.{IsAmong, IsRoomy};

use crate::fault::OpenError;
use ldm_copy::{CopyError, CopyState, Note, Notes, OpenFault, is_alike, read_copy};
use ldm_group::Db;
use ldm_host::Host;
use ldm_label::Label;
use std::alloc::Global;

/// The first image with the greatest sequence, its database, and the first image that has another
/// group at that sequence.
#[derive(Drop)]
pub struct Newest {
    pub image: usize,
    pub db: Db,
    pub other: Option<usize>,
}

/// What the copies on all images say together.
#[derive(Drop)]
pub struct Copies {
    pub newest: Option<Newest>,
    pub notes: Notes,
}

// The copy on one image.
fn copy_at<H: Host>(
    alloc: Global,
    host: &mut H,
    disk: usize,
    label: &Label,
) -> Result<CopyState, OpenError>
    requires disk { disk < length (H.seen host.old).sizes }
    requires fits { Fits label.now (slice_index (H.seen host.old).sizes disk) }
    ensures is { H.tells_disks → ReadsCopy disk (
      label.now,
      image
          (H.seen host.old).content disk,
    ) result }
    ensures room { IfOk result (λ copy. IsRoomy copy) }
    ensures looks { Looks (H.seen host.old) (H.seen host.new) (IsErrOf result OpenError.Disk) }
{
    match read_copy(alloc, host, disk, label) {
        Ok(copy) => Ok(copy),
        Err(CopyError::Fault(fault)) => Err(OpenError::Fault(OpenFault::Copy(disk, fault))),
        Err(CopyError::Disk) => Err(OpenError::Disk),
        Err(CopyError::NoMemory) => Err(OpenError::NoMemory),
    }
}

fn note_of(copy: &CopyState) -> Note
    ensures { result ≡ note_of copy.now }
{
    match copy {
        CopyState::Closed => Note::Closed,
        CopyState::Valid(db) => Note::Sequence(db.header().seq),
    }
}

// The newest of the copies so far, and the copy of the next image.
fn with_copy(newest: Option<Newest>, image: usize, copy: CopyState) -> Option<Newest>
    requires newest { IfSome newest (λ n. IsAmong image n) }
    requires copy { IsRoomy copy }
    ensures is { (copies : List CopyState) → length copies ≡ image → IsNewestOf copies newest
        → IsNewestOf (copies ++ copy ∷ []) result }
    ensures room { IfSome result (λ n. IsAmong (image + 1) n) }
{
    let CopyState::Valid(db) = copy else {
        return newest;
    };
    let Some(mut newest) = newest else {
        return Some(Newest {
            image,
            db,
            other: None,
        });
    };
    if newest.db.header().seq < db.header().seq {
        return Some(Newest {
            image,
            db,
            other: None,
        });
    }
    let same_seq = newest.db.header().seq == db.header().seq;
    if same_seq && newest.other.is_none() && !db.same_core(&newest.db) {
        newest.other = Some(image);
    }
    Some(newest)
}

// What is noted of the next image, whose copy has the same bytes as the newest so far. None where
// it hasn't.
fn note_alike<H: Host>(
    host: &mut H,
    disk: usize,
    label: &Label,
    labels: &[Label],
    newest: &Option<Newest>,
) -> Result<Option<Note>, OpenError>
    requires disk { disk < length labels.now }
    requires fits { Fits label.now (slice_index (H.seen host.old).sizes disk) }
    requires lie { LieOn labels.now (H.seen host.old).sizes }
    requires newest { IfSome newest.now (λ n. IsAmong disk n) }
    ensures is { H.tells_disks → IfOk result (λ note. IfSome note (λ note. (copies : List CopyState)
        → Gathers IsCopyIn (take disk (zip labels.now (H.seen host.old).content)) (Ok copies)
        → IsNewestOf copies newest.now
        → Adds (label.now, image (H.seen host.old).content disk) copies newest.now note)) }
    ensures error { IfErr result (λ error. error ≡ OpenError.Disk) }
    ensures looks { Looks (H.seen host.old) (H.seen host.new) (IsErrOf result OpenError.Disk) }
{
    let Some(newest) = newest else {
        return Ok(None);
    };
    let header = newest.db.header();
    let other_label = &labels[newest.image];
    if !is_alike(host, disk, label, newest.image, other_label, header.last)? {
        return Ok(None);
    }
    Ok(Some(Note::Sequence(header.seq)))
}

// The newest of the copies so far and that on the next image, and a note of this one. Where it has
// the same bytes as the newest, it isn't read again.
fn with_image<H: Host>(
    alloc: Global,
    host: &mut H,
    disk: usize,
    label: &Label,
    labels: &[Label],
    newest: Option<Newest>,
) -> Result<(Option<Newest>, Note), OpenError>
    requires disk { disk < length labels.now }
    requires fits { Fits label.now (slice_index (H.seen host.old).sizes disk) }
    requires lie { LieOn labels.now (H.seen host.old).sizes }
    requires newest { IfSome newest (λ n. IsAmong disk n) }
    ensures is { H.tells_disks → (copies : List CopyState)
        → Gathers IsCopyIn (take disk (zip labels.now (H.seen host.old).content)) (Ok copies)
        → IsNewestOf copies newest
        → ReadsNext disk (label.now, image (H.seen host.old).content disk) copies result }
    ensures room { IfOk result (λ next. IfSome next.0 (λ n. IsAmong (disk + 1) n)) }
    ensures looks { Looks (H.seen host.old) (H.seen host.new) (IsErrOf result OpenError.Disk) }
{
    if let Some(note) = note_alike(host, disk, label, labels, &newest)? {
        return Ok((newest, note));
    }
    let copy = copy_at(alloc, host, disk, label)?;
    let note = note_of(&copy);
    Ok((with_copy(newest, disk, copy), note))
}

/// The newest of the copies on all images, which have these labels, and a note of each, or the
/// first fault. At most two databases are kept at a time, and a copy with the same bytes as the
/// newest isn't read into one.
pub fn read_copies<H: Host>(
    alloc: Global,
    host: &mut H,
    labels: &[Label],
) -> Result<Copies, OpenError>
    requires { LieOn labels.now (H.seen host.old).sizes }
    ensures is { H.tells_disks → ReadsCopies labels.now (H.seen host.old).content result }
    ensures one_note { IfOk result (λ copies. length copies.notes ≡ length labels.now) }
    ensures room { IfOk result (λ copies. IfSome copies.newest (λ n. FitsHeader n.db)) }
    ensures looks { Looks (H.seen host.old) (H.seen host.new) (IsErrOf result OpenError.Disk) }
{
    let mut newest = None;
    let mut notes = Vec::new(alloc);
    for (disk, label) in labels.iter().enumerate() {
        let (next, note) = with_image(alloc, host, disk, label, labels, newest)?;
        notes.push(note)?;
        newest = next;
    }
    Ok(Copies {
        newest,
        notes: Notes::from_vec(notes),
    })
}
