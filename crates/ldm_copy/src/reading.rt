//! Reads the copy on a disk.
ghost use Rattle.std.specs.Prelude.{◌≡◌, ◌+◌, ◌-◌, ◌*◌, ◌/◌, ◌^◌, ◌<◌, ◌≤◌, ◌++◌, ℕ, List, []};
ghost use Rattle.std.specs.Prelude.{Result, Err, length, slice_index, IfOk, IfErr, IfSome, OnOk};
ghost use Rattle.std.specs.Prelude.{IsErrOf};
ghost use Rattle.ldm_host.specs.Moves.{Looks};
ghost use Rattle.ldm_host.specs.Seen.{image};
ghost use Rattle.ldm_label.specs.LabelOf.{Fits};
ghost use Rattle.ldm_frags.specs.Blocks.{count};
ghost use Rattle.ldm_frags.specs.Fed.{IsFed};
ghost use Rattle.ldm_frags.specs.Joins.{Joins};
ghost use Rattle.ldm_copy.specs.declared.answer.CopyState.{CopyState};
ghost use Rattle.ldm_copy.specs.declared.answer.CopyFault.{CopyFault};
ghost use Rattle.ldm_copy.specs.Copy.{config_area, IsCopyOf};
ghost use Rattle.ldm_copy.specs.Answers.{IsAnswer, AnswersCopy, FitsArea, IsSoundState};
ghost use Rattle.ldm_copy.specs.Alike.{sectors_from};
ghost use Rattle.ldm_copy.specs.Steps.{ReadsFirstSector, JoinsBlocks, IsRead, ReadsDatabase};

use crate::alike::{CHUNK, area_start};
use crate::answer::{CopyError, CopyState};
use crate::database::{database_of, open_header};
use ldm_frags::{Joined, Joiner};
use ldm_group::Db;
use ldm_host::Host;
use ldm_label::{Label, read_sector};
use ldm_vmdb::Header;
use std::alloc::Global;

// Feeds the joiner the blocks in a few sectors of the disk, from this one on.
fn feed_few<H: Host>(
    host: &mut H,
    disk: usize,
    from: u64,
    sectors: u64,
    joiner: &mut Joiner,
) -> Result<(), CopyError>
    requires few { sectors ≤ 8 }
    requires disk { disk < length (H.seen host.old).sizes }
    requires inside { from + sectors ≤ slice_index (H.seen host.old).sizes disk }
    requires small { from < 2 ^ 55 }
    requires room { count joiner.old.blocks + 4 * sectors ≤ joiner.old.limit }
    ensures read { (fed : List ℕ) → IsFed joiner.old fed → OnOk result
        (IsRead H.tells_disks (image (H.seen host.old).content disk) from sectors
        (λ bytes. IsFed joiner.new (fed ++ bytes))) }
    ensures fault { H.tells_disks → IfErr result (λ e. (fed rest : List ℕ) → IsFed joiner.old fed
        → JoinsBlocks (fed ++ sectors_from from sectors (image (H.seen host.old).content disk)
        ++ rest) (Err e)) }
    ensures limit { joiner.new.limit ≡ joiner.old.limit }
    ensures looks { Looks (H.seen host.old) (H.seen host.new) (IsErrOf result CopyError.Disk) }
{
    let mut bytes = [0u8; 4096];
    let piece = &mut bytes[..512 * sectors as usize];
    host.read_at(disk, 512 * from, piece)?;
    joiner.feed_all(piece)?;
    Ok(())
}

// Feeds a new joiner the blocks in so many sectors of the disk, from this one on.
fn feed_sectors<H: Host>(
    host: &mut H,
    disk: usize,
    from: u64,
    sectors: u64,
    joiner: &mut Joiner,
) -> Result<(), CopyError>
    requires disk { disk < length (H.seen host.old).sizes }
    requires inside { from + sectors ≤ slice_index (H.seen host.old).sizes disk }
    requires few { from + sectors < 2 ^ 55 }
    requires fresh { IsFed joiner.old [] }
    requires room { 4 * sectors ≤ joiner.old.limit }
    ensures read { OnOk result (IsRead H.tells_disks
        (image (H.seen host.old).content disk) from sectors (IsFed joiner.new)) }
    ensures fault { H.tells_disks → IfErr result (λ e. JoinsBlocks
        (sectors_from from sectors (image (H.seen host.old).content disk)) (Err e)) }
    ensures looks { Looks (H.seen host.old) (H.seen host.new) (IsErrOf result CopyError.Disk) }
{
    for chunk in 0..sectors.div_ceil(CHUNK) {
        let done = CHUNK * chunk;
        let few = CHUNK.min(sectors - done);
        feed_few(host, disk, from + done, few, joiner)?;
    }
    Ok(())
}

// The records that the blocks in so many sectors of the disk hold, from this one on.
fn join_sectors<H: Host>(
    alloc: Global,
    host: &mut H,
    disk: usize,
    from: u64,
    sectors: u64,
) -> Result<Vec<Joined>, CopyError>
    requires disk { disk < length (H.seen host.old).sizes }
    requires inside { from + sectors ≤ slice_index (H.seen host.old).sizes disk }
    requires few { from + sectors < 2 ^ 55 }
    requires small { sectors ≤ 2048 }
    ensures read { IfOk result (λ list. IsRead H.tells_disks
        (image (H.seen host.old).content disk) from sectors (λ blocks. Joins blocks list.items)) }
    ensures fault { H.tells_disks → IfErr result (λ e. JoinsBlocks
        (sectors_from from sectors (image (H.seen host.old).content disk)) (Err e)) }
    ensures looks { Looks (H.seen host.old) (H.seen host.new) (IsErrOf result CopyError.Disk) }
{
    let mut joiner = Joiner::new(alloc, 4 * sectors as u32)?;
    feed_sectors(host, disk, from, sectors, &mut joiner)?;
    Ok(joiner.finish()?)
}

// The header of the copy whose area begins with this sector of the disk. None where the copy is
// closed.
fn header_at<H: Host>(
    alloc: Global,
    host: &mut H,
    disk: usize,
    start: u64,
    area_sectors: u64,
) -> Result<Option<Header>, CopyError>
    requires disk { disk < length (H.seen host.old).sizes }
    requires inside { start < slice_index (H.seen host.old).sizes disk }
    requires few { start < 2 ^ 55 }
    ensures opens { H.tells_disks → ReadsFirstSector (sectors_from start 1
        (image (H.seen host.old).content disk)) area_sectors result }
    ensures last { IfOk result (λ header. IfSome header (λ h. h.last ≤ 4 * area_sectors)) }
    ensures looks { Looks (H.seen host.old) (H.seen host.new) (IsErrOf result CopyError.Disk) }
{
    let first = read_sector(host, disk, start)?;
    open_header(alloc, &first, area_sectors)
}

// The database with this header, whose blocks in use begin with this sector of the disk.
fn database_at<H: Host>(
    alloc: Global,
    host: &mut H,
    disk: usize,
    from: u64,
    header: Header,
) -> Result<Db, CopyError>
    requires disk { disk < length (H.seen host.old).sizes }
    requires inside { from + (header.last / 4 - 1) ≤ slice_index (H.seen host.old).sizes disk }
    requires few { from + (header.last / 4 - 1) < 2 ^ 55 }
    requires small { header.last ≤ 8192 }
    ensures reads { H.tells_disks → ReadsDatabase header
        (sectors_from from (header.last / 4 - 1) (image (H.seen host.old).content disk)) result }
    ensures fits { (sectors : ℕ) → header.last ≤ 4 * sectors
        → IfOk result (λ db. FitsArea db sectors) }
    ensures looks { Looks (H.seen host.old) (H.seen host.new) (IsErrOf result CopyError.Disk) }
{
    let sectors = (u64::from(header.last) / 4).saturating_sub(1);
    let list = join_sectors(alloc, host, disk, from, sectors)?;
    database_of(alloc, header, &list)
}

// The copy in the config area of a disk, or its first fault.
fn copy_at<H: Host>(
    alloc: Global,
    host: &mut H,
    disk: usize,
    label: &Label,
) -> Result<CopyState, CopyError>
    requires disk { disk < length (H.seen host.old).sizes }
    requires fits { Fits label.now (slice_index (H.seen host.old).sizes disk) }
    ensures found { H.tells_disks → IsAnswer
        (config_area label.now (image (H.seen host.old).content disk))
        label.now.area_sectors result }
    ensures sound { IfOk result (λ state. IsSoundState label.now.area_sectors state) }
    ensures looks { Looks (H.seen host.old) (H.seen host.new) (IsErrOf result CopyError.Disk) }
{
    let start = area_start(host, disk, label);
    match header_at(alloc, host, disk, start, label.area_sectors)? {
        None => Ok(CopyState::Closed),
        Some(header) => {
            let db = database_at(alloc, host, disk, start + 1, header)?;
            Ok(CopyState::Valid(db))
        }
    }
}

/// The copy in the config area of a disk, or its first fault. `Disk` comes only where a call of the
/// disk failed.
///
/// It reads the first sector of the area, and where the copy is open the blocks in use, eight
/// sectors at a time. So of blocks that have a fault, no piece of eight sectors behind the first
/// fault is read. It takes memory for the heads of these blocks, for their payloads and for the
/// records.
pub fn read_copy<H: Host>(
    alloc: Global,
    host: &mut H,
    disk: usize,
    label: &Label,
) -> Result<CopyState, CopyError>
    requires disk { disk < length (H.seen host.old).sizes }
    requires fits { Fits label.now (slice_index (H.seen host.old).sizes disk) }
    // What is answered is the copy.
    ensures found { H.tells_disks → IsAnswer
        (config_area label.now (image (H.seen host.old).content disk))
        label.now.area_sectors result }
    // What is the copy is answered, unless memory ran out or a call of the disk failed.
    ensures only { H.tells_disks → (copy : Result CopyState CopyFault)
        → IsCopyOf
        (config_area label.now (image (H.seen host.old).content disk)) label.now.area_sectors copy
        → AnswersCopy result copy }
    // There is one copy at most.
    ensures one { (a b : Result CopyState CopyFault)
        → IsCopyOf (config_area label.now (image (H.seen host.old).content disk))
        label.now.area_sectors a
        → IsCopyOf (config_area label.now (image (H.seen host.old).content disk))
        label.now.area_sectors b
        → a ≡ b }
    // For every host, the database of a valid copy fits the area.
    ensures sound { IfOk result (λ state. IsSoundState label.now.area_sectors state) }
    ensures looks { Looks (H.seen host.old) (H.seen host.new) (IsErrOf result CopyError.Disk) }
{
    copy_at(alloc, host, disk, label)
}
