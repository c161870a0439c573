//! The records of all blocks, once the last was taken.
ghost use Rattle.std.specs.Prelude.{◌≡◌, ◌≤◌, ◌<◌, ◌++◌, true, None, length, IfOk, OnOk};
ghost use Rattle.ldm_frags.specs.Blocks.{count, has_parts};
ghost use Rattle.ldm_frags.specs.Faults.{missing_fault, first_below};
ghost use Rattle.ldm_frags.specs.Joins.{gathered, entry, entries};
ghost use Rattle.ldm_frags.specs.Kept.{blocks_of, IsKeptTable};
ghost use Rattle.ldm_frags.specs.Answers.{AnswersBlocks, list_of};

use crate::blocks::{Piece, piece_at};
use crate::groups::{Groups, has_all, place_of};
use crate::{FragError, FragFault, Joined};
use ldm_bytes::{Bytes, NoMemory};
use std::alloc::Global;

// Whether block `k` is of a group that lacks a part.
#[tactic(auto, using(crate::proofs::KeptLaws::count_of))]
fn missing_of(groups: &Groups, pieces: &[Piece], k: usize) -> Option<FragFault>
    requires kept { IsKeptTable pieces.now groups.now }
    requires within { k < count (blocks_of pieces.now) }
    requires small { length pieces.now ≤ 8192 }
    ensures { result ≡ missing_fault (blocks_of pieces.now) k }
{
    let head = piece_at(pieces, k).head;
    if head.parts >= 2 && !has_all(groups, head.group, head.parts) {
        return Some(FragFault::Missing(k as u32 + 4));
    }
    None
}

// The first block whose group lacks a part.
#[tactic(auto, using(crate::proofs::KeptLaws::count_of))]
fn first_missing(groups: &Groups, pieces: &[Piece]) -> Option<FragFault>
    requires kept { IsKeptTable pieces.now groups.now }
    requires small { length pieces.now ≤ 8192 }
    ensures { result ≡ first_below (count (blocks_of pieces.now))
        (missing_fault (blocks_of pieces.now)) }
{
    for k in 0..pieces.len() {
        if let Some(fault) = missing_of(groups, pieces, k) {
            return Some(fault);
        }
    }
    None
}

// The payloads of a group, by part.
fn gather(
    alloc: Global,
    groups: &Groups,
    pieces: &[Piece],
    number: u32,
    parts: u16,
) -> Result<Bytes, NoMemory>
    requires kept { IsKeptTable pieces.now groups.now }
    requires small { length pieces.now ≤ 8192 }
    requires few { parts ≤ 4 }
    requires complete { has_parts (blocks_of pieces.now) number parts ≡ true }
    ensures { IfOk result (λ b. b ≡ gathered (blocks_of pieces.now) number parts) }
{
    let mut out = Vec::new(alloc);
    for part in 0..parts {
        let k = place_of(groups, pieces, number, part);
        out.extend_from_slice(piece_at(pieces, k).payload.as_slice())?;
    }
    Ok(Bytes::from_vec(out))
}

// What block `k` adds to the list.
#[tactic(auto, using(crate::proofs::KeptLaws::count_of))]
fn entry_of(
    alloc: Global,
    groups: &Groups,
    pieces: &[Piece],
    k: usize,
) -> Result<Option<Joined>, NoMemory>
    requires kept { IsKeptTable pieces.now groups.now }
    requires within { k < count (blocks_of pieces.now) }
    requires small { length pieces.now ≤ 8192 }
    requires complete { missing_fault (blocks_of pieces.now) k ≡ None }
    ensures { IfOk result (λ o. list_of o ≡ entry (blocks_of pieces.now) k) }
{
    let piece = piece_at(pieces, k);
    let head = piece.head;
    let block = k as u32 + 4;
    if head.parts == 1 {
        let payload = piece.payload.clone_in(alloc)?;
        return Ok(Some(Joined { block, payload }));
    }
    if head.parts >= 2 && head.part == 0 {
        let payload = gather(alloc, groups, pieces, head.group, head.parts)?;
        return Ok(Some(Joined { block, payload }));
    }
    Ok(None)
}

// Adds what block `k` adds.
fn push_entry(
    alloc: Global,
    out: &mut Vec<Joined>,
    groups: &Groups,
    pieces: &[Piece],
    k: usize,
) -> Result<(), NoMemory>
    requires kept { IsKeptTable pieces.now groups.now }
    requires within { k < count (blocks_of pieces.now) }
    requires small { length pieces.now ≤ 8192 }
    requires complete { missing_fault (blocks_of pieces.now) k ≡ None }
    ensures { OnOk result (out.new.items ≡ out.old.items ++ entry (blocks_of pieces.now) k) }
{
    if let Some(joined) = entry_of(alloc, groups, pieces, k)? {
        out.push(joined)?;
    }
    Ok(())
}

// The list of all blocks, which have no fault.
#[tactic(auto, using(crate::proofs::KeptLaws::count_of))]
fn all_entries(alloc: Global, groups: &Groups, pieces: &[Piece]) -> Result<Vec<Joined>, NoMemory>
    requires kept { IsKeptTable pieces.now groups.now }
    requires small { length pieces.now ≤ 8192 }
    requires complete { first_below (count (blocks_of pieces.now))
        (missing_fault (blocks_of pieces.now)) ≡ None }
    ensures { IfOk result (λ v. v.items ≡ entries (blocks_of pieces.now)
        (count (blocks_of pieces.now))) }
{
    let mut out = Vec::new(alloc);
    for k in 0..pieces.len() {
        push_entry(alloc, &mut out, groups, pieces, k)?;
    }
    Ok(out)
}

/// The list of all blocks, or the first whose group lacks a part.
pub fn join_all(alloc: Global, groups: &Groups, pieces: &[Piece]) -> Result<Vec<Joined>, FragError>
    requires kept { IsKeptTable pieces.now groups.now }
    requires small { length pieces.now ≤ 8192 }
    ensures { AnswersBlocks (blocks_of pieces.now) result }
{
    if let Some(fault) = first_missing(groups, pieces) {
        return Err(FragError::Fault(fault));
    }
    Ok(all_entries(alloc, groups, pieces)?)
}
