//! Blocks that are taken one by one, or several at once.
ghost use Rattle.std.specs.Prelude.{◌≡◌, ◌<◌, ◌++◌, ◌∷◌, [], None, length, is_some, vec_len};
ghost use Rattle.std.specs.Prelude.{IfErr, OnOk, OnErr};
ghost use Rattle.std.specs.Ordering.{nat_cmp};
ghost use Rattle.std.specs.BTreeMap.{get};
ghost use Rattle.ldm_frags.specs.declared.blocks.Piece.{Piece};
ghost use Rattle.ldm_frags.specs.Blocks.{has_magic, group, part, parts};
ghost use Rattle.ldm_frags.specs.Faults.{fault_by, block_fault};
ghost use Rattle.ldm_frags.specs.Groups.{part_place, has_other};
ghost use Rattle.ldm_frags.specs.Answers.{IsFault};
ghost use Rattle.ldm_frags.specs.Kept.{blocks_of, IsKeptTable, IsNextPiece};

use crate::blocks::{Piece, has_magic, head_of, piece_of};
use crate::groups::{Groups, has_other, note, place};
use crate::joining::join_all;
use crate::{FragError, FragFault, Joined};
use ldm_bytes::NoMemory;
use std::alloc::Global;
use std::collections::BTreeMap;
use std::marker::Model;

/// Joins blocks that it is fed one by one, in rising number from block 4 on.
///
/// Of each block it keeps a piece of 32 bytes, and of a block in use the payload besides.
#[derive(Drop)]
pub struct Joiner {
    alloc: Global,
    limit: u32,
    pieces: Vec<Piece>,
    groups: Groups,
    failed: Option<FragError>,
}

impl Model for Joiner {
    ghost use Rattle.ldm_frags.specs.Fed.{Fed};

    ghost Value = { Fed };

    ghost use Rattle.ldm_frags.specs.Kept.{blocks_of, IsJoiner};

    ghost view = { λ j. record { limit = j.limit; blocks = blocks_of j.pieces.items; failed = j.failed } };

    ghost invariant = { λ j. IsJoiner j.limit j.pieces.items j.groups j.failed };
}

// The fault of the block of this number. The table has the blocks before it.
fn fault_of(groups: &Groups, number: u32, block: &[u8; 128]) -> Option<FragFault>
    ensures { result ≡ fault_by number (has_magic block.now 0) (part block.now 0)
        (parts block.now 0)
        (has_other (get nat_cmp groups.now (group block.now 0)) (parts block.now 0))
        (is_some (part_place (get nat_cmp groups.now (group block.now 0)) (part block.now 0))) }
{
    if !has_magic(block) {
        return Some(FragFault::NoMagic(number));
    }
    let head = head_of(block);
    if head.parts > 4 {
        return Some(FragFault::Parts(number));
    }
    if head.parts < 2 {
        return None;
    }
    if head.parts <= head.part {
        return Some(FragFault::Part(number));
    }
    if has_other(groups, head.group, head.parts) {
        return Some(FragFault::Mixed(number));
    }
    if place(groups, head.group, head.part).is_some() {
        return Some(FragFault::Repeated(number));
    }
    None
}

// Keeps one block more, which has no fault.
fn keep(
    alloc: Global,
    pieces: &mut Vec<Piece>,
    groups: &mut Groups,
    block: &[u8; 128],
) -> Result<(), NoMemory>
    requires few { vec_len pieces.old < 8192 }
    requires kept { IsKeptTable pieces.old.items groups.old }
    requires sound { block_fault (blocks_of pieces.old.items ++ block.now)
        (length pieces.old.items) ≡ None }
    ensures kept { OnOk result (IsKeptTable pieces.new.items groups.new) }
    ensures added { OnOk result ((piece : Piece) × (pieces.new.items
        ≡ pieces.old.items ++ piece ∷ [])
        × IsNextPiece pieces.old.items piece block.now) }
    ensures stays { OnErr result (pieces.new.items ≡ pieces.old.items) }
{
    let piece = piece_of(alloc, block)?;
    note(groups, pieces.len(), piece.head)?;
    pieces.push(piece)?;
    Ok(())
}

// Keeps one block more, or answers its fault.
fn add(
    alloc: Global,
    pieces: &mut Vec<Piece>,
    groups: &mut Groups,
    block: &[u8; 128],
) -> Result<(), FragError>
    requires few { vec_len pieces.old < 8192 }
    requires kept { IsKeptTable pieces.old.items groups.old }
    ensures kept { OnOk result (IsKeptTable pieces.new.items groups.new) }
    ensures added { OnOk result ((piece : Piece) × (pieces.new.items
        ≡ pieces.old.items ++ piece ∷ [])
        × IsNextPiece pieces.old.items piece block.now) }
    ensures stays { OnErr result (pieces.new.items ≡ pieces.old.items) }
    ensures fault { IfErr result (λ error. IsFault error
        (block_fault (blocks_of pieces.old.items ++ block.now) (length pieces.old.items))) }
{
    if let Some(fault) = fault_of(groups, pieces.len() as u32 + 4, block) {
        return Err(FragError::Fault(fault));
    }
    keep(alloc, pieces, groups, block)?;
    Ok(())
}

impl Joiner {
    ghost use Rattle.std.specs.Prelude.{◌≡◌, ◌≤◌, ◌<◌, ◌+◌, ◌%◌, ◌++◌, [], ℕ, List, Some, None};
    ghost use Rattle.std.specs.Prelude.{Err, length, IfOk, IfErr, OnOk, MatchResult};
    ghost use Rattle.ldm_frags.specs.declared.faults.FragError.{FragError};
    ghost use Rattle.ldm_frags.specs.Blocks.{count};
    ghost use Rattle.ldm_frags.specs.Faults.{block_fault, first_block_fault};
    ghost use Rattle.ldm_frags.specs.Answers.{AnswersBlocks, IsFault};
    ghost use Rattle.ldm_frags.specs.Fed.{IsFed};

    /// A joiner of so many blocks, for all of which it takes room at once.
    pub fn new(alloc: Global, blocks: u32) -> Result<Joiner, NoMemory>
        requires { blocks ≤ 8192 }
        ensures fed { IfOk result (λ joiner. IsFed joiner []) }
        ensures limit { IfOk result (λ joiner. joiner.limit ≡ blocks) }
    {
        Ok(Joiner {
            alloc,
            limit: blocks,
            pieces: Vec::with_capacity(alloc, blocks as usize)?,
            groups: BTreeMap::new(alloc),
            failed: None,
        })
    }

    /// Takes the next block. After an error the joiner answers that error to every call.
    pub fn feed(&mut self, block: &[u8; 128]) -> Result<(), FragError>
        requires { count self.old.blocks < self.old.limit }
        // Whatever blocks it was fed, it was fed this one too, or this one has that fault.
        ensures fed { (blocks : List ℕ) → IsFed self.old blocks → MatchResult result
            (λ _. IsFed self.new (blocks ++ block.now))
            (λ error. IsFault error (block_fault (blocks ++ block.now) (count blocks))) }
        // Its fault is the first of all that begins with these blocks.
        ensures first { (blocks rest : List ℕ) → IsFed self.old blocks
            → IfErr result (λ error. IsFault error (first_block_fault
            (blocks ++ block.now ++ rest))) }
        ensures taken { OnOk result (count self.new.blocks ≡ count self.old.blocks + 1) }
        ensures limit { self.new.limit ≡ self.old.limit }
        // With an error it has failed, and is as it was otherwise.
        ensures fails { IfErr result (λ error. self.new ≡ record self.old { failed = Some error }) }
        ensures failed { (error : FragError) → self.old.failed ≡ Some error → result ≡ Err error }
    {
        if let Some(error) = self.failed {
            return Err(error);
        }
        if let Err(error) = add(self.alloc, &mut self.pieces, &mut self.groups, block) {
            self.failed = Some(error);
            return Err(error);
        }
        Ok(())
    }

    /// Takes the next blocks one by one, up to the first that has a fault. After an error the
    /// joiner answers that error to every call, also where it is fed no block.
    pub fn feed_all(&mut self, blocks: &[u8]) -> Result<(), FragError>
        requires whole { length blocks.now % 128 ≡ 0 }
        requires room { count self.old.blocks + count blocks.now ≤ self.old.limit }
        ensures fed { (fed : List ℕ) → IsFed self.old fed
            → OnOk result (IsFed self.new (fed ++ blocks.now)) }
        ensures first { (fed rest : List ℕ) → IsFed self.old fed
            → IfErr result (λ error. IsFault error (first_block_fault
            (fed ++ blocks.now ++ rest))) }
        ensures taken { OnOk result (count self.new.blocks
            ≡ count self.old.blocks + count blocks.now) }
        ensures limit { self.new.limit ≡ self.old.limit }
        // With an error it has failed with that error, and of what it keeps nothing is said.
        ensures fails { IfErr result (λ error. self.new.failed ≡ Some error) }
        // One that has failed answers its error, also where there is no block, and stays as it is.
        ensures failed { (error : FragError) → self.old.failed ≡ Some error
            → (result ≡ Err error) × (self.new ≡ self.old) }
    {
        if let Some(error) = self.failed {
            return Err(error);
        }
        let (chunks, _) = blocks.as_chunks::<128>();
        for block in chunks {
            self.feed(block)?;
        }
        Ok(())
    }

    /// The records that the blocks hold, in the order of their whole blocks and blocks of part 0,
    /// or the first block whose group lacks a part.
    pub fn finish(self) -> Result<Vec<Joined>, FragError>
        ensures answers { (blocks : List ℕ) → IsFed self blocks → AnswersBlocks blocks result }
        ensures failed { (error : FragError) → self.failed ≡ Some error → result ≡ Err error }
    {
        if let Some(error) = self.failed {
            return Err(error);
        }
        join_all(self.alloc, &self.groups, self.pieces.as_slice())
    }
}
