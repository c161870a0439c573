//! Groups of fragments, by their number.
ghost use Rattle.std.specs.Prelude.{◌≡◌, ◌≤◌, ◌<◌, ◌+◌, ℕ, List, true, None, unwrap_or, OnOk};
ghost use Rattle.std.specs.Prelude.{is_some};
ghost use Rattle.std.specs.Ordering.{nat_cmp};
ghost use Rattle.std.specs.BTreeMap.{get};
ghost use Rattle.ldm_frags.specs.Blocks.{count, is_part, all_below, least_below};
ghost use Rattle.ldm_frags.specs.Faults.{block_fault};
ghost use Rattle.ldm_frags.specs.Groups.{empty_group, part_place, has_other, IsTable};
ghost use Rattle.ldm_frags.specs.Kept.{head_at, blocks_of};

use crate::blocks::{Head, Piece};
use ldm_bytes::NoMemory;
use std::collections::BTreeMap;

/// The fragments of one group that were met so far.
#[derive(Clone, Copy)]
pub struct Group {
    /// How many parts the group has.
    pub parts: u16,
    /// The index of the block that holds each part, if it was met.
    pub places: [Option<u32>; 4],
}

/// The groups by their numbers.
pub type Groups = BTreeMap<u32, Group>;

/// The index of the block that is this part of the group, if it was met.
pub fn place(groups: &Groups, number: u32, part: u16) -> Option<u32>
    requires { part < 4 }
    ensures { result ≡ part_place (get nat_cmp groups.now number) part }
{
    match groups.get(&number) {
        Some(found) => found.places[part as usize],
        None => None,
    }
}

/// Whether the group was met with another number of parts.
pub fn has_other(groups: &Groups, number: u32, parts: u16) -> bool
    ensures { result ≡ has_other (get nat_cmp groups.now number) parts }
{
    match groups.get(&number) {
        Some(found) => found.parts != parts,
        None => false,
    }
}

/// Whether every part of the group below this one was met.
pub fn has_all(groups: &Groups, number: u32, parts: u16) -> bool
    requires { parts ≤ 4 }
    ensures { result ≡ all_below parts (λ p. is_some
        (part_place (get nat_cmp groups.now number) p)) }
{
    for part in 0..parts {
        if place(groups, number, part).is_none() {
            return false;
        }
    }
    true
}

/// The index of the block that is this part of the group, or the number of blocks.
pub fn place_of(groups: &Groups, pieces: &[Piece], number: u32, part: u16) -> usize
    requires table { IsTable (blocks_of pieces.now) (count (blocks_of pieces.now)) groups.now }
    requires few { part < 4 }
    ensures { result ≡ least_below (count (blocks_of pieces.now))
        (is_part (blocks_of pieces.now) number part) }
{
    match place(groups, number, part) {
        Some(k) => k as usize,
        None => pieces.len(),
    }
}

// The group as it was met, or one of which no part was met.
fn group_of(groups: &Groups, number: u32, parts: u16) -> Group
    ensures { result ≡ unwrap_or (get nat_cmp groups.now number) (empty_group parts) }
{
    match groups.get(&number) {
        Some(found) => *found,
        None => Group {
            parts,
            places: [None; 4],
        },
    }
}

/// Notes block `k`, which has this head.
pub fn note(groups: &mut Groups, k: usize, head: Head) -> Result<(), NoMemory>
    requires small { k < 8192 }
    requires few { 2 ≤ head.parts → head.part < 4 }
    // Where the table had the blocks before it, and it has no fault, the table has it too.
    ensures { OnOk result ((blocks : List ℕ) → head ≡ head_at blocks k → block_fault blocks k ≡ None
        → IsTable blocks k groups.old → IsTable blocks (k + 1) groups.new) }
{
    if head.parts < 2 {
        return Ok(());
    }
    let mut found = group_of(groups, head.group, head.parts);
    found.places[head.part as usize] = Some(k as u32);
    groups.insert(head.group, found)?;
    Ok(())
}
