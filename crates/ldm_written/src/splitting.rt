//! Payloads as blocks, one after another without gaps.
ghost use Rattle.std.specs.Prelude.{◌≡◌, ◌+◌, ◌*◌, ◌≤◌, ◌<◌, length, map, All, IfOk};
ghost use Rattle.ldm_frags.specs.Blocks.{count};
ghost use Rattle.ldm_frags.specs.Joins.{Joins};
ghost use Rattle.ldm_vmdb.specs.Parts.{parts_of, blocks_needed, IsSized};
ghost use Rattle.ldm_written.specs.Written.{IsPlaced, Holds, AddsUnused, laid_in_order, joined_of};
ghost use Rattle.ldm_written.specs.Answers.{SplitAnswers};

use crate::SplitError;
use crate::writing::{write_next, write_rest};
use ldm_bytes::{Bytes, NoMemory};
use ldm_vmdb::parts_of;
use std::alloc::Global;

// How many blocks the payloads take together.
fn need_of(payloads: &[Bytes]) -> u64
    requires { All IsSized payloads.now }
    ensures { result ≡ blocks_needed payloads.now }
{
    let mut need = 0;
    for payload in payloads {
        need += u64::from(parts_of(payload.as_slice().len()));
    }
    need
}

// Writes the records one after the other from block 4 on, and answers the number of the next block.
fn write_records(out: &mut [u8], payloads: &[Bytes]) -> u32
    requires sized { All IsSized payloads.now }
    requires small { length out.old ≤ 1048576 }
    requires room { blocks_needed payloads.now ≤ count out.old }
    ensures next { result ≡ 4 + blocks_needed payloads.now }
    ensures placed { All (IsPlaced out.new) (laid_in_order 4 payloads.now) }
{
    let mut number = 4;
    for payload in payloads {
        let bytes = payload.as_slice();
        write_next(out, number, bytes);
        number += parts_of(bytes.len());
    }
    number
}

// Writes the records one after the other, and then unused blocks. `out` begins with block 4.
fn write_all(out: &mut [u8], payloads: &[Bytes])
    requires sized { All IsSized payloads.now }
    requires small { length out.old ≤ 1048576 }
    requires room { blocks_needed payloads.now ≤ count out.old }
    ensures { Holds out.new (laid_in_order 4 payloads.now) }
{
    let next = write_records(out, payloads);
    let end = (out.len() / 128) as u32 + 4;
    write_rest(out, next, end);
}

/// The blocks from number 4 on that hold records of these payloads, in their order and without
/// gaps, and then unused blocks.
pub fn split(alloc: Global, payloads: &[Bytes], blocks: u32) -> Result<Bytes, SplitError>
    requires sized { All IsSized payloads.now }
    requires few { blocks ≤ 8192 }
    ensures answers { SplitAnswers payloads.now blocks result }
    // What is written joins to the payloads in their order, each filled with zeros.
    ensures joins { IfOk result (λ out. Joins out (map joined_of (laid_in_order 4 payloads.now))) }
{
    let need = need_of(payloads);
    let have = u64::from(blocks);
    if need > have {
        return Err(SplitError::NoRoom { need, have });
    }
    let mut out = Vec::new(alloc);
    out.resize(128 * blocks as usize, 0u8)?;
    write_all(&mut out, payloads);
    Ok(Bytes::from_vec(out))
}

/// These blocks and unused ones behind them, so many in all. They begin with block 4.
pub fn with_unused(alloc: Global, old: &[u8], blocks: u32) -> Result<Vec<u8>, NoMemory>
    requires more { length old.now ≤ 128 * blocks }
    requires few { blocks ≤ 8192 }
    ensures { IfOk result (λ out. AddsUnused old.now blocks out.items) }
{
    let first = (old.len() / 128) as u32 + 4;
    let mut out = Vec::from_slice(alloc, old)?;
    out.resize(128 * blocks as usize, 0u8)?;
    write_rest(&mut out, first, blocks + 4);
    Ok(out)
}
