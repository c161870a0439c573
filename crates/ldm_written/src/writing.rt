//! Blocks as they are written, and whether they are written so.
ghost use Rattle.std.specs.Prelude.{◌≡◌, ◌≢◌, ◌↔◌, ℕ, ◌+◌, ◌-◌, ◌*◌, ◌≤◌, ◌<◌, ◌++◌, length};
ghost use Rattle.std.specs.Prelude.{replicate, IsTrue, All, AllPairs};
ghost use Rattle.ldm_bytes.specs.Places.{put};
ghost use Rattle.ldm_frags.specs.Blocks.{count, head, written_block, block_at};
ghost use Rattle.ldm_vmdb.specs.Parts.{parts_of};
ghost use Rattle.ldm_written.specs.Written.{part_bytes, unused_block, IsInUse, IsPlaced};

use crate::slots::Slots;
use ldm_bytes::{put_u16, put_u32};
use ldm_vmdb::parts_of;

// Writes bytes at a place. All other bytes stay.
fn put_bytes(buf: &mut [u8], at: usize, bytes: &[u8])
    requires { at + length bytes.now ≤ length buf.old }
    ensures { buf.new ≡ put buf.old at bytes.now }
{
    buf[at..at + bytes.len()].copy_from_slice(bytes);
}

// The head of a block.
fn head_of(number: u32, group: u32, part: u16, parts: u16) -> [u8; 16]
    ensures { result ≡ head number group part parts }
{
    let mut head = [0u8; 16];
    put_bytes(&mut head, 0, b"VBLK");
    put_u32(&mut head, 4, number);
    put_u32(&mut head, 8, group);
    put_u16(&mut head, 12, part);
    put_u16(&mut head, 14, parts);
    head
}

// The payload of a block, with zeros behind the bytes.
fn payload_of(bytes: &[u8]) -> [u8; 112]
    requires { length bytes.now ≤ 112 }
    ensures { result ≡ bytes.now ++ replicate (112 - length bytes.now) 0 }
{
    let mut payload = [0u8; 112];
    put_bytes(&mut payload, 0, bytes);
    payload
}

// Writes one block. `out` begins with block 4.
fn write_block(out: &mut [u8], number: u32, group: u32, part: u16, parts: u16, bytes: &[u8])
    requires first { 4 ≤ number }
    requires within { number < count out.old + 4 }
    requires short { length bytes.now ≤ 112 }
    ensures { out.new ≡ put out.old (128 * (number - 4))
        (written_block number group part parts (bytes.now
        ++ replicate (112 - length bytes.now) 0)) }
{
    let at = 128 * (number as usize - 4);
    put_bytes(out, at, &head_of(number, group, part, parts));
    put_bytes(out, at + 16, &payload_of(bytes));
}

// The bytes of one part of a payload, without filling.
fn part_of(payload: &[u8], part: usize) -> &[u8]
    requires { part < parts_of (length payload.now) }
    ensures short { length result.now ≤ 112 }
    ensures bytes { result.now ++ replicate (112 - length result.now) 0
        ≡ part_bytes payload.now part }
{
    let at = 112 * part;
    &payload[at..payload.len().min(at + 112)]
}

// Writes a record of this payload into the blocks of these numbers, a part into each. `out` begins
// with block 4. All other blocks stay.
fn write_parts(payload: &[u8], numbers: &[u32], out: &mut [u8])
    requires some { 1 ≤ length payload.now }
    requires few { length payload.now ≤ 448 }
    requires whole { length numbers.now ≡ parts_of (length payload.now) }
    requires apart { AllPairs (λ a b. a ≢ b) numbers.now }
    requires within { All (IsInUse out.old) numbers.now }
    ensures placed { IsPlaced out.new (record { payload = payload.now; slots = numbers.now }) }
    ensures others { (b : ℕ) → 4 ≤ b → All (λ s. s ≢ b) numbers.now
        → block_at out.new b ≡ block_at out.old b }
{
    for part in 0..numbers.len() {
        let bytes = part_of(payload, part);
        write_block(
            out,
            numbers[part],
            numbers[0],
            part as u16,
            numbers.len() as u16,
            bytes,
        );
    }
}

/// Writes a record of this payload into the blocks of these numbers, a part into each. `out` begins
/// with block 4. All other blocks stay.
pub fn write_record(payload: &[u8], slots: &Slots, out: &mut [u8])
    requires some { 1 ≤ length payload.now }
    requires few { length payload.now ≤ 448 }
    requires whole { length slots.now ≡ parts_of (length payload.now) }
    requires apart { AllPairs (λ a b. a ≢ b) slots.now }
    requires within { All (IsInUse out.old) slots.now }
    ensures placed { IsPlaced out.new (record { payload = payload.now; slots = slots.now }) }
    ensures others { (b : ℕ) → 4 ≤ b → All (λ s. s ≢ b) slots.now
        → block_at out.new b ≡ block_at out.old b }
{
    write_parts(payload, slots.as_slice(), out);
}

/// Writes the unused block of this number. `out` begins with block 4. All other blocks stay.
pub fn write_unused(number: u32, out: &mut [u8])
    requires within { IsInUse out.old number }
    ensures here { block_at out.new number ≡ unused_block number }
    ensures others { (b : ℕ) → 4 ≤ b → b ≢ number → block_at out.new b ≡ block_at out.old b }
{
    write_block(out, number, 0, 0, 0, &[]);
}

/// Writes a record of this payload into the blocks from number `first` on. `out` begins with block
/// 4.
pub(crate) fn write_next(out: &mut [u8], first: u32, payload: &[u8])
    requires some { 1 ≤ length payload.now }
    requires few { length payload.now ≤ 448 }
    requires small { length out.old ≤ 1048576 }
    requires after { 4 ≤ first }
    requires within { first + parts_of (length payload.now) ≤ count out.old + 4 }
    ensures written { (i : ℕ) → i < parts_of (length payload.now) → block_at out.new (first + i)
        ≡ written_block (first + i) first i (parts_of (length payload.now))
        (part_bytes payload.now i) }
    ensures below { (b : ℕ) → 4 ≤ b → b < first → block_at out.new b ≡ block_at out.old b }
    ensures above { (b : ℕ) → first + parts_of (length payload.now) ≤ b
        → block_at out.new b ≡ block_at out.old b }
{
    let numbers = [first, first + 1, first + 2, first + 3];
    let parts = parts_of(payload.len()) as usize;
    write_parts(payload, &numbers[..parts], out);
}

/// Writes unused blocks from number `first` up to `end`. `out` begins with block 4.
pub(crate) fn write_rest(out: &mut [u8], first: u32, end: u32)
    requires after { 4 ≤ first }
    requires within { end ≤ count out.old + 4 }
    ensures unused { (b : ℕ) → first ≤ b → b < end → block_at out.new b ≡ unused_block b }
    ensures below { (b : ℕ) → 4 ≤ b → b < first → block_at out.new b ≡ block_at out.old b }
{
    for number in first..end {
        write_unused(number, out);
    }
}

// Whether the block of this number is written so.
fn is_block(blocks: &[u8], number: u32, group: u32, part: u16, parts: u16, bytes: &[u8]) -> bool
    requires within { IsInUse blocks.now number }
    requires short { length bytes.now ≤ 112 }
    ensures { IsTrue result ↔ (block_at blocks.now number
        ≡ written_block number group part parts (bytes.now
        ++ replicate (112 - length bytes.now) 0)) }
{
    let at = 128 * (number as usize - 4);
    let head = head_of(number, group, part, parts);
    let payload = payload_of(bytes);
    blocks[at..at + 16] == head[..] && blocks[at + 16..at + 128] == payload[..]
}

/// Whether a payload stands in the blocks of these numbers as `write_record` writes it. `blocks`
/// begins with block 4.
pub fn is_written(payload: &[u8], slots: &Slots, blocks: &[u8]) -> bool
    requires within { All (IsInUse blocks.now) slots.now }
    requires some { 1 ≤ length payload.now }
    ensures { IsTrue result ↔ IsPlaced blocks.now
        (record { payload = payload.now; slots = slots.now }) }
{
    let places = slots.as_slice();
    if payload.len() > 448 || places.len() != parts_of(payload.len()) as usize {
        return false;
    }
    for i in 0..places.len() {
        let bytes = part_of(payload, i);
        if !is_block(
            blocks,
            places[i],
            places[0],
            i as u16,
            places.len() as u16,
            bytes,
        ) {
            return false;
        }
    }
    true
}

/// Whether the block of this number is written as unused. `blocks` begins with block 4.
pub fn is_unused(number: u32, blocks: &[u8]) -> bool
    requires { IsInUse blocks.now number }
    ensures { IsTrue result ↔ (block_at blocks.now number ≡ unused_block number) }
{
    is_block(blocks, number, 0, 0, 0, &[])
}
