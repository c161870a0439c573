//! Which blocks hold each record of a body.
ghost use Rattle.std.specs.Prelude.{◌≡◌, ◌↔◌, ◌+◌, ◌-◌, ◌*◌, ◌<◌, ◌≤◌, IsTrue, length, map, IfOk};
ghost use Rattle.std.specs.Prelude.{IfSome, None, All};
ghost use Rattle.ldm_frags.specs.Blocks.{count, parts};
ghost use Rattle.ldm_written.specs.Written.{IsInUse};
ghost use Rattle.ldm_group.specs.Order.{place_of, Rising};
ghost use Rattle.ldm_body.specs.Body.{Store};
ghost use Rattle.ldm_body.specs.Finding.{HoldsTable, table_place, HasPlaces, slots_in, payloads};
ghost use Rattle.ldm_body.specs.Finding.{IsFirstPart, IsLater, HoldNone, StandsAt};
ghost use Rattle.ldm_body.specs.Finding.{AreFound, stored_of};

use ldm_bytes::{Bytes, NoMemory, get_u16, get_u32};
use ldm_group::{id_of, kind_of};
use ldm_payloads::{RecordError, read_record};
use ldm_records::{Record, spelled_len};
use ldm_written::{Slots, is_unused, is_written, spelling};
use std::alloc::Global;

/// A record, and the numbers of the blocks that hold it.
#[derive(Drop)]
pub struct Found {
    pub content: Record,
    pub slots: Slots,
}

/// What stands in a block.
#[derive(Drop)]
pub enum Look {
    /// No record begins here.
    Nothing,
    /// Neither an unused block nor a part of a record in its own spelling stands here, as they are
    /// written.
    Wrong,
    /// This record begins here.
    Record(Found),
}

// The place of this part of a group in a list of places.
fn place_in(places: &[u32], number: u32, part: u16) -> u32
    requires low { 4 ≤ number }
    requires within { 4 * (number - 4) + part < length places.now }
    ensures { result ≡ table_place places.now number part }
{
    places[4 * (number as usize - 4) + part as usize]
}

// Notes where the part of a group stands that block `k` is, unless it was met before.
fn note_place(blocks: &[u8], k: usize, places: &mut [u32])
    requires within { k < count blocks.now }
    requires small { length blocks.now ≤ 1048576 }
    requires before { HasPlaces blocks.now k places.old }
    ensures { HasPlaces blocks.now (k + 1) places.new }
{
    let end = (blocks.len() / 128) as u32 + 4;
    let at = 128 * k;
    let parts = get_u16(blocks, at + 14);
    let group = get_u32(blocks, at + 8);
    let part = get_u16(blocks, at + 12);
    if parts < 2 || group < 4 || group >= end || part >= 4 {
        return;
    }
    if place_in(places, group, part) == end {
        places[4 * (group as usize - 4) + part as usize] = k as u32 + 4;
    }
}

// The number of the block that is each part of each group, or that of the end: four for each group.
fn places_of(alloc: Global, blocks: &[u8]) -> Result<Vec<u32>, NoMemory>
    requires small { length blocks.now ≤ 1048576 }
    ensures { IfOk result (λ places. HasPlaces blocks.now (count blocks.now) places.items) }
{
    let count = blocks.len() / 128;
    let mut places = vec![in alloc; count as u32 + 4; 4 * count]?;
    for k in 0..count {
        note_place(blocks, k, &mut places);
    }
    Ok(places)
}

// The blocks of the record that begins in this block, by the places.
fn slots_in(alloc: Global, places: &[u32], number: u32, parts: u16) -> Result<Slots, NoMemory>
    requires some { 1 ≤ parts }
    requires few { parts ≤ 4 }
    requires low { 4 ≤ number }
    requires within { 4 * (number - 4) + 3 < length places.now }
    ensures { IfOk result (λ slots. slots ≡ slots_in places.now number parts) }
{
    let mut items = Vec::new(alloc);
    items.push(number)?;
    for part in 1..parts {
        items.push(place_in(places, number, part))?;
    }
    Ok(Slots::from_vec(items))
}

// Whether all these blocks are there.
fn are_in_use(blocks: &[u8], slots: &Slots) -> bool
    requires small { length blocks.now ≤ 1048576 }
    ensures { IsTrue result ↔ All (IsInUse blocks.now) slots.now }
{
    let end = (blocks.len() / 128) as u32 + 4;
    let numbers = slots.as_slice();
    for k in 0..numbers.len() {
        if numbers[k] < 4 || numbers[k] >= end {
            return false;
        }
    }
    true
}

// What these blocks hold.
fn gather(alloc: Global, blocks: &[u8], slots: &Slots) -> Result<Bytes, NoMemory>
    requires small { length blocks.now ≤ 1048576 }
    requires within { All (IsInUse blocks.now) slots.now }
    ensures { IfOk result (λ bytes. bytes ≡ payloads blocks.now slots.now) }
{
    let numbers = slots.as_slice();
    let mut out = Vec::new(alloc);
    for k in 0..numbers.len() {
        let at = 128 * (numbers[k] as usize - 4);
        out.extend_from_slice(&blocks[at + 16..at + 128])?;
    }
    Ok(Bytes::from_vec(out))
}

// The record that begins in block `k`, where this is part 0 of it and has so many parts.
fn record_at(
    alloc: Global,
    blocks: &[u8],
    places: &[u32],
    k: usize,
    many: u16,
) -> Result<Look, NoMemory>
    requires within { k < count blocks.now }
    requires small { length blocks.now ≤ 1048576 }
    requires places { HasPlaces blocks.now (count blocks.now) places.now }
    requires many { many ≡ parts blocks.now k }
    requires some { 1 ≤ many }
    requires first { IsFirstPart blocks.now (k + 4) }
    ensures { IfOk result (λ look. StandsAt blocks.now k look) }
{
    if many > 4 {
        return Ok(Look::Wrong);
    }
    let slots = slots_in(alloc, places, k as u32 + 4, many)?;
    if !are_in_use(blocks, &slots) {
        return Ok(Look::Wrong);
    }
    let payload = gather(alloc, blocks, &slots)?;
    let content = match read_record(alloc, payload.as_slice()) {
        Ok(content) => content,
        Err(RecordError::Fault(_)) => return Ok(Look::Wrong),
        Err(RecordError::NoMemory) => return Err(NoMemory),
    };
    let _len = spelled_len(&content);
    let own = spelling(alloc, &content)?;
    if !is_written(own.as_slice(), &slots, blocks) {
        return Ok(Look::Wrong);
    }
    Ok(Look::Record(Found { content, slots }))
}

// Whether block `k` is a later part of a record that begins in another block.
fn is_later(blocks: &[u8], places: &[u32], k: usize) -> bool
    requires within { k < count blocks.now }
    requires small { length blocks.now ≤ 1048576 }
    requires places { HasPlaces blocks.now (count blocks.now) places.now }
    ensures { IsTrue result ↔ IsLater blocks.now (k + 4) }
{
    let at = 128 * k;
    let group = get_u32(blocks, at + 8);
    let part = get_u16(blocks, at + 12);
    if group < 4 || group as usize - 4 >= blocks.len() / 128 {
        return false;
    }
    let first = 128 * (group as usize - 4);
    get_u16(blocks, first + 12) == 0
        && get_u32(blocks, first + 8) == group
        && part >= 1
        && part < 4
        && part < get_u16(blocks, first + 14)
        && place_in(places, group, part) as usize == k + 4
}

// What stands in block `k`.
fn look_at(alloc: Global, blocks: &[u8], places: &[u32], k: usize) -> Result<Look, NoMemory>
    requires within { k < count blocks.now }
    requires small { length blocks.now ≤ 1048576 }
    requires places { HasPlaces blocks.now (count blocks.now) places.now }
    ensures { IfOk result (λ look. StandsAt blocks.now k look) }
{
    let at = 128 * k;
    let parts = get_u16(blocks, at + 14);
    if parts == 0 {
        if is_unused(k as u32 + 4, blocks) {
            return Ok(Look::Nothing);
        }
        return Ok(Look::Wrong);
    }
    if get_u16(blocks, at + 12) == 0 && get_u32(blocks, at + 8) == k as u32 + 4 {
        return record_at(alloc, blocks, places, k, parts);
    }
    if is_later(blocks, places, k) {
        return Ok(Look::Nothing);
    }
    Ok(Look::Wrong)
}

// All records that the blocks hold, in rising number of their first blocks. None where the blocks
// aren't written blocks that hold records, each in its own spelling.
fn find_all(alloc: Global, blocks: &[u8]) -> Result<Option<Vec<Found>>, NoMemory>
    requires small { length blocks.now ≤ 1048576 }
    ensures held { IfOk result (λ found. IfSome found
        (λ list. AreFound blocks.now (map stored_of list.items))) }
    ensures none { IfOk result (λ found. found ≡ None → HoldNone blocks.now) }
{
    let places = places_of(alloc, blocks)?;
    let mut list = Vec::new(alloc);
    for k in 0..blocks.len() / 128 {
        match look_at(alloc, blocks, &places, k)? {
            Look::Nothing => {}
            Look::Wrong => return Ok(None),
            Look::Record(found) => list.push(found)?,
        }
    }
    Ok(Some(list))
}

// The place of a record in the order of kind and id.
#[tactic(auto, unfolding(ldm_group::specs::Order::place_of))]
fn place_of(r: &Record) -> u128
    ensures { result ≡ place_of r.now }
{
    u128::from(kind_of(r)) * 0x1_0000_0000_0000_0000 + u128::from(id_of(r))
}

// Whether these are the records that were found, in their order.
fn are_of(found: &[Found], records: &[Record]) -> bool
    ensures { IsTrue result ↔ (map (λ f. f.content) found.now ≡ records.now) }
{
    if found.len() != records.len() {
        return false;
    }
    for i in 0..found.len() {
        if !found[i].content.same(&records[i]) {
            return false;
        }
    }
    true
}

// The numbers of the blocks of each record that was found.
fn slots_of(alloc: Global, found: &[Found]) -> Result<Vec<Slots>, NoMemory>
    ensures { IfOk result (λ table. table.items ≡ map (λ f. f.slots) found.now) }
{
    let mut table = Vec::new(alloc);
    for f in found {
        table.push(f.slots.clone_in(alloc)?)?;
    }
    Ok(table)
}

/// The slots of a database's records in their order, where the blocks are written blocks that hold
/// these records and no others, each in its own spelling. Else None.
pub fn table_of(
    alloc: Global,
    blocks: &[u8],
    records: &[Record],
) -> Result<Option<Vec<Slots>>, NoMemory>
    requires small { length blocks.now ≤ 1048576 }
    requires rising { Rising records.now }
    ensures held { IfOk result (λ table. IfSome table
        (λ t. HoldsTable blocks.now records.now t.items)) }
    ensures none { IfOk result (λ table. table ≡ None → Store blocks.now records.now → ⊥) }
{
    let Some(found) = find_all(alloc, blocks)? else {
        return Ok(None);
    };
    let mut found = found;
    found.sort_by_key(|f| place_of(&f.content))?;
    if !are_of(&found, records) {
        return Ok(None);
    }
    Ok(Some(slots_of(alloc, &found)?))
}
