//! The next body from the one that is there: which blocks are freed and which are taken.
ghost use Rattle.std.specs.Prelude.{◌≡◌, ◌≢◌, ◌↔◌, ℕ, ◌+◌, ◌*◌, ◌≤◌, ◌<◌, ◌++◌, ◌∷◌, [], List};
ghost use Rattle.std.specs.Prelude.{length, take, map, filter, bytes_eq, if◌then◌else◌, IsTrue};
ghost use Rattle.std.specs.Prelude.{IfOk, OnOk, All, AllPairs, Contains};
ghost use Rattle.ldm_frags.specs.Blocks.{count, block_at};
ghost use Rattle.ldm_vmdb.specs.Parts.{parts_of};
ghost use Rattle.ldm_written.specs.Written.{IsInUse, Holds};
ghost use Rattle.ldm_records.specs.Plain.{own_spelling, IsRecord};
ghost use Rattle.ldm_records.specs.Views.{plain_of};
ghost use Rattle.ldm_group.specs.Room.{own_len, IsFitting, need_of};
ghost use Rattle.ldm_body.specs.Body.{Stored, placed_of, Store, stored_at};
ghost use Rattle.ldm_changed.specs.Plan.{has_record, lacks, touched_blocks, record_stays};
ghost use Rattle.ldm_changed.specs.Plan.{record_goes, Avoids, AreFreed, KeepsOrFrees};
ghost use Rattle.ldm_changed.specs.Plan.{IsAdded, LeavesOrAdds, block_differs, changed_numbers};
ghost use Rattle.ldm_written.specs.Free.{is_free, free_numbers};

use ldm_bytes::{NoMemory, get_u16};
use ldm_group::{Db, id_of, kind_of};
use ldm_records::{Record, spelled_len};
use ldm_vmdb::parts_of;
use ldm_written::{Slots, spelling, write_record, write_unused};
use std::alloc::Global;

// Whether both records are equal, that is, have one own spelling.
fn is_same(a: &Record, b: &Record) -> bool
    ensures is { IsTrue result ↔ (a.now ≡ b.now) }
    ensures spelled { result ≡ bytes_eq (own_spelling (plain_of a.now))
        (own_spelling (plain_of b.now)) }
{
    let _len = spelled_len(a);
    let _other = spelled_len(b);
    a.same(b)
}

// Whether the database has this record.
pub fn has(db: &Db, r: &Record) -> bool
    ensures is { result ≡ has_record db.now.records r.now }
    ensures there { IsTrue result → Contains db.now.records r.now }
{
    match db.by_id(kind_of(r), id_of(r)) {
        Some(other) => is_same(other, r),
        None => false,
    }
}

// Writes unused blocks of these numbers.
fn free(slots: &Slots, out: &mut [u8])
    requires within { All (IsInUse out.old) slots.now }
    ensures { AreFreed slots.now out.old out.new }
{
    let numbers = slots.as_slice();
    for k in 0..numbers.len() {
        write_unused(numbers[k], out);
    }
}

// Keeps the slots of a record that stays, or frees its blocks.
fn keep_or_free(
    alloc: Global,
    out: &mut [u8],
    slots: &Slots,
    stays: bool,
    kept: &mut Vec<Slots>,
) -> Result<(), NoMemory>
    requires within { All (IsInUse out.old) slots.now }
    ensures { OnOk result (KeepsOrFrees stays slots.now kept.old.items kept.new.items
        out.old out.new) }
{
    if stays {
        kept.push(slots.clone_in(alloc)?)?;
    } else {
        free(slots, out);
    }
    Ok(())
}

// Frees the blocks of the records that the new database doesn't have, and answers the slots of the
// others, in their order.
pub fn free_gone(
    alloc: Global,
    out: &mut [u8],
    records: &[Record],
    table: &[Slots],
    new: &Db,
) -> Result<Vec<Slots>, NoMemory>
    requires one_each { length table.now ≡ length records.now }
    requires small { length out.old ≤ 1048576 }
    requires holds { Holds out.old (map placed_of (stored_at records.now table.now)) }
    ensures kept { IfOk result (λ kept. kept.items
        ≡ map (λ s. s.slots) (filter (record_stays new.now.records)
        (stored_at records.now table.now))) }
    ensures holds { OnOk result (Holds out.new (map placed_of
        (filter (record_stays new.now.records) (stored_at records.now table.now)))) }
    ensures others { OnOk result ((b : ℕ) → 4 ≤ b
        → All (Avoids b) (filter (record_goes new.now.records) (stored_at records.now table.now))
        → block_at out.new b ≡ block_at out.old b) }
    ensures there { OnOk result (All (λ s. Contains new.now.records s.record_is)
        (filter (record_stays new.now.records) (stored_at records.now table.now))) }
{
    let mut kept = Vec::new(alloc);
    for i in 0..records.len() {
        let stays = has(new, &records[i]);
        keep_or_free(alloc, out, &table[i], stays, &mut kept)?;
    }
    Ok(kept)
}

// Adds a number where it passes.
fn push_if(numbers: &mut Vec<u32>, number: u32, passes: bool) -> Result<(), NoMemory>
    ensures { OnOk result (numbers.new.items ≡ numbers.old.items
        ++ (if passes then number ∷ [] else [])) }
{
    if passes {
        numbers.push(number)?;
    }
    Ok(())
}

// Whether block `k` is unused.
fn is_free(out: &[u8], k: usize) -> bool
    requires within { k < count out.now }
    requires small { length out.now ≤ 1048576 }
    ensures { result ≡ is_free out.now (k + 4) }
{
    get_u16(out, 128 * k + 14) == 0
}

// The numbers of the unused blocks.
pub fn free_blocks(alloc: Global, out: &[u8]) -> Result<Vec<u32>, NoMemory>
    requires small { length out.now ≤ 1048576 }
    ensures { IfOk result (λ numbers. numbers.items ≡ free_numbers out.now) }
{
    let mut numbers = Vec::new(alloc);
    for k in 0..out.len() / 128 {
        push_if(&mut numbers, k as u32 + 4, is_free(out, k))?;
    }
    Ok(numbers)
}

// Writes a record into free blocks, from this place of their list on.
fn add(
    alloc: Global,
    out: &mut [u8],
    r: &Record,
    free: &[u32],
    at: usize,
    made: &mut Vec<Slots>,
) -> Result<usize, NoMemory>
    requires fits { IsFitting r.now }
    requires room { at + parts_of (own_len r.now) ≤ length free.now }
    requires apart { AllPairs (λ a b. a ≢ b) free.now }
    requires within { All (IsInUse out.old) free.now }
    ensures { IfOk result (λ next. IsAdded r.now free.now at next made.old.items made.new.items
        out.old out.new) }
{
    let _len = spelled_len(r);
    let payload = spelling(alloc, r)?;
    let bytes = payload.as_slice();
    let next = at + parts_of(bytes.len()) as usize;
    let slots = Slots::from_vec(Vec::from_slice(alloc, &free[at..next])?);
    write_record(bytes, &slots, out);
    made.push(slots)?;
    Ok(next)
}

// Writes a record that the old database doesn't have into free blocks, from this place of their
// list on.
fn add_if_new(
    alloc: Global,
    out: &mut [u8],
    r: &Record,
    old: &Db,
    free: &[u32],
    at: usize,
    made: &mut Vec<Slots>,
) -> Result<usize, NoMemory>
    requires fits { IsFitting r.now }
    requires room { at + (if has_record old.now.records r.now then 0 else parts_of (own_len r.now))
        ≤ length free.now }
    requires apart { AllPairs (λ a b. a ≢ b) free.now }
    requires within { All (IsInUse out.old) free.now }
    ensures adds { IfOk result (λ next. LeavesOrAdds
        (has_record old.now.records r.now) r.now free.now at next made.old.items made.new.items
        out.old out.new) }
    ensures there { IsTrue (has_record old.now.records r.now) → Contains old.now.records r.now }
{
    if has(old, r) {
        return Ok(at);
    }
    add(alloc, out, r, free, at, made)
}

// Writes the records that the old database doesn't have into free blocks, and answers their slots,
// in their order.
pub fn write_made(
    alloc: Global,
    out: &mut [u8],
    records: &[Record],
    old: &Db,
    free: &[u32],
) -> Result<Vec<Slots>, NoMemory>
    requires small { length out.old ≤ 1048576 }
    requires fits { All IsFitting records.now }
    requires room { need_of (filter (lacks old.now.records) records.now) ≤ length free.now }
    requires apart { AllPairs (λ a b. a ≢ b) free.now }
    requires within { All (IsInUse out.old) free.now }
    requires free { All (λ b. IsTrue (is_free out.old b)) free.now }
    ensures one_each { IfOk result (λ made. length made.items
        ≡ length (filter (lacks old.now.records) records.now)) }
    ensures holds { IfOk result (λ made. (rest : List Stored) → Holds out.old (map placed_of rest)
        → Holds out.new (map placed_of (stored_at (filter (lacks old.now.records) records.now)
        made.items ++ rest))) }
    ensures others { OnOk result ((b : ℕ) → 4 ≤ b
        → All (λ n. n ≢ b) (take (need_of (filter (lacks old.now.records) records.now)) free.now)
        → block_at out.new b ≡ block_at out.old b) }
    ensures sound { OnOk result (All (λ r. IsRecord (plain_of r))
        (filter (lacks old.now.records) records.now)) }
    ensures there { OnOk result (All (Contains old.now.records)
        (filter (has_record old.now.records) records.now)) }
{
    let mut made = Vec::new(alloc);
    let mut at = 0;
    for j in 0..records.len() {
        at = add_if_new(alloc, out, &records[j], old, free, at, &mut made)?;
    }
    Ok(made)
}

// Whether block `k` differs, also where the old blocks have none there.
fn differs(old: &[u8], new: &[u8], k: usize) -> bool
    requires within { k < count new.now }
    requires small { length new.now ≤ 1048576 }
    ensures { result ≡ block_differs old.now new.now (k + 4) }
{
    let at = 128 * k;
    old.len() < at + 128 || old[at..at + 128] != new[at..at + 128]
}

// The numbers of the blocks that differ.
pub fn changed(alloc: Global, old: &[u8], new: &[u8]) -> Result<Vec<u32>, NoMemory>
    requires small { length new.now ≤ 1048576 }
    ensures { IfOk result (λ numbers. numbers.items ≡ changed_numbers old.now new.now) }
{
    let mut numbers = Vec::new(alloc);
    for k in 0..new.len() / 128 {
        push_if(&mut numbers, k as u32 + 4, differs(old, new, k))?;
    }
    Ok(numbers)
}

// Takes the records of the old database out of the blocks that the new one doesn't have, and puts
// those in that are new.
pub fn rewrite_blocks(
    alloc: Global,
    out: &mut [u8],
    table: &[Slots],
    old: &Db,
    new: &Db,
) -> Result<(Vec<Slots>, Vec<Slots>), NoMemory>
    requires one_each { length table.now ≡ length old.now.records }
    requires small { length out.old ≤ 1048576 }
    requires holds { Holds out.old (map placed_of (stored_at old.now.records table.now)) }
    requires sound { All (λ r. IsRecord (plain_of r)) old.now.records }
    requires fits { All IsFitting new.now.records }
    requires room { need_of new.now.records ≤ count out.old }
    ensures kept { IfOk result (λ slots. slots.0.items
        ≡ map (λ s. s.slots) (filter (record_stays new.now.records)
        (stored_at old.now.records table.now))) }
    ensures made { IfOk result (λ slots. length slots.1.items
        ≡ length (filter (lacks old.now.records) new.now.records)) }
    ensures holds { IfOk result (λ slots. Holds out.new
        (map placed_of (stored_at (filter (lacks old.now.records) new.now.records) slots.1.items
        ++ filter (record_stays new.now.records) (stored_at old.now.records table.now)))) }
    ensures same { OnOk result (filter (has_record new.now.records) old.now.records
        ≡ filter (has_record old.now.records) new.now.records) }
    ensures store { OnOk result (Store out.new new.now.records) }
    ensures touched { OnOk result ((numbers : List ℕ)
        × (length numbers ≤ touched_blocks old.now.records new.now.records)
        × ((b : ℕ) → 4 ≤ b → All (λ n. n ≢ b) numbers → block_at out.new b ≡ block_at out.old b)) }
{
    let records = old.as_slice();
    let kept = free_gone(alloc, out, records, table, new)?;
    let free = free_blocks(alloc, out)?;
    let made = write_made(alloc, out, new.as_slice(), old, &free)?;
    Ok((kept, made))
}
