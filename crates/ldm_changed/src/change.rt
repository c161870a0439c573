//! A change of a body: the new body, and the numbers of the blocks that differ.
ghost use Rattle.std.specs.Prelude.{◌≡◌, ◌≢◌, ℕ, ◌+◌, ◌-◌, ◌*◌, ◌≤◌, ◌<◌};
ghost use Rattle.std.specs.Prelude.{length, drop, map, IfOk, All, AllPairs};
ghost use Rattle.std.specs.Prelude.{Contains};
ghost use Rattle.ldm_vmdb.specs.Sectors.{last_of};
ghost use Rattle.ldm_written.specs.Headers.{written};
ghost use Rattle.ldm_frags.specs.Blocks.{count};
ghost use Rattle.ldm_written.specs.Written.{Holds};
ghost use Rattle.ldm_records.specs.Plain.{IsRecord};
ghost use Rattle.ldm_records.specs.Views.{plain_of};
ghost use Rattle.ldm_group.specs.Room.{IsFitting, need_of, FitsHeader};
ghost use Rattle.ldm_copy.specs.Copy.{header_sector};
ghost use Rattle.ldm_body.specs.Body.{placed_of, Store, IsBodyOf, counts_of};
ghost use Rattle.ldm_changed.specs.Plan.{added_blocks, touched_blocks, changed_numbers};
ghost use Rattle.ldm_body.specs.Body.{stored_at};
ghost use Rattle.ldm_changed.specs.Change.{ChangesFrom, IsNextBody};

use crate::planning::{changed, rewrite_blocks};
use crate::weaving::weave;
use ldm_body::{Body, counts_of, joined};
use ldm_bytes::{Bytes, NoMemory};
use ldm_group::Db;
use ldm_written::{Slots, with_unused, write_header};
use std::alloc::Global;
use std::marker::Model;

/// A body that takes the place of another, and the numbers of the blocks in which they differ.
#[derive(Drop)]
pub struct Change {
    pub(crate) body: Body,
    pub(crate) numbers: Slots,
}

impl Model for Change {
    ghost use Rattle.ldm_changed.specs.Change.{Changed, IsChangedBody};

    ghost Value = { Changed };

    ghost view = { λ c. record { body = c.body; numbers = c.numbers } };

    ghost invariant = { λ c. IsChangedBody c.body c.numbers };
}

impl Change {
    ghost use Rattle.std.specs.Prelude.{◌≡◌, length};

    /// How many blocks differ.
    pub fn blocks(&self) -> usize
        ensures { result ≡ length self.now.numbers }
    {
        self.numbers.as_slice().len()
    }

    /// The new body.
    pub fn into_body(self) -> Body
        ensures { result ≡ self.body }
    {
        let Change { body, numbers: _ } = self;
        body
    }
}

// The blocks of the new database, so many in all, where a record that both databases have keeps its
// blocks, the numbers of those that differ, and the slots of the records.
fn next_blocks(
    alloc: Global,
    blocks: &[u8],
    table: &[Slots],
    old: &Db,
    new: &Db,
    room: u32,
) -> Result<(Bytes, Slots, Vec<Slots>), NoMemory>
    requires one_each { length table.now ≡ length old.now.records }
    requires more { length blocks.now ≤ 128 * room }
    requires small { room ≤ 8192 }
    requires holds { Holds blocks.now (map placed_of (stored_at old.now.records table.now)) }
    requires sound { All (λ r. IsRecord (plain_of r)) old.now.records }
    requires fits { All IsFitting new.now.records }
    requires room { need_of new.now.records ≤ room }
    ensures size { IfOk result (λ next. length next.0 ≡ 128 * room) }
    ensures store { IfOk result (λ next. Store next.0 new.now.records) }
    ensures changed { IfOk result (λ next. next.1 ≡ changed_numbers blocks.now next.0) }
    ensures few { IfOk result (λ next. length next.1
        ≤ touched_blocks old.now.records new.now.records + (room - count blocks.now)) }
    ensures one_each { IfOk result (λ next. length next.2.items ≡ length new.now.records) }
    ensures holds { IfOk result (λ next. Holds next.0
        (map placed_of (stored_at new.now.records next.2.items))) }
{
    let mut out = with_unused(alloc, blocks, room)?;
    let (kept, made) = rewrite_blocks(alloc, &mut out, table, old, new)?;
    let next = weave(alloc, new.as_slice(), old, &kept, &made)?;
    let numbers = changed(alloc, blocks, &out)?;
    Ok((Bytes::from_vec(out), Slots::from_vec(numbers), next))
}

// The bytes of the next body, the numbers of the blocks in which it differs, and the slots of its
// records.
fn next_bytes(
    alloc: Global,
    body: &Body,
    old: &Db,
    new: &Db,
) -> Result<(Bytes, Slots, Vec<Slots>), NoMemory>
    requires holds { Store (drop 512 body.now) old.now.records }
    requires last { last_of (header_sector body.now) ≤ new.now.header.last }
    requires high { new.now.header.last ≤ 8192 }
    requires room { FitsHeader new.now }
    ensures next { IfOk result (λ next. IsNextBody body.now new.now next.0 next.1 next.2.items) }
    ensures few { IfOk result (λ next. length next.1
        ≤ touched_blocks old.now.records new.now.records
        + added_blocks (last_of (header_sector body.now)) new.now.header.last) }
{
    let bytes = body.as_slice();
    let slots = body.table();
    let _before = old.as_slice();
    let room = new.room() as u32;
    let (blocks, numbers, table) = next_blocks(alloc, &bytes[512..], slots, old, new, room)?;
    let records = new.as_slice();
    let header = new.header();
    let mut sector = [0u8; 512];
    write_header(header, header.seq, counts_of(records), &mut sector);
    let bytes = joined(alloc, &sector, blocks.as_slice())?;
    Ok((bytes, numbers, table))
}

/// The body of the new database that has the records which both databases have where the old body
/// has them, and the numbers of the blocks in which it differs. Where the new database has more
/// blocks, those that the old one doesn't have are among these.
pub fn next_body(alloc: Global, body: &Body, old: &Db, new: &Db) -> Result<Change, NoMemory>
    requires holds { Store (drop 512 body.now) old.now.records }
    requires last { last_of (header_sector body.now) ≤ new.now.header.last }
    requires high { new.now.header.last ≤ 8192 }
    requires room { FitsHeader new.now }
    ensures body { IfOk result (λ change. IsBodyOf new.now change.body) }
    ensures header { IfOk result (λ change. header_sector change.body
        ≡ written new.now.header new.now.header.seq (counts_of new.now.records)) }
    ensures from { IfOk result (λ change. ChangesFrom body.now change) }
    ensures apart { IfOk result (λ change. AllPairs (λ a b. a ≢ b) change.numbers) }
    ensures within { IfOk result (λ change. All (λ n. (4 ≤ n)
        × (128 * n + 128 ≤ length change.body)) change.numbers) }
    ensures added { IfOk result (λ change. (n : ℕ) → length body.now ≤ 128 * n
        → 128 * n + 128 ≤ length change.body
        → Contains change.numbers n) }
    ensures few { IfOk result (λ change. length change.numbers
        ≤ touched_blocks old.now.records new.now.records
        + added_blocks (last_of (header_sector body.now)) new.now.header.last) }
    // To write the changed blocks takes no more bytes than to write the whole body.
    ensures most { IfOk result (λ change. 513 + 128 * length change.numbers
        ≤ length change.body + 1) }
{
    let (bytes, numbers, table) = next_bytes(alloc, body, old, new)?;
    Ok(Change {
        body: Body::new(bytes, table),
        numbers,
    })
}
