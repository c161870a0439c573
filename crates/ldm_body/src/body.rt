//! The body of a copy: the header sector of a database, and its blocks.
ghost use Rattle.std.specs.Prelude.{◌≡◌, ◌≤◌, ◌*◌, ◌++◌, length, All, IfOk, OnOk};
ghost use Rattle.ldm_vmdb.specs.Parts.{IsSized, blocks_needed};
ghost use Rattle.ldm_written.specs.Written.{Holds, laid_in_order};
ghost use Rattle.ldm_records.specs.Plain.{IsRecord};
ghost use Rattle.ldm_records.specs.Views.{plain_of};
ghost use Rattle.ldm_group.specs.Room.{IsFitting, need_of};
ghost use Rattle.ldm_copy.specs.Answers.{FitsHeader};
ghost use Rattle.ldm_body.specs.Body.{IsBodyOf, IsMadeOf, count_of, counts_of, spellings};

use crate::bodies::with_table;
use ldm_bytes::{Bytes, NoMemory};
use ldm_group::{Db, kind_of};
use ldm_records::Record;
use ldm_written::{Counts, Slots, SplitError, spelling, split, write_header};
use std::alloc::Global;
use std::marker::Model;

/// The bytes of a written copy, from its gate on up to the last block in use. Contracts see them as
/// that list. It also keeps the numbers of the blocks that hold each record.
#[derive(Drop)]
pub struct Body {
    bytes: Bytes,
    table: Vec<Slots>,
}

impl Model for Body {
    ghost use Rattle.std.specs.Prelude.{List, ℕ};
    ghost use Rattle.ldm_body.specs.Table.{IsTabled};

    ghost Value = { List ℕ };

    ghost view = { λ body. body.bytes };

    ghost invariant = { λ body. IsTabled body.bytes body.table.items };
}

impl Body {
    ghost use Rattle.std.specs.Prelude.{◌≡◌, ◌↔◌, IsTrue};
    ghost use Rattle.ldm_body.specs.Body.{IsSomeBody};
    ghost use Rattle.ldm_body.specs.Table.{IsTabled};

    /// The body of these bytes, with the numbers of the blocks that hold each record, in the order
    /// of the records.
    pub fn new(bytes: Bytes, table: Vec<Slots>) -> Body
        requires { IsTabled bytes table.items }
        ensures { result ≡ bytes }
    {
        Body { bytes, table }
    }

    /// The bytes, the first of which is the gate of an open copy.
    pub fn as_slice(&self) -> &[u8]
        ensures value { result.now ≡ self.now }
        ensures body { IsSomeBody self.now }
    {
        self.bytes.as_slice()
    }

    /// The numbers of the blocks that hold each record, in the order of the records.
    pub fn table(&self) -> &[Slots]
        ensures { IsTabled self.now result.now }
    {
        &self.table
    }

    /// Whether both have the same bytes.
    pub fn same(&self, other: &Body) -> bool
        ensures { IsTrue result ↔ (self.now ≡ other.now) }
    {
        self.bytes.as_slice() == other.bytes.as_slice()
    }
}

// How many records are of this kind.
fn count_of(kind: u8, records: &[Record]) -> u32
    requires { length records.now ≤ 8192 }
    ensures { result ≡ count_of kind records.now }
{
    records.iter().filter(|r| kind_of(r) == kind).count() as u32
}

/// The counts of the records by their kinds.
pub fn counts_of(records: &[Record]) -> Counts
    requires { length records.now ≤ 8192 }
    ensures { result ≡ counts_of records.now }
{
    Counts {
        volumes: count_of(3, records),
        components: count_of(4, records),
        partitions: count_of(5, records),
        disks: count_of(2, records),
    }
}

// The own spellings of the records, in their order.
fn spellings(alloc: Global, records: &[Record]) -> Result<Vec<Bytes>, NoMemory>
    ensures spelled { IfOk result (λ list. list.items ≡ spellings records.now) }
    ensures sound { IfOk result (λ list. All (λ r. IsRecord (plain_of r)) records.now) }
{
    let mut list = Vec::new(alloc);
    for r in records {
        list.push(spelling(alloc, r)?)?;
    }
    Ok(list)
}

// The blocks that hold the payloads one after the other, of which there are enough.
fn blocks_of(alloc: Global, payloads: &[Bytes], blocks: u32) -> Result<Bytes, NoMemory>
    requires sized { All IsSized payloads.now }
    requires few { blocks ≤ 8192 }
    requires room { blocks_needed payloads.now ≤ blocks }
    ensures size { IfOk result (λ out. length out ≡ 128 * blocks) }
    ensures holds { IfOk result (λ out. Holds out (laid_in_order 4 payloads.now)) }
{
    match split(alloc, payloads, blocks) {
        Ok(out) => Ok(out),
        Err(SplitError::NoMemory | SplitError::NoRoom { .. }) => Err(NoMemory),
    }
}

// The blocks that hold the records one after the other, each in its own spelling. There are
// enough of them.
fn blocks_with(alloc: Global, records: &[Record], blocks: u32) -> Result<Bytes, NoMemory>
    requires each { All IsFitting records.now }
    requires few { blocks ≤ 8192 }
    requires room { need_of records.now ≤ blocks }
    ensures size { IfOk result (λ out. length out ≡ 128 * blocks) }
    ensures holds { IfOk result (λ out. Holds out (laid_in_order 4 (spellings records.now))) }
    ensures sound { OnOk result (All (λ r. IsRecord (plain_of r)) records.now) }
{
    let payloads = spellings(alloc, records)?;
    blocks_of(alloc, &payloads, blocks)
}

/// The sector, and the blocks behind it.
pub fn joined(alloc: Global, sector: &[u8; 512], blocks: &[u8]) -> Result<Bytes, NoMemory>
    ensures { IfOk result (λ bytes. bytes ≡ sector.now ++ blocks.now) }
{
    let mut bytes = Vec::new(alloc);
    bytes.extend_from_slice(sector)?;
    bytes.extend_from_slice(blocks)?;
    Ok(Bytes::from_vec(bytes))
}

/// The body of the database, with its own sequence: its header, the records in their order without
/// gaps, and then unused blocks.
pub fn body_of(alloc: Global, db: &Db) -> Result<Body, NoMemory>
    requires room { FitsHeader db.now }
    requires low { 4 ≤ db.now.header.last }
    requires high { db.now.header.last ≤ 8192 }
    ensures body { IfOk result (λ body. IsBodyOf db.now body) }
    ensures made { IfOk result (λ body. IsMadeOf db.now body) }
{
    let records = db.as_slice();
    let header = db.header();
    let mut sector = [0u8; 512];
    write_header(header, header.seq, counts_of(records), &mut sector);
    let blocks = blocks_with(alloc, records, db.room() as u32)?;
    let bytes = joined(alloc, &sector, blocks.as_slice())?;
    with_table(alloc, bytes, db)
}
