//! The database of a copy: its header, and the records that its blocks hold.
ghost use Rattle.std.specs.Prelude.{◌≡◌, ◌*◌, ◌^◌, ◌<◌, ◌≤◌, ℕ, List, IfOk, IfSome};
ghost use Rattle.ldm_frags.specs.Blocks.{count};
ghost use Rattle.ldm_frags.specs.Joins.{Joins};
ghost use Rattle.ldm_group.specs.Room.{HasRoom};
ghost use Rattle.ldm_copy.specs.Steps.{OpensHeader, ReadsRecord, ReadsRecords, MakesDatabase};

use crate::answer::{CopyError, CopyFault};
use ldm_frags::Joined;
use ldm_group::{Db, DbError};
use ldm_payloads::{RecordError, read_record};
use ldm_records::Record;
use ldm_vmdb::{Header, read_header};
use std::alloc::Global;

// The letter V, the first byte of an open copy.
const OPEN: u8 = 0x56;

// The header of the copy that begins with this sector, in an area of so many sectors. None where
// the copy is closed.
pub fn open_header(
    alloc: Global,
    first: &[u8; 512],
    area_sectors: u64,
) -> Result<Option<Header>, CopyError>
    ensures opens { OpensHeader first.now area_sectors result }
    ensures last { IfOk result (λ header. IfSome header (λ h. h.last ≤ 4 * area_sectors)) }
{
    if first[0] != OPEN {
        return Ok(None);
    }
    Ok(Some(read_header(alloc, first, area_sectors)?))
}

// The record that the payload spells.
fn record_of(alloc: Global, joined: &Joined) -> Result<Record, CopyError>
    ensures { ReadsRecord joined.now result }
{
    match read_record(alloc, joined.payload.as_slice()) {
        Ok(record) => Ok(record),
        Err(RecordError::Fault(fault)) => Err(CopyError::Fault(CopyFault::BadRecord(
            joined.block,
            fault,
        ))),
        Err(RecordError::NoMemory) => Err(CopyError::NoMemory),
    }
}

// The records that the payloads spell, in their order.
fn records_of(alloc: Global, list: &[Joined]) -> Result<Vec<Record>, CopyError>
    ensures { ReadsRecords list.now result }
{
    let mut records = Vec::new(alloc);
    for joined in list {
        records.push(record_of(alloc, joined)?)?;
    }
    Ok(records)
}

// The fault of two records of one kind and id. Ids have 64 bits.
fn same_id(kind: u8, id: u64) -> CopyFault
    ensures is { result ≡ CopyFault.SameId kind id }
    ensures small { id < 2 ^ 64 }
{
    CopyFault::SameId { kind, id }
}

// The database of this header whose records these payloads spell.
pub fn database_of(alloc: Global, header: Header, list: &[Joined]) -> Result<Db, CopyError>
    ensures makes { (blocks : List ℕ) → Joins blocks list.now → MakesDatabase header blocks result }
    ensures room { (blocks : List ℕ) → Joins blocks list.now
        → IfOk result (λ db. HasRoom (count blocks) db.records) }
{
    let records = records_of(alloc, list)?;
    match Db::new(alloc, header, records) {
        Ok(db) => Ok(db),
        Err(DbError::SameId { kind, id }) => Err(CopyError::Fault(same_id(kind, id))),
        Err(DbError::NoMemory) => Err(CopyError::NoMemory),
    }
}
