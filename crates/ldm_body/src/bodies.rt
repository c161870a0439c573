//! A body with the blocks of each of its records, made or read from a disk.
ghost use Rattle.std.specs.Prelude.{◌≡◌, ◌+◌, ◌*◌, ◌/◌, ◌<◌, ◌≤◌, IsTrue, false, None, length};
ghost use Rattle.std.specs.Prelude.{slice_index, slice_range, drop, IfOk, IfSome, IsErrOf};
ghost use Rattle.ldm_host.specs.Moves.{Looks};
ghost use Rattle.ldm_host.specs.Seen.{image};
ghost use Rattle.ldm_label.specs.LabelOf.{Fits};
ghost use Rattle.ldm_vmdb.specs.declared.header.Header.{Header};
ghost use Rattle.ldm_vmdb.specs.Headers.{vmdb_fault, IsHeaderOf};
ghost use Rattle.ldm_copy.specs.Copy.{header_sector, gate_at};
ghost use Rattle.ldm_body.specs.Body.{Store, IsBodyOf};
ghost use Rattle.ldm_group.specs.Database.{IsSameHeader};
ghost use Rattle.ldm_body.specs.Table.{IsCoreBody, body_bytes, IsNoBody};
ghost use Rattle.ldm_body.specs.declared.bodies.BodyError.TheVariants as errors;

use crate::body::Body;
use crate::finding::table_of;
use crate::gate::gate_at;
use ldm_bytes::{Bytes, NoMemory};
use ldm_group::{Db, is_same_header};
use ldm_host::{Failed, Host};
use ldm_label::Label;
use ldm_vmdb::{Header, VmdbError, read_header};
use std::alloc::{AllocError, AllocFailed, Global};

// Whether the sector reads as this header, but for the carried bytes.
fn reads_as(
    alloc: Global,
    sector: &[u8; 512],
    header: &Header,
    area_sectors: u64,
) -> Result<bool, NoMemory>
    ensures yes { IfOk result (λ same. IsTrue same
        → (h : Header) × (vmdb_fault sector.now area_sectors ≡ None) × IsHeaderOf h sector.now
        × IsSameHeader h header.now) }
    ensures no { IfOk result (λ same. same ≡ false
        → (h : Header) → vmdb_fault sector.now area_sectors ≡ None → IsHeaderOf h sector.now
        → IsSameHeader h header.now → ⊥) }
{
    match read_header(alloc, sector, area_sectors) {
        Ok(h) => Ok(is_same_header(&h, header)),
        Err(VmdbError::Fault(_)) => Ok(false),
        Err(VmdbError::NoMemory) => Err(NoMemory),
    }
}

// The first sector of the bytes.
fn first_sector(bytes: &[u8]) -> [u8; 512]
    requires { 512 ≤ length bytes.now }
    ensures { result ≡ header_sector bytes.now }
{
    let mut sector = [0u8; 512];
    sector.copy_from_slice(&bytes[..512]);
    sector
}

// The bytes as a body of the database, where they have a header that reads as that of the database
// but for the carried bytes, and written blocks that hold its records, each in its own spelling.
// Else None.
fn body_in(
    alloc: Global,
    bytes: &[u8],
    db: &Db,
    area_sectors: u64,
) -> Result<Option<Body>, NoMemory>
    requires size { length bytes.now ≡ 512 * (db.now.header.last / 4) }
    requires low { 4 ≤ db.now.header.last }
    requires high { db.now.header.last ≤ 8192 }
    ensures same { IfOk result (λ found. IfSome found (λ body. body ≡ bytes.now)) }
    ensures core { IfOk result (λ found. IfSome found (λ body. IsCoreBody db.now body)) }
    ensures none { IfOk result (λ found. found ≡ None → (h : Header)
        → vmdb_fault (header_sector bytes.now) area_sectors ≡ None
        → IsHeaderOf h (header_sector bytes.now) → IsSameHeader h db.now.header
        → Store (drop 512 bytes.now) db.now.records → ⊥) }
{
    let sector = first_sector(bytes);
    if !reads_as(alloc, &sector, db.header(), area_sectors)? {
        return Ok(None);
    }
    let Some(table) = table_of(alloc, &bytes[512..], db.as_slice())? else {
        return Ok(None);
    };
    let bytes = Bytes::from_slice(alloc, bytes)?;
    Ok(Some(Body::new(bytes, table)))
}

/// Why no body was read.
#[derive(Clone, Copy, PartialEq, Eq)]
pub enum BodyError {
    /// A call of the disk failed.
    Disk,
    /// Memory ran out.
    NoMemory,
}

impl From<Failed> for BodyError {
    ghost from_gives = { λ _ error. error ≡ errors.Disk };

    fn from(_failed: Failed) -> BodyError {
        BodyError::Disk
    }
}

impl From<NoMemory> for BodyError {
    ghost from_gives = { λ _ error. error ≡ errors.NoMemory };

    fn from(_error: NoMemory) -> BodyError {
        BodyError::NoMemory
    }
}

impl From<AllocError> for BodyError {
    ghost from_gives = { λ _ error. error ≡ errors.NoMemory };

    fn from(_error: AllocError) -> BodyError {
        BodyError::NoMemory
    }
}

impl<T: Drop> From<AllocFailed<T>> for BodyError {
    ghost from_gives = { λ _ error. error ≡ errors.NoMemory };

    fn from(_error: AllocFailed<T>) -> BodyError {
        BodyError::NoMemory
    }
}

// The first `len` bytes of the copy on a disk, from its gate on.
fn copy_bytes<H: Host>(
    alloc: Global,
    host: &mut H,
    disk: usize,
    label: &Label,
    len: usize,
) -> Result<Vec<u8>, BodyError>
    requires disk { disk < length (H.seen host.old).sizes }
    requires fits { Fits label.now (slice_index (H.seen host.old).sizes disk) }
    requires within { len ≤ 512 * label.now.area_sectors }
    ensures bytes { H.tells_disks → IfOk result (λ b. b.items
        ≡ slice_range (image (H.seen host.old).content disk) (gate_at label.now)
        (gate_at label.now + len)) }
    ensures size { IfOk result (λ b. length b.items ≡ len) }
    ensures looks { Looks (H.seen host.old) (H.seen host.new) (IsErrOf result BodyError.Disk) }
{
    let at = gate_at(host, disk, label);
    let mut bytes = vec![in alloc; 0u8; len]?;
    host.read_at(disk, at, &mut bytes)?;
    Ok(bytes)
}

/// The body of the database on a disk, where the copy there is one. Else None.
pub fn read_body<H: Host>(
    alloc: Global,
    host: &mut H,
    disk: usize,
    label: &Label,
    db: &Db,
) -> Result<Option<Body>, BodyError>
    requires disk { disk < length (H.seen host.old).sizes }
    requires fits { Fits label.now (slice_index (H.seen host.old).sizes disk) }
    requires low { 4 ≤ db.now.header.last }
    requires room { db.now.header.last ≤ 4 * label.now.area_sectors }
    // It is the bytes that are there.
    ensures same { H.tells_disks → IfOk result (λ found. IfSome found (λ body. body
        ≡ body_bytes db.now label.now (image (H.seen host.old).content disk))) }
    // For every host, it is a body of the database but for the carried bytes of the header.
    ensures core { IfOk result (λ found. IfSome found (λ body. IsCoreBody db.now body)) }
    // Where there is one, it is found.
    ensures none { H.tells_disks → IfOk result (λ found. found ≡ None
        → IsNoBody db.now label.now.area_sectors (body_bytes db.now label.now
        (image (H.seen host.old).content disk))) }
    ensures looks { Looks (H.seen host.old) (H.seen host.new) (IsErrOf result BodyError.Disk) }
{
    // The area has 2048 sectors at most.
    prove!(label.area_sectors <= 2048);
    let len = 512 * (db.header().last as usize / 4);
    let bytes = copy_bytes(alloc, host, disk, label, len)?;
    Ok(body_in(alloc, &bytes, db, label.area_sectors)?)
}

/// The bytes of a body, with the slots of its records.
pub(crate) fn with_table(alloc: Global, bytes: Bytes, db: &Db) -> Result<Body, NoMemory>
    requires body { IsBodyOf db.now bytes }
    requires high { db.now.header.last ≤ 8192 }
    ensures bytes { IfOk result (λ body. body ≡ bytes) }
    ensures body { IfOk result (λ body. IsBodyOf db.now body) }
{
    let all = bytes.as_slice();
    let Some(table) = table_of(alloc, &all[512..], db.as_slice())? else {
        // The records are stored there.
        unreachable!()
    };
    Ok(Body::new(bytes, table))
}
