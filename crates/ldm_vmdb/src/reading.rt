//! Reads a header, or its first fault.
ghost use Rattle.std.specs.Prelude.{◌≡◌, ◌≤◌, ◌<◌, Some, None, MatchResult, length, IfOk, ◌==◌};
ghost use Rattle.std.specs.List.{position_or_len};
ghost use Rattle.ldm_vmdb.specs.Sectors.{has_vmdb_magic, has_vmdb_version, has_block_size};
ghost use Rattle.ldm_vmdb.specs.Sectors.{has_first_block, is_settled, fits_area, last_of};
ghost use Rattle.ldm_vmdb.specs.Sectors.{group_guid, group_name, carried};
ghost use Rattle.ldm_vmdb.specs.Headers.{vmdb_fault, ReadsHeader};

use crate::header::{Header, VmdbError, VmdbFault};
use ldm_bytes::{Bytes, NoMemory, get_u16, get_u32, get_u64, put_bytes, read_guid};
use std::alloc::Global;

#[tactic(auto, unfolding(crate::specs::Sectors::has_vmdb_magic))]
fn magic_test(sector: &[u8]) -> bool
    requires { length sector.now ≡ 512 }
    ensures { result ≡ has_vmdb_magic sector.now }
{
    &sector[..4] == b"VMDB".as_slice()
}

#[tactic(auto, unfolding(crate::specs::Sectors::has_vmdb_version))]
fn version_test(sector: &[u8]) -> bool
    requires { length sector.now ≡ 512 }
    ensures { result ≡ has_vmdb_version sector.now }
{
    get_u16(sector, 0x12) == 4 && get_u16(sector, 0x14) == 10
}

#[tactic(auto, unfolding(crate::specs::Sectors::has_block_size))]
fn block_size_test(sector: &[u8]) -> bool
    requires { length sector.now ≡ 512 }
    ensures { result ≡ has_block_size sector.now }
{
    get_u32(sector, 0x08) == 128
}

#[tactic(auto, unfolding(crate::specs::Sectors::has_first_block))]
fn first_block_test(sector: &[u8]) -> bool
    requires { length sector.now ≡ 512 }
    ensures { result ≡ has_first_block sector.now }
{
    get_u32(sector, 0x0C) == 512
}

#[tactic(auto, unfolding(crate::specs::Sectors::is_settled))]
fn settled_test(sector: &[u8]) -> bool
    requires { length sector.now ≡ 512 }
    ensures { result ≡ is_settled sector.now }
{
    get_u16(sector, 0x10) == 1
}

#[tactic(auto, unfolding(crate::specs::Sectors::fits_area, crate::specs::Sectors::last_of))]
fn last_test(sector: &[u8], area_sectors: u64) -> bool
    requires { length sector.now ≡ 512 }
    ensures { result ≡ fits_area sector.now area_sectors }
{
    let blocks = 4 * u128::from(area_sectors);
    !(blocks < u128::from(get_u32(sector, 0x04)))
}

#[tactic(auto, unfolding(crate::specs::Sectors::group_guid))]
fn guid_in(sector: &[u8]) -> Option<u128>
    requires { length sector.now ≡ 512 }
    ensures { result ≡ group_guid sector.now }
{
    read_guid(&sector[0x35..0x59])
}

// The GUID of the group, where the sector has no fault.
#[tactic(auto, unfolding(crate::specs::Headers::vmdb_fault))]
fn test_header(sector: &[u8], area_sectors: u64) -> Result<u128, VmdbFault>
    requires { length sector.now ≡ 512 }
    ensures { MatchResult result
        (λ guid. (vmdb_fault sector.now area_sectors ≡ None) × (group_guid sector.now ≡ Some guid))
        (λ fault. vmdb_fault sector.now area_sectors ≡ Some fault) }
{
    if !magic_test(sector) {
        return Err(VmdbFault::Magic);
    }
    if !version_test(sector) {
        return Err(VmdbFault::Version);
    }
    if !block_size_test(sector) {
        return Err(VmdbFault::BlockSize);
    }
    if !first_block_test(sector) {
        return Err(VmdbFault::Offset);
    }
    if !settled_test(sector) {
        return Err(VmdbFault::Unsettled);
    }
    if !last_test(sector, area_sectors) {
        return Err(VmdbFault::Last);
    }
    guid_in(sector).ok_or(VmdbFault::Guid)
}

// The place of the first zero byte, or the length.
fn text_end(field: &[u8]) -> usize
    ensures is { result ≡ position_or_len (λ byte. byte == 0) field.now }
    ensures within { result ≤ length field.now }
{
    for (place, byte) in field.iter().enumerate() {
        if *byte == 0 {
            return place;
        }
    }
    field.len()
}

// The group's name.
#[tactic(auto, unfolding(crate::specs::Sectors::group_name))]
fn name_in(alloc: Global, sector: &[u8]) -> Result<Bytes, NoMemory>
    requires { length sector.now ≡ 512 }
    ensures { IfOk result (λ name. name ≡ group_name sector.now) }
{
    let field = &sector[0x16..0x35];
    Bytes::from_slice(alloc, &field[..text_end(field)])
}

// The carried header bytes.
#[tactic(auto, unfolding(crate::specs::Sectors::carried))]
fn carried_of(sector: &[u8; 512]) -> [u8; 512]
    ensures { result ≡ carried sector.now }
{
    let mut raw = *sector;
    put_bytes(&mut raw, 0x04, &[0; 4]);
    put_bytes(&mut raw, 0x75, &[0; 32]);
    put_bytes(&mut raw, 0xA1, &[0; 16]);
    raw
}

/// The header that a sector holds, in a config area of so many sectors.
pub fn read_header(
    alloc: Global,
    sector: &[u8; 512],
    area_sectors: u64,
) -> Result<Header, VmdbError>
    ensures { ReadsHeader result sector.now area_sectors }
{
    let guid = match test_header(sector, area_sectors) {
        Ok(guid) => guid,
        Err(fault) => return Err(VmdbError::Fault(fault)),
    };
    let name = name_in(alloc, sector)?;
    Ok(Header {
        last: get_u32(sector, 0x04),
        seq: get_u64(sector, 0x75),
        name,
        guid,
        raw: carried_of(sector),
    })
}
