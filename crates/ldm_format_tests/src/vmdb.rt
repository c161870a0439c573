//! Headers of the database: each first fault, and what a new sequence changes.
use crate::made::check;
use ldm_bytes::{put_bytes, put_u16, put_u32, put_u64};
use ldm_vmdb::{Header, VmdbError, VmdbFault, read_header};
use ldm_written::{Counts, write_header};
use std::alloc::Global;

// The header of a group `Dg0` with three disks at sequence 7.
fn sector() -> [u8; 512] {
    let mut sector = [0u8; 512];
    put_bytes(&mut sector, 0, b"VMDB");
    put_u32(&mut sector, 0x04, 64);
    put_u32(&mut sector, 0x08, 128);
    put_u32(&mut sector, 0x0C, 512);
    put_u16(&mut sector, 0x10, 1);
    put_u16(&mut sector, 0x12, 4);
    put_u16(&mut sector, 0x14, 10);
    put_bytes(&mut sector, 0x16, b"Dg0");
    put_bytes(&mut sector, 0x35, b"aaaaaaaa-aaaa-aaaa-aaaa-aaaaaaaaaaaa");
    put_u64(&mut sector, 0x75, 7);
    put_u64(&mut sector, 0x7D, 7);
    put_u32(&mut sector, 0x91, 3);
    put_u32(&mut sector, 0xAD, 3);
    sector
}

const COUNTS: Counts = Counts {
    volumes: 0,
    components: 0,
    partitions: 0,
    disks: 3,
};

fn is_usual(header: &Header) -> bool {
    header.last == 64 && header.seq == 7 && header.name.as_slice() == b"Dg0".as_slice()
}

// A sector with the header at sequence 8, where it is that usual one.
fn next_sector(header: &Result<Header, VmdbError>) -> Option<[u8; 512]> {
    match header {
        Ok(header) if is_usual(header) => {
            let mut sector = [0xEEu8; 512];
            write_header(header, 8, COUNTS, &mut sector);
            Some(sector)
        }
        _ => None,
    }
}

#[test]
fn a_new_sequence_changes_two_bytes(rt: HostRuntime) {
    let mut want = sector();
    let new = next_sector(&read_header(rt.alloc(), &want, 1481));
    want[0x7C] = 8;
    want[0x84] = 8;
    assert!(rt; new == Some(want));
}

// The fault of the sector in an area of 16 sectors, which holds blocks up to 64.
fn fault(alloc: Global, sector: &[u8; 512]) -> Option<VmdbFault> {
    match read_header(alloc, sector, 16).err() {
        Some(VmdbError::Fault(fault)) => Some(fault),
        _ => None,
    }
}

// A change that makes each fault, the last fault first.
const BREAKS: [(usize, u8, VmdbFault); 8] = [
    (0x58, b'-', VmdbFault::Guid),
    (0x07, 65, VmdbFault::Last),
    (0x11, 2, VmdbFault::Unsettled),
    (0x0E, 4, VmdbFault::Offset),
    (0x0B, 64, VmdbFault::BlockSize),
    (0x15, 11, VmdbFault::Version),
    (0x13, 3, VmdbFault::Version),
    (0x03, b'b', VmdbFault::Magic),
];

fn set(sector: &mut [u8; 512], place: usize, value: u8) {
    if place < 512 {
        sector[place] = value;
    }
}

#[test]
fn each_fault_comes(rt: HostRuntime) {
    assert!(rt; fault(rt.alloc(), &sector()).is_none());
    for (place, value, expected) in BREAKS {
        let mut broken = sector();
        set(&mut broken, place, value);
        check(&rt, fault(rt.alloc(), &broken) == Some(expected), place);
    }
}

#[test]
fn the_first_fault_comes(rt: HostRuntime) {
    let mut all = sector();
    for (place, value, expected) in BREAKS {
        set(&mut all, place, value);
        check(&rt, fault(rt.alloc(), &all) == Some(expected), place);
    }
}

const GUID_OF_A: u128 = 0xAAAA_AAAA_AAAA_AAAA_AAAA_AAAA_AAAA_AAAA;

// Whether it is a header with a name of 31 `n` and a GUID of 32 `a`.
fn has_long_name(header: &Result<Header, VmdbError>) -> bool {
    match header {
        Ok(header) => {
            header.name.as_slice() == [b'n'; 31].as_slice() && header.guid == GUID_OF_A
        }
        Err(_) => false,
    }
}

#[test]
fn a_name_of_31_bytes_and_an_upper_case_guid(rt: HostRuntime) {
    let mut long = sector();
    put_bytes(&mut long, 0x16, &[b'n'; 31]);
    put_bytes(&mut long, 0x35, b"AAAAAAAA-aaaa-AAAA-aaaa-AAAAAAAAAAAA");
    assert!(rt; has_long_name(&read_header(rt.alloc(), &long, 16)));
}
