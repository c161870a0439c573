//! Blocks, what they join to, and how payloads are written into them.
ghost use Rattle.std.specs.Prelude.{◌≡◌, ◌∷◌, [], IfOk};

use crate::made::check;
use ldm_bytes::{Bytes, NoMemory, put_bytes, put_u16, put_u32};
use ldm_frags::{FragError, FragFault, Joined, Joiner};
use ldm_vmdb::parts_of;
use ldm_written::{Slots, SplitError, join, split, write_record, write_unused};
use std::alloc::Global;

// A group, a part and a number of parts.
type Head = (u32, u16, u16);

const UNUSED: Head = (0, 0, 0);

// Group 9 stands in the blocks 8, 9 and 11.
const GROUP_9: [Head; 8] = [
    UNUSED,
    UNUSED,
    UNUSED,
    UNUSED,
    (9, 2, 3),
    (9, 0, 3),
    UNUSED,
    (9, 1, 3),
];

// The blocks from number 4 on with these heads. The bytes of a payload are the block's number.
fn blocks_of(heads: &[Head; 8]) -> [u8; 1024] {
    let mut blocks = [0u8; 1024];
    for k in 0..8 {
        let (group, part, parts) = heads[k];
        let at = 128 * k;
        blocks[at..at + 4].copy_from_slice(b"VBLK");
        put_u32(&mut blocks, at + 4, k as u32 + 4);
        put_u32(&mut blocks, at + 8, group);
        put_u16(&mut blocks, at + 12, part);
        put_u16(&mut blocks, at + 14, parts);
        blocks[at + 16..at + 128].fill(k as u8 + 4);
    }
    blocks
}

// What a joiner of these blocks answers.
fn fed(alloc: Global, blocks: &[u8; 1024]) -> Result<Vec<Joined>, FragError> {
    let (chunks, _) = blocks.as_chunks::<128>();
    let mut joiner = Joiner::new(alloc, 8)?;
    for block in chunks {
        joiner.feed(block)?;
    }
    joiner.finish()
}

// The payload of group 9.
fn payload_9() -> [u8; 336] {
    let mut payload = [9u8; 336];
    payload[112..224].fill(11);
    payload[224..].fill(8);
    payload
}

fn is_group_9(joined: &Joined) -> bool {
    joined.block == 9 && joined.payload.as_slice() == payload_9().as_slice()
}

// Whether group 9 was joined, and nothing else.
fn has_group_9(answer: &Result<Vec<Joined>, FragError>) -> bool {
    match answer {
        Ok(list) => list.len() == 1 && is_group_9(&list[0]),
        Err(_) => false,
    }
}

#[test]
fn joins_by_part(rt: HostRuntime) {
    let blocks = blocks_of(&GROUP_9);
    assert!(rt; has_group_9(&join(rt.alloc(), &blocks)));
    assert!(rt; has_group_9(&fed(rt.alloc(), &blocks)));
}

// Whether both ways to join answer this fault.
fn have_fault(alloc: Global, blocks: &[u8; 1024], fault: FragFault) -> bool {
    let want = Some(FragError::Fault(fault));
    join(alloc, blocks).err() == want && fed(alloc, blocks).err() == want
}

// The blocks of group 9, but for one with another head.
fn blocks_with(number: usize, head: Head) -> [u8; 1024] {
    let mut heads = GROUP_9;
    if number >= 4 && number < 12 {
        heads[number - 4] = head;
    }
    blocks_of(&heads)
}

const CHANGES: [(usize, Head, FragFault); 6] = [
    (11, UNUSED, FragFault::Missing(8)),
    (11, (9, 0, 3), FragFault::Repeated(11)),
    (11, (9, 1, 4), FragFault::Mixed(11)),
    (5, (1, 0, 5), FragFault::Parts(5)),
    (5, (1, 2, 2), FragFault::Part(5)),
    (5, (1, 0, 4), FragFault::Missing(5)),
];

#[test]
fn first_faults(rt: HostRuntime) {
    for (number, head, fault) in CHANGES {
        let blocks = blocks_with(number, head);
        check(&rt, have_fault(rt.alloc(), &blocks, fault), (number, head));
    }
}

#[test]
fn missing_after_all_blocks(rt: HostRuntime) {
    let mut blocks = blocks_of(&GROUP_9);
    blocks[128 * 7] = b'X';
    assert!(rt; have_fault(rt.alloc(), &blocks, FragFault::NoMagic(11)));
}

// The last answers of a joiner of nine blocks, which was fed these and the first again.
fn last_answers(alloc: Global, blocks: &[u8; 1024]) -> Result<[Option<FragError>; 3], FragError> {
    let (chunks, _) = blocks.as_chunks::<128>();
    let mut joiner = Joiner::new(alloc, 9)?;
    let mut answer = Ok(());
    for block in chunks {
        answer = joiner.feed(block);
    }
    let again = joiner.feed(&chunks[0]);
    Ok([answer.err(), again.err(), joiner.finish().err()])
}

#[test]
fn says_a_fault_again(rt: HostRuntime) {
    let answers = last_answers(rt.alloc(), &blocks_with(11, (9, 0, 3)));
    let fault = Some(FragError::Fault(FragFault::Repeated(11)));
    assert!(rt; answers == Ok([fault; 3]));
}

// A partition record with a name of 255 letters.
fn long_record() -> [u8; 301] {
    let mut record = [0u8; 301];
    record[..11].copy_from_slice(&[0, 0, 0, 0x33, 0, 0, 1, 0x25, 1, 7, 0xFF]);
    record[11..266].fill(b'x');
    record[294..].copy_from_slice(&[2, 8, 0, 1, 6, 1, 2]);
    record
}

#[test]
fn counts_parts(rt: HostRuntime) {
    for (len, parts) in [(1, 1), (112, 1), (113, 2), (448, 4)] {
        check(&rt, parts_of(len) == parts, len);
    }
}

// The blocks 4 to 6, which hold that record, and the unused block 7.
fn long_blocks(record: &[u8; 301]) -> [u8; 512] {
    let mut blocks = [0u8; 512];
    put_bytes(&mut blocks, 0, b"VBLK\0\0\0\x04\0\0\0\x04\0\0\0\x03");
    put_bytes(&mut blocks, 16, &record[..112]);
    put_bytes(&mut blocks, 128, b"VBLK\0\0\0\x05\0\0\0\x04\0\x01\0\x03");
    put_bytes(&mut blocks, 144, &record[112..224]);
    put_bytes(&mut blocks, 256, b"VBLK\0\0\0\x06\0\0\0\x04\0\x02\0\x03");
    put_bytes(&mut blocks, 272, &record[224..]);
    put_bytes(&mut blocks, 384, b"VBLK\0\0\0\x07");
    blocks
}

// This number of blocks, with the long record in them.
fn split_long(alloc: Global, blocks: u8) -> Result<Bytes, SplitError> {
    let record = Bytes::from_slice(alloc, &long_record())?;
    let payloads = vec![in alloc; record].or(Err(SplitError::NoMemory))?;
    split(alloc, &payloads, u32::from(blocks))
}

#[test]
fn splits_a_long_record(rt: HostRuntime) {
    let want = long_blocks(&long_record());
    let split = split_long(rt.alloc(), 4);
    assert!(rt; matches!(&split, Ok(blocks) if blocks.as_slice() == want.as_slice()));
}

#[test]
fn needs_three_blocks(rt: HostRuntime) {
    let error = split_long(rt.alloc(), 2).err();
    assert!(rt; error == Some(SplitError::NoRoom { need: 3, have: 2 }));
}

// The blocks 9, 5 and 7.
fn slots_apart(alloc: Global) -> Result<Slots, NoMemory>
    ensures { IfOk result (λ slots. slots ≡ 9 ∷ 5 ∷ 7 ∷ []) }
{
    Ok(Slots::from_vec(Vec::from_slice(alloc, &[9, 5, 7])?))
}

// What the blocks 4 to 9 join to, where that record stands in those three.
fn joined_apart(alloc: Global) -> Result<Vec<Joined>, FragError> {
    let slots = slots_apart(alloc)?;
    let mut blocks = [0u8; 768];
    for number in 4..10 {
        write_unused(number, &mut blocks);
    }
    write_record(&long_record(), &slots, &mut blocks);
    join(alloc, &blocks)
}

fn is_long_record(joined: &Joined) -> bool {
    let payload = joined.payload.as_slice();
    joined.block == 9
        && payload.len() == 336
        && payload.starts_with(&long_record())
        && payload.ends_with(&[0u8; 35])
}

#[test]
fn joins_a_record_out_of_order(rt: HostRuntime) {
    let joined = joined_apart(rt.alloc());
    assert!(rt; matches!(&joined, Ok(list) if list.len() == 1 && is_long_record(&list[0])));
}
