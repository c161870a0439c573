//! What a stop leaves of a copy that is rewritten, and bodies that are read back.
ghost use Rattle.std.specs.Prelude.{◌<◌, length, slice_index, IfOk};
ghost use Rattle.ldm_memory.specs.Memory.{memory_seen};
ghost use Rattle.ldm_host.specs.Moves.{Settled};
ghost use Rattle.ldm_host.specs.Seen.{image};
ghost use Rattle.ldm_label.specs.LabelOf.{Fits};
ghost use Rattle.ldm_copy.specs.Answers.{FitsHeader};
ghost use Rattle.ldm_copy.specs.Copy.{config_area, IsOpen};

use crate::made::put;
use ldm_body::{body_of, rewrite};
use ldm_bytes::{put_bytes, put_u16, put_u32};
use ldm_copy::{CopyState, read_copy};
use ldm_group::Db;
use ldm_host::Host;
use ldm_images::usual_images;
use ldm_label::{Label, read_label};
use ldm_memory::{Filling, MemoryHost};
use ldm_vectors::sample_images;
use std::alloc::Global;
use std::test::Fail;

// The label of the second disk, and the database of its open copy.
fn opened(alloc: Global, host: &mut MemoryHost) -> Result<(Label, Db), Fail>
    requires two { 1 < length (memory_seen host.old).sizes }
    requires settled { Settled (memory_seen host.old) 1 }
    ensures two { 1 < length (memory_seen host.new).sizes }
    ensures settled { Settled (memory_seen host.new) 1 }
    ensures fits { IfOk result (λ read. Fits read.0 (slice_index (memory_seen host.new).sizes 1)) }
    ensures opened { IfOk result (λ read. IsOpen (config_area read.0
        (image (memory_seen host.new).content 1))) }
    ensures room { IfOk result (λ read. FitsHeader read.1) }
{
    let Ok(label) = read_label(host, 1) else {
        return Err(Fail::from("no label"));
    };
    let Ok(CopyState::Valid(db)) = read_copy(alloc, host, 1, &label) else {
        return Err(Fail::from("no open copy"));
    };
    Ok((label, db))
}

// Rewrites the open copy of the second disk with the body of a database, and answers whether no
// call failed.
fn rewrites(alloc: Global, host: &mut MemoryHost, label: &Label, db: &Db) -> Result<bool, Fail>
    requires two { 1 < length (memory_seen host.old).sizes }
    requires settled { Settled (memory_seen host.old) 1 }
    requires fits { Fits label.now (slice_index (memory_seen host.old).sizes 1) }
    requires opened { IsOpen (config_area label.now (image (memory_seen host.old).content 1)) }
    requires room { FitsHeader db.now }
    ensures two { 1 < length (memory_seen host.new).sizes }
{
    let last = db.header().last;
    if last < 4 || last > 8192 || u64::from(last) > 4 * label.area_sectors {
        return Err(Fail::from("no room"));
    }
    let body = body_of(alloc, db)?;
    Ok(rewrite(host, 1, label, &body).is_ok())
}

// A host of these images, of which there are two at least.
fn host_of(alloc: Global, images: Vec<Vec<u8>>) -> Result<MemoryHost, Fail>
    ensures two { IfOk result (λ host. 1 < length (memory_seen host).sizes) }
    ensures settled { IfOk result (λ host. Settled (memory_seen host) 1) }
{
    let host = MemoryHost::new(alloc, images, Vec::new(alloc))?;
    if host.disks() < 2 {
        return Err(Fail::from("no second disk"));
    }
    Ok(host)
}

// The images of the sample group, with this sequence in the copy of the second disk.
fn images_at(alloc: Global, sequence: u8) -> Result<Vec<Vec<u8>>, Fail> {
    let mut images = sample_images(alloc, 2, 64)?;
    if let Some(image) = images.get_mut(1) {
        put(image, 0x7C, &[sequence]);
        put(image, 0x84, &[sequence]);
    }
    Ok(images)
}

// The database of the second copy, of sequence 8.
fn newer(alloc: Global) -> Result<Db, Fail>
    ensures { IfOk result FitsHeader }
{
    let mut host = host_of(alloc, images_at(alloc, 8)?)?;
    let (_, db) = opened(alloc, &mut host)?;
    Ok(db)
}

// A host whose second copy, of sequence 7, is rewritten with this database, stopped after so many
// of the calls.
fn stopped(alloc: Global, db: &Db, calls: u64) -> Result<MemoryHost, Fail>
    requires { FitsHeader db.now }
{
    let mut host = host_of(alloc, images_at(alloc, 7)?)?;
    let (label, _) = opened(alloc, &mut host)?;
    // A label takes eight reads, and a copy one for its first sector and one for every eight of the
    // 15 behind it.
    let mut host = host.stop_after(calls.saturating_add(11));
    rewrites(alloc, &mut host, &label, db)?;
    Ok(host)
}

// The copy on the second disk.
fn copy_on(alloc: Global, host: &mut MemoryHost) -> Result<CopyState, Fail>
    requires { 1 < length (memory_seen host.old).sizes }
{
    let Ok(label) = read_label(host, 1) else {
        return Err(Fail::from("no label"));
    };
    match read_copy(alloc, host, 1, &label) {
        Ok(copy) => Ok(copy),
        Err(_) => Err(Fail::from("no copy")),
    }
}

// What reads on the second of these images: the digit of the sequence, or a minus of a closed copy.
fn reading(alloc: Global, images: Vec<Vec<u8>>) -> Result<char, Fail> {
    let mut host = host_of(alloc, images)?;
    match copy_on(alloc, &mut host)? {
        CopyState::Closed => Ok('-'),
        CopyState::Valid(db) if db.header().seq == 7 => Ok('7'),
        CopyState::Valid(db) if db.header().seq == 8 => Ok('8'),
        CopyState::Valid(_) => Err(Fail::from("another sequence")),
    }
}

// For each number of calls, what reads of an image whose pending bytes are the old ones, the new
// ones, all 0x56 and all 0x00. The calls are the write of the gate and its sync, of the body, and
// of the gate.
const READINGS: [&str; 7] = ["7777", "7-7-", "----", "----", "----", "-88-", "8888"];

const FILLINGS: [Filling; 4] = [
    Filling::Old,
    Filling::New,
    Filling::Fill(0x56),
    Filling::Fill(0x00),
];

// What reads of the second image, with each filling.
fn readings(alloc: Global, host: &MemoryHost) -> Result<String, Fail> {
    let mut read = String::new(alloc);
    for filling in FILLINGS {
        read.push(reading(alloc, host.left(alloc, filling)?)?)?;
    }
    Ok(read)
}

// What reads of it, stopped after so many of the calls.
fn left_after(alloc: Global, calls: u64) -> Result<String, Fail> {
    let db = newer(alloc)?;
    readings(alloc, &stopped(alloc, &db, calls)?)
}

#[test]
fn what_a_stop_leaves(rt: HostRuntime) -> Result<(), Fail> {
    let mut calls: u64 = 0;
    for want in &READINGS {
        let read = left_after(rt.alloc(), calls)?;
        assert_eq!(rt; read.as_str(), *want, "{calls}");
        calls = calls.saturating_add(1);
    }
    Ok(())
}

// Whether the second copy is the same group once it is rewritten.
fn reads_back(alloc: Global, images: Vec<Vec<u8>>) -> Result<bool, Fail> {
    let mut host = host_of(alloc, images)?;
    let (label, db) = opened(alloc, &mut host)?;
    if !rewrites(alloc, &mut host, &label, &db)? {
        return Err(Fail::from("a call failed"));
    }
    let CopyState::Valid(again) = copy_on(alloc, &mut host)? else {
        return Err(Fail::from("a closed copy"));
    };
    Ok(again.same_core(&db))
}

// The part of this number, and the block that holds it, of a disk record whose own spelling has 448
// bytes: a name of 255 letters, and a tail. The group of the fragments is block 8.
fn long_part(part: u8) -> [u8; 128] {
    let mut block = [b'x'; 128];
    put_bytes(&mut block, 0, b"VBLK");
    put_u32(&mut block, 4, 8 + u32::from(part));
    put_u32(&mut block, 8, 8);
    put_u16(&mut block, 12, u16::from(part));
    put_u16(&mut block, 14, 4);
    if part == 0 {
        put_bytes(&mut block, 16, &[0, 0, 0, 0x44, 0, 0, 1, 0xB8, 1, 9, 255]);
    }
    block
}

// The images of the sample group, whose second copy has that record too.
fn long_images(alloc: Global) -> Result<Vec<Vec<u8>>, Fail> {
    let mut images = sample_images(alloc, 2, 64)?;
    if let Some(image) = images.get_mut(1) {
        for part in 0u8..4 {
            put(image, 128 * (8 + usize::from(part)), &long_part(part));
        }
    }
    Ok(images)
}

#[test]
fn bodies_read_back(rt: HostRuntime) -> Result<(), Fail> {
    let alloc = rt.alloc();
    assert!(rt; reads_back(alloc, usual_images(alloc)?)?);
    assert!(rt; reads_back(alloc, long_images(alloc)?)?);
    Ok(())
}
