//! The records that are made from nothing.
ghost use Rattle.std.specs.Prelude.{◌≡◌, ◌≤◌, ◌<◌, ◌^◌, [], length, unwrap_or, Some, IfOk};
ghost use Rattle.ldm_bytes.specs.Guid.{own_guid};
ghost use Rattle.ldm_made.specs.Made.{new_partition, part_name, index_flags, IsStriping};
ghost use Rattle.ldm_made.specs.Made.{new_component, component_name, striping_flags, active};
ghost use Rattle.ldm_made.specs.Made.{new_volume, volume_kind, volume_fixed21, new_disk, new_group};

use ldm_bytes::{Bytes, NoMemory, write_guid};
use ldm_records::{
    Component, Disk, DiskForm, GroupForm, GroupRec, Head, Partition, Record, Striping, Volume,
};
use std::alloc::Global;

/// A new volume of a command's name and GUID: a RAID-5, or any other. Its size is in sectors. Its
/// type byte is 0x07, and its state `ACTIVE`.
pub fn new_volume(
    alloc: Global,
    id: u64,
    name: &[u8],
    guid: u128,
    raid: bool,
    children: u64,
    size: u64,
) -> Result<Record, NoMemory>
    requires { length name.now ≤ 255 }
    ensures { IfOk result (λ r. new_volume id name.now guid raid children size ≡ Some r) }
{
    let name = Bytes::from_slice(alloc, name)?;
    let kind = volume_kind(alloc, raid)?;
    let second = empty(alloc);
    let tail = empty(alloc);
    let fixed21 = volume_fixed21(raid);
    let guid = guid.to_be_bytes();
    let head = Head {
        mark: 0,
        flags: 0,
        id,
        name,
    };
    Ok(Record::Volume(Volume {
        head,
        kind,
        second,
        fixed21,
        children,
        fixed16: [0; 16],
        size,
        fixed4: [0; 4],
        part_type: 0x07,
        guid,
        id1: None,
        id2: None,
        size2: None,
        hint: None,
        tail,
    }))
}

fn empty(alloc: Global) -> Bytes
    ensures { result ≡ [] }
{
    Bytes::from_vec(Vec::new(alloc))
}

fn volume_kind(alloc: Global, raid: bool) -> Result<Bytes, NoMemory>
    ensures { IfOk result (λ kind. kind ≡ volume_kind raid) }
{
    if raid {
        Bytes::from_slice(alloc, b"raid5")
    } else {
        Bytes::from_slice(alloc, b"gen")
    }
}

fn volume_fixed21(raid: bool) -> [u8; 21]
    ensures { result ≡ volume_fixed21 raid }
{
    let number = if raid { 4 } else { 3 };
    [
        65, 67, 84, 73, 86, 69, 0, 0, 0, 0, 0, 0, 0, 0, number, 0, 0, 0, 0, 0, 0,
    ]
}

/// A new component, which is named `c` and its id in decimal. The layout type is 1 for a stripe, 2
/// for a span or a mirror, and 3 for RAID-5; a stripe and RAID-5 have a striping.
pub fn new_component(
    alloc: Global,
    id: u64,
    parent: u64,
    layout: u8,
    children: u64,
    striping: Option<Striping>,
) -> Result<Record, NoMemory>
    requires { IsStriping striping }
    ensures { IfOk result (λ r. new_component id parent layout children striping ≡ Some r) }
{
    let name = component_name(alloc, id)?;
    let state = active(alloc)?;
    let tail = empty(alloc);
    let flags = striping_flags(&striping);
    let head = Head {
        mark: 0,
        flags,
        id,
        name,
    };
    Ok(Record::Component(Component {
        head,
        state,
        layout,
        fixed4: [0; 4],
        children,
        fixed16: [0; 16],
        parent,
        fixed1: 0,
        striping,
        tail,
    }))
}

fn component_name(alloc: Global, id: u64) -> Result<Bytes, NoMemory>
    ensures { IfOk result (λ name. name ≡ component_name id) }
{
    let text = format!(in alloc; "c{id}")?;
    Ok(Bytes::from_vec(text.into_bytes()))
}

fn active(alloc: Global) -> Result<Bytes, NoMemory>
    ensures { IfOk result (λ state. state ≡ active) }
{
    Bytes::from_slice(alloc, b"ACTIVE")
}

fn striping_flags(striping: &Option<Striping>) -> u8
    ensures { result ≡ striping_flags striping.now }
{
    match striping {
        Some(_) => 0x10,
        None => 0,
    }
}

/// A new partition, which is named `p` and its id in decimal. Its start on the disk, its offset in
/// the component and its size are in sectors; a column of a stripe or RAID-5 has an index.
pub fn new_partition(
    alloc: Global,
    id: u64,
    start: u64,
    offset: u64,
    size: u64,
    parent: u64,
    disk: u64,
    index: Option<u64>,
) -> Result<Record, NoMemory>
    requires { unwrap_or index 0 < 2 ^ 64 }
    ensures { IfOk result (λ r. new_partition id start offset size parent disk index ≡ Some r) }
{
    let name = part_name(alloc, id)?;
    let tail = empty(alloc);
    let flags = index_flags(index);
    let head = Head {
        mark: 0,
        flags,
        id,
        name,
    };
    Ok(Record::Partition(Partition {
        head,
        fixed12: [0; 12],
        start,
        offset,
        size,
        parent,
        disk,
        index,
        tail,
    }))
}

fn part_name(alloc: Global, id: u64) -> Result<Bytes, NoMemory>
    ensures { IfOk result (λ name. name ≡ part_name id) }
{
    let text = format!(in alloc; "p{id}")?;
    Ok(Bytes::from_vec(text.into_bytes()))
}

fn index_flags(index: Option<u64>) -> u8
    ensures { result ≡ index_flags index }
{
    match index {
        Some(_) => 0x08,
        None => 0,
    }
}

/// A new disk (DSK3), with no alternative name.
pub fn new_disk(alloc: Global, id: u64, name: &[u8], guid: u128) -> Result<Record, NoMemory>
    requires { length name.now ≤ 255 }
    ensures { IfOk result (λ r. new_disk id name.now guid ≡ Some r) }
{
    let name = Bytes::from_slice(alloc, name)?;
    let alt = empty(alloc);
    let tail = empty(alloc);
    let head = Head {
        mark: 0,
        flags: 0,
        id,
        name,
    };
    let form = DiskForm::V3 {
        alt,
        fixed12: [0; 12],
    };
    Ok(Record::Disk(Disk {
        head,
        guid,
        form,
        tail,
    }))
}

/// A new group record (DGR3). It carries the GUID as its text in lower case.
pub fn new_group(alloc: Global, id: u64, name: &[u8], guid: u128) -> Result<Record, NoMemory>
    requires { length name.now ≤ 255 }
    ensures { IfOk result (λ r. new_group id name.now guid ≡ Some r) }
{
    let name = Bytes::from_slice(alloc, name)?;
    let guid = guid_text(alloc, guid)?;
    let tail = empty(alloc);
    let head = Head {
        mark: 0,
        flags: 0,
        id,
        name,
    };
    let form = GroupForm::V3 {
        guid,
        fixed12: [0; 12],
    };
    Ok(Record::Group(GroupRec {
        head,
        form,
        ids: None,
        tail,
    }))
}

fn guid_text(alloc: Global, guid: u128) -> Result<Bytes, NoMemory>
    ensures { IfOk result (λ text. text ≡ own_guid guid) }
{
    let mut text = [0; 36];
    write_guid(guid, &mut text);
    Bytes::from_slice(alloc, &text)
}
