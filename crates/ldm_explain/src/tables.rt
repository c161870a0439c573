//! Why the table of a volume, or those of all volumes, aren't had, and which volumes have none.
ghost use Rattle.std.specs.Prelude.{◌≡◌, Some, Contains};
ghost use Rattle.ldm_records.specs.declared.types.Record.TheVariants as kinds;
ghost use Rattle.ldm_group.specs.Looks.{by_id};
ghost use Rattle.ldm_group.specs.Order.{kind_of, id_of};
ghost use Rattle.ldm_found.specs.Facts.{IsSoundGroup, LieOn};

use crate::names::{Kind, say_unknown};
use crate::saying::say;
use crate::volume::say_untabled;
use ldm_bytes::NoMemory;
use ldm_dump::volumes_lie_on_images;
use ldm_found::Found;
use ldm_group::Db;
use ldm_host::Host;
use ldm_records::{Component, Partition, Record, Volume};
use ldm_rules::sound_plan;
use ldm_table::{TableFault, TablesFault, fault_text, table_fault, tables_text};
use ldm_text::{Part, Text};
use ldm_words::Names;
use std::alloc::Global;

// A volume, and why it has no table, if it has none.
#[derive(Clone, Copy)]
struct Judged<'a> {
    volume: &'a Volume,
    fault: Option<TableFault>,
}

// The volume that a record is, and why it has no table of images that these words name.
fn judge<'a, H: Host>(
    alloc: Global,
    host: &H,
    found: &Found,
    r: &'a Record,
    words: &Names,
) -> Result<Option<Judged<'a>>, NoMemory>
    requires sound { IsSoundGroup found.now }
    requires lies { LieOn found.now.labels (H.seen host.now).sizes }
    requires there { Contains found.now.db.records r.now }
    requires again { by_id (kind_of r.now) (id_of r.now) found.now.db.records
        ≡ Some r.now }
{
    let Record::Volume(volume) = r else {
        return Ok(None);
    };
    let plan = sound_plan(alloc, &found.db, &found.labels, volume)?;
    volumes_lie_on_images();
    let fault = table_fault(alloc, host, found, volume, &plan, words)?;
    Ok(Some(Judged { volume, fault }))
}

// All volumes of the group, in rising id, and why those have no table that have none.
fn judged_volumes<'a, H: Host>(
    alloc: Global,
    host: &H,
    found: &'a Found,
    words: &Names,
) -> Result<Vec<Judged<'a>>, NoMemory>
    requires sound { IsSoundGroup found.now }
    requires lies { LieOn found.now.labels (H.seen host.now).sizes }
{
    let mut volumes = Vec::new(alloc);
    for record in found.db.as_slice() {
        if let Some(judged) = judge(alloc, host, found, record, words)? {
            volumes.push(judged)?;
        }
    }
    Ok(volumes)
}

// Says that a volume has no table, and why, where it has none.
fn push_untabled(alloc: Global, text: &mut Text, judged: Judged) -> Result<(), NoMemory> {
    let Some(fault) = judged.fault else {
        return Ok(());
    };
    let reason = fault_text(alloc, fault)?;
    let parts = [
        Part::Name(judged.volume.head.name.as_slice()),
        Part::Word(reason.as_slice()),
    ];
    say(text, "ldm: volume % has no table: %\n", &parts)
}

/// A line for each volume that has no table of images that these words name, and so isn't in the
/// text of the tables of all volumes.
pub fn untabled_text<H: Host>(
    alloc: Global,
    host: &H,
    found: &Found,
    words: &Names,
) -> Result<Text, NoMemory>
    requires sound { IsSoundGroup found.now }
    requires lies { LieOn found.now.labels (H.seen host.now).sizes }
{
    let mut text = Text::new(alloc);
    for judged in &judged_volumes(alloc, host, found, words)? {
        push_untabled(alloc, &mut text, *judged)?;
    }
    Ok(text)
}

/// Says why the volume of this name has no table, where there is one and it has none.
pub fn say_no_table<H: Host>(
    alloc: Global,
    text: &mut Text,
    host: &H,
    names: &[String],
    found: &Found,
    name: &[u8],
    words: &Names,
) -> Result<(), NoMemory>
    requires sound { IsSoundGroup found.now }
    requires lies { LieOn found.now.labels (H.seen host.now).sizes }
{
    let Some(volume) = found.db.volume_named(name) else {
        return say_unknown(alloc, text, &found.db, Kind::Volume, name);
    };
    let plan = sound_plan(alloc, &found.db, &found.labels, volume)?;
    volumes_lie_on_images();
    match table_fault(alloc, host, found, volume, &plan, words)? {
        Some(fault) => say_untabled(alloc, text, names, found, &plan, name, fault),
        None => Ok(()),
    }
}

// A device of the array of a RAID-5: the name of its partition, and that of the volume.
#[derive(Clone, Copy)]
struct Device<'a> {
    partition: &'a [u8],
    volume: &'a [u8],
}

// Whether a component, of a volume of so many sectors, is a RAID-5 with a whole row, and so has an
// array.
fn has_array(component: &Component, size: u64) -> bool {
    let Some(striping) = component.striping else {
        return false;
    };
    let row = striping
        .chunk
        .checked_mul(component.children.saturating_sub(1));
    match row {
        Some(row) => component.layout == 3 && row <= size,
        None => false,
    }
}

// The volume that has the partition as a column of its array, if one does.
fn array_with<'a>(db: &'a Db, partition: &Partition) -> Option<&'a Volume> {
    let Some(Record::Component(component)) = db.by_id(4, partition.parent) else {
        return None;
    };
    let Some(Record::Volume(volume)) = db.by_id(3, component.parent) else {
        return None;
    };
    if has_array(component, volume.size) {
        Some(volume)
    } else {
        None
    }
}

// Whether one of these volumes has this id, and a table.
fn has_table(volumes: &[Judged], id: u64) -> bool {
    volumes.iter().any(|judged| judged.volume.head.id == id && judged.fault.is_none())
}

// The device that a record is, where the image of its disk is named and its volume, one of these,
// has a table.
fn device_of<'a>(found: &'a Found, volumes: &[Judged], r: &'a Record) -> Option<Device<'a>> {
    let Record::Partition(partition) = r else {
        return None;
    };
    let _image = found.image_of(partition.disk)?;
    let volume = array_with(&found.db, partition)?;
    if !has_table(volumes, volume.head.id) {
        return None;
    }
    Some(Device {
        partition: partition.head.name.as_slice(),
        volume: volume.head.name.as_slice(),
    })
}

// The first of these devices whose partition has this name.
fn device_named<'a>(devices: &[Device<'a>], name: &[u8]) -> Option<Device<'a>> {
    for device in devices {
        if device.partition == name {
            return Some(*device);
        }
    }
    None
}

// Says which partitions of the arrays of two of these volumes, those of the group, have one name.
fn say_namesakes(
    alloc: Global,
    text: &mut Text,
    found: &Found,
    volumes: &[Judged],
) -> Result<(), NoMemory> {
    let mut devices = Vec::new(alloc);
    for r in found.db.as_slice() {
        let Some(device) = device_of(found, volumes, r) else {
            continue;
        };
        if let Some(other) = device_named(&devices, device.partition) {
            let parts = [
                Part::Name(other.volume),
                Part::Name(device.volume),
                Part::Name(device.partition),
            ];
            let said =
                "% and % each have a partition called %, and so two devices would have one name: take the table of one, and dump the other";
            return say(text, said, &parts);
        }
        devices.push(device)?;
    }
    Ok(())
}

/// Says why there is no text of the tables of all volumes, where there is none.
pub fn say_no_tables<H: Host>(
    alloc: Global,
    text: &mut Text,
    host: &H,
    names: &[String],
    found: &Found,
    words: &Names,
) -> Result<(), NoMemory>
    requires sound { IsSoundGroup found.now }
    requires lies { LieOn found.now.labels (H.seen host.now).sizes }
{
    match tables_text(alloc, host, found, words)? {
        Err(TablesFault::NoTable(name, _)) => {
            say_no_table(alloc, text, host, names, found, name.as_slice(), words)
        }
        Err(TablesFault::NoVolume) => {
            let group = found.db.header().name.as_slice();
            say(
                text,
                "group % has no volume to make a device of",
                &[Part::Name(group)],
            )
        }
        Err(TablesFault::OneName) => {
            let volumes = judged_volumes(alloc, host, found, words)?;
            say_namesakes(alloc, text, found, &volumes)
        }
        Ok(_) => Ok(()),
    }
}
