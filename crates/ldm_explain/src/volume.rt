//! Why a job of a volume refused.
ghost use Rattle.std.specs.Prelude.{◌<◌};
ghost use Rattle.ldm_found.specs.Facts.{IsSoundGroup};

use crate::names::{Kind, say_unknown};
use crate::saying::{path_of, say};
use ldm_bytes::NoMemory;
use ldm_dump::{lost, lost_in};
use ldm_found::Found;
use ldm_group::Db;
use ldm_layout::{Plan, Shape};
use ldm_records::{Record, Volume};
use ldm_rules::sound_plan;
use ldm_scrub::missing_disk;
use ldm_table::TableFault;
use ldm_text::{Part, Text};
use ldm_words::Section;
use std::alloc::Global;

/// Says the name and the GUID of the disk of this id.
pub fn say_disk(text: &mut Text, db: &Db, id: u64) -> Result<(), NoMemory> {
    match db.by_id(2, id) {
        Some(Record::Disk(d)) => {
            let name = d.head.name.as_slice();
            say(text, "% (%)", &[Part::Name(name), Part::Guid(d.guid)])
        }
        _ => say(text, "disk %", &[Part::Number(id)]),
    }
}

// Says that something lies on a disk that is absent.
fn say_on_absent(text: &mut Text, db: &Db, disk: u64) -> Result<(), NoMemory> {
    text.push(b" lies on ")?;
    say_disk(text, db, disk)?;
    text.push(b", which is absent: name its image")
}

// Says that a range ends behind the volume of this name, which has `size` sectors.
fn say_behind(
    text: &mut Text,
    name: &[u8],
    size: u64,
    first: u64,
    count: u64,
) -> Result<(), NoMemory> {
    let parts = [
        Part::Name(name),
        Part::Number(size),
        Part::Number(count),
        Part::Number(first),
    ];
    say(
        text,
        "% has % sectors, and % from sector % on end behind them",
        &parts,
    )
}

/// Says why a range isn't of the volume of this name.
pub fn say_range(
    alloc: Global,
    text: &mut Text,
    db: &Db,
    name: &[u8],
    first: u64,
    count: u64,
) -> Result<(), NoMemory> {
    let Some(volume) = db.volume_named(name) else {
        return say_unknown(alloc, text, db, Kind::Volume, name);
    };
    if count == 0 || count > 4096 {
        return say(
            text,
            "COUNT is %, and map takes 1 to 4096",
            &[Part::Number(count)],
        );
    }
    say_behind(text, name, volume.size, first, count)
}

// The disk that a sector of a volume lies on, in the first copy.
fn disk_at(plan: &Plan, sector: u64) -> u64
    requires { sector < plan.now.size }
{
    let _copies = plan.copies();
    plan.place(sector, 0).disk
}

// Says which disk is to be named for a sector, where the volume has it.
fn say_sector(
    text: &mut Text,
    db: &Db,
    plan: &Plan,
    name: &[u8],
    sector: u64,
) -> Result<(), NoMemory> {
    if sector >= plan.size() {
        return Ok(());
    }
    let parts = [Part::Number(sector), Part::Name(name)];
    say(text, "sector % of %", &parts)?;
    say_on_absent(text, db, disk_at(plan, sector))
}

// Says which disk is to be named for the first sector that is lost, where there is one.
fn say_lost(
    text: &mut Text,
    db: &Db,
    plan: &Plan,
    name: &[u8],
    lost: Option<u64>,
) -> Result<(), NoMemory> {
    match lost {
        Some(sector) => say_sector(text, db, plan, name, sector),
        None => Ok(()),
    }
}

// Says why a section of the volume of this name, which has this plan, isn't dumped.
fn say_section(
    text: &mut Text,
    found: &Found,
    plan: &Plan,
    name: &[u8],
    section: Section,
) -> Result<(), NoMemory> {
    let Section { first, count } = section;
    let size = plan.size();
    if count == 0 {
        return text.push(b"COUNT is 0, and dump takes 1 at least");
    }
    if size < first || size - first < count {
        return say_behind(text, name, size, first, count);
    }
    say_lost(
        text,
        &found.db,
        plan,
        name,
        lost_in(found, plan, first, count),
    )
}

/// Says why the volume of this name, or a section of it, isn't dumped.
pub fn say_undumped(
    alloc: Global,
    text: &mut Text,
    found: &Found,
    name: &[u8],
    section: Option<Section>,
) -> Result<(), NoMemory>
    requires { IsSoundGroup found.now }
{
    let Some(volume) = found.db.volume_named(name) else {
        return say_unknown(alloc, text, &found.db, Kind::Volume, name);
    };
    let plan = sound_plan(alloc, &found.db, &found.labels, volume)?;
    match section {
        Some(section) => say_section(text, found, &plan, name, section),
        None => say_lost(text, &found.db, &plan, name, lost(found, &plan)),
    }
}

// Says that a disk with a part of the volume is absent, where one is. Bad places are no refusal.
fn say_missing(text: &mut Text, found: &Found, volume: &Volume) -> Result<(), NoMemory> {
    match missing_disk(found, volume.head.id) {
        Some(disk) => {
            let name = volume.head.name.as_slice();
            say(text, "a part of %", &[Part::Name(name)])?;
            say_on_absent(text, &found.db, disk)
        }
        None => Ok(()),
    }
}

/// Says why the volume of this name isn't scrubbed.
pub fn say_unscrubbed(
    alloc: Global,
    text: &mut Text,
    found: &Found,
    name: &[u8],
) -> Result<(), NoMemory>
    requires { IsSoundGroup found.now }
{
    let Some(volume) = found.db.volume_named(name) else {
        return say_unknown(alloc, text, &found.db, Kind::Volume, name);
    };
    let plan = sound_plan(alloc, &found.db, &found.labels, volume)?;
    match plan.shape() {
        Shape::Mirror | Shape::Raid5 => say_missing(text, found, volume),
        Shape::Span | Shape::Stripe => say(
            text,
            "% has no copies and no parity: only a mirror or a RAID-5 is scrubbed",
            &[Part::Name(name)],
        ),
    }
}

// What is said of a volume without a table, where its name and a number stand.
fn table_said(fault: TableFault) -> (&'static str, u64) {
    match fault {
        TableFault::Empty => ("% has no sectors", 0),
        TableFault::Chunk(chunk) => (
            "% has chunks of % sectors, and the kernel takes none of these: dump says its bytes",
            chunk,
        ),
        TableFault::Columns(columns) => (
            "% has % columns, and the kernel takes 253: dump says its bytes",
            columns as u64,
        ),
        TableFault::Name => (
            "the name of a device of % would have over 127 bytes: dump says its bytes",
            0,
        ),
        TableFault::SameName => (
            "two partitions of % have one name, and so would two devices: dump says its bytes",
            0,
        ),
        _ => ("% has no table", 0),
    }
}

/// Says why the volume of this name, which has this plan, has no table.
pub fn say_untabled(
    alloc: Global,
    text: &mut Text,
    names: &[String],
    found: &Found,
    plan: &Plan,
    name: &[u8],
    fault: TableFault,
) -> Result<(), NoMemory> {
    match fault {
        TableFault::Lost(sector) => say_sector(text, &found.db, plan, name, sector),
        TableFault::Rebuilt(sector) => {
            text.push(b"the last row isn't whole, and ")?;
            say_sector(text, &found.db, plan, name, sector)
        }
        TableFault::Word(image) => {
            let path = path_of(alloc, names, image)?;
            let said =
                "a table can't name %, as it has a colon, a backslash or a byte that isn't visible ASCII: name it by a link";
            say(text, said, &[Part::Word(path.as_bytes())])
        }
        fault => {
            let (said, number) = table_said(fault);
            say(text, said, &[Part::Name(name), Part::Number(number)])
        }
    }
}
