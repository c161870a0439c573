//! The text of `show`.
ghost use Rattle.std.specs.Prelude.{◌≡◌, ◌++◌, ◌-◌, ◌<◌, nat_eq, length, slice_get, Some, All};
ghost use Rattle.std.specs.Prelude.{OnOk, IfOk, unwrap_or, codes, decimal};
ghost use Rattle.indexmap.specs.IndexMap as map;
ghost use Rattle.ldm_group.specs.Partitions.{used_on};
ghost use Rattle.ldm_group.specs.Room.{IsFitting, need_of, room_of};
ghost use Rattle.ldm_label.specs.Present.{sectors_by, image_with};
ghost use Rattle.ldm_look.specs.Show.{text_of_group, text_of_place, text_of_disk_at};
ghost use Rattle.ldm_look.specs.Show.{text_of_disks, text_of_show};

use crate::volumes::push_all_volumes;
use indexmap::IndexMap;
use ldm_bytes::{Bytes, NoMemory};
use ldm_copy::Found;
use ldm_group::{Db, used_of, used_sectors};
use ldm_label::{Label, Labels};
use ldm_records::{Disk, Record};
use ldm_text::{Part, Text, push_named, push_number, push_parts};
use std::alloc::Global;

// blocks NEED of ROOM, and the end of the line
fn push_blocks(text: &mut Text, db: &Db) -> Result<(), NoMemory>
    requires { All IsFitting db.now.records }
    ensures { OnOk result (text.new ≡ text.old
        ++ ((codes " blocks " ++ decimal (need_of db.now.records))
        ++ (codes " of " ++ decimal (room_of db.now.header.last)) ++ codes "\n")) }
{
    let parts = [
        Part::Word(b" blocks "),
        Part::Number(db.need()),
        Part::Word(b" of "),
        Part::Number(db.room()),
        Part::Word(b"\n"),
    ];
    push_parts(text, &parts)
}

// The line of the group.
#[tactic(auto, unfolding(crate::specs::Show::text_of_group))]
fn push_group(text: &mut Text, db: &Db) -> Result<(), NoMemory>
    requires { All IsFitting db.now.records }
    ensures { OnOk result (text.new ≡ text.old ++ text_of_group db.now) }
{
    let header = db.header();
    push_named(text, b"group ", header.name.as_slice(), header.guid)?;
    push_number(text, b" sequence ", header.seq)?;
    push_blocks(text, db)
}

// The sectors of an image's data that no partition has.
fn free_sectors(labels: &[Label], image: usize, used: u128) -> u64
    requires { image < length labels.now }
    ensures { result ≡ sectors_by (slice_get labels.now image) - used }
{
    u128::from(labels[image].data_size).saturating_sub(used) as u64
}

// image I free F
fn push_image(text: &mut Text, labels: &Labels, image: usize, used: u128) -> Result<(), NoMemory>
    requires { image < length labels.now }
    ensures { OnOk result (text.new ≡ text.old ++ text_of_place used labels.now (Some image)) }
{
    push_number(text, b" image ", image as u64)?;
    push_number(
        text,
        b" free ",
        free_sectors(labels.as_slice(), image, used),
    )
}

// The image of a disk, or that it is missing.
fn push_place(text: &mut Text, found: &Found, guid: u128, used: u128) -> Result<(), NoMemory>
    ensures { OnOk result (text.new ≡ text.old ++ text_of_place used found.now.labels
        (image_with guid found.now.labels)) }
{
    match found.image_with(guid) {
        None => text.push(b" missing"),
        Some(image) => push_image(text, &found.labels, image, used),
    }
}

// The line of a disk.
#[tactic(auto, unfolding(crate::specs::Show::text_of_disk_at))]
fn push_disk(
    text: &mut Text,
    found: &Found,
    d: &Disk,
    used: &IndexMap<u64, u128>,
) -> Result<(), NoMemory>
    ensures { OnOk result (text.new ≡ text.old
        ++ text_of_disk_at (λ disk. unwrap_or (map.get nat_eq used.now disk) 0)
        found.now.labels d.now) }
{
    push_number(text, b"disk ", d.head.id)?;
    push_named(text, b" ", d.head.name.as_slice(), d.guid)?;
    push_place(text, found, d.guid, used_of(used, d.head.id))?;
    text.push(b"\n")
}

// A line for each disk, by the sectors that the map has for it.
fn push_lines(text: &mut Text, found: &Found, used: &IndexMap<u64, u128>) -> Result<(), NoMemory>
    ensures { OnOk result (text.new ≡ text.old
        ++ text_of_disks (λ disk. unwrap_or (map.get nat_eq used.now disk) 0) found.now.labels
        found.now.db.records) }
{
    for r in found.db.as_slice() {
        if let Record::Disk(d) = r {
            push_disk(text, found, d, used)?;
        }
    }
    Ok(())
}

// A line for each disk.
fn push_disks(alloc: Global, text: &mut Text, found: &Found) -> Result<(), NoMemory>
    ensures { OnOk result (text.new ≡ text.old
        ++ text_of_disks (used_on found.now.db.records) found.now.labels found.now.db.records) }
{
    let used = used_sectors(alloc, found.db.as_slice())?;
    push_lines(text, found, &used)
}

/// The text that shows a group: its name, sequence and blocks, a line for each disk, and the
/// volumes with their components and partitions.
pub fn show_text(alloc: Global, found: &Found) -> Result<Bytes, NoMemory>
    requires { All IsFitting found.now.db.records }
    ensures { IfOk result (λ text. text ≡ text_of_show found.now) }
{
    let mut text = Text::new(alloc);
    push_group(&mut text, &found.db)?;
    push_disks(alloc, &mut text, found)?;
    push_all_volumes(alloc, &mut text, found.db.as_slice())?;
    Ok(text.into_bytes())
}
