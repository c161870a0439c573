//! The text of `map`.
ghost use Rattle.std.specs.Prelude.{◌≡◌, ◌++◌, ◌+◌, ◌<◌, ◌≤◌, nat_eq, OnOk, IfOk, flat_map};
ghost use Rattle.std.specs.HashMap as hash;
ghost use Rattle.std.specs.List.{range_with_len};
ghost use Rattle.ldm_places.specs.Layouts.{copies_of};
ghost use Rattle.ldm_look.specs.Map.{text_of_image_sector, text_of_sector_on};
ghost use Rattle.ldm_look.specs.Map.{text_of_copy_number, text_of_parity, text_of_sector};
ghost use Rattle.ldm_look.specs.Map.{text_of_sectors, text_of_map};

use crate::mapped::{MappedDisk, mapped_disks};
use ldm_bytes::{Bytes, NoMemory};
use ldm_copy::Found;
use ldm_layout::Plan;
use ldm_text::{Text, push_name, push_number};
use std::alloc::Global;
use std::collections::HashMap;

// at Z, or missing
fn push_image_sector(text: &mut Text, data_start: Option<u64>, sector: u64) -> Result<(), NoMemory>
    ensures { OnOk result (text.new ≡ text.old ++ text_of_image_sector data_start sector) }
{
    match data_start {
        None => text.push(b" missing"),
        Some(data_start) => {
            text.push(b" at ")?;
            text.push_sum(data_start, sector)
        }
    }
}

// DISKNAME Y at Z, to the end of the line.
#[tactic(auto, unfolding(crate::specs::Map::text_of_sector_on))]
fn push_sector_on(text: &mut Text, disk: &MappedDisk, sector: u64) -> Result<(), NoMemory>
    ensures { OnOk result (text.new ≡ text.old ++ text_of_sector_on disk.now sector) }
{
    push_name(text, b" ", disk.name.as_slice())?;
    push_number(text, b" ", sector)?;
    push_image_sector(text, disk.data_start, sector)?;
    text.push(b"\n")
}

// The line of a copy of a sector.
#[tactic(auto, unfolding(crate::specs::Map::text_of_copy_number))]
fn push_copy(
    text: &mut Text,
    disks: &HashMap<u64, MappedDisk>,
    plan: &Plan,
    sector: u64,
    copy: usize,
) -> Result<(), NoMemory>
    requires within { sector < plan.now.size }
    requires copied { copy < copies_of plan.now }
    ensures { OnOk result (text.new ≡ text.old ++ text_of_copy_number
        (λ id. hash.get nat_eq disks.now id) plan.now sector copy) }
{
    let place = plan.place(sector, copy);
    let Some(disk) = disks.get(&place.disk) else {
        return Ok(());
    };
    text.push_number(sector)?;
    push_number(text, b" copy ", copy as u64)?;
    push_sector_on(text, disk, place.sector)
}

// A line for each copy of a sector.
fn push_copies(
    text: &mut Text,
    disks: &HashMap<u64, MappedDisk>,
    plan: &Plan,
    sector: u64,
) -> Result<(), NoMemory>
    requires { sector < plan.now.size }
    ensures { OnOk result (text.new ≡ text.old
        ++ flat_map (text_of_copy_number (λ id. hash.get nat_eq disks.now id) plan.now sector)
        (range_with_len 0 (copies_of plan.now))) }
{
    for copy in 0..plan.copies() {
        push_copy(text, disks, plan, sector, copy)?;
    }
    Ok(())
}

// The line of the parity of a sector, where it has parity.
#[tactic(auto, unfolding(crate::specs::Map::text_of_parity))]
fn push_parity(
    text: &mut Text,
    disks: &HashMap<u64, MappedDisk>,
    plan: &Plan,
    sector: u64,
) -> Result<(), NoMemory>
    requires { sector < plan.now.size }
    ensures { OnOk result (text.new ≡ text.old ++ text_of_parity
        (λ id. hash.get nat_eq disks.now id) plan.now sector) }
{
    let Some(place) = plan.parity(sector) else {
        return Ok(());
    };
    let Some(disk) = disks.get(&place.disk) else {
        return Ok(());
    };
    text.push_number(sector)?;
    text.push(b" parity")?;
    push_sector_on(text, disk, place.sector)
}

// The lines of a sector.
#[tactic(auto, unfolding(crate::specs::Map::text_of_sector))]
fn push_sector(
    text: &mut Text,
    disks: &HashMap<u64, MappedDisk>,
    plan: &Plan,
    sector: u64,
) -> Result<(), NoMemory>
    requires { sector < plan.now.size }
    ensures { OnOk result (text.new ≡ text.old ++ text_of_sector
        (λ id. hash.get nat_eq disks.now id) plan.now sector) }
{
    push_copies(text, disks, plan, sector)?;
    push_parity(text, disks, plan, sector)
}

// The lines of so many sectors, from the first on.
fn push_sectors(
    text: &mut Text,
    disks: &HashMap<u64, MappedDisk>,
    plan: &Plan,
    first: u64,
    count: u64,
) -> Result<(), NoMemory>
    requires { first + count ≤ plan.now.size }
    ensures { OnOk result (text.new ≡ text.old ++ text_of_sectors
        (λ id. hash.get nat_eq disks.now id) plan.now first count) }
{
    let behind = plan.size() - first;
    prove!(count <= behind);
    for step in 0..count {
        push_sector(text, disks, plan, first + step)?;
    }
    Ok(())
}

/// The text that says where sectors of a volume of the group lie, by the volume's layout.
pub fn map_text(
    alloc: Global,
    found: &Found,
    plan: &Plan,
    first: u64,
    count: u64,
) -> Result<Bytes, NoMemory>
    requires { first + count ≤ plan.now.size }
    ensures { IfOk result (λ text. text ≡ text_of_map found.now plan.now first count) }
{
    let disks = mapped_disks(alloc, found.labels.as_slice(), found.db.as_slice())?;
    let mut text = Text::new(alloc);
    push_sectors(&mut text, &disks, plan, first, count)?;
    Ok(text.into_bytes())
}
