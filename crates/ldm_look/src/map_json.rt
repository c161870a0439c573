//! The JSON of where sectors of a volume lie.
ghost use Rattle.std.specs.Prelude.{◌≡◌, ◌++◌, ◌+◌, ◌<◌, ◌≤◌, nat_eq, OnOk, IfOk, Some, None};
ghost use Rattle.std.specs.Prelude.{flat_map, is_none};
ghost use Rattle.std.specs.List.{range_with_len};
ghost use Rattle.std.specs.HashMap as hash;
ghost use Rattle.json.specs.Tree.{json_tokens};
ghost use Rattle.ldm_json.specs.Values.{line_of_json};
ghost use Rattle.ldm_places.specs.Layouts.{copies_of, parity_in};
ghost use Rattle.ldm_look.specs.MapJson.{place_json, place_jsons, copy_number_jsons, sector_jsons};
ghost use Rattle.ldm_look.specs.MapJson.{sectors_jsons, map_json};

use crate::mapped::{MappedDisk, image_sector, mapped_disks};
use crate::paths::{image_number, path_of};
use ldm_bytes::{Bytes, NoMemory};
use ldm_copy::Found;
use ldm_json::{Json, Scalar};
use ldm_layout::{Place, Plan};
use ldm_words::Paths;
use std::alloc::Global;
use std::collections::HashMap;

// What is no copy is the parity.
fn is_parity(copy: Option<u64>) -> bool
    ensures { result ≡ is_none copy }
{
    match copy {
        None => true,
        Some(_) => false,
    }
}

// The object of a sector at this sector of the disk's data: a copy, or the parity.
fn push_place<'a>(
    json: &mut Json,
    paths: &'a Paths,
    sector: u64,
    copy: Option<u64>,
    disk: &'a MappedDisk,
    start: u64,
) -> Result<(), NoMemory>
    ensures { OnOk result (json.new
        ≡ json.old ++ json_tokens (place_json paths.now sector copy disk.now start)) }
{
    let fields = [
        ("sector", Scalar::Number(sector)),
        ("copy", Scalar::Maybe(copy)),
        ("parity", Scalar::Flag(is_parity(copy))),
        ("disk", Scalar::Name(disk.name.as_slice())),
        ("image", Scalar::Maybe(image_number(disk.image))),
        ("path", Scalar::MaybeWord(path_of(paths, disk.image))),
        ("start", Scalar::Number(start)),
        (
            "image_start",
            Scalar::Maybe(image_sector(Some(disk), start)),
        ),
    ];
    json.object(&fields)
}

// The object of a place.
fn push_at(
    json: &mut Json,
    paths: &Paths,
    disks: &HashMap<u64, MappedDisk>,
    sector: u64,
    copy: Option<u64>,
    place: Place,
) -> Result<(), NoMemory>
    ensures { OnOk result (json.new ≡ json.old ++ flat_map json_tokens (place_jsons
        (λ id. hash.get nat_eq disks.now id) paths.now sector copy (Some place))) }
{
    match disks.get(&place.disk) {
        Some(disk) => push_place(json, paths, sector, copy, disk, place.sector),
        None => Ok(()),
    }
}

// The object of a copy of a sector.
fn push_copy(
    json: &mut Json,
    paths: &Paths,
    disks: &HashMap<u64, MappedDisk>,
    plan: &Plan,
    sector: u64,
    copy: usize,
) -> Result<(), NoMemory>
    requires within { sector < plan.now.size }
    requires copied { copy < copies_of plan.now }
    ensures { OnOk result (json.new ≡ json.old ++ flat_map json_tokens (copy_number_jsons
        (λ id. hash.get nat_eq disks.now id) paths.now plan.now sector copy)) }
{
    let place = plan.place(sector, copy);
    push_at(json, paths, disks, sector, Some(copy as u64), place)
}

// An object for each copy of a sector.
fn push_copies(
    json: &mut Json,
    paths: &Paths,
    disks: &HashMap<u64, MappedDisk>,
    plan: &Plan,
    sector: u64,
) -> Result<(), NoMemory>
    requires { sector < plan.now.size }
    ensures { OnOk result (json.new ≡ json.old ++ flat_map json_tokens (flat_map
        (copy_number_jsons (λ id. hash.get nat_eq disks.now id) paths.now plan.now sector)
        (range_with_len 0 (copies_of plan.now)))) }
{
    for copy in 0..plan.copies() {
        push_copy(json, paths, disks, plan, sector, copy)?;
    }
    Ok(())
}

// The object of the parity of a sector, where it has parity.
fn push_parity(
    json: &mut Json,
    paths: &Paths,
    disks: &HashMap<u64, MappedDisk>,
    plan: &Plan,
    sector: u64,
) -> Result<(), NoMemory>
    requires { sector < plan.now.size }
    ensures { OnOk result (json.new ≡ json.old ++ flat_map json_tokens (place_jsons
        (λ id. hash.get nat_eq disks.now id) paths.now sector None (parity_in plan.now sector))) }
{
    match plan.parity(sector) {
        Some(place) => push_at(json, paths, disks, sector, None, place),
        None => Ok(()),
    }
}

// The objects of a sector.
fn push_sector(
    json: &mut Json,
    paths: &Paths,
    disks: &HashMap<u64, MappedDisk>,
    plan: &Plan,
    sector: u64,
) -> Result<(), NoMemory>
    requires { sector < plan.now.size }
    ensures { OnOk result (json.new ≡ json.old ++ flat_map json_tokens (sector_jsons
        (λ id. hash.get nat_eq disks.now id) paths.now plan.now sector)) }
{
    push_copies(json, paths, disks, plan, sector)?;
    push_parity(json, paths, disks, plan, sector)
}

// The objects of so many sectors, from the first on.
fn push_sectors(
    json: &mut Json,
    paths: &Paths,
    disks: &HashMap<u64, MappedDisk>,
    plan: &Plan,
    first: u64,
    count: u64,
) -> Result<(), NoMemory>
    requires { first + count ≤ plan.now.size }
    ensures { OnOk result (json.new ≡ json.old ++ flat_map json_tokens (sectors_jsons
        (λ id. hash.get nat_eq disks.now id) paths.now plan.now first count)) }
{
    let behind = plan.size() - first;
    prove!(count <= behind);
    for step in 0..count {
        push_sector(json, paths, disks, plan, first + step)?;
    }
    Ok(())
}

/// The JSON that says where sectors of a volume of the group lie, by the volume's layout, on a line.
pub(crate) fn map_line(
    alloc: Global,
    paths: &Paths,
    found: &Found,
    plan: &Plan,
    first: u64,
    count: u64,
) -> Result<Bytes, NoMemory>
    requires { first + count ≤ plan.now.size }
    ensures { IfOk result (λ text. text
        ≡ line_of_json (map_json paths.now found.now plan.now first count)) }
{
    let disks = mapped_disks(alloc, found.labels.as_slice(), found.db.as_slice())?;
    let mut json = Json::new(alloc);
    json.begin_array()?;
    push_sectors(&mut json, paths, &disks, plan, first, count)?;
    json.end_array()?;
    json.into_line()
}
