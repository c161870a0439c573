//! The JSON of `show`.
ghost use Rattle.std.specs.Prelude.{◌≡◌, ◌++◌, ◌-◌, ◌+◌, ◌*◌, ◌∷◌, [], nat_eq, All};
ghost use Rattle.std.specs.Prelude.{OnOk, IfOk, unwrap_or, flat_map, map};
ghost use Rattle.std.specs.Option.{option_map, option_copied};
ghost use Rattle.std.specs.HashMap as hash;
ghost use Rattle.indexmap.specs.IndexMap as index;
ghost use Rattle.json.specs.Tree.{json_tokens};
ghost use Rattle.ldm_group.specs.Partitions.{used_on, EndsInRange};
ghost use Rattle.ldm_group.specs.Room.{IsFitting};
ghost use Rattle.ldm_space.specs.Free.{taken_in};
ghost use Rattle.ldm_space.specs.Gaps.{largest_free};
ghost use Rattle.ldm_layout.specs.Grouped.{IsListsOf};
ghost use Rattle.ldm_layout.specs.Parts.{plexes_at};
ghost use Rattle.ldm_layout.specs.Volumes.{shape_of};
ghost use Rattle.ldm_look.specs.ShowJson.{in_64_bits, partition_json};
ghost use Rattle.ldm_look.specs.ShowJson.{layout_word, component_json, component_jsons};
ghost use Rattle.ldm_look.specs.ShowJson.{partition_jsons, volume_json, shaped_volume};
ghost use Rattle.ldm_look.specs.ShowJson.{volume_jsons, all_volume_jsons, disk_json, disk_jsons};
ghost use Rattle.ldm_look.specs.ShowJson.{show_json};
ghost use Rattle.ldm_look.specs.States.{state_of};
ghost use Rattle.ldm_json.specs.Values.{line_of_json};

use crate::families::{Components, Partitions, components_by_volume, partitions_by_component};
use crate::mapped::{MappedDisk, image_sector, mapped_disks};
use crate::optional::{chunk_of, columns_of, name_in};
use crate::paths::{image_number, path_of};
use crate::states::{VolumeState, lost_count, state_of, state_word};
use crate::volumes::shape_word;
use indexmap::IndexMap;
use ldm_bytes::{Bytes, NoMemory};
use ldm_copy::Found;
use ldm_group::{used_of, used_sectors};
use ldm_json::{Json, Scalar};
use ldm_label::{Label, label_with};
use ldm_layout::{Parts, Shape, shape_of};
use ldm_records::{Component, Disk, Partition, Record, Volume};
use ldm_space::FreeMap;
use ldm_text::guid_of;
use ldm_words::Paths;
use std::alloc::Global;
use std::collections::HashMap;

// The name of a disk.
fn disk_name(disk: Option<&MappedDisk>) -> Option<&[u8]>
    ensures { option_map (λ n. n.now) result ≡ option_map (λ d. d.name) (option_copied disk.entry) }
{
    match disk {
        Some(disk) => Some(disk.name.as_slice()),
        None => None,
    }
}

fn push_partition<'a>(
    json: &mut Json,
    disk: Option<&'a MappedDisk>,
    p: &'a Partition,
) -> Result<(), NoMemory>
    ensures { OnOk result (json.new
        ≡ json.old ++ json_tokens (partition_json (option_copied disk.entry) p.now)) }
{
    let fields = [
        ("id", Scalar::Number(p.head.id)),
        ("name", Scalar::Name(p.head.name.as_slice())),
        ("disk", Scalar::MaybeName(disk_name(disk))),
        ("disk_id", Scalar::Number(p.disk)),
        ("start", Scalar::Number(p.start)),
        ("image_start", Scalar::Maybe(image_sector(disk, p.start))),
        ("size", Scalar::Number(p.size)),
        ("offset", Scalar::Number(p.offset)),
        ("index", Scalar::Maybe(p.index)),
    ];
    json.object(&fields)
}

// These partitions, on these disks.
fn push_partitions(
    json: &mut Json,
    disks: &HashMap<u64, MappedDisk>,
    family: &Partitions,
) -> Result<(), NoMemory>
    ensures { OnOk result (json.new ≡ json.old ++ flat_map json_tokens
        (partition_jsons (λ id. hash.get nat_eq disks.now id) family.now)) }
{
    let partitions = family.as_slice();
    for p in partitions {
        push_partition(json, disks.get(&p.disk), p)?;
    }
    Ok(())
}

fn layout_word(layout: u8) -> &'static str
    ensures { result.now ≡ layout_word layout }
{
    match layout {
        1 => "stripe",
        3 => "raid",
        _ => "basic",
    }
}

// The partitions of a component, on these disks.
fn push_partitions_of(
    json: &mut Json,
    disks: &HashMap<u64, MappedDisk>,
    family: Option<&Partitions>,
) -> Result<(), NoMemory>
    ensures { OnOk result (json.new ≡ json.old ++ flat_map json_tokens (partition_jsons
        (λ id. hash.get nat_eq disks.now id) (unwrap_or (option_copied family.entry) []))) }
{
    match family {
        Some(family) => push_partitions(json, disks, family),
        None => Ok(()),
    }
}

// A component with these partitions.
fn push_component(
    json: &mut Json,
    disks: &HashMap<u64, MappedDisk>,
    family: Option<&Partitions>,
    c: &Component,
) -> Result<(), NoMemory>
    ensures { OnOk result (json.new ≡ json.old ++ json_tokens (component_json
        (λ id. hash.get nat_eq disks.now id) (unwrap_or (option_copied family.entry) []) c.now)) }
{
    let fields = [
        ("id", Scalar::Number(c.head.id)),
        ("name", Scalar::Name(c.head.name.as_slice())),
        ("layout", Scalar::Word(layout_word(c.layout))),
        ("chunk", Scalar::Maybe(chunk_of(c.striping))),
        ("columns", Scalar::Maybe(columns_of(c.striping))),
    ];
    json.open(&fields, "partitions")?;
    push_partitions_of(json, disks, family)?;
    json.close()
}

// These components, each with its partitions.
fn push_components(
    json: &mut Json,
    disks: &HashMap<u64, MappedDisk>,
    partitions: &HashMap<u64, Partitions>,
    family: &Components,
) -> Result<(), NoMemory>
    ensures { OnOk result (json.new ≡ json.old ++ flat_map json_tokens (component_jsons
        (λ id. hash.get nat_eq disks.now id)
        (λ id. unwrap_or (hash.get nat_eq partitions.now id) []) family.now)) }
{
    let components = family.as_slice();
    for c in components {
        push_component(json, disks, partitions.get(&c.head.id), c)?;
    }
    Ok(())
}

// The components of a volume.
fn push_components_of(
    json: &mut Json,
    disks: &HashMap<u64, MappedDisk>,
    partitions: &HashMap<u64, Partitions>,
    family: Option<&Components>,
) -> Result<(), NoMemory>
    ensures { OnOk result (json.new ≡ json.old ++ flat_map json_tokens (component_jsons
        (λ id. hash.get nat_eq disks.now id)
        (λ id. unwrap_or (hash.get nat_eq partitions.now id) [])
        (unwrap_or (option_copied family.entry) []))) }
{
    match family {
        Some(family) => push_components(json, disks, partitions, family),
        None => Ok(()),
    }
}

// The bytes of so many sectors.
fn bytes_in(sectors: u64) -> Option<u64>
    ensures { result ≡ in_64_bits (sectors * 512) }
{
    sectors.checked_mul(512)
}

// A volume of this state with these components, where they make a shape.
fn push_volume(
    json: &mut Json,
    disks: &HashMap<u64, MappedDisk>,
    partitions: &HashMap<u64, Partitions>,
    family: Option<&Components>,
    v: &Volume,
    state: VolumeState,
    shape: Option<Shape>,
) -> Result<(), NoMemory>
    ensures { OnOk result (json.new ≡ json.old ++ flat_map json_tokens (shaped_volume
        (component_jsons (λ id. hash.get nat_eq disks.now id)
        (λ id. unwrap_or (hash.get nat_eq partitions.now id) [])
        (unwrap_or (option_copied family.entry) [])) v.now state shape)) }
{
    let Some(shape) = shape else {
        return Ok(());
    };
    let fields = [
        ("id", Scalar::Number(v.head.id)),
        ("name", Scalar::Name(v.head.name.as_slice())),
        ("guid", Scalar::Guid(guid_of(v))),
        ("type", Scalar::Word(shape_word(shape))),
        ("size", Scalar::Number(v.size)),
        ("bytes", Scalar::Maybe(bytes_in(v.size))),
        ("state", Scalar::Word(state_word(state))),
        ("lost_sectors", Scalar::Maybe(lost_count(state))),
        ("hint", Scalar::MaybeName(name_in(&v.hint))),
    ];
    json.open(&fields, "components")?;
    push_components_of(json, disks, partitions, family)?;
    json.close()
}

// All volumes, by the disks, and what components and volumes are made of.
fn push_volumes(
    alloc: Global,
    json: &mut Json,
    disks: &HashMap<u64, MappedDisk>,
    partitions: &HashMap<u64, Partitions>,
    components: &HashMap<u64, Components>,
    parts: &Parts,
    found: &Found,
) -> Result<(), NoMemory>
    requires ends { All EndsInRange found.now.db.records }
    requires lists { IsListsOf parts.now found.now.db.records }
    ensures { OnOk result (json.new ≡ json.old ++ flat_map json_tokens (volume_jsons
        (state_of found.now) (λ volume. shape_of (plexes_at volume parts.now.plexes))
        (λ volume. component_jsons (λ id. hash.get nat_eq disks.now id)
        (λ id. unwrap_or (hash.get nat_eq partitions.now id) [])
        (unwrap_or (hash.get nat_eq components.now volume) [])) found.now.db.records)) }
{
    for r in found.db.as_slice() {
        if let Record::Volume(v) = r {
            let state = state_of(alloc, found, parts, v)?;
            let shape = shape_of(parts.plexes(v.head.id));
            let family = components.get(&v.head.id);
            push_volume(json, disks, partitions, family, v, state, shape)?;
        }
    }
    Ok(())
}

// All volumes of a group.
fn push_all_volumes(alloc: Global, json: &mut Json, found: &Found) -> Result<(), NoMemory>
    requires { All EndsInRange found.now.db.records }
    ensures { OnOk result (json.new ≡ json.old ++ flat_map json_tokens
        (all_volume_jsons found.now)) }
{
    let records = found.db.as_slice();
    let disks = mapped_disks(alloc, found.labels.as_slice(), records)?;
    let partitions = partitions_by_component(alloc, records)?;
    let components = components_by_volume(alloc, records)?;
    let parts = Parts::of(alloc, records)?;
    push_volumes(alloc, json, &disks, &partitions, &components, &parts, found)
}

// The sectors of an image's data that no partition has.
fn free_in(label: &Label, used: u128) -> u64
    ensures { result ≡ label.now.data_size - used }
{
    u128::from(label.data_size).saturating_sub(used) as u64
}

// Where the data of a disk begin on its image, how many they are, and how many no partition has.
fn space_on(label: Option<&Label>, used: u128) -> (Option<u64>, Option<u64>, Option<u64>)
    ensures start { result.0 ≡ option_map (λ l. l.data_start) (option_copied label.entry) }
    ensures size { result.1 ≡ option_map (λ l. l.data_size) (option_copied label.entry) }
    ensures free { result.2 ≡ option_map (λ l. l.data_size - used) (option_copied label.entry) }
{
    match label {
        Some(label) => (
            Some(label.data_start),
            Some(label.data_size),
            Some(free_in(label, used)),
        ),
        None => (None, None, None),
    }
}

// The most sectors in a row that no partition of this disk has.
fn largest_on(
    alloc: Global,
    found: &Found,
    disk: u64,
    label: Option<&Label>,
) -> Result<Option<u64>, NoMemory>
    requires ends { All EndsInRange found.now.db.records }
    ensures { IfOk result (λ n. n ≡ option_map
        (λ l. largest_free (taken_in found.now.db.records) disk l.data_size)
        (option_copied label.entry)) }
{
    match label {
        Some(label) => {
            let map = FreeMap::of(alloc, &found.db, disk, label.data_size)?;
            Ok(Some(map.largest()))
        }
        None => Ok(None),
    }
}

// A disk, whose partitions have so many sectors.
fn push_disk<'a>(
    alloc: Global,
    json: &mut Json,
    paths: &'a Paths,
    found: &Found,
    d: &'a Disk,
    used: u128,
) -> Result<(), NoMemory>
    requires ends { All EndsInRange found.now.db.records }
    ensures { OnOk result (json.new ≡ json.old ++ json_tokens (disk_json paths.now used
        (taken_in found.now.db.records) found.now.labels d.now)) }
{
    let image = found.image_with(d.guid);
    let label = label_with(found.labels.as_slice(), d.guid);
    let (start, size, free) = space_on(label, used);
    let largest = largest_on(alloc, found, d.head.id, label)?;
    let fields = [
        ("id", Scalar::Number(d.head.id)),
        ("name", Scalar::Name(d.head.name.as_slice())),
        ("guid", Scalar::Guid(d.guid)),
        ("image", Scalar::Maybe(image_number(image))),
        ("path", Scalar::MaybeWord(path_of(paths, image))),
        ("data_start", Scalar::Maybe(start)),
        ("data_size", Scalar::Maybe(size)),
        ("free", Scalar::Maybe(free)),
        ("largest_free", Scalar::Maybe(largest)),
    ];
    json.object(&fields)
}

// All disks, by the sectors that the map has for each.
fn push_disks(
    alloc: Global,
    json: &mut Json,
    paths: &Paths,
    found: &Found,
    used: &IndexMap<u64, u128>,
) -> Result<(), NoMemory>
    requires ends { All EndsInRange found.now.db.records }
    ensures { OnOk result (json.new ≡ json.old ++ flat_map json_tokens
        (disk_jsons paths.now (λ disk. unwrap_or (index.get nat_eq used.now disk) 0)
        (taken_in found.now.db.records) found.now.labels found.now.db.records)) }
{
    for r in found.db.as_slice() {
        if let Record::Disk(d) = r {
            push_disk(alloc, json, paths, found, d, used_of(used, d.head.id))?;
        }
    }
    Ok(())
}

// All disks of a group.
fn push_all_disks(
    alloc: Global,
    json: &mut Json,
    paths: &Paths,
    found: &Found,
) -> Result<(), NoMemory>
    requires ends { All EndsInRange found.now.db.records }
    ensures { OnOk result (json.new ≡ json.old ++ flat_map json_tokens (disk_jsons paths.now
        (used_on found.now.db.records) (taken_in found.now.db.records) found.now.labels
        found.now.db.records)) }
{
    let used = used_sectors(alloc, found.db.as_slice())?;
    push_disks(alloc, json, paths, found, &used)
}

// The group.
fn push_group(alloc: Global, json: &mut Json, paths: &Paths, found: &Found) -> Result<(), NoMemory>
    requires fitting { All IsFitting found.now.db.records }
    requires ends { All EndsInRange found.now.db.records }
    ensures { OnOk result (json.new ≡ json.old ++ json_tokens (show_json paths.now found.now)) }
{
    let header = found.db.header();
    let fields = [
        ("sector_size", Scalar::Number(512)),
        ("name", Scalar::Name(header.name.as_slice())),
        ("guid", Scalar::Guid(header.guid)),
        ("sequence", Scalar::Number(header.seq)),
        ("blocks", Scalar::Number(found.db.need())),
        ("blocks_room", Scalar::Number(found.db.room())),
    ];
    json.open(&fields, "disks")?;
    push_all_disks(alloc, json, paths, found)?;
    json.next("volumes")?;
    push_all_volumes(alloc, json, found)?;
    json.close()
}

/// The JSON that shows a group, whose images have these words, on a line.
pub(crate) fn show_json(alloc: Global, paths: &Paths, found: &Found) -> Result<Bytes, NoMemory>
    requires fitting { All IsFitting found.now.db.records }
    requires ends { All EndsInRange found.now.db.records }
    ensures { IfOk result (λ text. text ≡ line_of_json (show_json paths.now found.now)) }
{
    let mut json = Json::new(alloc);
    push_group(alloc, &mut json, paths, found)?;
    json.into_line()
}
