//! The tables of all volumes of a group that have one, in one text.
ghost use Rattle.std.specs.Prelude.{◌≡◌, ◌++◌, ◌∷◌, true, Some, Contains, IfOk, OnOk};
ghost use Rattle.ldm_records.specs.declared.types.Record.TheVariants as kinds;
ghost use Rattle.ldm_group.specs.Looks.{by_id};
ghost use Rattle.ldm_group.specs.Order.{kind_of, id_of};
ghost use Rattle.ldm_found.specs.Facts.{IsSoundGroup, LieOn};
ghost use Rattle.ldm_table.specs.Groups.{separator, AddsTable, AddsRecord, IsAllDevices};
ghost use Rattle.ldm_table.specs.Groups.{tables_text, text_of_tables_fault};
ghost use Rattle.ldm_table.specs.Laws.{GroupTablesAreVolumes, EachIsTabledOrFaulty};

use crate::faults::{TableFault, fault_text, has_namesakes};
use crate::parts::{Member, array_of};
use crate::table::{fault_over, push_devices};
use ldm_bytes::{Bytes, NoMemory};
use ldm_dump::volumes_lie_on_images;
use ldm_found::Found;
use ldm_host::Host;
use ldm_records::{Record, Volume};
use ldm_rules::sound_plan;
use ldm_text::{Text, push_name};
use ldm_words::Names;
use std::alloc::Global;

/// Why a group has no text of its tables. Where there are more reasons than one, the first counts.
#[derive(Drop)]
pub enum TablesFault {
    /// No volume has a table: the first is that of this name, and has none for this reason.
    NoTable(Bytes, TableFault),
    /// The group has no volume.
    NoVolume,
    /// Devices of two arrays would have one name.
    OneName,
}

/// What the volumes so far that have a table are made of.
#[derive(Drop)]
pub(crate) struct Devices {
    /// The devices as text.
    pub text: Text,
    /// The devices of their arrays.
    pub members: Vec<Option<Member>>,
    /// Whether there is such a volume.
    pub some: bool,
}

// A semicolon behind the volumes so far.
fn push_separator(devices: &mut Devices) -> Result<(), NoMemory>
    ensures text { OnOk result (devices.new.text ≡ devices.old.text ++ separator devices.old.some) }
    ensures members { devices.new.members ≡ devices.old.members }
    ensures some { OnOk result (devices.new.some ≡ true) }
{
    if devices.some {
        devices.text.push(b";")?;
    }
    devices.some = true;
    Ok(())
}

// Adds a volume, or answers why it has no table.
fn push_volume<H: Host>(
    alloc: Global,
    devices: &mut Devices,
    host: &H,
    found: &Found,
    volume: &Volume,
    words: &Names,
) -> Result<Option<TableFault>, NoMemory>
    requires sound { IsSoundGroup found.now }
    requires lies { LieOn found.now.labels (H.seen host.now).sizes }
    requires there { Contains found.now.db.records (kinds.Volume volume.now) }
    requires again { by_id 3 volume.now.head.id found.now.db.records
        ≡ Some (kinds.Volume volume.now) }
    ensures { IfOk result (λ fault. AddsTable words.now found.now volume.now devices.old
        devices.new fault) }
{
    let plan = sound_plan(alloc, &found.db, &found.labels, volume)?;
    volumes_lie_on_images();
    let mut members = array_of(alloc, host, found, &plan)?;
    if let Some(fault) = fault_over(alloc, found, volume, &plan, words, &members)? {
        return Ok(Some(fault));
    }
    push_separator(devices)?;
    push_devices(
        alloc,
        &mut devices.text,
        host,
        found,
        volume,
        &plan,
        words,
        &members,
    )?;
    devices.members.append(&mut members)?;
    Ok(None)
}

// Adds the volume that a record is, or answers why it has no table.
fn push_record<H: Host>(
    alloc: Global,
    devices: &mut Devices,
    host: &H,
    found: &Found,
    r: &Record,
    words: &Names,
) -> Result<Option<TablesFault>, NoMemory>
    requires sound { IsSoundGroup found.now }
    requires lies { LieOn found.now.labels (H.seen host.now).sizes }
    requires there { Contains found.now.db.records r.now }
    requires again { by_id (kind_of r.now) (id_of r.now) found.now.db.records
        ≡ Some r.now }
    ensures { IfOk result (λ fault. AddsRecord words.now found.now r.now devices.old
        devices.new fault) }
{
    let Record::Volume(volume) = r else {
        return Ok(None);
    };
    match push_volume(alloc, devices, host, found, volume, words)? {
        Some(fault) => Ok(Some(TablesFault::NoTable(volume.head.name.clone_in(alloc)?, fault))),
        None => Ok(None),
    }
}

// The devices of all volumes that have a table, or why none has one.
fn all_devices<H: Host>(
    alloc: Global,
    host: &H,
    found: &Found,
    words: &Names,
) -> Result<Result<Devices, TablesFault>, NoMemory>
    requires sound { IsSoundGroup found.now }
    requires lies { LieOn found.now.labels (H.seen host.now).sizes }
    ensures { IfOk result (λ answer. IsAllDevices words.now found.now answer) }
{
    let mut devices = Devices {
        text: Text::new(alloc),
        members: Vec::new(alloc),
        some: false,
    };
    let mut first = None;
    for record in found.db.as_slice() {
        let fault = push_record(alloc, &mut devices, host, found, record, words)?;
        first = first.or(fault);
    }
    if devices.some {
        Ok(Ok(devices))
    } else {
        Ok(Err(first.unwrap_or(TablesFault::NoVolume)))
    }
}

/// The line that makes read-only devices of all volumes of the group that have a table, of images
/// that these words name, or why there is none.
pub fn tables_text<H: Host>(
    alloc: Global,
    host: &H,
    found: &Found,
    words: &Names,
) -> Result<Result<Bytes, TablesFault>, NoMemory>
    requires sound { IsSoundGroup found.now }
    requires lies { LieOn found.now.labels (H.seen host.now).sizes }
    ensures { IfOk result (λ answer. answer ≡ tables_text words.now found.now) }
{
    let devices = match all_devices(alloc, host, found, words)? {
        Err(fault) => return Ok(Err(fault)),
        Ok(devices) => devices,
    };
    if has_namesakes(&devices.members) {
        return Ok(Err(TablesFault::OneName));
    }
    let mut text = devices.text;
    text.push(b"\n")?;
    Ok(Ok(text.into_bytes()))
}

// The text of a volume's fault.
#[tactic(auto, unfolding(crate::specs::Groups::text_of_tables_fault))]
fn volume_fault_text(alloc: Global, name: &[u8], fault: TableFault) -> Result<Bytes, NoMemory>
    ensures { IfOk result (λ text. text ≡ text_of_tables_fault
        (TablesFault.NoTable name.now fault)) }
{
    let said = fault_text(alloc, fault)?;
    let mut text = Text::new(alloc);
    push_name(&mut text, b"volume ", name)?;
    text.push(b": ")?;
    text.push(said.as_slice())?;
    Ok(text.into_bytes())
}

/// The text of a fault.
#[tactic(auto, unfolding(crate::specs::Groups::text_of_tables_fault))]
pub fn tables_fault_text(alloc: Global, fault: &TablesFault) -> Result<Bytes, NoMemory>
    ensures { IfOk result (λ text. text ≡ text_of_tables_fault fault.now) }
{
    match fault {
        TablesFault::NoTable(name, fault) => volume_fault_text(alloc, name.as_slice(), *fault),
        TablesFault::NoVolume => Bytes::from_slice(alloc, b"no volume"),
        TablesFault::OneName => Bytes::from_slice(alloc, b"two parts have one name"),
    }
}

/// That the devices of each volume in the text of a group, as the targets of the tables are read,
/// have exactly the sectors of the volume, each with the bytes of the volume; and that each volume of
/// the group is in the text or has no table. The call does nothing.
pub fn group_tables_are_volumes()
    ensures devices { GroupTablesAreVolumes }
    ensures each { EachIsTabledOrFaulty }
{}
