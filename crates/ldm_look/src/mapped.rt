//! The disks that a map names, each with its image and the start of its data area.
ghost use Rattle.std.specs.Prelude.{◌≡◌, ◌==◌, ℕ, nat_eq, OnOk, IfOk, Some, None, if◌then◌else◌};
ghost use Rattle.std.specs.HashMap as hash;
ghost use Rattle.std.specs.Option.{option_copied, option_or};
ghost use Rattle.ldm_label.specs.Present.{data_start_with};
ghost use Rattle.ldm_look.specs.Map.{mapped_disk, mapped_at};
ghost use Rattle.ldm_look.specs.ShowJson.{image_sector};

use ldm_bytes::{Bytes, NoMemory};
use ldm_label::{Label, image_with, label_with};
use ldm_records::{Disk, Record};
use std::alloc::Global;
use std::collections::HashMap;

/// A disk of the group: its name, its first image, if there is one, and where its data begin there.
#[derive(Drop)]
pub(crate) struct MappedDisk {
    pub(crate) name: Bytes,
    pub(crate) image: Option<usize>,
    pub(crate) data_start: Option<u64>,
}

// Where the data of the disk with this GUID begin on its first image.
fn data_start(labels: &[Label], guid: u128) -> Option<u64>
    ensures { result ≡ data_start_with guid labels.now }
{
    label_with(labels, guid).map(|label| label.data_start)
}

fn mapped_disk(alloc: Global, labels: &[Label], d: &Disk) -> Result<MappedDisk, NoMemory>
    ensures { IfOk result (λ disk. disk ≡ mapped_disk labels.now d.now) }
{
    let name = d.head.name.clone_in(alloc)?;
    Ok(MappedDisk {
        name,
        image: image_with(labels, d.guid),
        data_start: data_start(labels, d.guid),
    })
}

// Keeps the disk of this id, unless one is kept.
fn keep_disk(
    disks: &mut HashMap<u64, MappedDisk>,
    id: u64,
    disk: MappedDisk,
) -> Result<(), NoMemory>
    ensures { OnOk result ((q : ℕ) → hash.get nat_eq disks.new q
        ≡ option_or (hash.get nat_eq disks.old q) (if id == q then Some disk else None)) }
{
    disks.entry(id)?.or_insert(disk);
    Ok(())
}

/// The disks by their ids.
pub(crate) fn mapped_disks(
    alloc: Global,
    labels: &[Label],
    records: &[Record],
) -> Result<HashMap<u64, MappedDisk>, NoMemory>
    ensures { IfOk result (λ m. (id : ℕ) → hash.get nat_eq m id
        ≡ mapped_at labels.now records.now id) }
{
    let mut disks = HashMap::new(alloc);
    for r in records {
        if let Record::Disk(d) = r {
            keep_disk(&mut disks, d.head.id, mapped_disk(alloc, labels, d)?)?;
        }
    }
    Ok(disks)
}

/// The sector of the image that is this sector of the disk's data.
pub(crate) fn image_sector(disk: Option<&MappedDisk>, sector: u64) -> Option<u64>
    ensures { result ≡ image_sector (option_copied disk.entry) sector }
{
    match disk {
        Some(disk) => match disk.data_start {
            Some(start) => start.checked_add(sector),
            None => None,
        },
        None => None,
    }
}
