//! A group that was found, with its labels and a note for each image.
ghost use Rattle.std.specs.Prelude.{◌≡◌};
ghost use Rattle.ldm_label.specs.Present.{image_with};
ghost use Rattle.ldm_copy.specs.Images.{image_of};

use crate::fault::OpenFault;
use crate::notes::Notes;
use ldm_group::Db;
use ldm_label::{Labels, image_with};
use ldm_records::Record;

/// The group that images hold: its database, and a label and a note for each image in their order.
/// `blocked` is the first reason that it may not be edited.
#[derive(Drop)]
pub struct Found {
    pub db: Db,
    pub labels: Labels,
    pub notes: Notes,
    pub blocked: Option<OpenFault>,
}

impl Found {
    ghost use Rattle.std.specs.Prelude.{◌≡◌};
    ghost use Rattle.ldm_label.specs.Present.{image_with};
    ghost use Rattle.ldm_copy.specs.Images.{image_of};

    /// The first image of the disk with this GUID.
    pub fn image_with(&self, guid: u128) -> Option<usize>
        ensures { result ≡ image_with guid self.now.labels }
    {
        image_with(self.labels.as_slice(), guid)
    }

    /// The first image of the disk record of this id.
    pub fn image_of(&self, disk: u64) -> Option<usize>
        ensures { result ≡ image_of disk self.now.db.records self.now.labels }
    {
        match self.db.by_id(2, disk) {
            Some(Record::Disk(d)) => self.image_with(d.guid),
            _ => None,
        }
    }
}
