//! The volume that an extend makes longer, and its group.

use ldm_group::Db;
use ldm_label::Labels;
use ldm_records::Volume;

/// The volume that an extend makes longer, and its group.
#[derive(Drop)]
pub struct Subject<'a> {
    /// The group, to which records may be added.
    pub db: &'a Db,
    /// The labels of its images.
    pub labels: &'a Labels,
    /// Fewer records of both, among which the volume is as among all.
    pub own: &'a Db,
    /// The volume.
    pub volume: &'a Volume,
}
