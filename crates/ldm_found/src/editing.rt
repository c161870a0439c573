//! The first reason that a group may not be edited.
ghost use Rattle.std.specs.Prelude.{◌≡◌, find, option_copied, position};
ghost use Rattle.std.specs.Option.{option_map};
ghost use Rattle.ldm_group.specs.Order.{id_of};
ghost use Rattle.ldm_rules.specs.Present.{is_absent};
ghost use Rattle.ldm_found.specs.Editing.{is_small, clashes, blocked_in};

use ldm_copy::OpenFault;
use ldm_group::{Db, id_of};
use ldm_label::{Label, image_with};
use ldm_records::Record;

fn is_absent(labels: &[Label], r: &Record) -> bool
    ensures { result ≡ is_absent labels.now r.now }
{
    match r {
        Record::Disk(d) => image_with(labels, d.guid).is_none(),
        _ => false,
    }
}

fn first_absent<'a>(labels: &[Label], records: &'a [Record]) -> Option<&'a Record>
    ensures { option_copied result ≡ find (is_absent labels.now) records.now }
{
    records.iter().find(|r| is_absent(labels, r))
}

// The least disk record without an image.
fn absent(db: &Db, labels: &[Label]) -> Option<u64>
    ensures { result ≡ option_map id_of (find (is_absent labels.now) db.now.records) }
{
    match first_absent(labels, db.as_slice()) {
        Some(r) => Some(id_of(r)),
        None => None,
    }
}

fn is_small(last: u32, label: &Label) -> bool
    ensures { result ≡ is_small last label.now }
{
    label.area_sectors.saturating_mul(4) < u64::from(last)
}

// The first image whose config area is too small for a database with this last VBLK sequence.
fn first_small(last: u32, labels: &[Label]) -> Option<usize>
    ensures { result ≡ position (is_small last) labels.now }
{
    labels.iter().position(|label| is_small(last, label))
}

fn clashes(label: &Label) -> bool
    ensures { result ≡ clashes label.now }
{
    let area_end = label.area_start.saturating_add(label.area_sectors);
    let log_end = label.log_start.saturating_add(label.log_sectors);
    label.area_start < 3
        || 1856 < area_end
        || label.area_start.max(label.log_start) < area_end.min(log_end)
}

// The first image whose config area meets what else is in the database.
fn first_clash(labels: &[Label]) -> Option<usize>
    ensures { result ≡ position clashes labels.now }
{
    labels.iter().position(|label| clashes(label))
}

/// The first reason that the group may not be edited.
#[tactic(auto, unfolding(crate::specs::Editing::reasons))]
pub fn blocked(db: &Db, labels: &[Label]) -> Option<OpenFault>
    ensures { result ≡ blocked_in db.now labels.now }
{
    if let Some(id) = absent(db, labels) {
        return Some(OpenFault::Absent(id));
    }
    if labels.len() < 2 {
        return Some(OpenFault::FewDisks);
    }
    if let Some(image) = first_small(db.header().last, labels) {
        return Some(OpenFault::AreaSmall(image));
    }
    match first_clash(labels) {
        Some(image) => Some(OpenFault::AreaClash(image)),
        None => None,
    }
}
