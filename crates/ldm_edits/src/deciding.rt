//! What refuses a mirror to be longer: two components on one disk, and sizes that no mirror has.
ghost use Rattle.std.specs.Prelude.{◌≡◌, ◌==◌, ◌||◌, ◌+◌, ◌∷◌, [], map, length};
ghost use Rattle.std.specs.List.{list_any};
ghost use Rattle.ldm_edits.specs.Mirroring.{component_holds};
ghost use Rattle.ldm_edits.specs.Extended.{on_another, on_others, len_of, is_uneven, is_bad_growth};
ghost use Rattle.ldm_edits.specs.Asked.{has_twins, is_much};

use crate::asked::has_twins;
use crate::growing::held_by;
use ldm_group::Db;
use ldm_records::{Component, Record};
use ldm_space::Wanted;

// Whether a component has this id.
fn has_id(components: &[&Component], id: u64) -> bool
    ensures { result ≡ list_any (λ c. id == c.head.id) (map (λ c. c.now) components.now) }
{
    for c in components {
        if id == c.head.id {
            return true;
        }
    }
    false
}

// Whether a record is a partition on this disk, and of another component than this.
#[tactic(auto, using(crate::proofs::CrossLaws::across, crate::proofs::CrossLaws::no_part))]
fn on_another(r: &Record, components: &[&Component], own: u64, disk: u64) -> bool
    ensures { result ≡ on_another (r.now ∷ []) (map (λ c. c.now) components.now) own disk }
{
    let Record::Partition(p) = r else {
        return false;
    };
    if p.disk != disk {
        return false;
    }
    if p.parent == own {
        return false;
    }
    has_id(components, p.parent)
}

// Whether a record is a partition on the disk of a piece, and of another component than the piece's
// own.
fn meets_pieces(r: &Record, components: &[&Component], wanted: &[Wanted]) -> bool
    requires { length components.now ≡ length wanted.now }
    ensures { result ≡ on_others (r.now ∷ []) (map (λ c. c.now) components.now)
        (map (λ c. c.now) components.now) wanted.now }
{
    for at in 0..wanted.len() {
        let own = components[at].head.id;
        let disk = wanted[at].disk;
        if on_another(r, components, own, disk) {
            return true;
        }
    }
    false
}

// Whether a piece is on a disk of another component than its own. It goes over the records once.
fn on_others(db: &Db, components: &[&Component], wanted: &[Wanted]) -> bool
    requires { length components.now ≡ length wanted.now }
    ensures { result ≡ on_others db.now.records (map (λ c. c.now) components.now)
        (map (λ c. c.now) components.now) wanted.now }
{
    for r in db.as_slice() {
        if meets_pieces(r, components, wanted) {
            return true;
        }
    }
    false
}

/// The length of the first piece.
pub fn len_of(wanted: &[Wanted]) -> u64
    ensures { result ≡ len_of wanted.now }
{
    if wanted.len() == 0 { 0 } else { wanted[0].size }
}

// Whether a length is 0, or another than this.
fn is_uneven(len: u64, wanted: &[Wanted]) -> bool
    ensures { result ≡ is_uneven len wanted.now }
{
    wanted.iter().any(|w| w.size == 0 || w.size != len)
}

// Whether a component holds more than a number of the format says.
fn is_one_full(db: &Db, components: &[&Component]) -> bool
    ensures { result ≡ list_any (λ c. is_much (component_holds db.now.records c))
        (map (λ c. c.now) components.now) }
{
    for c in components {
        if held_by(db, c.head.id) > u128::from(u64::MAX) {
            return true;
        }
    }
    false
}

// Whether a capacity with a length is more than a number of the format says.
fn is_much_with(capacity: u128, len: u64) -> bool
    ensures { result ≡ is_much (capacity + len) }
{
    capacity > u128::from(u64::MAX) || capacity + u128::from(len) > u128::from(u64::MAX)
}

/// Whether two lengths differ, or one is 0, or the volume or the offset of a new partition is too
/// large.
pub fn is_bad_growth(db: &Db, capacity: u128, components: &[&Component], wanted: &[Wanted]) -> bool
    ensures { result ≡ is_bad_growth db.now.records capacity
        (map (λ c. c.now) components.now) wanted.now }
{
    let len = len_of(wanted);
    is_uneven(len, wanted) || is_much_with(capacity, len) || is_one_full(db, components)
}

/// Whether two pieces are on one disk, or one on a disk of another component than its own.
pub fn is_same_disk(db: &Db, components: &[&Component], wanted: &[Wanted]) -> bool
    requires { length components.now ≡ length wanted.now }
    ensures { result ≡ (has_twins wanted.now || on_others db.now.records
        (map (λ c. c.now) components.now) (map (λ c. c.now) components.now) wanted.now) }
{
    has_twins(wanted) || on_others(db, components, wanted)
}
