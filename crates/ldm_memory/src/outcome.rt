//! Which calls of a host in memory fail, and what they take.
// How a call ends, and what its bytes do.
ghost use Rattle.std.specs.Prelude.{◌≡◌, ◌≤◌, ◌<◌, ◌+◌, ◌-◌, ◌^◌, length, min, set, slice_index};
ghost use Rattle.std.specs.Prelude.{true, not, ◌||◌};
ghost use Rattle.ldm_memory.specs.Ending.{touches, is_unreadable};
ghost use Rattle.ldm_memory.specs.Steps.{is_whole};
ghost use Rattle.std.specs.Prelude.{slice_range};
ghost use Rattle.ldm_bytes.specs.Places.{put};
ghost use Rattle.ldm_host.specs.Images.{items_of};
ghost use Rattle.ldm_memory.specs.Plan.{next, outcome_of};
ghost use Rattle.ldm_host.specs.Seen.{image};

use ldm_host::DiskRange;

/// How a call ends, where it finds memory.
#[derive(Clone, Copy)]
pub enum Outcome {
    /// It takes all its bytes.
    Whole,
    /// It fails, and takes the first half of its bytes.
    Half,
    /// It fails, and takes nothing.
    Nothing,
}

/// Counts a call, and says how it ends.
pub fn next_outcome(chosen: &Vec<u64>, stop: u64, number: &mut u64) -> Outcome
    ensures number { number.new ≡ next number.old }
    ensures outcome { result ≡ outcome_of (record
        { number = number.new; chosen = chosen.now.items; stop = stop }) }
{
    *number = number.saturating_add(1);
    if *number > stop {
        Outcome::Nothing
    } else if chosen.contains(number) {
        Outcome::Half
    } else {
        Outcome::Whole
    }
}

/// Puts bytes at a place.
pub fn put_at(target: &mut Vec<u8>, at: usize, bytes: &[u8])
    requires { at + length bytes.now ≤ length target.old.items }
    ensures { target.new.items ≡ put target.old.items at bytes.now }
{
    target[at..at + bytes.len()].copy_from_slice(bytes);
}

/// Puts bytes at a place of one image.
pub fn put_in(images: &mut Vec<Vec<u8>>, disk: usize, at: usize, bytes: &[u8])
    requires disk { disk < length images.old.items }
    requires range { at + length bytes.now ≤ length (image (items_of images.old.items) disk) }
    ensures { items_of images.new.items
        ≡ set (items_of images.old.items) disk (put (image
        (items_of images.old.items) disk) at bytes.now) }
{
    put_at(&mut images[disk], at, bytes);
}

/// Counts bytes that were handed, up to the counter's last value.
pub fn hand(handed: &mut Vec<u64>, disk: usize, n: usize)
    requires { disk < length handed.old.items }
    ensures { handed.new.items ≡ set handed.old.items disk
        (min (slice_index handed.old.items disk + n) (2 ^ 64 - 1)) }
{
    handed[disk] = handed[disk].saturating_add(n as u64);
}

// Whether two ranges share a byte.
fn touches(one: DiskRange, other: DiskRange) -> bool
    ensures { result ≡ touches one other }
{
    one.disk == other.disk
        && u128::from(one.at) < u128::from(other.at) + other.length as u128
        && u128::from(other.at) < u128::from(one.at) + one.length as u128
}

// Whether one of the bad ranges has a byte of this one.
fn is_unreadable(bad: &[DiskRange], range: DiskRange) -> bool
    ensures { result ≡ is_unreadable bad.now range }
{
    bad.iter().any(|other| touches(range, *other))
}

/// Whether a read of a range is to fail: its outcome isn't whole, or a bad range has a byte of it.
pub fn is_read_to_fail(outcome: Outcome, bad: &[DiskRange], range: DiskRange) -> bool
    ensures { result ≡ not (is_whole outcome) || is_unreadable bad.now range }
{
    match outcome {
        Outcome::Whole => is_unreadable(bad, range),
        _ => true,
    }
}

/// Reads bytes at a place of one image, where it is to.
pub fn read_in(images: &Vec<Vec<u8>>, reads: bool, disk: usize, at: usize, buf: &mut [u8])
    requires disk { disk < length images.now.items }
    requires range { at + length buf.old ≤ length (image (items_of images.now.items) disk) }
    ensures { reads ≡ true → buf.new ≡ slice_range (image (items_of images.now.items) disk) at
        (at + length buf.old) }
{
    if reads {
        buf.copy_from_slice(&images[disk][at..at + buf.len()]);
    }
}
