//! Free sectors of a disk, and where new partitions start.
ghost use Rattle.std.specs.Prelude.{◌≡◌, ◌<◌, ◌^◌, All, IfOk};
ghost use Rattle.ldm_group.specs.Partitions.{EndsInRange};

use crate::made::database;
use crate::rules::labels;
use ldm_group::Db;
use ldm_rules::check;
use ldm_space::{FreeMap, Wanted, first_fit, place_all};
use std::alloc::Global;
use std::test::Fail;

// The group 1, disk 2, and the three partitions of a volume on it: 0+10, 20+10 and 35+5.
const RECORDS: &str =
    "1.9.1 2.2.1.1 3.6.6.1.25 4.7.7.3.6.2 5.8.8.0.10.7.2.0 5.10.9.20.10.7.2.10 5.11.10.35.5.7.2.20";

// The group of these records. No rule is broken, so each partition ends in range.
fn group(alloc: Global) -> Result<Db, Fail>
    ensures { IfOk result (λ db. All EndsInRange db.records) }
{
    let db = database(alloc, 64, RECORDS)?;
    if check(alloc, &db, &labels(alloc)?).is_err() {
        return Err(Fail::from("a broken rule"));
    }
    Ok(db)
}

// Some sectors of the disk, of which it has 50.
fn wanted(size: u64) -> Wanted
    requires { 0 < size }
    ensures { result ≡ record { disk = 2; limit = 50; size = size } }
{
    Wanted {
        disk: 2,
        limit: 50,
        size,
    }
}

// The starts of what is placed, or the place of the first that finds no fit.
fn starts(alloc: Global, all: &[Wanted]) -> Result<Result<Vec<u64>, usize>, Fail>
    requires some { All (λ w. 0 < w.size) all.now }
    requires limits { All (λ w. w.limit < 2 ^ 64) all.now }
{
    let db = group(alloc)?;
    let mut starts = Vec::new(alloc);
    match place_all(alloc, db.as_slice(), all)? {
        Ok(spots) => {
            for spot in &spots {
                starts.push(spot.start)?;
            }
            Ok(Ok(starts))
        }
        Err(at) => Ok(Err(at)),
    }
}

#[test]
fn places_at_the_first_fits(rt: HostRuntime) -> Result<(), Fail> {
    let all = [
        wanted(5),
        wanted(5),
        wanted(5),
        wanted(6),
        wanted(4),
        wanted(1),
    ];
    let Ok(five) = starts(rt.alloc(), &all[..5])? else {
        return Err(Fail::from("no fit"));
    };
    assert!(rt; five.as_slice() == [10, 15, 30, 40, 46].as_slice());
    assert!(rt; starts(rt.alloc(), &all)?.err() == Some(5));
    Ok(())
}

// The gaps of the disk.
fn map(alloc: Global) -> Result<FreeMap, Fail> {
    Ok(FreeMap::of(alloc, &group(alloc)?, 2, 50)?)
}

// The gaps of the map.
const GAPS: [(u64, u64); 3] = [(10, 10), (30, 5), (40, 10)];

// The start and length of each gap.
fn gaps_of(alloc: Global, map: &FreeMap) -> Result<Vec<(u64, u64)>, Fail> {
    let mut gaps = Vec::new(alloc);
    for gap in map.gaps() {
        gaps.push((gap.start, gap.len))?;
    }
    Ok(gaps)
}

// What is taken of the disk in turn, and where it starts, if it fits.
const TAKEN: [(u64, Option<u64>); 7] = [
    (5, Some(10)),
    (5, Some(15)),
    (5, Some(30)),
    (6, Some(40)),
    (5, None),
    (4, Some(46)),
    (1, None),
];

// Whether a taking of so many sectors starts there.
fn takes(map: &mut FreeMap, size: u64, start: Option<u64>) -> bool {
    0 < size && map.take(size) == start
}

#[test]
fn takes_from_the_first_gaps(rt: HostRuntime) -> Result<(), Fail> {
    let mut map = map(rt.alloc())?;
    let gaps = gaps_of(rt.alloc(), &map)?;
    assert!(rt; gaps.as_slice() == GAPS.as_slice());
    for (size, start) in &TAKEN {
        assert!(rt; takes(&mut map, *size, *start), "{size}");
    }
    assert!(rt; map.gaps().is_empty());
    Ok(())
}

// How many sectors the disk has, how many are wanted, and where they fit first.
const FITS: [(u64, u64, Option<u64>); 7] = [
    (50, 1, Some(10)),
    (50, 10, Some(10)),
    (50, 11, None),
    (51, 11, Some(40)),
    (20, 10, Some(10)),
    (19, 10, None),
    (0, 1, None),
];

#[test]
fn fits_first_behind_partitions(rt: HostRuntime) -> Result<(), Fail> {
    let group = group(rt.alloc())?;
    for (sectors, size, start) in FITS {
        let found = if size == 0 {
            None
        } else {
            first_fit(&group, 2, sectors, size)
        };
        assert!(rt; found == start, "{size} of {sectors}");
    }
    Ok(())
}
