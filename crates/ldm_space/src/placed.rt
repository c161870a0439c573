//! Where the new partitions of one command lie.
ghost use Rattle.std.specs.Prelude.{◌≡◌, ◌-◌, ◌^◌, ◌<◌, ◌∷◌, ◌++◌, List, All, IfOk, IfSome};
ghost use Rattle.std.specs.Prelude.{MatchOption};
ghost use Rattle.ldm_group.specs.Partitions.{EndsInRange};
ghost use Rattle.ldm_space.specs.Free.{Taken, taken_in, first_free_start};
ghost use Rattle.ldm_space.specs.Gaps.{AreGaps};
ghost use Rattle.ldm_space.specs.Wanted.{placed};
ghost use Rattle.ldm_space.specs.Placed.{ListsAs};

use crate::gaps::FreeMap;
use ldm_bytes::NoMemory;
use ldm_made::Taken;
use ldm_records::Record;
use std::alloc::Global;
use std::collections::BTreeMap;

/// `size` sectors that are asked of the disk of this id, whose data area has `limit` sectors.
#[derive(Clone, Copy)]
pub struct Wanted {
    pub disk: u64,
    pub limit: u64,
    pub size: u64,
}

// The map of a disk that was met, or one that is made of the partitions. It has no limit: what is
// asked of it says its own.
fn opened(
    alloc: Global,
    records: &[Record],
    more: &[Record],
    disk: u64,
    kept: Option<FreeMap>,
) -> Result<FreeMap, NoMemory>
    requires ends { All EndsInRange (records.now ++ more.now) }
    ensures { IfOk result (λ map. MatchOption kept
        (AreGaps map (taken_in (records.now ++ more.now)) disk (2 ^ 64 - 1)) (λ old. map ≡ old)) }
{
    match kept {
        Some(map) => Ok(map),
        None => FreeMap::beside(alloc, records, more, disk, u64::MAX),
    }
}

// Takes the first fit, where it ends within the limit. The map is of no use after `None`.
fn fit(map: &mut FreeMap, asked: Wanted) -> Option<u64>
    requires some { 0 < asked.size }
    ensures first { (taken : List Taken) → AreGaps map.old taken asked.disk (2 ^ 64 - 1)
        → result ≡ first_free_start taken asked.disk asked.limit asked.size }
    ensures left { IfSome result (λ start. (taken : List Taken)
        → AreGaps map.old taken asked.disk (2 ^ 64 - 1)
        → AreGaps map.new (record { disk = asked.disk; start = start; size = asked.size } ∷ taken)
        asked.disk (2 ^ 64 - 1)) }
{
    let last = asked.limit.checked_sub(asked.size)?;
    let start = map.take(asked.size)?;
    if start <= last { Some(start) } else { None }
}

/// The gaps of the disks on which partitions were placed.
pub struct FreeMaps {
    maps: BTreeMap<u64, FreeMap>,
}

// By hand, so that a function that lets maps go has one step for all of them.
impl Drop for FreeMaps {
    fn drop(self) {
        let FreeMaps { maps: _ } = self;
    }
}

impl FreeMaps {
    ghost use Rattle.std.specs.Prelude.{◌≡◌, ◌++◌, ◌<◌, ◌^◌, List, All, IfOk};
    ghost use Rattle.ldm_group.specs.Partitions.{EndsInRange};
    ghost use Rattle.ldm_space.specs.Free.{Taken, taken_in};
    ghost use Rattle.ldm_space.specs.Wanted.{placed};
    ghost use Rattle.ldm_space.specs.Placed.{AreMapsOf, PlacesAs};

    /// No disk yet. It takes no memory.
    pub fn new(alloc: Global) -> FreeMaps
        ensures { (taken : List Taken) → AreMapsOf result taken }
    {
        FreeMaps {
            maps: BTreeMap::new(alloc),
        }
    }

    /// What the partitions that are asked for take beside those among two lists of records, each at
    /// its first fit beside those before it, and the maps with that; or the place of the first that
    /// finds none.
    ///
    /// It walks over the records once for each disk that is asked and has no map.
    pub fn place(
        self,
        alloc: Global,
        records: &[Record],
        more: &[Record],
        wanted: &[Wanted],
    ) -> Result<Result<(FreeMaps, Vec<Taken>), usize>, NoMemory>
        requires maps { AreMapsOf self (taken_in (records.now ++ more.now)) }
        requires ends { All EndsInRange (records.now ++ more.now) }
        requires some { All (λ w. 0 < w.size) wanted.now }
        requires limits { All (λ w. w.limit < 2 ^ 64) wanted.now }
        ensures { IfOk result (λ answer. PlacesAs answer (taken_in (records.now ++ more.now))
            (placed (taken_in (records.now ++ more.now)) 0 wanted.now)) }
    {
        let FreeMaps { mut maps } = self;
        let mut spots = Vec::new(alloc);
        for at in 0..wanted.len() {
            let asked = wanted[at];
            let kept = maps.remove(&asked.disk);
            let mut map = opened(alloc, records, more, asked.disk, kept)?;
            let Some(start) = fit(&mut map, asked) else {
                return Ok(Err(at));
            };
            maps.insert(asked.disk, map)?;
            spots.push(Taken {
                disk: asked.disk,
                start,
                size: asked.size,
            })?;
        }
        Ok(Ok((FreeMaps { maps }, spots)))
    }
}

/// What the partitions that are asked for take, each at its first fit beside those before it; or
/// the place of the first that finds none.
///
/// It walks over the records once for each disk that is asked.
pub fn place_all(
    alloc: Global,
    records: &[Record],
    wanted: &[Wanted],
) -> Result<Result<Vec<Taken>, usize>, NoMemory>
    requires ends { All EndsInRange records.now }
    requires some { All (λ w. 0 < w.size) wanted.now }
    requires limits { All (λ w. w.limit < 2 ^ 64) wanted.now }
    ensures { IfOk result (ListsAs (placed (taken_in records.now) 0 wanted.now)) }
{
    match FreeMaps::new(alloc).place(alloc, records, &[], wanted)? {
        Ok((_, spots)) => Ok(Ok(spots)),
        Err(place) => Ok(Err(place)),
    }
}
