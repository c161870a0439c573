//! How many blocks the records of a group need, and how many it has.
ghost use Rattle.std.specs.Prelude.{◌≡◌, ◌+◌, ◌≤◌, ◌<◌, ◌^◌, All};
ghost use Rattle.ldm_vmdb.specs.Parts.{parts_of};
ghost use Rattle.ldm_group.specs.Room.{own_len, IsFitting, need_of, room_of, last_for, LastGrows};

use crate::db::Db;
use ldm_records::{Record, spelled_len};
use ldm_vmdb::parts_of;

/// The length of the record's own spelling in bytes, at least 1.
#[tactic(auto, unfolding(crate::specs::Room::own_len))]
pub fn own_len(r: &Record) -> usize
    ensures is { result ≡ own_len r.now }
    ensures some { 1 ≤ result }
{
    spelled_len(r)
}

// How many blocks the record's own spelling takes.
fn blocks_of(r: &Record) -> u32
    requires { IsFitting r.now }
    ensures is { result ≡ parts_of (own_len r.now) }
    ensures few { result ≤ 4 }
{
    parts_of(own_len(r))
}

/// The last VBLK sequence of a group whose records need so many blocks, where it was this before.
pub fn last_for(last: u32, need: u64) -> u32
    requires { need + 7 < 2 ^ 32 }
    ensures is { result ≡ last_for last need }
    ensures grows { LastGrows }
{
    let room = (4 * u64::from(last / 4)).saturating_sub(4);
    if need <= room {
        return last;
    }
    4 * ((need as u32 + 7) / 4)
}

impl Db {
    /// How many blocks the own spellings of the records take together.
    pub fn need(&self) -> u64
        requires { All IsFitting self.now.records }
        ensures { result ≡ need_of self.now.records }
    {
        let mut need = 0;
        for r in self.as_slice() {
            need += u64::from(blocks_of(r));
        }
        need
    }

    /// How many blocks the header leaves to the records.
    pub fn room(&self) -> u64
        ensures { result ≡ room_of self.now.header.last }
    {
        (4 * u64::from(self.header().last / 4)).saturating_sub(4)
    }
}
