//! A disk of a host alone.
ghost use Rattle.std.specs.Prelude.{◌≡◌, ◌+◌, ◌-◌, ◌^◌, ◌<◌, ◌==◌, ◌&&◌, ℕ, length, min, nat_lt};
ghost use Rattle.ldm_host.specs.Seen.{Seen};
ghost use Rattle.ldm_host.specs.Moves.{Still};
ghost use Rattle.ldm_host.specs.Failed.{failed_since, fails_on};

use ldm_host::{Failed, Host};
use std::marker::{Brand, PhantomData};

/// What was seen of a host before a disk of it was read alone, and which disk. Each call of a
/// program picks it.
pub(crate) trait Start {
    ghost start: { Seen };

    ghost chosen: { ℕ };
}

/// A host over one disk of another, which is its only one. It counts the reads that failed, and
/// refuses each call that writes.
pub(crate) struct Lone<H: Host, S: Start> {
    host: H,
    disk: usize,
    unread: u64,
    wrote: u64,
    refused: u64,
    of: PhantomData<S>,
    ghost there: { disk < length (H.seen host).sizes },
    ghost fixed: { disk ≡ S.chosen },
    ghost noted: { H.tells_disks → (other : ℕ) → fails_on other (failed_since S.start (H.seen host)) ≡ ((other == S.chosen) && nat_lt 0 unread) },
    ghost unrefused: { wrote ≡ 0 → refused ≡ 0 },
    ghost still: { ∥ Still S.start (H.seen host) ∥₁ },
}

impl Start for Brand {
    ghost use Rattle.ldm_scan.specs.Start.{nothing_known};

    ghost start = { nothing_known };

    ghost chosen = { 0 };
}

impl<H: Host, S: Start> Lone<H, S> {
    /// This disk of a host, of which nothing was read since the start.
    pub(crate) fn new(host: H, disk: usize) -> Lone<H, S>
        requires start { Still S.start (H.seen host) }
        requires account { (H.seen host).failed ≡ S.start.failed }
        requires chosen { disk ≡ S.chosen }
        requires there { disk < length (H.seen host).sizes }
        ensures host { result.host ≡ host }
        ensures disk { result.disk ≡ disk }
        ensures unread { result.unread ≡ 0 }
        ensures wrote { result.wrote ≡ 0 }
        ensures refused { result.refused ≡ 0 }
    {
        Lone {
            host,
            disk,
            unread: 0,
            wrote: 0,
            refused: 0,
            of: PhantomData,
        }
    }

    /// Whether a read of it failed.
    pub(crate) fn is_unread(&self) -> bool
        ensures { result ≡ nat_lt 0 self.now.unread }
    {
        self.unread > 0
    }

    /// The host. It is as it was, but for what was heard and said and the reads that failed.
    pub(crate) fn into_host(self) -> H
        ensures host { result ≡ self.host }
        ensures still { ∥ Still S.start (H.seen result) ∥₁ }
        ensures fixed { self.disk ≡ S.chosen }
        ensures noted { H.tells_disks → (other : ℕ)
            → fails_on other (failed_since S.start (H.seen result))
            ≡ ((other == S.chosen) && nat_lt 0 self.unread) }
        ensures unrefused { self.wrote ≡ 0 → self.refused ≡ 0 }
    {
        let Lone {
            host,
            disk: _,
            unread: _,
            wrote: _,
            refused: _,
            of: _,
        } = self;
        host
    }
}

impl<H: Host, S: Start> Host for Lone<H, S> {
    ghost use Rattle.ldm_scan.specs.LoneSeen.{lone_seen};
    ghost use Rattle.ldm_scan.specs.Laws.{lone_lengths, lone_stays, lone_length, lone_bytes};
    ghost use Rattle.ldm_scan.specs.Laws.{lone_all_bytes, lone_counts, lone_only};
    ghost use Rattle.std.specs.Prelude.{refl, ◌+◌};

    ghost seen = { λ l. lone_seen H.tells_disks l.disk l.wrote (l.unread + l.refused) (H.seen l.host) };

    ghost tells_disks = { H.tells_disks };

    ghost tells_talk = { H.tells_talk };

    ghost tells_both = { H.tells_both };

    ghost one_each = { λ tells l. refl };

    ghost counts_each = { λ l. refl };

    ghost lengths = { λ tells l disk lt. lone_lengths l.disk (H.seen l.host) disk lt (H.lengths tells l.host l.disk l.there) };

    ghost may_stay = { λ tells l disk lt. lone_stays H.tells_disks l.disk (H.seen l.host) disk tells lt };

    ghost same_length = { λ l disk c left. lone_length H.tells_disks l.disk (H.seen l.host) disk c left };

    ghost left_bytes = { λ l disk c left. lone_bytes H.tells_disks l.disk (H.seen l.host) l.there (λ tells. H.may_stay tells l.host) (H.left_bytes l.host) disk c left };

    ghost bytes_since = { λ l t images said since disk lt. lone_all_bytes H.tells_disks l.disk (H.seen l.host) l.there (λ tells. H.may_stay tells l.host) (H.left_bytes l.host) t images said since disk lt };

    ghost counts_now = { λ l t images le left. lone_counts H.tells_disks l.disk l.wrote (l.unread + l.refused) (H.seen l.host) (H.counts_now l.host) (H.only_now l.host) (λ tells. H.may_stay tells l.host) (λ tells. H.one_each tells l.host) t images le left };

    ghost only_now = { λ l images said since. lone_only H.tells_disks l.disk l.wrote (l.unread + l.refused) (H.seen l.host) (H.counts_now l.host) (H.only_now l.host) images said since };

    fn disks(&self) -> usize {
        1
    }

    fn sectors(&self, _disk: usize) -> u64 {
        self.host.sectors(self.disk)
    }

    fn read_at(&mut self, _disk: usize, at: u64, buf: &mut [u8]) -> Result<(), Failed> {
        match self.host.read_at(self.disk, at, buf) {
            Ok(()) => Ok(()),
            Err(failed) => {
                self.unread = self.unread.saturating_add(1);
                Err(failed)
            }
        }
    }

    fn write_at(&mut self, _disk: usize, _at: u64, bytes: &[u8]) -> Result<(), Failed> {
        self.wrote = self.wrote.saturating_add(bytes.len() as u64);
        if bytes.is_empty() {
            return Ok(());
        }
        self.refused = self.refused.saturating_add(1);
        Err(Failed)
    }

    fn sync(&mut self, _disk: usize) -> Result<(), Failed> {
        Ok(())
    }

    fn hear(&mut self, buf: &mut [u8]) -> Result<usize, Failed> {
        self.host.hear(buf)
    }

    fn say(&mut self, bytes: &[u8]) -> Result<(), Failed> {
        self.host.say(bytes)
    }
}
