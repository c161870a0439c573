//! Disks, an input and an output: what each call promises, also of stops.
ghost use Rattle.std.specs.Prelude.{◌≡◌, ◌^◌, ◌+◌, ◌-◌, ◌*◌, ◌/◌, ◌<◌, ◌≤◌, ◌++◌, ◌∷◌, [], min, List, ℕ};
ghost use Rattle.std.specs.Prelude.{length, take, set, slice_index, slice_range, IfOk, OnOk, OnErr};
ghost use Rattle.std.specs.Prelude.{IsErr, is_ok, Bool, ◌==◌, ◌||◌, ⊤};
ghost use Rattle.ldm_bytes.specs.Numbers.{IsBytes};
ghost use Rattle.ldm_bytes.specs.Places.{put};
ghost use Rattle.ldm_host.specs.Seen.{Seen, Leaves, image};
ghost use Rattle.ldm_host.specs.Moves.{Still, Quiet, Writes, Syncs, Settled, SameLeft, Ticks};
ghost use Rattle.ldm_host.specs.Moves.{DiskFailed, TalkFailed, Looks};
ghost use Rattle.ldm_host.specs.Acts.{Act};

/// A call of a host failed.
#[derive(Clone, Copy, PartialEq, Eq)]
pub struct Failed;

/// Bytes of a disk: so many from a place on.
#[derive(Clone, Copy, Debug, PartialEq, Eq)]
pub struct DiskRange {
    pub disk: usize,
    pub at: u64,
    pub length: usize,
}

/// The disks of a group, standard input and standard output.
///
/// The number of disks and their lengths never change. Places and lengths are in bytes but where
/// sectors, of 512 bytes, are named.
pub trait Host {
    /// What the clauses see of the host.
    ghost seen: { Self → Seen };

    /// The host tells what is on its disks.
    ghost tells_disks: { Type 0 };

    /// The host tells what was said, what was heard and what is left to hear.
    ghost tells_talk: { Type 0 };

    /// What this kind of host says more of how a call ends, and whether it was Ok. Most say
    /// nothing.
    ghost ending: { Act → Self → Self → Bool → Type 0 } = { λ _ _ _ _. ⊤ };

    /// How many disks there are.
    fn disks(&self) -> usize
        ensures { result ≡ length (seen self.now).sizes };

    /// The length of a disk in sectors, rounded down.
    fn sectors(&self, disk: usize) -> u64
        requires { disk < length (seen self.now).sizes }
        ensures size { result ≡ slice_index (seen self.now).sizes disk }
        ensures fits { result < 2 ^ 55 };

    /// Fills the buffer with the bytes of a disk from a place on. After `Failed` it holds any
    /// bytes, and the range is in the account of the reads that failed.
    fn read_at(&mut self, disk: usize, at: u64, buf: &mut [u8]) -> Result<(), Failed>
        requires disk { disk < length (seen self.old).sizes }
        requires range { at + length buf.old ≤ 512 * slice_index (seen self.old).sizes disk }
        ensures filled { tells_disks → OnOk result (buf.new
            ≡ slice_range (image (seen self.old).content disk) at (at + length buf.old)) }
        ensures looks { Looks (seen self.old) (seen self.new) (IsErr result) }
        ensures read { tells_disks → OnOk result ((seen self.new).failed ≡ (seen self.old).failed) }
        ensures failed { tells_disks → OnErr result ((seen self.new).failed ≡ (seen self.old).failed
            ++ record { disk = disk; at = at; length = length buf.old } ∷ []) }
        ensures ending { ending (Act.Read (record { disk = disk; at = at; length = length buf.old }))
            self.old self.new (is_ok result) };

    /// Writes the bytes to a disk from a place on. Until a later sync of that disk succeeds, a stop
    /// may leave any bytes in the range, and after `Failed` a read may give any bytes there.
    fn write_at(&mut self, disk: usize, at: u64, bytes: &[u8]) -> Result<(), Failed>
        requires disk { disk < length (seen self.old).sizes }
        requires range { at + length bytes.now ≤ 512 * slice_index (seen self.old).sizes disk }
        ensures written { tells_disks → OnOk result ((seen self.new).content
            ≡ set (seen self.old).content disk (put (image
            (seen self.old).content disk) at bytes.now)) }
        ensures writes { Writes disk at (length bytes.now) (seen self.old) (seen self.new) }
        ensures wrote { (seen self.new).wrote
            ≡ set (seen self.old).wrote disk (min (slice_index (seen self.old).wrote disk
            + length bytes.now) (2 ^ 64 - 1)) }
        ensures ticks { Ticks (seen self.old) (seen self.new) }
        ensures cause { IsErr result → DiskFailed (seen self.old) (seen self.new) }
        ensures account { (seen self.new).failed ≡ (seen self.old).failed }
        ensures ending { ending (Act.Write disk at bytes.now) self.old self.new (is_ok result) };

    /// After Ok nothing is pending on that disk: a stop leaves what a read gives. After `Failed`
    /// what was pending stays pending.
    fn sync(&mut self, disk: usize) -> Result<(), Failed>
        requires { disk < length (seen self.old).sizes }
        ensures settled { OnOk result (Settled (seen self.new) disk) }
        ensures syncs { Syncs disk (seen self.old) (seen self.new) }
        ensures pending { OnErr result (SameLeft (seen self.old) (seen self.new)) }
        ensures ticks { Ticks (seen self.old) (seen self.new) }
        ensures cause { IsErr result → DiskFailed (seen self.old) (seen self.new) }
        ensures account { (seen self.new).failed ≡ (seen self.old).failed }
        ensures ending { ending (Act.Sync disk) self.old self.new (is_ok result) };

    /// Moves the next bytes of the input to the front of the buffer, and answers how many. It
    /// answers 0 only at the end of the input. After `Failed` it took none.
    fn hear(&mut self, buf: &mut [u8]) -> Result<usize, Failed>
        requires { 0 < length buf.old }
        ensures count { IfOk result (λ n. n ≤ length buf.old) }
        ensures taken { tells_talk → IfOk result (λ n.
            ((seen self.old).input ≡ take n buf.new ++ (seen self.new).input)
            × ((seen self.new).heard.bytes ≡ (seen self.old).heard.bytes ++ take n buf.new)
            × (n ≡ 0 → length (seen self.old).input ≡ 0)
            × ((seen self.new).heard.ended ≡ (seen self.old).heard.ended || n == 0)) }
        ensures nothing { OnErr result (Quiet (seen self.old) (seen self.new)) }
        ensures silent { (seen self.new).said ≡ (seen self.old).said }
        ensures still { Still (seen self.old) (seen self.new) }
        ensures ticks { Ticks (seen self.old) (seen self.new) }
        ensures cause { IsErr result → TalkFailed (seen self.old) (seen self.new) }
        ensures account { (seen self.new).failed ≡ (seen self.old).failed }
        ensures ending { ending Act.Hear self.old self.new (is_ok result) };

    /// Appends the bytes to what was said, or after `Failed` some of those at their front.
    fn say(&mut self, bytes: &[u8]) -> Result<(), Failed>
        ensures said { tells_talk → OnOk result ((seen self.new).said
            ≡ (seen self.old).said ++ bytes.now) }
        ensures front { (n : ℕ) × ((seen self.new).said
            ≡ (seen self.old).said ++ take n bytes.now) }
        ensures heard { (seen self.new).heard ≡ (seen self.old).heard }
        ensures input { (seen self.new).input ≡ (seen self.old).input }
        ensures still { Still (seen self.old) (seen self.new) }
        ensures ticks { Ticks (seen self.old) (seen self.new) }
        ensures cause { IsErr result → TalkFailed (seen self.old) (seen self.new) }
        ensures account { (seen self.new).failed ≡ (seen self.old).failed }
        ensures ending { ending (Act.Say bytes.now) self.old self.new (is_ok result) };

    /// A host that tells its disks tells the talk.
    ghost tells_both: { tells_disks → tells_talk };

    /// It tells one content for each disk.
    ghost one_each: { tells_disks → (host : Self) → length (seen host).content ≡ length (seen host).sizes };

    /// It counts what was handed to each disk.
    ghost counts_each: { (host : Self) → length (seen host).wrote ≡ length (seen host).sizes };

    /// A disk's content has its length.
    ghost lengths: { tells_disks → (host : Self) (disk : ℕ) → disk < length (seen host).sizes
        → length (image (seen host).content disk) / 512 ≡ slice_index (seen host).sizes disk };

    /// A stop may leave what a read gives.
    ghost may_stay: { tells_disks → (host : Self) (disk : ℕ) → disk < length (seen host).sizes
        → (seen host).may_leave disk (image (seen host).content disk) };

    /// What a stop may leave of a disk has its length.
    ghost same_length: { (host : Self) (disk : ℕ) (c : List ℕ) → (seen host).may_leave disk c
        → length c ≡ length (image (seen host).content disk) };

    /// What a stop may leave of a disk is bytes.
    ghost left_bytes: { (host : Self) (disk : ℕ) (c : List ℕ) → (seen host).may_leave disk c → IsBytes c };

    /// What a stop could leave at any moment is bytes.
    ghost bytes_since: { (host : Self) (t : ℕ) (images : List (List ℕ)) (said : List ℕ)
        → (seen host).left_since t images said → (disk : ℕ) → disk < length (seen host).sizes
        → IsBytes (image images disk) };

    /// This moment is one of those since an earlier one.
    ghost counts_now: { (host : Self) (t : ℕ) (images : List (List ℕ)) → t ≤ (seen host).clock
        → Leaves (seen host) images → (seen host).left_since t images (seen host).said };

    /// Since this moment there is no other.
    ghost only_now: { (host : Self) (images : List (List ℕ)) (said : List ℕ)
        → (seen host).left_since (seen host).clock images said
        → Leaves (seen host) images × (said ≡ (seen host).said) };
}
