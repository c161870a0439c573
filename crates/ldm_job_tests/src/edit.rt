//! Sessions of jobs on the disks of a small group: each job is run on what the jobs before it left.
use crate::group::change_images;
use crate::jobs::{letters_of, named_images, place_of, run_any, sample_group, words_in};
use ldm_host::Host;
use ldm_memory::MemoryHost;
use std::alloc::Global;
use std::process::Abort;
use std::test::Fail;

// The images of a group, and the job that is at hand: its words, what it hears, and what it has to
// say.
//
// The text of a session has lines with a mark, and all others are said:
//
//     $ WORDS             the words, which name each image by its letter
//     ! CHANGE            bytes of the images that are changed before
//     < LINE              a line of the script
//     + LINE              its last line, which no newline ends
//     = STATUS IMAGES     how the job ends, and the images that were handed bytes
#[derive(Drop)]
struct Session<'a> {
    images: Vec<Vec<u8>>,
    words: &'a str,
    script: String,
    said: String,
}

fn push_line(text: &mut String, line: &str) -> Result<(), Fail> {
    text.push_str(line)?;
    text.push('\n')?;
    Ok(())
}

impl<'a> Session<'a> {
    // A host over the images that the words name.
    fn host(&self, alloc: Global) -> Result<MemoryHost, Fail> {
        let images = named_images(alloc, &self.images, self.words)?;
        let script = self.script.as_bytes().to_vec(alloc)?;
        Ok(MemoryHost::new(alloc, images, script)?)
    }

    // Takes over what the host holds, and adds the letters of the images that were handed bytes.
    fn keep(&mut self, alloc: Global, host: &MemoryHost, written: &mut String) -> Result<(), Fail> {
        for (disk, letter) in letters_of(self.words)?.split(' ').enumerate() {
            if disk < host.disks() && host.handed(disk) > 0 {
                written.push_str(letter)?;
                let image = host.image(disk).to_vec(alloc)?;
                if let Some(kept) = self.images.get_mut(place_of(letter)) {
                    *kept = image;
                }
            }
        }
        Ok(())
    }

    // Runs the job, and compares all that is said, and how it ends.
    fn run(&mut self, alloc: Global, rt: &impl Abort, ending: &str) -> Result<(), Fail> {
        let host = self.host(alloc)?;
        let Some((host, status)) = run_any(alloc, &words_in(alloc, self.words)?, host) else {
            return Err(Fail::from("no run"));
        };
        assert_eq!(rt; host.said(), self.said.as_bytes(), "{}", self.words);
        let mut ended = format!(in alloc; "{} ", status as u8)?;
        self.keep(alloc, &host, &mut ended)?;
        assert_eq!(rt; ended.as_str().trim_end(), ending, "{}", self.words);
        self.script.clear();
        self.said.clear();
        Ok(())
    }

    // Takes a line of the text.
    fn take(&mut self, alloc: Global, rt: &impl Abort, line: &'a str) -> Result<(), Fail> {
        let (mark, rest) = line.split_once(' ').unwrap_or((line, ""));
        match mark {
            "$" => self.words = rest,
            "!" => change_images(alloc, self.images.as_mut_slice(), rest)?,
            "<" => push_line(&mut self.script, rest)?,
            "+" => self.script.push_str(rest)?,
            "=" => self.run(alloc, rt, rest)?,
            _ => push_line(&mut self.said, line)?,
        }
        Ok(())
    }
}

// Plays a session over the images of the sample group with so many disks and this `last`.
pub(crate) fn play(
    alloc: Global,
    rt: &impl Abort,
    disks: u8,
    last: u32,
    text: &str,
) -> Result<(), Fail> {
    let mut session = Session {
        images: sample_group(alloc, disks, last)?,
        words: "",
        script: String::new(alloc),
        said: String::new(alloc),
    };
    for line in text.lines() {
        session.take(alloc, rt, line)?;
    }
    Ok(())
}

// A span is created, shown and mapped; lines that are refused hand no byte to a disk.
const SPAN: &str = "\
$ create Data bbbbbbbb-bbbb-bbbb-bbbb-bbbbbbbbbbbb span Disk1=2048 Disk1=10 on A B C
1 ok 8
= 0 ABC
$ show on A B C
group Dg0 aaaaaaaa-aaaa-aaaa-aaaa-aaaaaaaaaaaa sequence 8 blocks 8 of 60
disk 2 Disk1 11111111-1111-1111-1111-111111111111 image 0 free 4023
disk 3 Disk2 22222222-2222-2222-2222-222222222222 image 1 free 6081
disk 4 Disk3 33333333-3333-3333-3333-333333333333 image 2 free 6081
volume 5 Data span 2058 bbbbbbbb-bbbb-bbbb-bbbb-bbbbbbbbbbbb
  component 6 c6 basic
    partition 7 p7 disk 2 start 0 size 2048 offset 0
    partition 8 p8 disk 2 start 2048 size 10 offset 2048
= 0
$ records on B
vmdb Dg0 aaaaaaaa-aaaa-aaaa-aaaa-aaaaaaaaaaaa sequence 8 last 64
dgr3 1 Dg0 63
dsk3 2 Disk1 66
dsk3 3 Disk2 66
dsk3 4 Disk3 66
vol5 5 Data 83
cmp3 6 c6 46
prt3 7 p7 48
prt3 8 p8 47
= 0
$ map Data 2057 1 on A B C
2057 copy 0 Disk1 2057 at 2120
= 0
$ map Data 2057 2 on A B C
refused: bad range
= 1
$ map Data 0 0 on A B C
refused: bad range
= 1
$ map Nope 0 1 on A B C
refused: no volume
= 1
$ edit on A B C
< create Data cccccccc-cccc-cccc-cccc-cccccccccccc span Nope=1
< create X cccccccc-cccc-cccc-cccc-cccccccccccc span Nope=1
< create X cccccccc-cccc-cccc-cccc-cccccccccccc mirror 5 Disk1 Disk1
< create X cccccccc-cccc-cccc-cccc-cccccccccccc stripe 4 6 Disk1 Disk2
1 refused: name taken
2 refused: no disk 0
3 refused: same disk twice
4 refused: bad size
= 1
! *.copy+412=80
! *.copy+417=4d
! *.copy+463=0100
$ try on A B C
< extend Data Disk1=1
1 refused: second size
= 1";

const RAID: &str = "\
$ create R cccccccc-cccc-cccc-cccc-cccccccccccc raid5 4 12 Disk1 Disk2 Disk3 on A B C
1 ok 8
= 0 ABC
$ show on A B C
group Dg0 aaaaaaaa-aaaa-aaaa-aaaa-aaaaaaaaaaaa sequence 8 blocks 9 of 60
disk 2 Disk1 11111111-1111-1111-1111-111111111111 image 0 free 6069
disk 3 Disk2 22222222-2222-2222-2222-222222222222 image 1 free 6069
disk 4 Disk3 33333333-3333-3333-3333-333333333333 image 2 free 6069
volume 5 R raid5 24 cccccccc-cccc-cccc-cccc-cccccccccccc
  component 6 c6 raid 4 3
    partition 7 p7 disk 2 start 0 size 12 offset 0 index 0
    partition 8 p8 disk 3 start 0 size 12 offset 0 index 1
    partition 9 p9 disk 4 start 0 size 12 offset 0 index 2
= 0
$ map R 0 1 on A B C
0 copy 0 Disk1 0 at 63
0 parity Disk3 0 at 63
= 0
$ map R 4 1 on A B C
4 copy 0 Disk2 0 at 63
4 parity Disk3 0 at 63
= 0
$ map R 8 1 on A B C
8 copy 0 Disk3 4 at 67
8 parity Disk2 4 at 67
= 0
$ map R 12 1 on A B C
12 copy 0 Disk1 4 at 67
12 parity Disk2 4 at 67
= 0
$ map R 16 1 on A B C
16 copy 0 Disk2 8 at 71
16 parity Disk1 8 at 71
= 0
$ map R 20 1 on A B C
20 copy 0 Disk3 8 at 71
20 parity Disk1 8 at 71
= 0
$ extend R Disk1=1 on A B C
1 refused: not a span
= 1";

// A disk is filled, and all copies say so.
const FULL: &str = "\
$ edit on A B C
< create Full bbbbbbbb-bbbb-bbbb-bbbb-bbbbbbbbbbbb span Disk1=6081
< create More cccccccc-cccc-cccc-cccc-cccccccccccc span Disk1=1
1 ok 8
2 refused: no space 0
= 1 ABC
$ check on A B C
image 0 sequence 8
image 1 sequence 8
image 2 sequence 8
ok: editable
= 0
$ try on C B A
< create More cccccccc-cccc-cccc-cccc-cccccccccccc span Disk2=1 Disk1=1
< delete Full
1 refused: no space 1
2 ok 9
= 1";

// A later script goes on where an earlier one ended; the ids of what was deleted are free again.
const SCRIPTS: &str = "\
$ edit on A B C
< create Data bbbbbbbb-bbbb-bbbb-bbbb-bbbbbbbbbbbb span Disk1=2048
< delete Nope
< extend Data Disk2=100
1 ok 8
2 refused: no volume
3 ok 9
= 1 ABC
$ show on A B C
group Dg0 aaaaaaaa-aaaa-aaaa-aaaa-aaaaaaaaaaaa sequence 9 blocks 8 of 60
disk 2 Disk1 11111111-1111-1111-1111-111111111111 image 0 free 4033
disk 3 Disk2 22222222-2222-2222-2222-222222222222 image 1 free 5981
disk 4 Disk3 33333333-3333-3333-3333-333333333333 image 2 free 6081
volume 5 Data span 2148 bbbbbbbb-bbbb-bbbb-bbbb-bbbbbbbbbbbb
  component 6 c6 basic
    partition 7 p7 disk 2 start 0 size 2048 offset 0
    partition 8 p8 disk 3 start 0 size 100 offset 2048
= 0
$ edit on A B C
< delete Data
+ create E cccccccc-cccc-cccc-cccc-cccccccccccc span Disk3=1
1 ok 10
2 ok 11
= 0 ABC
$ show on A B C
group Dg0 aaaaaaaa-aaaa-aaaa-aaaa-aaaaaaaaaaaa sequence 11 blocks 7 of 60
disk 2 Disk1 11111111-1111-1111-1111-111111111111 image 0 free 6081
disk 3 Disk2 22222222-2222-2222-2222-222222222222 image 1 free 6081
disk 4 Disk3 33333333-3333-3333-3333-333333333333 image 2 free 6080
volume 5 E span 1 cccccccc-cccc-cccc-cccc-cccccccccccc
  component 6 c6 basic
    partition 7 p7 disk 4 start 0 size 1 offset 0
= 0";

// A mirror gets a piece for each copy, all of one length, and none on the disk of another copy.
const MIRROR: &str = "\
$ edit on A B C
< create M bbbbbbbb-bbbb-bbbb-bbbb-bbbbbbbbbbbb mirror 100 Disk1 Disk2
< extend M Disk1=50
< extend M Disk1=50 Disk2=60
< extend M Disk2=50 Disk1=50
< extend M Disk1=50 Disk2=50
1 ok 8
2 refused: need 2 pieces
3 refused: bad size
4 refused: same disk twice
5 ok 9
= 1 ABC
$ show on A B C
group Dg0 aaaaaaaa-aaaa-aaaa-aaaa-aaaaaaaaaaaa sequence 9 blocks 11 of 60
disk 2 Disk1 11111111-1111-1111-1111-111111111111 image 0 free 5931
disk 3 Disk2 22222222-2222-2222-2222-222222222222 image 1 free 5931
disk 4 Disk3 33333333-3333-3333-3333-333333333333 image 2 free 6081
volume 5 M mirror 150 bbbbbbbb-bbbb-bbbb-bbbb-bbbbbbbbbbbb
  component 6 c6 basic
    partition 7 p7 disk 2 start 0 size 100 offset 0
    partition 10 p10 disk 2 start 100 size 50 offset 100
  component 8 c8 basic
    partition 9 p9 disk 3 start 0 size 100 offset 0
    partition 11 p11 disk 3 start 100 size 50 offset 100
= 0
$ map M 149 1 on A B C
149 copy 0 Disk1 149 at 212
149 copy 1 Disk2 149 at 212
= 0";

// Lines of a batch are one change of the group, with one new sequence, or none; one that is open at
// the end counts for nothing.
const BATCHES: &str = "\
$ edit on A B C
< begin
< commit
< begin
< create Data bbbbbbbb-bbbb-bbbb-bbbb-bbbbbbbbbbbb span Disk1=1
< cancel
< begin
< create Data bbbbbbbb-bbbb-bbbb-bbbb-bbbbbbbbbbbb span Disk1=1
1 held
2 refused: empty batch
3 refused: batch open
4 held
5 dropped
6 held
7 held
= 1
$ edit on A B C
< begin
< create Data bbbbbbbb-bbbb-bbbb-bbbb-bbbbbbbbbbbb span Disk1=2048
< delete Nope
< extend Data Disk2=100
< commit
< commit
1 held
2 held
3 refused: no volume
4 held
5 ok 8
6 refused: no batch
= 1 ABC
$ show on A B C
group Dg0 aaaaaaaa-aaaa-aaaa-aaaa-aaaaaaaaaaaa sequence 8 blocks 8 of 60
disk 2 Disk1 11111111-1111-1111-1111-111111111111 image 0 free 4033
disk 3 Disk2 22222222-2222-2222-2222-222222222222 image 1 free 5981
disk 4 Disk3 33333333-3333-3333-3333-333333333333 image 2 free 6081
volume 5 Data span 2148 bbbbbbbb-bbbb-bbbb-bbbb-bbbbbbbbbbbb
  component 6 c6 basic
    partition 7 p7 disk 2 start 0 size 2048 offset 0
    partition 8 p8 disk 3 start 0 size 100 offset 2048
= 0
$ edit on A B C
< cancel
< begin
< create X cccccccc-cccc-cccc-cccc-cccccccccccc span Disk3=1
< delete X
+ commit
1 refused: no batch
2 held
3 held
4 held
5 ok 9
= 1 ABC
$ check on A B C
image 0 sequence 9
image 1 sequence 9
image 2 sequence 9
ok: editable
= 0";

// In a batch too a volume that is deleted leaves its sectors, and its ids where they are the greatest,
// to those that are made behind it.
const BATCH_OF_ALL: &str = "\
$ edit on A B C
< begin
< create Data bbbbbbbb-bbbb-bbbb-bbbb-bbbbbbbbbbbb span Disk1=2048
< create M cccccccc-cccc-cccc-cccc-cccccccccccc mirror 100 Disk2 Disk3
< delete Data
< extend M Disk2=50 Disk3=50
< create E dddddddd-dddd-dddd-dddd-dddddddddddd span Disk1=10
< delete E
< create F eeeeeeee-eeee-eeee-eeee-eeeeeeeeeeee span Disk1=20 Disk2=5
< extend F Disk1=6061
< commit
1 held
2 held
3 held
4 held
5 held
6 held
7 held
8 held
9 held
10 ok 8
= 0 ABC
$ show on A B C
group Dg0 aaaaaaaa-aaaa-aaaa-aaaa-aaaaaaaaaaaa sequence 8 blocks 16 of 60
disk 2 Disk1 11111111-1111-1111-1111-111111111111 image 0 free 0
disk 3 Disk2 22222222-2222-2222-2222-222222222222 image 1 free 5926
disk 4 Disk3 33333333-3333-3333-3333-333333333333 image 2 free 5931
volume 8 M mirror 150 cccccccc-cccc-cccc-cccc-cccccccccccc
  component 9 c9 basic
    partition 10 p10 disk 3 start 0 size 100 offset 0
    partition 13 p13 disk 3 start 100 size 50 offset 100
  component 11 c11 basic
    partition 12 p12 disk 4 start 0 size 100 offset 0
    partition 14 p14 disk 4 start 100 size 50 offset 100
volume 15 F span 6086 eeeeeeee-eeee-eeee-eeee-eeeeeeeeeeee
  component 16 c16 basic
    partition 17 p17 disk 2 start 0 size 20 offset 0
    partition 18 p18 disk 3 start 150 size 5 offset 20
    partition 19 p19 disk 2 start 20 size 6061 offset 25
= 0";

#[test]
fn edits_the_group(rt: HostRuntime) -> Result<(), Fail> {
    for text in [SPAN, RAID, FULL, SCRIPTS, MIRROR, BATCHES, BATCH_OF_ALL] {
        play(rt.alloc(), &rt, 3, 64, text)?;
    }
    Ok(())
}

// An older copy and a closed one are rewritten, and no other.
const HEALED: &str = "\
$ edit on A B C
= 0
! 1.copy+7c=06
$ edit on A B C
= 0 B
! 2.copy+0=00
$ edit on C A B
= 0 C
$ check on A B C
image 0 sequence 7
image 1 sequence 7
image 2 sequence 7
ok: editable
= 0";

const NOT_EDITABLE: &str = "\
$ edit on A
refused: disk 3 is absent
= 1
$ edit on A A
refused: images 0 and 1 are one disk
= 1
! 1.tocs+56=05d9
! 2.copy+0=00
$ edit on A B C
< delete Nope
refused: image 1: area clash
= 1";

const LAST_SEQUENCE: &str = "\
$ create Data bbbbbbbb-bbbb-bbbb-bbbb-bbbbbbbbbbbb span Disk3=1 on A B C
1 ok 8
= 0 ABC
! *.copy+75=ffffffffffffffff
$ edit on A B C
< delete Data
1 refused: sequence spent
= 1
$ edit on A B C
< begin
< delete Data
< commit
1 held
2 refused: sequence spent
3 refused: empty batch
= 1";

// The blocks 8 to 13: a volume of 255 sectors, in four fragments, whose second text has 255 bytes
// and whose tail has 111; its component, and its partition.
const LONG_RECORD: &str = "\
! *.copy+408=0000000800000004
! *.copy+410=00000051000001b8010504446174610367656eff
! *.copy+488=0000000800010004
! *.copy+508=0000000800020004
! *.copy+543=414354495645000000000000000003
! *.copy+558=0101
! *.copy+56a=01ff0000000007bbbbbbbbbbbbbbbbbbbbbbbbbbbbbb
! *.copy+588=0000000800030004
! *.copy+590=bb
! *.copy+608=0000000c00000001
! *.copy+610=000000320000002601060263360641435449564502000000000101
! *.copy+63b=010500
! *.copy+688=0000000d00000001
! *.copy+690=00000033000000270107027037
! *.copy+6b9=01ff01060102
$ records on B
vmdb Dg0 aaaaaaaa-aaaa-aaaa-aaaa-aaaaaaaaaaaa sequence 7 last 64
dgr3 1 Dg0 63
dsk3 2 Disk1 66
dsk3 3 Disk2 66
dsk3 4 Disk3 66
vol5 5 Data 448
cmp3 6 c6 46
prt3 7 p7 47
= 0
$ try on A B C
< extend Data Disk1=1
1 refused: record 5 too long
= 1
$ delete Data on A B C
1 ok 8
= 0 ABC";

#[test]
fn heals_or_refuses_the_group(rt: HostRuntime) -> Result<(), Fail> {
    for text in [HEALED, NOT_EDITABLE, LAST_SEQUENCE, LONG_RECORD] {
        play(rt.alloc(), &rt, 3, 64, text)?;
    }
    Ok(())
}

const ONE_DISK: &str = "\
$ edit on A
refused: fewer than two disks
= 1";

// The database gets four blocks more, which its header says.
const GROWS: &str = "\
$ create Data bbbbbbbb-bbbb-bbbb-bbbb-bbbbbbbbbbbb span Disk1=2048 on A B
1 ok 8
= 0 AB
$ show on A B
group Dg0 aaaaaaaa-aaaa-aaaa-aaaa-aaaaaaaaaaaa sequence 8 blocks 6 of 8
disk 2 Disk1 11111111-1111-1111-1111-111111111111 image 0 free 4033
disk 3 Disk2 22222222-2222-2222-2222-222222222222 image 1 free 6081
volume 4 Data span 2048 bbbbbbbb-bbbb-bbbb-bbbb-bbbbbbbbbbbb
  component 5 c5 basic
    partition 6 p6 disk 2 start 0 size 2048 offset 0
= 0
$ records on B
vmdb Dg0 aaaaaaaa-aaaa-aaaa-aaaa-aaaaaaaaaaaa sequence 8 last 12
dgr3 1 Dg0 63
dsk3 2 Disk1 66
dsk3 3 Disk2 66
vol5 4 Data 83
cmp3 5 c5 46
prt3 6 p6 48
= 0
$ check on A B
image 0 sequence 8
image 1 sequence 8
ok: editable
= 0
$ delete Data on A B
1 ok 9
= 0 AB
$ show on A B
group Dg0 aaaaaaaa-aaaa-aaaa-aaaa-aaaaaaaaaaaa sequence 9 blocks 3 of 8
disk 2 Disk1 11111111-1111-1111-1111-111111111111 image 0 free 6081
disk 3 Disk2 22222222-2222-2222-2222-222222222222 image 1 free 6081
= 0";

// A batch keeps the blocks that its lines have asked for, also where these lines come to nothing.
const GROWS_IN_A_BATCH: &str = "\
$ edit on A B
< begin
< create Data bbbbbbbb-bbbb-bbbb-bbbb-bbbbbbbbbbbb span Disk1=2048
< delete Data
< commit
1 held
2 held
3 held
4 ok 8
= 0 AB
$ show on A B
group Dg0 aaaaaaaa-aaaa-aaaa-aaaa-aaaaaaaaaaaa sequence 8 blocks 3 of 8
disk 2 Disk1 11111111-1111-1111-1111-111111111111 image 0 free 6081
disk 3 Disk2 22222222-2222-2222-2222-222222222222 image 1 free 6081
= 0";

// Config areas of two sectors, and then one alone that is so small.
const NO_ROOM: &str = "\
! *.tocs+3c=0002
$ edit on A B
< create Data bbbbbbbb-bbbb-bbbb-bbbb-bbbbbbbbbbbb span Disk1=2048
1 refused: no room: need 6 have 4
= 1
! 0.tocs+3c=05c9
$ edit on A B
< create Data bbbbbbbb-bbbb-bbbb-bbbb-bbbbbbbbbbbb span Disk1=2048
1 refused: no room: need 6 have 4
= 1";

#[test]
fn refuses_in_smaller_groups(rt: HostRuntime) -> Result<(), Fail> {
    play(rt.alloc(), &rt, 1, 64, ONE_DISK)?;
    play(rt.alloc(), &rt, 2, 8, NO_ROOM)
}

#[test]
fn takes_more_blocks_where_records_need_them(rt: HostRuntime) -> Result<(), Fail> {
    play(rt.alloc(), &rt, 2, 8, GROWS)?;
    play(rt.alloc(), &rt, 2, 8, GROWS_IN_A_BATCH)
}
