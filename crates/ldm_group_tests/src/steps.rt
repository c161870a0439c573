//! What commands make of small groups, and the first reasons that they are refused.
ghost use Rattle.std.specs.Prelude.{◌≡◌, IfOk};
ghost use Rattle.ldm_rules.specs.Facts.{IsSoundOn};
ghost use Rattle.ldm_edits.specs.Changes.{AreasFit};
ghost use Rattle.ldm_edits.specs.declared.stepping.Outcome.TheVariants.{Next};

use crate::made::{Row, payload_of, put, put_area_size, row_of};
use ldm_bytes::{Bytes, put_bytes};
use ldm_edits::{Outcome, Refusal, Reply, step};
use ldm_found::{Found, find_group};
use ldm_group::Db;
use ldm_host::Host;
use ldm_label::Labels;
use ldm_lines::read_line;
use ldm_memory::MemoryHost;
use ldm_records::Record;
use ldm_replies::reply_text;
use ldm_vectors::sample_images;
use ldm_words::Command;
use std::alloc::{AllocError, Global};
use std::process::Abort;
use std::test::Fail;

// Puts the last VBLK sequence; where they aren't 0, 2^64 - 1 as the committed sequence, an id from
// 2^64 - 256 on of the group record, and the sectors of the config area.
fn put_header(image: &mut [u8], row: &Row) {
    put(image, 4, &[0, 0, 0, row[1]]);
    if row[2] != 0 {
        put(image, 0x75, &[0xFF; 8]);
    }
    if row[3] != 0 {
        let id = [8, 255, 255, 255, 255, 255, 255, 255, row[3]];
        put(image, 128 * 4 + 16, &[0, 0, 0, 0x45, 0, 0, 0, 54]);
        put(image, 128 * 4 + 24, &id);
        put(image, 128 * 4 + 33, &[0]);
    }
    if row[4] != 0 {
        put_area_size(image, row[4]);
    }
}

// The payload of a volume whose own spelling has 448 bytes: a second text of 255 bytes, and a tail.
fn long_volume(row: &Row) -> [u8; 448] {
    let mut payload = [0u8; 448];
    let head = [
        0, 0, row[5], 0x51, 0, 0, 1, 0xB8, 1, row[1], 1, row[2], 0, 255,
    ];
    put_bytes(&mut payload, 0, &head);
    put_bytes(&mut payload, 290, &[1, row[3]]);
    put_bytes(&mut payload, 308, &[1, row[4]]);
    put_bytes(&mut payload, 331, &[1, 0]);
    payload
}

// Puts a record's parts from a block on, and answers the block after them.
fn put_record(image: &mut [u8], block: u8, payload: &[u8]) -> u8 {
    let parts = u8::try_from(payload.len().div_ceil(112)).unwrap_or(0);
    let mut next = block;
    for piece in payload.chunks(112) {
        let place = usize::from(next).saturating_mul(128);
        put(
            image,
            place.saturating_add(8),
            &[0, 0, 0, block, 0, next.saturating_sub(block), 0, parts],
        );
        put(image, place.saturating_add(16), piece);
        next = next.saturating_add(1);
    }
    next
}

// Puts the records of a text's words from block 8 on: 6 and a long volume's id, name, children,
// size and flags, or a row.
pub(crate) fn put_records(image: &mut [u8], text: &str) {
    let mut block = 8;
    for word in text.split_whitespace() {
        let row = row_of(word);
        block = if row[0] == 6 {
            put_record(image, block, &long_volume(&row))
        } else {
            put_record(image, block, &payload_of(&row))
        };
    }
}

// The group of so many disks, with this header and these records on each image.
pub(crate) fn group_of(alloc: Global, disks: u8, header: &str, records: &str) -> Result<Found, Fail>
    ensures sound { IfOk result (λ found. IsSoundOn found.db found.labels) }
    ensures areas { IfOk result (λ found. AreasFit found.labels) }
{
    if disks < 2 || disks > 3 {
        return Err(Fail::from("no group of so many disks"));
    }
    let mut images = sample_images(alloc, disks, 64)?;
    for image in images.iter_mut() {
        put_header(image, &row_of(header));
        put_records(image, records);
    }
    let mut host = MemoryHost::new(alloc, images, Vec::new(alloc))?;
    if host.disks() == 0 {
        return Err(Fail::from("no disk"));
    }
    match find_group(alloc, &mut host) {
        Ok(found) => Ok(found),
        Err(_) => Err(Fail::from("no group")),
    }
}

// What a line comes to.
fn outcome_of(alloc: Global, db: &Db, labels: &Labels, line: &str) -> Result<Outcome, Fail>
    requires sound { IsSoundOn db.now labels.now }
    requires areas { AreasFit labels.now }
    ensures { IfOk result (λ outcome. (next : _) → outcome ≡ Next next
        → IsSoundOn next labels.now) }
{
    let Ok(command) = read_line(alloc, line.as_bytes()) else {
        return Ok(Outcome::Refused(Refusal::BadLine));
    };
    match &command {
        Command::Begin | Command::Commit | Command::Cancel => Err(Fail::from("a word of a batch")),
        _ => Ok(step(alloc, db, labels, &command)?),
    }
}

// Its reply.
fn reply_of(alloc: Global, outcome: &Outcome) -> Result<Bytes, Fail> {
    let reply = match outcome {
        Outcome::Next(next) => Reply::Done(next.header().seq),
        Outcome::Refused(refusal) => Reply::Refused(*refusal),
    };
    Ok(reply_text(alloc, 1, &reply)?)
}

// An id, and then of a volume its children number and size; of a component its volume, layout,
// children number, chunk and columns; and of a partition its component, disk, start, size, offset
// and index.
pub(crate) type Numbers = [u64; 7];

fn numbers_of(r: &Record) -> Option<Numbers> {
    match r {
        Record::Volume(v) => Some([v.head.id, v.children, v.size, 0, 0, 0, 0]),
        Record::Component(c) => {
            let (chunk, columns) = match &c.striping {
                Some(s) => (s.chunk, s.columns),
                None => (0, 0),
            };
            let layout = u64::from(c.layout);
            Some([c.head.id, c.parent, layout, c.children, chunk, columns, 0])
        }
        Record::Partition(p) => {
            let index = p.index.unwrap_or(0);
            Some([
                p.head.id, p.parent, p.disk, p.start, p.size, p.offset, index,
            ])
        }
        _ => None,
    }
}

// The numbers of all records that have some.
pub(crate) fn all_numbers(alloc: Global, db: &Db) -> Result<Vec<Numbers>, Fail> {
    let mut all = Vec::new(alloc);
    for r in db.as_slice() {
        if let Some(numbers) = numbers_of(r) {
            all.push(numbers)?;
        }
    }
    Ok(all)
}

// A line of a script, where a star stands for a GUID.
pub(crate) fn line_of(alloc: Global, line: &str) -> Result<String, AllocError> {
    line.replace(alloc, "*", "cccccccc-cccc-cccc-cccc-cccccccccccc")
}

// The group after the rows of a script, each a line and its reply; and the rows with the replies
// that come.
fn run(alloc: Global, group: Db, labels: &Labels, script: &str) -> Result<(Db, Vec<u8>), Fail>
    requires sound { IsSoundOn group labels.now }
    requires areas { AreasFit labels.now }
{
    let mut db = group;
    let mut said = Vec::new(alloc);
    for row in script.lines() {
        let (line, _) = row.split_once(" > ").unwrap_or((row, ""));
        let outcome = outcome_of(alloc, &db, labels, line_of(alloc, line)?.as_str())?;
        said.extend_from_slice(line.as_bytes())?;
        said.extend_from_slice(b" > ")?;
        said.extend_from_slice(reply_of(alloc, &outcome)?.as_slice())?;
        if let Outcome::Next(next) = outcome {
            db = next;
        }
    }
    Ok((db, said))
}

// How many disks a group has, its header and records; a script; and the numbers of the volumes,
// components and partitions after it.
type Case = (
    u8,
    &'static str,
    &'static str,
    &'static str,
    &'static [Numbers],
);

// A long volume of a span, and one that has a second size too.
const LONG: &str =
    "6.5.68.1.254 4.6.99.1.5.2 5.7.112.0.254.6.2 6.8.88.1.1.128 4.9.99.1.8.2 5.10.112.0.1.9.3";

// A long volume of a span, one that has a second size, and a mirror that has one: 24 blocks with
// the disks.
const FULL: &str = "\
6.5.68.1.255 4.6.99.1.5.2 5.7.112.0.255.6.2 6.8.88.1.1.128 4.9.99.1.8.2 5.10.112.0.1.9.3 \
6.11.77.2.1.128 4.12.99.1.11.2 5.13.112.1.1.12.3 4.14.99.1.11.2 5.15.112.0.1.14.4";

const FULL_NUMBERS: [Numbers; 11] = [
    [5, 1, 255, 0, 0, 0, 0],
    [8, 1, 1, 0, 0, 0, 0],
    [11, 2, 1, 0, 0, 0, 0],
    [6, 5, 2, 1, 0, 0, 0],
    [9, 8, 2, 1, 0, 0, 0],
    [12, 11, 2, 1, 0, 0, 0],
    [14, 11, 2, 1, 0, 0, 0],
    [7, 6, 2, 0, 255, 0, 0],
    [10, 9, 3, 0, 1, 0, 0],
    [13, 12, 3, 1, 1, 0, 0],
    [15, 14, 4, 0, 1, 0, 0],
];

// A long mirror: 12 blocks with the disks.
const MIRROR: &str =
    "6.11.77.2.255 4.12.99.1.11.2 5.13.112.1.255.12.3 4.14.99.1.11.2 5.15.112.0.255.14.4";

const MIRROR_NUMBERS: [Numbers; 5] = [
    [11, 2, 255, 0, 0, 0, 0],
    [12, 11, 2, 1, 0, 0, 0],
    [14, 11, 2, 1, 0, 0, 0],
    [13, 12, 3, 1, 255, 0, 0],
    [15, 14, 4, 0, 255, 0, 0],
];

const DONE: [Case; 4] = [
    // Each layout, at the first fits.
    (
        3,
        "0.64",
        "",
        "\
create Data * span Disk1=2048 Disk1=10 > 1 ok 8
create S * stripe 4 12 Disk3 Disk1 > 1 ok 9
create M * mirror 5 Disk1 Disk2 > 1 ok 10
create R * raid5 4 12 Disk1 Disk2 Disk3 > 1 ok 11
extend Data Disk2=100 > 1 ok 12
",
        &[
            [5, 1, 2158, 0, 0, 0, 0],
            [9, 1, 24, 0, 0, 0, 0],
            [13, 2, 5, 0, 0, 0, 0],
            [18, 1, 24, 0, 0, 0, 0],
            [6, 5, 2, 3, 0, 0, 0],
            [10, 9, 1, 2, 4, 2, 0],
            [14, 13, 2, 1, 0, 0, 0],
            [16, 13, 2, 1, 0, 0, 0],
            [19, 18, 3, 3, 4, 3, 0],
            [7, 6, 2, 0, 2048, 0, 0],
            [8, 6, 2, 2048, 10, 2048, 0],
            [11, 10, 4, 0, 12, 0, 0],
            [12, 10, 2, 2058, 12, 0, 1],
            [15, 14, 2, 2070, 5, 0, 0],
            [17, 16, 3, 0, 5, 0, 0],
            [20, 19, 2, 2075, 12, 0, 0],
            [21, 19, 3, 5, 12, 0, 1],
            [22, 19, 4, 12, 12, 0, 2],
            [23, 6, 3, 17, 100, 2058, 0],
        ],
    ),
    // Ids that are left again are taken again where they are the greatest, and sectors by the first
    // that they hold.
    (
        3,
        "0.64",
        "",
        "\
create E * span Disk3=1 > 1 ok 8
delete E > 1 ok 9
create A * span Disk1=10 > 1 ok 10
create M * mirror 5 Disk1 Disk2 > 1 ok 11
create B * span Disk1=10 > 1 ok 12
delete M > 1 ok 13
create C * span Disk1=6 Disk1=5 > 1 ok 14
",
        &[
            [5, 1, 10, 0, 0, 0, 0],
            [13, 1, 10, 0, 0, 0, 0],
            [16, 1, 11, 0, 0, 0, 0],
            [6, 5, 2, 1, 0, 0, 0],
            [14, 13, 2, 1, 0, 0, 0],
            [17, 16, 2, 2, 0, 0, 0],
            [7, 6, 2, 0, 10, 0, 0],
            [15, 14, 2, 15, 10, 0, 0],
            [18, 17, 2, 25, 6, 0, 0],
            [19, 17, 2, 10, 5, 6, 0],
        ],
    ),
    // A mirror gets a piece for each copy.
    (
        3,
        "0.64",
        "",
        "\
create M * mirror 100 Disk1 Disk2 > 1 ok 8
extend M Disk1=50 > 1 refused: need 2 pieces
extend M Disk1=50 Disk2=60 > 1 refused: bad size
extend M Disk2=50 Disk1=50 > 1 refused: same disk twice
extend M Disk1=50 Disk2=50 > 1 ok 9
",
        &[
            [5, 2, 150, 0, 0, 0, 0],
            [6, 5, 2, 2, 0, 0, 0],
            [8, 5, 2, 2, 0, 0, 0],
            [7, 6, 2, 0, 100, 0, 0],
            [9, 8, 3, 0, 100, 0, 0],
            [10, 6, 2, 100, 50, 100, 0],
            [11, 8, 3, 100, 50, 100, 0],
        ],
    ),
    // One copy holds 100 sectors and the other 120, and the volume has 90 of them.
    (
        3,
        "0.64",
        "3.5.77.2.90 4.6.99.1.5.2 5.7.112.0.100.6.2 4.8.99.1.5.2 5.9.112.10.120.8.3",
        "\
extend M Disk1=50 Disk2=50 > 1 ok 8
extend M Disk1=5 Disk3=5 > 1 ok 9
",
        &[
            [5, 2, 155, 0, 0, 0, 0],
            [6, 5, 2, 3, 0, 0, 0],
            [8, 5, 2, 3, 0, 0, 0],
            [7, 6, 2, 0, 100, 0, 0],
            [9, 8, 3, 10, 120, 0, 0],
            [10, 6, 2, 100, 50, 100, 0],
            [11, 8, 3, 130, 50, 120, 0],
            [12, 6, 2, 150, 5, 150, 0],
            [13, 8, 4, 0, 5, 170, 0],
        ],
    ),
];

// Refusals by themselves, at their edges.
const ALONE: [Case; 6] = [
    (
        3,
        "0.64",
        "",
        "\
frob Data > 1 refused: bad line
create Data * span Disk1=2048 Disk1=10 > 1 ok 8
create Data * span Disk1=1 > 1 refused: name taken
extend X Disk1=1 > 1 refused: no volume
delete X > 1 refused: no volume
create R * raid5 4 12 Disk1 Disk2 Disk3 > 1 ok 9
extend R Disk1=1 > 1 refused: not a span
delete R > 1 ok 10
create X * span Nope=1 > 1 refused: no disk 0
extend Data Disk1=1 Nope=1 > 1 refused: no disk 1
create X * mirror 5 Disk1 Disk1 > 1 refused: same disk twice
create X * raid5 4 12 Disk1 Disk2 Disk1 > 1 refused: same disk twice
create X * stripe 4 6 Disk1 Disk2 > 1 refused: bad size
create X * stripe 0 4 Disk1 Disk2 > 1 refused: bad size
create X * raid5 4 0 Disk1 Disk2 Disk3 > 1 refused: bad size
create X * mirror 0 Disk1 Disk2 > 1 refused: bad size
create X * span Disk1=18446744073709551615 Disk2=1 > 1 refused: bad size
create X * span Disk1=18446744073709551614 Disk2=1 > 1 refused: no space 0
create X * stripe 1 9223372036854775808 Disk1 Disk2 > 1 refused: bad size
create X * stripe 1 9223372036854775807 Disk1 Disk2 > 1 refused: no space 0
create X * raid5 1 9223372036854775808 Disk1 Disk2 Disk3 > 1 refused: bad size
create X * raid5 1 9223372036854775807 Disk1 Disk2 Disk3 > 1 refused: no space 0
extend Data Disk1=18446744073709549558 > 1 refused: bad size
extend Data Disk1=18446744073709549557 > 1 refused: no space 0
create X * span Disk1=4023 Disk1=1 > 1 refused: no space 1
create X * mirror 4024 Disk2 Disk3 Disk1 > 1 refused: no space 2
create Full * span Disk1=4023 > 1 ok 11
create More * span Disk1=1 > 1 refused: no space 0
",
        &[
            [5, 1, 2058, 0, 0, 0, 0],
            [9, 1, 4023, 0, 0, 0, 0],
            [6, 5, 2, 2, 0, 0, 0],
            [10, 9, 2, 1, 0, 0, 0],
            [7, 6, 2, 0, 2048, 0, 0],
            [8, 6, 2, 2048, 10, 2048, 0],
            [11, 10, 2, 2058, 4023, 0, 0],
        ],
    ),
    // The group record has the id 2^64 - 4.
    (
        3,
        "0.64.0.252",
        "",
        "\
create X * span Disk1=1 Disk1=1 > 1 refused: ids spent
create A * span Disk1=1 > 1 ok 8
extend A Disk1=1 > 1 refused: ids spent
delete A > 1 ok 9
",
        &[],
    ),
    // A size of two bytes takes one more than is left.
    (
        3,
        "0.64",
        LONG,
        "\
extend X Disk1=1 > 1 refused: second size
extend D Disk1=1 > 1 ok 8
extend D Disk1=1 > 1 refused: record 5 too long
",
        &[
            [5, 1, 255, 0, 0, 0, 0],
            [8, 1, 1, 0, 0, 0, 0],
            [6, 5, 2, 2, 0, 0, 0],
            [9, 8, 2, 1, 0, 0, 0],
            [7, 6, 2, 0, 254, 0, 0],
            [10, 9, 3, 0, 1, 0, 0],
            [11, 6, 2, 254, 1, 254, 0],
        ],
    ),
    // The config areas hold one more group of four blocks, or none.
    (
        2,
        "0.8.0.0.3",
        "",
        "\
create Data * span Disk1=2048 > 1 ok 8
create More * span Disk1=1 > 1 refused: no room: need 9 have 8
extend Data Disk1=1 Disk2=1 > 1 ok 9
extend Data Disk1=1 > 1 refused: no room: need 9 have 8
delete Data > 1 ok 10
create More * span Disk1=1 > 1 ok 11
",
        &[
            [4, 1, 1, 0, 0, 0, 0],
            [5, 4, 2, 1, 0, 0, 0],
            [6, 5, 2, 0, 1, 0, 0],
        ],
    ),
    (
        2,
        "0.8.0.0.2",
        "",
        "create Data * span Disk1=2048 > 1 refused: no room: need 6 have 4\n",
        &[],
    ),
    (
        3,
        "0.64.255",
        "",
        "create A * span Disk1=1 > 1 refused: sequence spent\n",
        &[],
    ),
];

// Each refusal beside all later ones that can stand with it: the room and the sequence are spent,
// and of the first group the ids too.
const TOGETHER: [Case; 4] = [
    (
        3,
        "0.28.255.255.7",
        FULL,
        "\
frob D > 1 refused: bad line
create D * mirror 0 Disk1 Disk1 Nope > 1 refused: name taken
create N * mirror 0 Disk1 Disk1 Nope > 1 refused: no disk 2
create N * mirror 0 Disk1 Disk1 > 1 refused: same disk twice
create N * stripe 4 10002 Disk1 Disk1 > 1 refused: same disk twice
create N * raid5 4 10002 Disk1 Disk2 Disk1 > 1 refused: same disk twice
create N * stripe 4 10002 Disk1 Disk2 > 1 refused: bad size
create N * span Disk1=6082 Disk2=0 > 1 refused: bad size
create N * span Disk1=6082 > 1 refused: no space 0
create N * mirror 6081 Disk3 Disk1 > 1 refused: no space 0
create N * span Disk1=1 > 1 refused: ids spent
extend N Nope=0 > 1 refused: no volume
extend M Nope=0 > 1 refused: second size
extend X Nope=0 Disk1=6082 > 1 refused: second size
extend D Nope=0 Disk1=6082 > 1 refused: no disk 0
extend D Disk2=6082 Disk1=0 > 1 refused: bad size
extend D Disk1=6082 > 1 refused: no space 0
extend D Disk1=1 > 1 refused: ids spent
delete N > 1 refused: no volume
delete D > 1 refused: sequence spent
",
        &FULL_NUMBERS,
    ),
    (
        3,
        "0.28.255.0.7",
        FULL,
        "\
extend D Disk1=1 > 1 refused: record 5 too long
create N * span Disk1=1 > 1 refused: no room: need 27 have 24
delete D > 1 refused: sequence spent
",
        &FULL_NUMBERS,
    ),
    (
        3,
        "0.16.255.255.4",
        MIRROR,
        "\
extend M Nope=0 > 1 refused: need 2 pieces
extend M Disk2=0 Disk3=0 Nope=0 > 1 refused: need 2 pieces
extend M Disk2=0 Nope=1 > 1 refused: no disk 1
extend M Disk1=0 Disk1=6082 > 1 refused: same disk twice
extend M Disk3=0 Disk1=6082 > 1 refused: same disk twice
extend M Disk1=0 Disk2=6082 > 1 refused: same disk twice
extend M Disk2=6082 Disk3=1 > 1 refused: bad size
extend M Disk2=0 Disk3=0 > 1 refused: bad size
extend M Disk2=18446744073709551361 Disk3=18446744073709551361 > 1 refused: bad size
extend M Disk2=18446744073709551360 Disk3=18446744073709551360 > 1 refused: no space 0
extend M Disk1=6081 Disk3=6081 > 1 refused: no space 1
extend M Disk2=1 Disk3=1 > 1 refused: ids spent
",
        &MIRROR_NUMBERS,
    ),
    (
        3,
        "0.16.255.0.4",
        MIRROR,
        "extend M Disk2=1 Disk3=1 > 1 refused: record 11 too long\n",
        &MIRROR_NUMBERS,
    ),
];

// The rows of a script with the replies that come, and the numbers after it.
fn answers(alloc: Global, case: &Case) -> Result<(String, Vec<Numbers>), Fail> {
    let (disks, header, records, script, _) = *case;
    let found = group_of(alloc, disks, header, records)?;
    let (db, said) = run(alloc, found.db, &found.labels, script)?;
    Ok((String::from_utf8(said)?, all_numbers(alloc, &db)?))
}

// Each case has the replies and the numbers that it should.
fn hold(rt: &impl Abort, alloc: Global, cases: &[Case]) -> Result<(), Fail> {
    for case in cases {
        let (said, numbers) = answers(alloc, case)?;
        assert_eq!(rt; said.as_str(), case.3);
        assert!(rt; numbers.as_slice() == case.4, "{said}");
    }
    Ok(())
}

#[test]
fn what_commands_do(rt: HostRuntime) -> Result<(), Fail> {
    hold(&rt, rt.alloc(), &DONE)
}

#[test]
fn refusals_alone(rt: HostRuntime) -> Result<(), Fail> {
    hold(&rt, rt.alloc(), &ALONE)
}

#[test]
fn the_first_of_refusals(rt: HostRuntime) -> Result<(), Fail> {
    hold(&rt, rt.alloc(), &TOGETHER)
}
