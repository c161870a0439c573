//! Command lines and their words: which have a reading, and which job that is.
use crate::made::check;
use ldm_bytes::{Bytes, NoMemory};
use ldm_words::{Format, Job, WordsError, read_name, read_number, read_words};
use std::alloc::Global;
use std::process::Abort;

// The words of a line.
fn words_of(rt: &impl Abort, alloc: Global, line: &str) -> Vec<String> {
    let mut words = Vec::new(alloc);
    for word in line.split(' ') {
        let word = String::from_str(alloc, word).expect(rt, "memory");
        words.push(word).expect(rt, "memory");
    }
    words
}

// What a job is, and what its words are.
type Parts<'a> = (&'a str, &'a [u8], u64, u64);

// A job that says lines, or JSON, which knows the words of its images: the first of them.
fn in_format<'a>(lines: &'a str, json: &'a str, format: &'a Format) -> Parts<'a> {
    match format {
        Format::Lines => (lines, b"", 0, 0),
        Format::Json(paths) => (json, paths.get(0).map_or(b"", |word| word.as_bytes()), 0, 0),
    }
}

fn parts_of(job: &Job) -> Parts<'_> {
    match job {
        Job::Disk(format) => in_format("disk", "disk --json", format),
        Job::Records(format) => in_format("records", "records --json", format),
        Job::Scan(format) => in_format("scan", "scan --json", format),
        Job::Show(format) => in_format("show", "show --json", format),
        Job::Check(format) => in_format("check", "check --json", format),
        Job::Map {
            name,
            first,
            count,
            format: Format::Lines,
        } => ("map", name.as_slice(), *first, *count),
        Job::Map {
            name,
            first,
            count,
            format: Format::Json(_),
        } => ("map --json", name.as_slice(), *first, *count),
        Job::Dump {
            name,
            section: None,
        } => ("dump", name.as_slice(), 0, 0),
        Job::Dump {
            name,
            section: Some(section),
        } => ("dump", name.as_slice(), section.first, section.count),
        Job::Scrub {
            name,
            format: Format::Lines,
        } => ("scrub", name.as_slice(), 0, 0),
        Job::Scrub {
            name,
            format: Format::Json(_),
        } => ("scrub --json", name.as_slice(), 0, 0),
        Job::Table { name, images } => {
            ("table", name.as_slice(), images.as_slice().len() as u64, 0)
        }
        Job::Tables { images } => ("tables", b"", images.as_slice().len() as u64, 0),
        _ => ("another", b"", 0, 0),
    }
}

// Whether a line is this job, on so many images.
fn is_job(rt: &impl Abort, alloc: Global, line: &str, want: Parts<'_>, images: usize) -> bool {
    match &read_words(alloc, &words_of(rt, alloc, line)) {
        Ok((job, found)) => parts_of(job) == want && *found == images,
        Err(_) => false,
    }
}

fn is_refused(rt: &impl Abort, alloc: Global, line: &str) -> bool {
    matches!(
        &read_words(alloc, &words_of(rt, alloc, line)),
        Err(WordsError::Usage)
    )
}

const JOBS: [(&str, Parts<'static>, usize); 28] = [
    ("disk on A", ("disk", b"", 0, 0), 1),
    ("disk on on", ("disk", b"", 0, 0), 1),
    ("records on A", ("records", b"", 0, 0), 1),
    ("show on A B C", ("show", b"", 0, 0), 3),
    ("check on A", ("check", b"", 0, 0), 1),
    ("map \\x6fn 2057 1 on A B", ("map", b"on", 2057, 1), 2),
    ("map \\e 0 01 on A", ("map", b"", 0, 1), 1),
    ("dump Data on A B", ("dump", b"Data", 0, 0), 2),
    ("table Data on A B", ("table", b"Data", 2, 0), 2),
    ("scrub \\x41 on A", ("scrub", b"A", 0, 0), 1),
    ("disk --json on on", ("disk --json", b"on", 0, 0), 1),
    ("scan on A B", ("scan", b"", 0, 0), 2),
    ("scan --json on B A", ("scan --json", b"B", 0, 0), 2),
    ("show --json on A B", ("show --json", b"A", 0, 0), 2),
    ("show on --json", ("show", b"", 0, 0), 1),
    ("show --json on --json", ("show --json", b"--json", 0, 0), 1),
    ("check --json on A", ("check --json", b"A", 0, 0), 1),
    ("dump --json on A", ("dump", b"--json", 0, 0), 1),
    ("scrub --json on A", ("scrub", b"--json", 0, 0), 1),
    ("scrub --json Data on A", ("scrub --json", b"Data", 0, 0), 1),
    (
        "scrub --json --json on A",
        ("scrub --json", b"--json", 0, 0),
        1,
    ),
    ("map --json 0 1 on A", ("map", b"--json", 0, 1), 1),
    ("records --json on A", ("records --json", b"A", 0, 0), 1),
    ("map --json Data 0 1 on A", ("map --json", b"Data", 0, 1), 1),
    (
        "dump Data 8 18446744073709551615 on A B",
        ("dump", b"Data", 8, u64::MAX),
        2,
    ),
    ("dump --json 0 8 on A", ("dump", b"--json", 0, 8), 1),
    ("table on A B", ("tables", b"", 2, 0), 2),
    ("table on on", ("tables", b"", 1, 0), 1),
];

fn check_jobs(rt: &impl Abort, alloc: Global, rows: &[(&str, Parts<'static>, usize)]) {
    for row in rows {
        let (line, want, images) = *row;
        check(rt, is_job(rt, alloc, line, want, images), line);
    }
}

#[test]
fn reads_the_jobs(rt: HostRuntime) {
    check_jobs(&rt, rt.alloc(), &JOBS);
}

// The words of a new group of two disks.
const INIT: &str = "init 012345678901234567890123456789 11111111-1111-1111-1111-111111111111 \
22222222-2222-2222-2222-222222222222 AAAAAAAA-BBBB-CCCC-DDDD-0123456789ab on A B";

const GUID: u128 = 0x11111111111111111111111111111111;

const DISKS: [u128; 2] = [
    0x22222222222222222222222222222222,
    0xAAAAAAAABBBBCCCCDDDD0123456789AB,
];

#[test]
fn reads_the_words_of_a_new_group(rt: HostRuntime) {
    let alloc = rt.alloc();
    match &read_words(alloc, &words_of(&rt, alloc, INIT)) {
        Ok((Job::Init { name, guid, disks }, images)) => {
            assert!(rt; name.as_slice() == b"012345678901234567890123456789".as_slice());
            assert!(rt; *guid == GUID);
            assert!(rt; disks.as_slice() == DISKS.as_slice());
            assert!(rt; *images == 2);
        }
        _ => check(&rt, false, INIT),
    }
}

const NO_JOBS: &str = "
on A
show --json --json on A
show --jsn on A
--json show on A
show --json
show x --json on A
disk --json on A B
records --json --json on A
map --json Data 0 on A
dump --json Data 0 8 on A
frob on A
disk A
disk on
disk on A B
disk disk on A
Disk on A
records on A B
show on
show A
check on
map Data 0 on A
map Data 0 1 2 on A
map Data 0 1 on
map on 0 1 on A
map Data -1 1 on A
map Data 18446744073709551616 1 on A
map Data 0 x on A
map a\\X41 0 1 on A
Map Data 0 1 on A
dump on A
dump Data 0 on A
dump Data 0 x on A
dump Data 0 8 9 on A
scrub Data on
table on
table Data Data on A
table Data 0 on A
table Data
init G on A B
init G 11111111-1111-1111-1111-111111111111 on A B
init G 11111111-1111-1111-1111-111111111111 22222222-2222-2222-2222-222222222222 on A
init G 11111111-1111-1111-1111-111111111111 22222222-2222-2222-2222-222222222222 33333333-3333-3333-3333-333333333333 on A
init G 11111111-1111-1111-1111-111111111111 22222222-2222-2222-2222-222222222222 33333333-3333-3333-3333-333333333333 on A B C
init G 11111111-1111-1111-1111-111111111111 22222222-2222-2222-2222-222222222222 33333333-3333-3333-3333-333333333333
init G 1 22222222-2222-2222-2222-222222222222 33333333-3333-3333-3333-333333333333 on A B
init G 11111111-1111-1111-1111-111111111111 22222222-2222-2222-2222-222222222222 3 on A B
init \\e 11111111-1111-1111-1111-111111111111 22222222-2222-2222-2222-222222222222 33333333-3333-3333-3333-333333333333 on A B
init G\\x00 11111111-1111-1111-1111-111111111111 22222222-2222-2222-2222-222222222222 33333333-3333-3333-3333-333333333333 on A B
init 0123456789012345678901234567890 11111111-1111-1111-1111-111111111111 22222222-2222-2222-2222-222222222222 33333333-3333-3333-3333-333333333333 on A B
begin
begin on A
commit on A
cancel on A";

#[test]
fn refuses_other_words(rt: HostRuntime) {
    for line in NO_JOBS.lines() {
        check(&rt, is_refused(&rt, rt.alloc(), line), line);
    }
}

// The line of a job on so many images.
fn line_on(rt: &impl Abort, alloc: Global, job: &str, images: usize) -> String {
    let images = " A".repeat(alloc, images).expect(rt, "memory");
    format!(in alloc; "{job} on{images}").expect(rt, "memory")
}

const JOBS_ON_64: [(&str, Parts<'static>); 3] = [
    ("show", ("show", b"", 0, 0)),
    ("check", ("check", b"", 0, 0)),
    ("map Data 0 1", ("map", b"Data", 0, 1)),
];

#[test]
fn takes_64_images(rt: HostRuntime) {
    for row in &JOBS_ON_64 {
        let (job, want) = *row;
        let line = line_on(&rt, rt.alloc(), job, 64);
        check(&rt, is_job(&rt, rt.alloc(), &line, want, 64), job);
    }
}

#[test]
fn refuses_65_images(rt: HostRuntime) {
    for row in &JOBS_ON_64 {
        let line = line_on(&rt, rt.alloc(), row.0, 65);
        check(&rt, is_refused(&rt, rt.alloc(), &line), row.0);
    }
}

// Whether it is this name, or none.
fn is_name(read: &Result<Option<Bytes>, NoMemory>, want: Option<&[u8]>) -> bool {
    match read {
        Ok(Some(name)) => want == Some(name.as_slice()),
        Ok(None) => want.is_none(),
        Err(_) => false,
    }
}

// Whether the word spells this name, or none.
fn spells(alloc: Global, word: &[u8], want: Option<&[u8]>) -> bool {
    is_name(&read_name(alloc, word), want)
}

const NAMES: [(&str, &str); 5] = [
    ("Data", "Data"),
    ("\\e", ""),
    ("\\x6fn", "on"),
    ("a\\x20b", "a b"),
    ("\\x5ce", "\\e"),
];

const NO_NAMES: [&str; 8] = [
    "", "a b", "a\\X41", "a\\x4A", "a\\x4", "a\\e", "\\", "\u{e9}",
];

#[test]
fn reads_names(rt: HostRuntime) {
    for (word, name) in NAMES {
        let holds = spells(rt.alloc(), word.as_bytes(), Some(name.as_bytes()));
        check(&rt, holds, word);
    }
}

#[test]
fn refuses_other_names(rt: HostRuntime) {
    for word in NO_NAMES {
        check(&rt, spells(rt.alloc(), word.as_bytes(), None), word);
    }
}

#[test]
fn names_of_255_bytes(rt: HostRuntime) {
    let longest = [b'n'; 255];
    assert!(rt; spells(rt.alloc(), &longest, Some(&longest)));
    assert!(rt; spells(rt.alloc(), &[b'n'; 256], None));
}

const NUMBERS: [(&str, Option<u64>); 9] = [
    ("0", Some(0)),
    ("00000000000000000007", Some(7)),
    ("18446744073709551615", Some(18446744073709551615)),
    ("18446744073709551616", None),
    ("000000000000000000007", None),
    ("", None),
    ("-1", None),
    ("+1", None),
    ("0x1", None),
];

#[test]
fn reads_numbers(rt: HostRuntime) {
    for (word, number) in NUMBERS {
        check(&rt, read_number(word.as_bytes()) == number, word);
    }
}
