//! The program over files, and how it ends.
ghost use Rattle.std.specs.Prelude.{◌<◌, ◌≤◌, ◌+◌, ◌*◌, length, slice_index, IsTrue};

use super::*;
use ldm_console::Progress;
use ldm_edge::{Fault, form_in, help_to, word_of};
use ldm_files::{DiskCall, ImageFile, Sectors, Unwatched};
use ldm_host::{Failed, Host};
use ldm_memory::MemoryHost;
use ldm_vectors::sample_images;
use std::alloc::Global;
use std::fs::File;
use std::path::PathBuf;
use std::test::Fail;
use std::{env, fs};

// A new folder of its own, for files of this name.
fn folder_for(rt: &HostRuntime, name: &str) -> Result<PathBuf, Fail> {
    let mut folder = env::temp_dir(rt)?;
    let id = std::process::id(rt.process());
    folder.push(format!(in rt.alloc(); "ldm-{name}-{id}")?)?;
    fs::create_dir(rt, &folder)?;
    Ok(folder)
}

fn path_in(rt: &HostRuntime, folder: &PathBuf, name: &str) -> Result<String, Fail> {
    let Some(folder) = folder.to_str() else {
        return Err(Fail::from("no name"));
    };
    Ok(format!(in rt.alloc(); "{folder}/{name}")?)
}

// A job on the files of these names in the folder.
fn words_on(
    rt: &HostRuntime,
    job: &str,
    folder: &PathBuf,
    names: &[&str],
) -> Result<Vec<String>, Fail> {
    let mut words = Vec::new(rt.alloc());
    for word in job.split(' ') {
        words.push(String::from_str(rt.alloc(), word)?)?;
    }
    words.push(String::from_str(rt.alloc(), "on")?)?;
    for name in names {
        words.push(path_in(rt, folder, name)?)?;
    }
    Ok(words)
}

// No stream is a terminal.
const NOWHERE: Terminals = Terminals {
    input: false,
    error: false,
};

const NAMES: [&str; 3] = ["a.img", "b.img", "c.img"];

// A folder with these images.
fn folder_with(rt: &HostRuntime, name: &str, images: &[Vec<u8>]) -> Result<PathBuf, Fail> {
    let folder = folder_for(rt, name)?;
    for (name, image) in NAMES.iter().zip(images.iter()) {
        fs::write(rt, path_in(rt, &folder, name)?.as_str(), image)?;
    }
    Ok(folder)
}

// A folder with the images of the sample group.
fn sample_folder(rt: &HostRuntime, name: &str) -> Result<PathBuf, Fail> {
    folder_with(rt, name, &sample_images(rt.alloc(), 3, 64)?)
}

// How a job ends: its status, what is said on standard error, and what is said.
#[derive(Drop)]
struct End {
    status: Status,
    error: String,
    said: Vec<u8>,
}

// Runs words with this input and output.
fn end_of<O: Write + Drop>(
    rt: &HostRuntime,
    words: &[String],
    input: &[u8],
    output: O,
) -> Result<(Status, String), Fail> {
    match run_words(rt, words, input, output, NOWHERE) {
        Ok(status) => Ok((status, String::new(rt.alloc()))),
        Err(stop) => Ok((stop.status(), format!(in rt.alloc(); "{stop}")?)),
    }
}

// Runs a job on the files of these names with this input.
fn run_on(
    rt: &HostRuntime,
    job: &str,
    folder: &PathBuf,
    names: &[&str],
    input: &[u8],
) -> Result<End, Fail> {
    let words = words_on(rt, job, folder, names)?;
    let mut said = Vec::new(rt.alloc());
    let (status, error) = end_of(rt, &words, input, &mut said)?;
    Ok(End {
        status,
        error,
        said,
    })
}

// What is said of the sample group.
const IN_ORDER: &[u8] = b"\
group Dg0 aaaaaaaa-aaaa-aaaa-aaaa-aaaaaaaaaaaa sequence 7 blocks 4 of 60
disk 2 Disk1 11111111-1111-1111-1111-111111111111 image 1 free 6081
disk 3 Disk2 22222222-2222-2222-2222-222222222222 image 2 free 6081
disk 4 Disk3 33333333-3333-3333-3333-333333333333 image 0 free 6081
";

#[test]
fn takes_the_images_in_the_order_of_the_words(rt: HostRuntime) -> Result<(), Fail> {
    let folder = sample_folder(&rt, "order")?;
    let end = run_on(&rt, "show", &folder, &["c.img", "a.img", "b.img"], b"")?;
    assert_eq!(rt; end.status, Status::Done);
    assert_eq!(rt; end.said.as_slice(), IN_ORDER);
    fs::remove_dir_all(&rt, &folder)?;
    Ok(())
}

// A script, the replies to it, and the group that it leaves.
const SCRIPT: &[u8] = b"\
create Data bbbbbbbb-bbbb-bbbb-bbbb-bbbbbbbbbbbb span Disk1=2048
delete Nope
extend Data Disk2=100
";

const REPLIES: &[u8] = b"1 ok 8\n2 refused: no volume\n3 ok 9\n";

const EDITED: &[u8] = b"\
group Dg0 aaaaaaaa-aaaa-aaaa-aaaa-aaaaaaaaaaaa sequence 9 blocks 8 of 60
disk 2 Disk1 11111111-1111-1111-1111-111111111111 image 0 free 4033
disk 3 Disk2 22222222-2222-2222-2222-222222222222 image 1 free 5981
disk 4 Disk3 33333333-3333-3333-3333-333333333333 image 2 free 6081
volume 5 Data span 2148 bbbbbbbb-bbbb-bbbb-bbbb-bbbbbbbbbbbb
  component 6 c6 basic
    partition 7 p7 disk 2 start 0 size 2048 offset 0
    partition 8 p8 disk 3 start 0 size 100 offset 2048
";

const EQUAL: &[u8] = b"\
image 0 sequence 9
image 1 sequence 9
image 2 sequence 9
ok: editable
";

// A job on files, its input, what is said of it, and how it ends.
type Row = (&'static str, &'static [u8], &'static [u8], Status);

const EDITS: [Row; 4] = [
    ("try", SCRIPT, REPLIES, Status::Refused),
    ("edit", SCRIPT, REPLIES, Status::Refused),
    ("show", b"", EDITED, Status::Done),
    ("check", b"", EQUAL, Status::Done),
];

#[test]
fn edits_files(rt: HostRuntime) -> Result<(), Fail> {
    let folder = sample_folder(&rt, "edit")?;
    for (job, input, text, status) in EDITS {
        let end = run_on(&rt, job, &folder, &NAMES, input)?;
        assert_eq!(rt; end.said.as_slice(), text, "{job}");
        assert_eq!(rt; end.status, status, "{job}");
        assert_eq!(rt; end.error.as_str(), "", "{job}");
    }
    fs::remove_dir_all(&rt, &folder)?;
    Ok(())
}

// Runs words over disks in memory, which are as many as the words name.
fn run_in_memory(
    rt: &HostRuntime,
    words: &[String],
    host: &mut MemoryHost,
) -> Result<Status, Fail> {
    match read_words(rt.alloc(), words) {
        Ok((_, count)) if count == host.disks() => Ok(run(rt.alloc(), words, host)),
        _ => Err(Fail::from("other words")),
    }
}

#[test]
fn leaves_in_files_the_bytes_of_disks_in_memory(rt: HostRuntime) -> Result<(), Fail> {
    let alloc = rt.alloc();
    let folder = sample_folder(&rt, "bytes")?;
    let end = run_on(&rt, "edit", &folder, &NAMES, SCRIPT)?;
    assert_eq!(rt; end.status, Status::Refused);
    let words = words_on(&rt, "edit", &folder, &NAMES)?;
    let script = SCRIPT.to_vec(alloc)?;
    let mut host = MemoryHost::new(alloc, sample_images(alloc, 3, 64)?, script)?;
    assert_eq!(rt; run_in_memory(&rt, &words, &mut host)?, Status::Refused);
    for (disk, name) in NAMES.iter().enumerate() {
        assert!(rt; disk < host.disks());
        let bytes = fs::read(&rt, path_in(&rt, &folder, name)?.as_str())?;
        assert!(rt; bytes.as_slice() == host.image(disk), "{name}");
    }
    fs::remove_dir_all(&rt, &folder)?;
    Ok(())
}

#[test]
fn ends_with_a_talk_fault_where_nothing_can_be_said(rt: HostRuntime) -> Result<(), Fail> {
    let folder = sample_folder(&rt, "closed")?;
    for (job, written) in [
        ("disk", ""),
        ("delete Volume1", "ldm: nothing was written\n"),
    ] {
        let words = words_on(&rt, job, &folder, &["a.img"])?;
        // As standard output is where the program was started without one.
        let null = File::open(&rt, "/dev/null")?;
        let (status, error) = end_of(&rt, &words, b"", null)?;
        let text = format!(in rt.alloc();
            "ldm: talk fault: standard output: Bad file descriptor (os error 9)\n{written}"
        )?;
        assert_eq!(rt; status, Status::TalkFault);
        assert_eq!(rt; error.as_str(), text.as_str());
    }
    fs::remove_dir_all(&rt, &folder)?;
    Ok(())
}

// A span of two disks, and the bytes of its first half.
const HALVES: &[u8] = b"create Data bbbbbbbb-bbbb-bbbb-bbbb-bbbbbbbbbbbb span Disk1=2 Disk2=3\n";

const HALF: [u8; 1024] = [b'x'; 1024];

// Puts these bytes into the data area of a file of an image, at its beginning.
fn put_data(rt: &HostRuntime, path: &str, bytes: &[u8]) -> Result<(), Fail> {
    let mut image = fs::read(rt, path)?;
    let mut place: usize = 63 * 512;
    for byte in bytes {
        if let Some(old) = image.get_mut(place) {
            *old = *byte;
        }
        place = place.saturating_add(1);
    }
    fs::write(rt, path, &image)?;
    Ok(())
}

#[test]
fn rescues_what_is_left_of_a_span(rt: HostRuntime) -> Result<(), Fail> {
    let folder = sample_folder(&rt, "rescue")?;
    let made = run_on(&rt, "edit", &folder, &NAMES, HALVES)?;
    assert_eq!(rt; made.said.as_slice(), b"1 ok 8\n".as_slice());
    put_data(&rt, path_in(&rt, &folder, "a.img")?.as_str(), &HALF)?;
    for (job, first, zeros, status) in [
        ("dump --rescue Data", 0, 1536, Status::Refused),
        ("dump --rescue Data 1 2", 512, 512, Status::Refused),
        ("dump --rescue Data 0 2", 0, 0, Status::Done),
    ] {
        let mut wanted = HALF[first..].to_vec(rt.alloc())?;
        for _ in 0..zeros {
            wanted.push(0)?;
        }
        let end = run_on(&rt, job, &folder, &["c.img", "a.img"], b"")?;
        assert!(rt; end.said.as_slice() == wanted.as_slice(), "{job}");
        assert_eq!(rt; end.status, status, "{job}");
        assert_eq!(rt; end.error.as_str(), "", "{job}");
    }
    fs::remove_dir_all(&rt, &folder)?;
    Ok(())
}

const NO_VOLUME: &[u8] = b"refused: no volume\n";

#[test]
fn refuses_a_rescue_as_a_dump(rt: HostRuntime) -> Result<(), Fail> {
    let folder = sample_folder(&rt, "refused")?;
    // Without another word behind it the option is the name of a volume.
    for job in ["dump --rescue Data", "dump --rescue"] {
        let end = run_on(&rt, job, &folder, &NAMES, b"")?;
        assert_eq!(rt; end.said.as_slice(), NO_VOLUME, "{job}");
        assert_eq!(rt; end.status, Status::Refused, "{job}");
        assert_eq!(rt; end.error.as_str(), "", "{job}");
    }
    let end = run_on(
        &rt,
        "dump --rescue Data",
        &folder,
        &["a.img", "missing"],
        b"",
    )?;
    assert_eq!(rt; end.status, Status::DiskFault);
    assert_eq!(rt; end.said.len(), 0);
    fs::remove_dir_all(&rt, &folder)?;
    Ok(())
}

// What an image may not be, and why.
const UNOPENED: [(&str, &str); 3] = [
    (
        ".",
        "it is a directory, and neither a regular file nor a block device",
    ),
    ("missing", "there is no such file"),
    (
        "../../../../../../../../dev/null",
        "it is a character device, and neither a regular file nor a block device",
    ),
];

#[test]
fn opens_nothing_but_files_and_block_devices(rt: HostRuntime) -> Result<(), Fail> {
    let folder = folder_for(&rt, "kinds")?;
    for (name, why) in UNOPENED {
        let path = path_in(&rt, &folder, name)?;
        let text = format!(in rt.alloc(); "ldm: cannot open: image 0 ({path}): {why}\n")?;
        let end = run_on(&rt, "disk", &folder, &[name], b"")?;
        assert_eq!(rt; end.status, Status::DiskFault, "{name}");
        assert_eq!(rt; end.error.as_str(), text.as_str(), "{name}");
        assert_eq!(rt; end.said.len(), 0, "{name}");
    }
    fs::remove_dir_all(&rt, &folder)?;
    Ok(())
}

// What scan says of an image, of nothing, of a folder, and of one image more.
const SCANNED: &[u8] = b"\
image 0 group Dg0 aaaaaaaa-aaaa-aaaa-aaaa-aaaaaaaaaaaa disk Disk1 11111111-1111-1111-1111-111111111111 sequence 7
image 1 cannot open: there is no such file
image 2 cannot open: it is a directory, and neither a regular file nor a block device
image 3 group Dg0 aaaaaaaa-aaaa-aaaa-aaaa-aaaaaaaaaaaa disk Disk3 33333333-3333-3333-3333-333333333333 sequence 7
";

#[test]
fn scans_past_images_that_do_not_open(rt: HostRuntime) -> Result<(), Fail> {
    let folder = sample_folder(&rt, "past")?;
    let names = ["a.img", "missing", ".", "c.img"];
    let end = run_on(&rt, "scan", &folder, &names, b"")?;
    assert_eq!(rt; end.status, Status::Done);
    assert_eq!(rt; end.said.as_slice(), SCANNED);
    assert_eq!(rt; end.error.as_str(), "");
    fs::remove_dir_all(&rt, &folder)?;
    Ok(())
}

// Opens a file of these bytes, for writing too.
fn file_of(
    rt: &HostRuntime,
    folder: &PathBuf,
    name: &str,
    bytes: &[u8],
) -> Result<ImageFile, Fail> {
    let path = path_in(rt, folder, name)?;
    fs::write(rt, path.as_str(), bytes)?;
    let file = File::options()
        .read(true)
        .write(true)
        .open(rt, path.as_str())?;
    Ok(ImageFile::of(file)?)
}

fn has<H: Host>(host: &H, disk: usize, at: u64, count: usize) -> bool
    ensures { IsTrue result → (disk < length (H.seen host.now).sizes)
        × (at + count ≤ 512 * slice_index (H.seen host.now).sizes disk) }
{
    if disk >= host.disks() {
        return false;
    }
    let size = host.sectors(disk) * 512;
    if at > size {
        return false;
    }
    count as u64 <= size - at
}

// The five bytes of a disk at a place.
fn read<H: Host>(host: &mut H, disk: usize, at: u64) -> Result<[u8; 5], Failed> {
    let mut buf = [0u8; 5];
    if !has(host, disk, at, buf.len()) {
        return Err(Failed);
    }
    host.read_at(disk, at, &mut buf)?;
    Ok(buf)
}

fn write<H: Host>(host: &mut H, disk: usize, at: u64, bytes: &[u8]) -> Result<(), Failed> {
    if has(host, disk, at, bytes.len()) {
        host.write_at(disk, at, bytes)
    } else {
        Err(Failed)
    }
}

fn sync<H: Host>(host: &mut H, disk: usize) -> Result<(), Failed> {
    if disk < host.disks() {
        host.sync(disk)
    } else {
        Err(Failed)
    }
}

// A host over two files, the first of them once more, for reading alone, and the null device.
fn host_in(
    rt: &HostRuntime,
    folder: &PathBuf,
) -> Result<FileHost<&'static [u8], Vec<u8>, Unwatched>, Fail> {
    let alloc = rt.alloc();
    let mut images = Vec::new(alloc);
    images.push(file_of(rt, folder, "a", &[b'a'; 1024])?)?;
    images.push(file_of(rt, folder, "b", &[b'b'; 1535])?)?;
    for path in [path_in(rt, folder, "a")?.as_str(), "/dev/null"] {
        images.push(ImageFile::of(File::open(rt, path)?)?)?;
    }
    Ok(FileHost::new(alloc, images, b"abc".as_slice(), Vec::new(alloc), Unwatched)?)
}

#[test]
fn handles_each_file_for_its_disk(rt: HostRuntime) -> Result<(), Fail> {
    let folder = folder_for(&rt, "disks")?;
    let mut host = host_in(&rt, &folder)?;
    assert!(rt; read(&mut host, 0, 0) == Ok(*b"aaaaa") && !host.has_written());
    assert!(rt; write(&mut host, 1, 510, b"xyz") == Ok(()) && host.has_written());
    // The last byte of the second sector is there, and no third one is.
    for (disk, at, bytes) in [(1, 509, b"bxyzb"), (0, 509, b"aaaaa"), (1, 1019, b"bbbbb")] {
        assert!(rt; read(&mut host, disk, at) == Ok(*bytes), "{at}");
    }
    assert!(rt; !has(&host, 1, 1020, 5));
    // The third image is open for reading alone, and the null device syncs nothing.
    assert!(rt; write(&mut host, 2, 0, b"x") == Err(Failed));
    assert!(rt; sync(&mut host, 1) == Ok(()));
    assert!(rt; sync(&mut host, 3) == Err(Failed));
    // What is no longer there can't be read.
    fs::write(&rt, path_in(&rt, &folder, "a")?.as_str(), b"short")?;
    assert!(rt; read(&mut host, 0, 509) == Err(Failed));
    fs::remove_dir_all(&rt, &folder)?;
    Ok(())
}

#[test]
fn counts_the_sectors_that_bytes_touch(rt: HostRuntime) -> Result<(), Fail> {
    for (at, length, first, count) in [
        (0, 512, 0, 1),
        (511, 2, 0, 2),
        (512, 0, 1, 0),
        (3_154_433, 511, 6161, 1),
        (u64::MAX, 1, 36_028_797_018_963_967, 1),
    ] {
        assert!(rt;
            Sectors::touched(at, length) == Sectors { first, count },
            "{at}"
        );
    }
    Ok(())
}

#[test]
fn says_what_a_job_has_written(rt: HostRuntime) -> Result<(), Fail> {
    let alloc = rt.alloc();
    let guid = "11111111-1111-1111-1111-111111111111";
    let other = "22222222-2222-2222-2222-222222222222";
    let init = format!(in alloc; "init Dg0 {guid} {guid} {other}")?;
    for (job, untouched, touched) in [
        ("show", Written::Never, Written::Never),
        ("edit", Written::Nothing, Written::Lines(3)),
        ("delete Volume1", Written::Nothing, Written::Lines(3)),
        (init.as_str(), Written::Nothing, Written::NewGroup),
    ] {
        let words = words_on(&rt, job, &PathBuf::new(alloc), &["a.img", "b.img"])?;
        let Ok((job, _)) = read_words(alloc, &words) else {
            return Err(Fail::from("no job"));
        };
        let needs = needs_of(&job);
        assert!(rt; written_by(needs, false, Some(0)) == untouched);
        assert!(rt; written_by(needs, true, Some(3)) == touched);
    }
    assert!(rt; written_by(REPAIR, false, None) == Written::Nothing);
    assert!(rt; written_by(REPAIR, true, None) == Written::Copies);
    Ok(())
}

// What a host over no files hears next of an input: how many bytes, and the buffer after it.
fn hear<H: Host>(host: &mut H, buf: &mut [u8; 2]) -> (Result<usize, Failed>, [u8; 2]) {
    let count = host.hear(buf);
    (count, *buf)
}

#[test]
fn hears_the_input_to_its_end(rt: HostRuntime) -> Result<(), Fail> {
    let alloc = rt.alloc();
    let mut buf = [0u8; 2];
    let mut host = FileHost::new(
        alloc,
        Vec::new(alloc),
        b"abc".as_slice(),
        Vec::new(alloc),
        Unwatched,
    )?;
    for (count, heard) in [(2, b"ab"), (1, b"cb"), (0, b"cb")] {
        assert!(rt; hear(&mut host, &mut buf) == (Ok(count), *heard));
    }
    // A folder is no input.
    let folder = File::open(&rt, ".")?;
    let mut host = FileHost::new(alloc, Vec::new(alloc), folder, Vec::new(alloc), Unwatched)?;
    assert!(rt; host.hear(&mut buf) == Err(Failed));
    Ok(())
}

// An error of the system.
fn no_space() -> io::Error {
    io::Error::from_raw_os_error(28)
}

// A fault of a job over an image of this name, which has written so.
fn fault(names: &[String], failure: Failure, written: Written) -> Fault<'_> {
    Fault {
        failure: Some(failure),
        names,
        written,
    }
}

// A fault of a call of the first image.
fn disk_fault(names: &[String], call: DiskCall, written: Written) -> Fault<'_> {
    let failure = Failure::Disk {
        image: 0,
        call,
        error: no_space(),
    };
    fault(names, failure, written)
}

const FULL: &str = "\
ldm: disk fault: image 0 (a\\x0ab): write of sectors 6161+1: No space left on device (os error 28)
ldm: 2 lines were answered; the next may be done: run check, then edit again
";

const UNREAD: &str = "\
ldm: disk fault: image 0 (a\\x0ab): read of sectors 1000+8: No space left on device (os error 28)
";

const UNSYNCED: &str = "\
ldm: disk fault: image 0 (a\\x0ab): sync: No space left on device (os error 28)
ldm: the new group may be there in part: run check; if it refuses the disks, zero them \
as README says under \"A new group\", then run init again
";

const UNSAID: &str = "\
ldm: talk fault: standard output: No space left on device (os error 28)
ldm: 2 lines were answered; the next may be done: run check, then edit again
";

const UNHEARD: &str = "\
ldm: talk fault: standard input: No space left on device (os error 28)
ldm: nothing was written
";

const NO_MEMORY: &str = "\
ldm: no memory
ldm: 1 line was answered; the next may be done: run check, then edit again
";

const UNREPAIRED: &str = "\
ldm: no memory
ldm: copies of the database may be closed or made in part: run check --past-damage, then repair again
";

const NOT_UTF8: &str = "\
ldm: usage: ldm JOB on IMAGE...
ldm: a word is not UTF-8; an image whose path isn't can be named by a link to it
ldm: ldm --help says more
";

const NO_JOB: &str = "\
ldm: usage: ldm JOB on IMAGE...
ldm: there is no job
ldm: ldm --help says more
";

#[test]
fn says_why_there_is_no_answer(rt: HostRuntime) -> Result<(), Fail> {
    let alloc = rt.alloc();
    let mut names = Vec::new(alloc);
    names.push(String::from_str(alloc, "a\nb")?)?;
    let write = DiskCall::Write(Sectors::touched(6161 * 512 + 1, 511));
    let read = DiskCall::Read(Sectors::touched(1000 * 512, 8 * 512));
    let output = Failure::Output(no_space());
    let input = Failure::Input(no_space());
    let two = Written::Lines(2);
    let rows = [
        (Stop::Disk(disk_fault(&names, write, two)), FULL, 3),
        (
            Stop::Disk(disk_fault(&names, read, Written::Never)),
            UNREAD,
            3,
        ),
        (
            Stop::Disk(disk_fault(&names, DiskCall::Sync, Written::NewGroup)),
            UNSYNCED,
            3,
        ),
        (Stop::Talk(fault(&names, output, two)), UNSAID, 5),
        (
            Stop::Talk(fault(&names, input, Written::Nothing)),
            UNHEARD,
            5,
        ),
        (Stop::NoMemory(Written::Lines(1)), NO_MEMORY, 4),
        (Stop::NoMemory(Written::Copies), UNREPAIRED, 4),
        (Stop::NoMemory(Written::Never), "ldm: no memory\n", 4),
        (Stop::NotUtf8, NOT_UTF8, 2),
        (Stop::Usage(Some(UsageError::NoJob)), NO_JOB, 2),
    ];
    for (stop, text, status) in rows {
        assert_eq!(rt; format!(in alloc; "{stop}")?.as_str(), text);
        assert_eq!(rt; stop.status() as u8, status);
    }
    Ok(())
}

// What is told of words that a bar separates, if they ask to be told something.
fn told_in(alloc: Global, bar: &str) -> Result<Option<String>, Fail> {
    let mut words = Vec::new(alloc);
    for word in bar.split('|') {
        words.push(String::from_str(alloc, word)?)?;
    }
    Ok(match asked_for(&words) {
        Some(Told::Text(text)) => Some(String::from_str(alloc, text)?),
        Some(Told::Help(help)) => Some(format!(in alloc; "{help}")?),
        None => None,
    })
}

const MAP_HELP: &str = "\
usage: ldm map VOLUME FIRST COUNT on IMAGE...
  where sectors of a volume lie, 4096 at most

FIRST is a sector of the volume, from 0 on. Each line names the disk, the sector of its data area, and that of
its image. With --json behind map it is one JSON value. With --past-damage there it reads on past damaged labels and
copies of the database.

example: ldm map 'Volume1' 0 1 on disk1.img disk2.img
";

const CREATE_HELP: &str = "\
usage: ldm create NAME GUID span DISK=SECTORS... on IMAGE...
  1 to 64 pieces, one after another
usage: ldm create NAME GUID stripe CHUNK SECTORS DISK DISK... on IMAGE...
  SECTORS on each of 2 to 64 disks
usage: ldm create NAME GUID mirror SECTORS DISK DISK... on IMAGE...
  SECTORS on each of 2 to 64 disks
usage: ldm create NAME GUID raid5 CHUNK SECTORS DISK DISK DISK... on IMAGE...
  SECTORS on each of 3 to 64 disks

NAME has 1 to 63 bytes, and GUID is the volume's own, as uuidgen makes one. Each partition lies at the first free
sectors of its disk that are enough. What the sectors held stays.
";

const COMMIT_HELP: &str = "\
a line of a script: commit
  they are done as one change, all or none

Whatever a stop leaves has all commands of the batch or none.
";

const HELP_HELP: &str = "\
usage: ldm help JOB

ldm help alone says all jobs.
";

#[test]
fn tells_the_help_and_the_version(rt: HostRuntime) -> Result<(), Fail> {
    let rows = [
        ("--help", Some(HELP)),
        ("-h", Some(HELP)),
        ("help", Some(HELP)),
        ("--version", Some(VERSION)),
        ("help|map", Some(MAP_HELP)),
        ("map|--help", Some(MAP_HELP)),
        ("map|-h", Some(MAP_HELP)),
        ("help|create", Some(CREATE_HELP)),
        ("help|commit", Some(COMMIT_HELP)),
        ("help|help", Some(HELP_HELP)),
        ("--help|x", None),
        ("--version|x", None),
        ("help|x", None),
        ("help|map|x", None),
        ("map", None),
        ("map|--help|on|a", None),
        ("dump|--help|on|a", None),
    ];
    for (words, text) in rows {
        assert_eq!(rt; told_in(rt.alloc(), words)?.as_deref(), text);
    }
    Ok(())
}

// The jobs, commands and words of a batch that the help says have help of their own.
#[test]
fn tells_the_help_of_each_job(rt: HostRuntime) -> Result<(), Fail> {
    for line in help_to("\nSECTORS and CHUNK").lines() {
        let Some(form) = form_in(line) else {
            continue;
        };
        let word = word_of(form);
        if word != "COMMAND" {
            assert!(rt; JobHelp::of(word).is_some(), "{word}");
        }
    }
    Ok(())
}

#[test]
fn tells_how_far_a_job_has_come(rt: HostRuntime) -> Result<(), Fail> {
    let rows = [
        (Counted::Said, 0, 500, "0 bytes (0 B, 0 B) said, 0 s, 0 B/s"),
        (
            Counted::Said,
            98_304_000,
            1000,
            "98304000 bytes (98 MB, 93 MiB) said, 1 s, 98 MB/s",
        ),
        (
            Counted::Read,
            1_048_576,
            500,
            "1048576 bytes (1.0 MB, 1.0 MiB) read, 0 s, 2.0 MB/s",
        ),
        (
            Counted::Read,
            u64::MAX,
            1,
            "18446744073709551615 bytes (18 EB, 15 EiB) read, 0 s, 18 EB/s",
        ),
    ];
    for (counted, bytes, millis, text) in rows {
        let progress = Progress {
            bytes,
            millis,
            counted,
        };
        assert_eq!(rt; format!(in rt.alloc(); "{progress}")?.as_str(), text);
    }
    Ok(())
}
