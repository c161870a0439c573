//! What `try` says of scripts, over the sample group.
use crate::group::change_images;
use crate::jobs::{expect, expect_fault, sample_group};
use ldm_run::Status;
use ldm_words::read_number;
use std::alloc::Global;
use std::process::Abort;
use std::test::Fail;

// COUNT|HEAD|PART|REPLY: a line of the head and so many of the part behind it, and the reply to it.
// The last line has no newline.
const ODD_LINES: &str = "\
3|| |refused: bad line
255|delete |x|refused: no volume
256|delete |x|refused: bad line
300|delete |x|refused: bad line
1|delete |\\x41|refused: no volume
1|delete |\\x4|refused: bad line
1|delete |\\|refused: bad line
1|delete |\\x4A|refused: bad line
1|delete |\u{e9}|refused: bad line
1|delete Nope|\r|refused: bad line
20|extend Nope Disk1=|0|refused: no volume
21|extend Nope Disk1=|0|refused: bad line
1|extend Nope Disk1=|18446744073709551615|refused: no volume
1|extend Nope Disk1=|18446744073709551616|refused: bad line
64|extend Nope| Disk1=1|refused: no volume
65|extend Nope| Disk1=1|refused: bad line
1|create a=b=c bbbbbbbb-bbbb-bbbb-bbbb-bbbbbbbbbbbb span| Disk1=1|ok 8
1|extend a=b=c| Disk1=5=1|refused: no disk 0
1|  delete   a=b=c| |ok 9
1|delete |a=b=c|refused: no volume";

// Adds the line of a row to a script.
fn push_line(script: &mut String, count: &str, head: &str, part: &str) -> Result<(), Fail> {
    let Some(count) = read_number(count.as_bytes()) else {
        return Err(Fail::from("no count"));
    };
    script.push_str(head)?;
    for _ in 0..count {
        script.push_str(part)?;
    }
    Ok(())
}

// The script of such lines, and the replies to it.
fn script_of(alloc: Global, rows: &str) -> Result<(String, String), Fail> {
    let mut script = String::new(alloc);
    let mut said = String::new(alloc);
    for (row, number) in rows.lines().zip(1u32..) {
        let mut parts = row.split('|');
        let (Some(count), Some(head), Some(part), Some(reply)) = (
            parts.next(),
            parts.next(),
            parts.next(),
            parts.next(),
        ) else {
            return Err(Fail::from("no row"));
        };
        if number > 1 {
            script.push('\n')?;
        }
        push_line(&mut script, count, head, part)?;
        said.push_str(format!(in alloc; "{number} {reply}\n")?.as_str())?;
    }
    Ok((script, said))
}

// Tries a script on a group of three disks, and compares all that is said.
fn expect_replies(
    alloc: Global,
    rt: &impl Abort,
    script: &str,
    said: &str,
    status: Status,
) -> Result<(), Fail> {
    let images = sample_group(alloc, 3, 64)?;
    expect(
        alloc,
        rt,
        "try on A B C",
        images,
        script.as_bytes(),
        (said, status),
    )
}

// Scripts, the replies to them, and the status.
type Replied = (&'static str, &'static str, Status);

fn expect_each(alloc: Global, rt: &impl Abort, scripts: &[Replied]) -> Result<(), Fail> {
    for (script, said, status) in scripts {
        expect_replies(alloc, rt, script, said, *status)?;
    }
    Ok(())
}

const BAD_LINES: &str = "1 refused: bad line\n2 refused: bad line\n";

const UNREAD: [Replied; 3] = [
    ("", "", Status::Done),
    ("\n\n", BAD_LINES, Status::Refused),
    ("frob\ndelete", BAD_LINES, Status::Refused),
];

#[test]
fn replies_to_lines_without_a_reading(rt: HostRuntime) -> Result<(), Fail> {
    expect_each(rt.alloc(), &rt, &UNREAD)
}

#[test]
fn replies_to_odd_lines(rt: HostRuntime) -> Result<(), Fail> {
    let alloc = rt.alloc();
    let (script, said) = script_of(alloc, ODD_LINES)?;
    expect_replies(alloc, &rt, script.as_str(), said.as_str(), Status::Refused)
}

// Words, the size of a script, and what is said.
const SIZES: [(&str, usize, &str); 3] = [
    ("try on A B C", 1_048_576, "1 refused: bad line\n"),
    ("try on A B C", 1_048_577, "refused: script too long\n"),
    ("edit on A B C", 1_048_577, "refused: script too long\n"),
];

fn refuse_size(
    alloc: Global,
    rt: &impl Abort,
    words: &str,
    size: usize,
    said: &str,
) -> Result<(), Fail> {
    let script = vec![in alloc; b'x'; size]?;
    let images = sample_group(alloc, 3, 64)?;
    expect(alloc, rt, words, images, &script, (said, Status::Refused))
}

#[test]
fn refuses_a_script_that_is_too_long(rt: HostRuntime) -> Result<(), Fail> {
    for (words, size, said) in SIZES {
        refuse_size(rt.alloc(), &rt, words, size, said)?;
    }
    Ok(())
}

#[test]
fn tries_no_group_that_may_not_be_edited(rt: HostRuntime) -> Result<(), Fail> {
    let alloc = rt.alloc();
    let mut images = sample_group(alloc, 3, 64)?;
    images.truncate(1);
    let refused = ("refused: disk 3 is absent\n", Status::Refused);
    expect(alloc, &rt, "try on A", images, b"delete Data\n", refused)
}

#[test]
fn ends_where_hearing_fails(rt: HostRuntime) -> Result<(), Fail> {
    let alloc = rt.alloc();
    for words in ["try on A B C", "edit on A B C"] {
        let images = sample_group(alloc, 3, 64)?;
        expect_fault(alloc, &rt, words, images, Status::TalkFault)?;
    }
    Ok(())
}

const FULL: &str = "\
create Full bbbbbbbb-bbbb-bbbb-bbbb-bbbbbbbbbbbb span Disk1=6081
create More cccccccc-cccc-cccc-cccc-cccccccccccc span Disk1=1
";

const FULL_SAID: &str = "1 ok 8\n2 refused: no space 0\n";

const REFUSALS: &str = "\
create Data bbbbbbbb-bbbb-bbbb-bbbb-bbbbbbbbbbbb span Disk1=2048 Disk1=10
create Data cccccccc-cccc-cccc-cccc-cccccccccccc span Nope=1
create X cccccccc-cccc-cccc-cccc-cccccccccccc span Nope=1
create X cccccccc-cccc-cccc-cccc-cccccccccccc mirror 5 Disk1 Disk1
create X cccccccc-cccc-cccc-cccc-cccccccccccc stripe 4 6 Disk1 Disk2
create R cccccccc-cccc-cccc-cccc-cccccccccccc raid5 4 12 Disk1 Disk2 Disk3
extend R Disk1=1
";

const REFUSALS_SAID: &str = "\
1 ok 8
2 refused: name taken
3 refused: no disk 0
4 refused: same disk twice
5 refused: bad size
6 ok 9
7 refused: not a span
";

const LINES: &str = "\
create Data bbbbbbbb-bbbb-bbbb-bbbb-bbbbbbbbbbbb span Disk1=2048
delete Nope
extend Data Disk2=100
delete Data
create E cccccccc-cccc-cccc-cccc-cccccccccccc span Disk3=1";

const LINES_SAID: &str = "1 ok 8\n2 refused: no volume\n3 ok 9\n4 ok 10\n5 ok 11\n";

const DONE: &str = "\
create Data bbbbbbbb-bbbb-bbbb-bbbb-bbbbbbbbbbbb span Disk1=2048
delete Data
";

const BATCH: &str = "\
begin
create Data bbbbbbbb-bbbb-bbbb-bbbb-bbbbbbbbbbbb span Disk1=2048
commit
delete Data
begin
cancel
";

const SCRIPTS: [Replied; 5] = [
    (FULL, FULL_SAID, Status::Refused),
    (REFUSALS, REFUSALS_SAID, Status::Refused),
    (LINES, LINES_SAID, Status::Refused),
    (DONE, "1 ok 8\n2 ok 9\n", Status::Done),
    (
        BATCH,
        "1 held\n2 held\n3 ok 8\n4 ok 9\n5 held\n6 dropped\n",
        Status::Done,
    ),
];

#[test]
fn replies_to_each_command(rt: HostRuntime) -> Result<(), Fail> {
    expect_each(rt.alloc(), &rt, &SCRIPTS)
}

// Where the config areas have two sectors, they hold four blocks.
#[test]
fn grows_to_what_the_config_areas_hold(rt: HostRuntime) -> Result<(), Fail> {
    let script = b"create Data bbbbbbbb-bbbb-bbbb-bbbb-bbbbbbbbbbbb span Disk1=2048\n";
    let images = sample_group(rt.alloc(), 2, 8)?;
    let grown = ("1 ok 8\n", Status::Done);
    expect(rt.alloc(), &rt, "try on A B", images, script, grown)?;
    let mut images = sample_group(rt.alloc(), 2, 8)?;
    change_images(rt.alloc(), images.as_mut_slice(), "*.tocs+3c=0002")?;
    let refused = ("1 refused: no room: need 6 have 4\n", Status::Refused);
    expect(rt.alloc(), &rt, "try on A B", images, script, refused)
}
