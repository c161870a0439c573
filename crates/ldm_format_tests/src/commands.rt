//! Command lines that edit, and the sample: which have a reading, and what that is.
use crate::made::check;
use ldm_bytes::{Bytes, write_guid};
use ldm_lines::{LineError, read_line};
use ldm_words::{Command, Format, Job, NewLayout, Piece, WordsError, read_number, read_words};
use std::alloc::Global;
use std::process::Abort;
use std::test::Fail;

const GUID: &str = "bbbbbbbb-bbbb-bbbb-bbbb-bbbbbbbbbbbb";

// The words of a line, in which `G` stands for a GUID.
fn words_of(alloc: Global, line: &str) -> Result<Vec<String>, Fail> {
    let mut words = Vec::new(alloc);
    for word in line.split(' ') {
        let word = if word == "G" { GUID } else { word };
        words.push(String::from_str(alloc, word)?)?;
    }
    Ok(words)
}

fn push_bytes(text: &mut Vec<u8>, bytes: &[u8]) -> Result<(), Fail> {
    text.push(b' ')?;
    text.extend_from_slice(bytes)?;
    Ok(())
}

fn push_number(alloc: Global, text: &mut Vec<u8>, number: u64) -> Result<(), Fail> {
    push_bytes(text, format!(in alloc; "{number}")?.as_bytes())
}

fn push_guid(text: &mut Vec<u8>, guid: u128) -> Result<(), Fail> {
    let mut bytes = [0u8; 36];
    write_guid(guid, &mut bytes);
    push_bytes(text, &bytes)
}

fn push_pieces(alloc: Global, text: &mut Vec<u8>, pieces: &[Piece]) -> Result<(), Fail> {
    for piece in pieces {
        push_bytes(text, piece.disk.as_slice())?;
        push_number(alloc, text, piece.len)?;
    }
    Ok(())
}

fn push_names(text: &mut Vec<u8>, names: &[Bytes]) -> Result<(), Fail> {
    for name in names {
        push_bytes(text, name.as_slice())?;
    }
    Ok(())
}

fn push_layout(alloc: Global, text: &mut Vec<u8>, layout: &NewLayout) -> Result<(), Fail> {
    match layout {
        NewLayout::Span { pieces } => {
            push_bytes(text, b"span")?;
            push_pieces(alloc, text, pieces.as_slice())
        }
        NewLayout::Stripe { chunk, len, disks } => {
            push_bytes(text, b"stripe")?;
            push_number(alloc, text, *chunk)?;
            push_number(alloc, text, *len)?;
            push_names(text, disks.as_slice())
        }
        NewLayout::Mirror { len, disks } => {
            push_bytes(text, b"mirror")?;
            push_number(alloc, text, *len)?;
            push_names(text, disks.as_slice())
        }
        NewLayout::Raid5 { chunk, len, disks } => {
            push_bytes(text, b"raid5")?;
            push_number(alloc, text, *chunk)?;
            push_number(alloc, text, *len)?;
            push_names(text, disks.as_slice())
        }
    }
}

fn push_command(alloc: Global, text: &mut Vec<u8>, command: &Command) -> Result<(), Fail> {
    match command {
        Command::Create { name, guid, layout } => {
            push_bytes(text, b"create")?;
            push_bytes(text, name.as_slice())?;
            push_guid(text, *guid)?;
            push_layout(alloc, text, layout)
        }
        Command::Extend { name, pieces } => {
            push_bytes(text, b"extend")?;
            push_bytes(text, name.as_slice())?;
            push_pieces(alloc, text, pieces.as_slice())
        }
        Command::Delete { name } => {
            push_bytes(text, b"delete")?;
            push_bytes(text, name.as_slice())
        }
        Command::Begin => push_bytes(text, b"begin"),
        Command::Commit => push_bytes(text, b"commit"),
        Command::Cancel => push_bytes(text, b"cancel"),
    }
}

// A word, and how the answer is said.
fn push_format(text: &mut Vec<u8>, word: &[u8], format: &Format) -> Result<(), Fail> {
    push_bytes(text, word)?;
    match format {
        Format::Lines => push_bytes(text, b"lines"),
        Format::Json(_) => push_bytes(text, b"json"),
    }
}

fn push_job(alloc: Global, text: &mut Vec<u8>, job: &Job) -> Result<(), Fail> {
    match job {
        Job::Try(format) => push_format(text, b"try", format),
        Job::Edit(format) => push_format(text, b"edit", format),
        Job::One { command, format } => {
            push_command(alloc, text, command)?;
            push_format(text, b"in", format)
        }
        Job::Sample(seed) => {
            push_bytes(text, b"sample")?;
            push_number(alloc, text, *seed)
        }
        _ => push_bytes(text, b"another"),
    }
}

// What a line is read as: the number of images, and the job with its values, each behind a space.
// Nothing, where it has no reading.
fn reading(alloc: Global, line: &str) -> Result<Option<Vec<u8>>, Fail> {
    let (job, images) = match read_words(alloc, &words_of(alloc, line)?) {
        Ok(read) => read,
        Err(WordsError::Usage) => return Ok(None),
        Err(WordsError::NoMemory) => return Err(Fail::from("no memory")),
    };
    let mut text = format!(in alloc; "{images}")?.into_bytes();
    push_job(alloc, &mut text, &job)?;
    Ok(Some(text))
}

// LINE;READING
const READINGS: &str = "\
try on A;1 try lines
try --json on A;1 try json
edit on A B C;3 edit lines
edit --json on A B C;3 edit json
sample 0;0 sample 0
sample 18446744073709551615;0 sample 18446744073709551615
create \\x44ata BBBBBBBB-bbbb-bbbb-bbbb-bbbbbbbbbbbb span Disk1=2048 a=b=010 on A B;\
2 create Data bbbbbbbb-bbbb-bbbb-bbbb-bbbbbbbbbbbb span Disk1 2048 a=b 10 in lines
create S G stripe 4 12 Disk1 Disk2 on A B;\
2 create S bbbbbbbb-bbbb-bbbb-bbbb-bbbbbbbbbbbb stripe 4 12 Disk1 Disk2 in lines
create M G mirror 5 Disk2 Disk1 on A B;\
2 create M bbbbbbbb-bbbb-bbbb-bbbb-bbbbbbbbbbbb mirror 5 Disk2 Disk1 in lines
create R G raid5 4 12 Disk1 Disk2 Disk3 on A B C;\
3 create R bbbbbbbb-bbbb-bbbb-bbbb-bbbbbbbbbbbb raid5 4 12 Disk1 Disk2 Disk3 in lines
extend Data \\e=7 Disk2=0 on A;1 extend Data  7 Disk2 0 in lines
extend --json Data Disk2=0 on A;1 extend Data Disk2 0 in json
delete \\e on A;1 delete  in lines
delete --json on A;1 delete --json in lines
delete --json --json on A;1 delete --json in json
delete \\x6fn on A;1 delete on in lines";

#[test]
fn reads_the_commands(rt: HostRuntime) -> Result<(), Fail> {
    for row in READINGS.lines() {
        let (line, want) = row.split_once(';').unwrap_or((row, ""));
        let read = reading(rt.alloc(), line)?;
        check(&rt, read.as_deref() == Some(want.as_bytes()), line);
    }
    Ok(())
}

// What a line of a script is read as.
fn line_reading(alloc: Global, line: &str) -> Result<Option<Vec<u8>>, Fail> {
    let command = match read_line(alloc, line.as_bytes()) {
        Ok(command) => command,
        Err(LineError::BadLine) => return Ok(None),
        Err(LineError::NoMemory) => return Err(Fail::from("no memory")),
    };
    let mut text = Vec::new(alloc);
    push_command(alloc, &mut text, &command)?;
    Ok(Some(text))
}

// LINE;READING, or nothing behind the semicolon where the line has none
const LINES: &str = "\
begin; begin
  commit ; commit
cancel; cancel
delete begin; delete begin
begin begin;
commit 1;
cancel on A;
Begin;
beginning;
commi;";

#[test]
fn reads_the_words_of_a_batch(rt: HostRuntime) -> Result<(), Fail> {
    for row in LINES.lines() {
        let (line, want) = row.split_once(';').unwrap_or((row, ""));
        let read = line_reading(rt.alloc(), line)?;
        check(
            &rt,
            read.as_deref().unwrap_or_default() == want.as_bytes(),
            line,
        );
    }
    Ok(())
}

// HEAD|COUNT|PART|TAIL|yes or no: whether the head, the part so often and the tail have a reading.
const EDGES: &str = "\
create |63|n| G span D=1 on A|yes
create |64|n| G span D=1 on A|no
create \\e G span D=1|1| on A||no
create V G span|1| D=1| on A|yes
create V G span|64| D=1| on A|yes
create V G span|65| D=1| on A|no
create V G span|0| D=1| on A|no
create V G stripe 4 4|1| D| on A|no
create V G stripe 4 4|2| D| on A|yes
create V G stripe 4 4|64| D| on A|yes
create V G stripe 4 4|65| D| on A|no
create V G mirror 4|1| D| on A|no
create V G mirror 4|2| D| on A|yes
create V G mirror 4|64| D| on A|yes
create V G mirror 4|65| D| on A|no
create V G raid5 4 4|2| D| on A|no
create V G raid5 4 4|3| D| on A|yes
create V G raid5 4 4|64| D| on A|yes
create V G raid5 4 4|65| D| on A|no
create V bbbbbbbb-bbbb-bbbb-bbbb-|11|b| span D=1 on A|no
create V bbbbbbbb-bbbb-bbbb-bbbb-|12|b| span D=1 on A|yes
create V bbbbbbbb-bbbb-bbbb-bbbb-|13|b| span D=1 on A|no
extend V|64| D=1| on A|yes
extend V|65| D=1| on A|no
extend V|0| D=1| on A|no
delete |255|n| on A|yes
delete |256|n| on A|no
delete V|1| W| on A|no
delete V on|64| A||yes
delete V on|65| A||no
edit on|65| A||no
edit|1| x| on A|no
try on|65| A||no
sample|2| 0||no
sample|0| 0||no
sample 0 on|1| A||no";

// The line of a row.
fn line_of(alloc: Global, head: &str, count: &str, part: &str, tail: &str) -> Result<String, Fail> {
    let Some(count) = read_number(count.as_bytes()) else {
        return Err(Fail::from("no count"));
    };
    let mut line = String::from_str(alloc, head)?;
    for _ in 0..count {
        line.push_str(part)?;
    }
    line.push_str(tail)?;
    Ok(line)
}

fn check_edge(alloc: Global, rt: &impl Abort, row: &str) -> Result<(), Fail> {
    let mut parts = row.split('|');
    let (Some(head), Some(count), Some(part), Some(tail), Some(reads)) = (
        parts.next(),
        parts.next(),
        parts.next(),
        parts.next(),
        parts.next(),
    ) else {
        return Err(Fail::from("no row"));
    };
    let line = line_of(alloc, head, count, part, tail)?;
    let read = reading(alloc, line.as_str())?;
    check(rt, read.is_some() == (reads == "yes"), row);
    Ok(())
}

#[test]
fn reads_up_to_the_limits(rt: HostRuntime) -> Result<(), Fail> {
    for row in EDGES.lines() {
        check_edge(rt.alloc(), &rt, row)?;
    }
    Ok(())
}
