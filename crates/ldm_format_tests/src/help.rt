//! What is said of words without a reading, and that each form of the help has one.
use ldm_console::usage_error;
use ldm_edge::{HELP, Stop};
use ldm_words::{Job, read_words};
use std::alloc::{AllocError, Global};
use std::test::Fail;

// Words that are separated by a bar, and what is said of them.
const ROWS: &str = r#"on|a => there is no job
chek|on|a => "chek" is no job; the nearest is "check"
disk|a => "on" is missing between disk and its images
disk|on => no image is named behind "on"
disk|on|a|b => disk takes one image, and 2 are named behind "on"
show|x|on|a => "x" is a word too many: the form is show on IMAGE...
map|V|1|on|a => COUNT is missing: the form is map VOLUME FIRST COUNT on IMAGE...
map|V|1|2|3|on|a => "3" is a word too many: the form is map VOLUME FIRST COUNT on IMAGE...
map|V|-1|2|on|a => FIRST "-1" is no number, of 1 to 20 decimal digits and below 2^64
map|V|1|18446744073709551616|on|a => COUNT "18446744073709551616" is no number, of 1 to 20 decimal digits and below 2^64
map|a b|1|2|on|a => VOLUME "a b" is no name, as it has a space: write the space as \x20
map|aé|1|2|on|a => VOLUME "aé" is no name, of 255 bytes at most: a backslash, or a byte that isn't visible ASCII, is written \xHH, and no byte \e
-v => "-v" is no job; ldm --help lists them
|on|a => "" is no job; ldm --help lists them
hepl => "hepl" is no job; the nearest is "help"
help|recrods => "recrods" is no job; the nearest is "records"
help|map|x => "x" is a word too many: the form is help JOB
map|V|1|2 => "on" is missing between map and its images
dump|on|a => VOLUME is missing: the form is dump VOLUME on IMAGE...
dump|\x4|on|a => VOLUME "\x4" is no name, of 255 bytes at most: a backslash, or a byte that isn't visible ASCII, is written \xHH, and no byte \e
scrub|V|W|on|a => "W" is a word too many: the form is scrub VOLUME on IMAGE...
dump|V|1|on|a => COUNT is missing: the form is dump VOLUME FIRST COUNT on IMAGE...
dump|V|1|2|3|on|a => "3" is a word too many: the form is dump VOLUME FIRST COUNT on IMAGE...
dump|V|1|2 => "on" is missing between dump and its images
dump|--rescu|V|on|a => "--rescu" is no option of dump, which takes --past-damage or --rescue
dump|--rescue|V => "on" is missing between dump and its images
dump|--rescue|V|on => no image is named behind "on"
dump|--rescue|V|1|on|a => COUNT is missing: the form is dump VOLUME FIRST COUNT on IMAGE...
dump|--rescue|--past-damage|V|on|a => dump takes --past-damage or --rescue, and not both
show|--rescue|on|a => "--rescue" is no option of show, which takes --json and --past-damage
table|V|W|on|a => "W" is a word too many: the form is table VOLUME on IMAGE...
table|on => no image is named behind "on"
tabel|V|on|a => "tabel" is no job; the nearest is "table"
init|G|GUID|on|a|b => DISKGUID is missing: the form is init NAME GUID DISKGUID DISKGUID... on IMAGE...
init|0123456789012345678901234567890|GUID|GUID|GUID|on|a|b => the name of a new group has 1 to 30 bytes, and "0123456789012345678901234567890" has 31
init|a\x00|GUID|GUID|GUID|on|a|b => the name of a new group has no zero byte, and "a\x00" has one
init|G|GUID|GUID|on|a => init takes 2 to 64 DISKGUIDs, and 1 are named
init|G|GUID|GUID|1234|on|a|b => "1234" is no GUID, which is 8-4-4-4-12 hexadecimal digits as uuidgen makes them
init|G|GUID|GUID|GUID|on|a|b|c => init takes a DISKGUID for each image: 2 are named, and 3 images
init|G|GUID|GUID|GUID => "on" is missing between init and its images
repair|on => no image is named behind "on"
repair|x|on|a => "x" is a word too many: the form is repair on IMAGE...
sample|1|on|a => sample takes no images
sample|1|2 => "2" is a word too many: the form is sample SEED
create|V|on|a => GUID is missing: the form is create NAME GUID span|stripe|mirror|raid5 .. on IMAGE...
create|\e|G|span|on|a => the name of a new volume has 1 to 63 bytes, and "\e" has 0
create|My|Volume|GUID|span|D=1|on|a => "Volume" is no GUID; if it is of the name "My Volume", write the space as \x20
create|My Volume|GUID|span|D=1|on|a => NAME "My Volume" is no name, as it has a space: write the space as \x20
create|V|1234|span|D=1|on|a => "1234" is no GUID, which is 8-4-4-4-12 hexadecimal digits as uuidgen makes them
create|V|GUID|raid6|on|a => "raid6" is no kind of volume: span, stripe, mirror or raid5
create|V|GUID|span|on|a => a span takes 1 to 64 pieces, and 0 are named
create|V|GUID|span|D|on|a => "D" is no piece, which is DISK=SECTORS
create|V|GUID|span|D=x|on|a => "D=x" is no piece, which is DISK=SECTORS
create|V|GUID|stripe|1|2|A|on|a => a stripe takes 2 to 64 disks, and 1 are named
create|V|GUID|mirror|x|A|B|on|a => SECTORS "x" is no number, of 1 to 20 decimal digits and below 2^64
create|V|GUID|raid5|1|2|A|B|on|a => a raid5 takes 3 to 64 disks, and 2 are named
create|V|GUID|span|D=1 => "on" is missing between create and its images
extend|V|on|a => extend takes 1 to 64 pieces, and 0 are named
delete|V|W|on|a => "W" is a word too many: the form is delete NAME on IMAGE...
begin|on|a => "begin" is no job: it is a line of a script, for edit or try
disk|on|a => the words have no reading"#;

// Pushes words that are separated by a bar, where GUID stands for one.
fn push_words(alloc: Global, words: &mut Vec<String>, bar: &str) -> Result<(), AllocError> {
    for word in bar.split('|') {
        let word = if word == "GUID" {
            "bbbbbbbb-bbbb-bbbb-bbbb-bbbbbbbbbbbb"
        } else {
            word
        };
        words.push(String::from_str(alloc, word)?)?;
    }
    Ok(())
}

// What is said of words without a reading.
fn said_of(alloc: Global, words: &[String]) -> Result<String, AllocError> {
    let stop = Stop::Usage(usage_error(alloc, words));
    format!(in alloc; "{stop}")
}

// What is said of words that are separated by a bar.
fn said_in(alloc: Global, bar: &str) -> Result<String, AllocError> {
    let mut words = Vec::new(alloc);
    push_words(alloc, &mut words, bar)?;
    said_of(alloc, &words)
}

// The lines that say this.
fn lines_of(alloc: Global, text: &str) -> Result<String, AllocError> {
    format!(in alloc; "ldm: usage: ldm JOB on IMAGE...\nldm: {text}\nldm: ldm --help says more\n")
}

#[test]
fn says_what_is_wrong(rt: HostRuntime) -> Result<(), Fail> {
    let alloc = rt.alloc();
    for row in ROWS.lines() {
        let (bar, text) = row.split_once(" => ").expect(&rt, "a row");
        assert_eq!(rt;
            said_in(alloc, bar)?.as_str(),
            lines_of(alloc, text)?.as_str()
        );
    }
    let text = "\"a\\x0ab\" is no job; ldm --help lists them";
    assert_eq!(rt;
        said_in(alloc, "a\nb|on|a")?.as_str(),
        lines_of(alloc, text)?.as_str()
    );
    Ok(())
}

// Jobs that stand alone, and what is said of them.
const ALONE: [(&str, &str); 6] = [
    (
        "show",
        "\"on\" is missing between show and its images\nldm: show on IMAGE...: the disks, volumes, components and partitions of a group\nldm: ldm help show says more",
    ),
    (
        "map",
        "VOLUME is missing: the form is map VOLUME FIRST COUNT on IMAGE...\nldm: map VOLUME FIRST COUNT on IMAGE...: where sectors of a volume lie, 4096 at most\nldm: ldm help map says more",
    ),
    (
        "sample",
        "SEED is missing: the form is sample SEED\nldm: sample SEED: an edit of 200 lines that a number draws, of a group in memory\nldm: ldm help sample says more",
    ),
    (
        "init",
        "NAME is missing: the form is init NAME GUID DISKGUID DISKGUID... on IMAGE...\nldm: init NAME GUID DISKGUID... on IMAGE...: makes a new group of empty disks, 2 to 64: a DISKGUID for each image\nldm: ldm help init says more",
    ),
    (
        "create",
        "NAME is missing: the form is create NAME GUID span|stripe|mirror|raid5 .. on IMAGE...\nldm: create NAME GUID span|stripe|mirror|raid5 .. on IMAGE...: a new volume\nldm: ldm help create says more",
    ),
    (
        "delete",
        "NAME is missing: the form is delete NAME on IMAGE...\nldm: delete NAME on IMAGE...: the volume goes\nldm: ldm help delete says more",
    ),
];

#[test]
fn says_the_form_of_a_job_alone(rt: HostRuntime) -> Result<(), Fail> {
    let alloc = rt.alloc();
    for (word, text) in ALONE {
        assert_eq!(rt;
            said_in(alloc, word)?.as_str(),
            lines_of(alloc, text)?.as_str()
        );
    }
    Ok(())
}

#[test]
fn counts_images(rt: HostRuntime) -> Result<(), Fail> {
    let alloc = rt.alloc();
    let mut words = Vec::new(alloc);
    push_words(alloc, &mut words, "show|on")?;
    for _ in 0..65 {
        push_words(alloc, &mut words, "a")?;
    }
    let text = "a group has 64 images at most, and 65 are named behind \"on\"";
    let said = said_of(alloc, &words)?;
    assert_eq!(rt; said.as_str(), lines_of(alloc, text)?.as_str());
    Ok(())
}

// The form of a job that a line of the help says, if it says one.
fn form_in(line: &str) -> Option<&str> {
    line.strip_prefix("  ")?.split("  ").next()
}

// Some words that a word of a form stands for, which is in capitals but for a job and `on`.
fn words_for(what: &str) -> &str {
    match what {
        "VOLUME" | "NAME" => "V",
        "FIRST" | "COUNT" | "SEED" => "1",
        "DISKGUID..." => "GUID|GUID",
        "IMAGE" => "a",
        "IMAGE..." => "a|b",
        "COMMAND" => "delete|V",
        _ => what,
    }
}

// Words of a form. Its images end it.
fn words_of_form(alloc: Global, form: &str) -> Result<Vec<String>, AllocError> {
    let mut words = Vec::new(alloc);
    for what in form.split(' ') {
        push_words(alloc, &mut words, words_for(what))?;
        if what.starts_with("IMAGE") {
            break;
        }
    }
    Ok(words)
}

#[test]
fn each_form_of_the_help_has_a_reading(rt: HostRuntime) -> Result<(), Fail> {
    let alloc = rt.alloc();
    // The last form that the help says is that of init.
    let mut is_init = false;
    for line in HELP.lines() {
        if line.starts_with("A line of a script") {
            break;
        }
        let Some(form) = form_in(line) else {
            continue;
        };
        // A repair has a reading of its own.
        if form == "repair on IMAGE..." {
            continue;
        }
        let words = words_of_form(alloc, form)?;
        let read = read_words(alloc, &words);
        is_init = matches!(&read, Ok((Job::Init { .. }, _)));
        assert!(rt; read.is_ok(), "{form}");
    }
    assert!(rt; is_init);
    Ok(())
}
