//! Why lines of a script have no reading.
use crate::images::string_of;
use ldm_explain::say_unread;
use ldm_text::Text;
use std::alloc::Global;
use std::test::Fail;

// LINE => TEXT, where @ stands for a GUID, ~ for CR and ^ for a tab.
const ROWS: &str = r#" => it is blank, and a script has no blank lines
   => it is blank, and a script has no blank lines
~ => it is blank, and a script has no blank lines
# a comment => it begins with #, and a script has no comments
delete Volume~ => it ends in CR, as lines of Windows do: tr -d '\r' takes it away
delete^Volume => it has a tab, and words are separated by spaces
frob => "frob" is no command: those of a script are create, extend, delete, begin, commit and cancel
show => "show" is no command: those of a script are create, extend, delete, begin, commit and cancel
creat V @ span D=1 => "creat" is no command; the nearest is "create"
delete => NAME is missing: the form is delete NAME
delete My Volume => "Volume" is a word too many: the form is delete NAME
delete a\x4 => NAME "a\x4" is no name, of 255 bytes at most: a backslash, or a byte that isn't visible ASCII, is written \xHH, and no byte \e
begin now => "now" is a word too many: the form is begin
commit 1 => "1" is a word too many: the form is commit
cancel on a => "on" is a word too many: the form is cancel
create V => GUID is missing: the form is create NAME GUID span|stripe|mirror|raid5 ..
create V 1234 span D=1 => "1234" is no GUID, which is 8-4-4-4-12 hexadecimal digits as uuidgen makes them
create My Volume @ span D=1 => "Volume" is no GUID; if it is of the name "My Volume", write the space as \x20
create V @ raid6 => "raid6" is no kind of volume: span, stripe, mirror or raid5
create V @ span D => "D" is no piece, which is DISK=SECTORS
create V @ stripe 1 => SECTORS is missing: the form is create NAME GUID stripe CHUNK SECTORS DISK DISK...
create V @ raid5 1 2 A B => a raid5 takes 3 to 64 disks, and 2 are named
extend => NAME is missing: the form is extend NAME DISK=SECTORS...
extend V => extend takes 1 to 64 pieces, and 0 are named
extend V D=1 on a => "on" is no piece, which is DISK=SECTORS"#;

// The line of a row.
fn line_in(alloc: Global, row: &str) -> Result<String, Fail> {
    let mut line = String::new(alloc);
    for c in row.chars() {
        match c {
            '~' => line.push('\r')?,
            '^' => line.push('\t')?,
            '@' => line.push_str("bbbbbbbb-bbbb-bbbb-bbbb-bbbbbbbbbbbb")?,
            c => line.push(c)?,
        }
    }
    Ok(line)
}

// What is said of a line.
fn said_of(alloc: Global, row: &str) -> Result<String, Fail> {
    let line = line_in(alloc, row)?;
    let mut text = Text::new(alloc);
    say_unread(alloc, &mut text, line.as_bytes())?;
    string_of(alloc, &text)
}

#[test]
fn says_why_a_line_is_bad(rt: HostRuntime) -> Result<(), Fail> {
    for row in ROWS.lines() {
        let (line, text) = row.split_once(" => ").expect(&rt, "a row");
        assert_eq!(rt; said_of(rt.alloc(), line)?.as_str(), text);
    }
    Ok(())
}
