//! Labels of GPT disks: a usual one, and each first fault.
use crate::label::{answers, host_of, put};
use crate::made::{bytes_of, check};
use ldm_crc32::Crc32;
use ldm_label::LabelFault::*;
use ldm_label::{Label, LabelError, LabelFault, Style, label_sectors, write_gpt_label};
use std::alloc::{AllocError, Global};
use std::process::Abort;

// The label of a disk as Windows writes it, of 4096 sectors.
const USUAL: Label = Label {
    style: Style::Gpt,
    disk_guid: 0x1111_1111_1111_1111_1111_1111_1111_1111,
    minor: 12,
    data_start: 2100,
    data_size: 1900,
    config_start: 34,
    area_start: 17,
    area_sectors: 1481,
    log_start: 1498,
    log_sectors: 224,
};

// Its master boot record, the header of its GPT but for the checksums, and its entries: the LDM
// metadata partition 34 to 2081, and the LDM data partition 2100 to 3999.
const TABLE: &str = "
M+1c2=ee M+1fe=55aa
H+0=4546492050415254 H+8=00000100 H+c=5c000000 H+18=01 H+20=ff0f
H+28=22 H+30=de0f H+48=02 H+50=80 H+54=80
E+0=aac808588f7ee04285d2e1e90434cfb3 E+20=22 E+28=2108
E+80=a0609baf3114624fbc683311714a69ad E+a0=3408 E+a8=9f0f";

// The sector of the master boot record, of the GPT header, its entries, a private header or a table
// of contents.
fn sector_of(name: &str) -> usize {
    match name {
        "H" => 1,
        "E" => 2,
        "P2" => 1890,
        "P1" => 2081,
        "T2" => 36,
        "T3" => 2079,
        _ => 0,
    }
}

// Its first byte.
fn start_of(name: &str) -> usize {
    sector_of(name).saturating_mul(512)
}

// Does changes SECTOR+OFFSET=BYTES, whose numbers are hexadecimal.
fn change_all(rt: &impl Abort, alloc: Global, image: &mut [u8], changes: &str) {
    for text in changes.split_whitespace() {
        let (place, digits) = text.split_once('=').expect(rt, "a place");
        let (sector, offset) = place.split_once('+').expect(rt, "an offset");
        let offset = usize::from_str_radix(offset, 16).expect(rt, "a number");
        put(
            image,
            start_of(sector).saturating_add(offset),
            &bytes_of(rt, alloc, digits),
        );
    }
}

fn checksum(bytes: &[u8]) -> [u8; 4] {
    let mut crc = Crc32::new();
    crc.update(bytes);
    crc.value().to_le_bytes()
}

// Puts the checksums of the 128 entries and of the header of 92 bytes.
fn seal(rt: &impl Abort, image: &mut [u8]) {
    let entries = checksum(image.get(1024..17408).expect(rt, "entries"));
    put(image, 600, &entries);
    put(image, 528, &[0; 4]);
    let header = checksum(image.get(512..604).expect(rt, "a header"));
    put(image, 528, &header);
}

// The usual GPT disk, with changes before its checksums are put and others after.
fn disk(rt: &impl Abort, alloc: Global, before: &str, after: &str) -> Vec<u8> {
    let mut image = vec![in alloc; 0u8; 4096 * 512].expect(rt, "memory");
    let sectors = label_sectors(&USUAL);
    for name in ["P2", "P1"] {
        put(&mut image, start_of(name), &sectors.header);
    }
    for name in ["T2", "T3"] {
        put(&mut image, start_of(name), &sectors.toc);
    }
    change_all(rt, alloc, &mut image, TABLE);
    change_all(rt, alloc, &mut image, before);
    seal(rt, &mut image);
    change_all(rt, alloc, &mut image, after);
    image
}

// The checksum of the nine digits, as RFC 3720 and others list it.
#[test]
fn known_checksum(rt: HostRuntime) {
    assert!(rt; checksum(b"123456789") == [0x26, 0x39, 0xF4, 0xCB]);
}

#[test]
fn usual_disk(rt: HostRuntime) {
    let image = disk(&rt, rt.alloc(), "", "");
    assert!(rt; answers(host_of(&rt, rt.alloc(), image), Ok(USUAL)));
}

// Changes before and after the checksums are put, and the first fault.
const FAULTS: [(&str, &str, LabelFault); 31] = [
    ("M+1fe=00", "", NoSignature),
    ("M+1c2=00 M+1d2=ee", "", NoLdmEntry),
    ("M+1f2=42", "", NoPrivhead),
    ("", "H+0=65 H+c=5b", NoGpt),
    ("", "H+c=5b", GptSize),
    ("", "H+c=0102", GptSize),
    ("", "H+38=01 H+54=00", GptChecksum),
    ("", "H+10=00000000", GptChecksum),
    ("", "H+c=5d H+5c=01", GptChecksum),
    ("H+54=0001 H+18=02", "", GptEntries),
    ("H+50=0104", "", GptEntries),
    ("H+18=02", "E+0=00", GptRange),
    ("H+48=01", "", GptRange),
    ("H+50=81", "", GptRange),
    ("H+28=21", "", GptRange),
    ("H+30=0010", "", GptRange),
    ("H+30=2100", "", GptRange),
    ("H+30=ffffffffffffffff", "", GptRange),
    ("", "E+3f80=01", EntriesChecksum),
    ("E+0=ab", "", NoMetadata),
    ("E+28=2008", "", MetadataSize),
    ("E+20=23 E+28=2108", "", MetadataSize),
    ("E+20=00 E+28=ff07", "", MetadataRange),
    ("E+20=ffffffffffffffff E+28=fe07", "", MetadataSize),
    ("", "P1+0=00", NoPrivhead),
    ("", "P1+132=23", Range),
    ("", "P1+12a=00 P1+129=00", Range),
    ("", "P1+122=21 P1+121=00 P1+12a=01 P1+129=00", Range),
    ("", "P1+121=0821", Range),
    ("", "P1+129=07ff", Range),
    ("", "P2+f=0b", PrivheadsDiffer(2)),
];

#[test]
fn first_faults(rt: HostRuntime) {
    for (before, after, fault) in FAULTS {
        let image = disk(&rt, rt.alloc(), before, after);
        let want = Err(LabelError::Fault(fault));
        check(
            &rt,
            answers(host_of(&rt, rt.alloc(), image), want),
            (before, after),
        );
    }
}

// A label of a GPT disk of 4164 sectors.
const WRITTEN: Label = Label {
    style: Style::Gpt,
    disk_guid: 0x1111_1111_2222_3333_4444_5555_5555_5555,
    minor: 12,
    data_start: 4130,
    data_size: 1,
    config_start: 34,
    area_start: 17,
    area_sectors: 1481,
    log_start: 1498,
    log_sectors: 224,
};

const PROTECTIVE: &str = "1c0=0200eeffffff010000004310 1fe=55aa";

// The headers of both GPTs. Python made the checksums, with zlib.
const PRIMARY: &str = "
0=4546492050415254000001005c000000a0141e09 18=01 20=4310 28=22 30=2210
38=1111111122223323444455555555555502 50=8000000080000000ae08fae7";

const BACKUP: &str = "
0=4546492050415254000001005c0000009e7ee335 18=4310 20=01 28=22 30=2210
38=111111112222332344445555555555552310 50=8000000080000000ae08fae7";

// The entries with their names: LDM metadata partition, Microsoft reserved partition, LDM data
// partition.
const ENTRIES: &str = "
0=aac808588f7ee04285d2e1e90434cfb31111111122223313444455555555555522 28=2108
38=4c0044004d0020006d006500740061006400610074006100200070006100720074006900
5c=740069006f006e
80=16e3c9e35c0bb84d817df92df00215ae111111112222330344445555555555552208 a8=2110
b8=4d006900630072006f0073006f0066007400200072006500730065007200760065006400
dc=200070006100720074006900740069006f006e
100=a0609baf3114624fbc683311714a69ad111111112222337344445555555555552210 128=2210
138=4c0044004d0020006400610074006100200070006100720074006900740069006f006e";

const PRIVATE: &str = "
0=5052495648454144 d=02000c
30=31313131313131312d323232322d333333332d343434342d353535353535353535353535
121=1022 12a=01 132=22 139=08";

const CONTENTS: &str = "
0=544f43424c4f434b 24=636f6e666967 35=11 3c=05c9 46=6c6f67 56=05da 5f=e0";

// All that is written of the label: the sector, and the bytes there.
const PARTS: [(usize, &str); 11] = [
    (0, PROTECTIVE),
    (1, PRIMARY),
    (2, ENTRIES),
    (35, CONTENTS),
    (36, CONTENTS),
    (1890, PRIVATE),
    (2079, CONTENTS),
    (2080, CONTENTS),
    (2081, PRIVATE),
    (4131, ENTRIES),
    (4163, BACKUP),
];

// Puts bytes OFFSET=BYTES behind the start of a sector.
fn put_part(rt: &impl Abort, alloc: Global, image: &mut [u8], sector: usize, part: &str) {
    for text in part.split_whitespace() {
        let (offset, digits) = text.split_once('=').expect(rt, "an offset");
        let offset = usize::from_str_radix(offset, 16).expect(rt, "a number");
        put(
            image,
            sector.saturating_mul(512).saturating_add(offset),
            &bytes_of(rt, alloc, digits),
        );
    }
}

// An image of zeros but for that label.
fn written(alloc: Global) -> Result<Vec<u8>, AllocError> {
    let mut image = vec![in alloc; 0u8; 4164 * 512]?;
    write_gpt_label(&mut image, &WRITTEN);
    Ok(image)
}

#[test]
fn written_disk(rt: HostRuntime) {
    let mut want = vec![in rt.alloc(); 0u8; 4164 * 512].expect(&rt, "memory");
    for (sector, part) in PARTS {
        put_part(&rt, rt.alloc(), &mut want, sector, part);
    }
    let image = written(rt.alloc()).expect(&rt, "memory");
    assert!(rt; image == want);
}
