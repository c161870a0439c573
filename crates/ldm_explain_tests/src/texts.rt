//! The texts that explain what is wrong with an image.
use crate::images::string_of;
use ldm_copy::CopyFault;
use ldm_explain::{Glimpse, copy_line, label_line};
use ldm_frags::FragFault;
use ldm_label::LabelFault;
use ldm_payloads::RecordFault;
use ldm_vmdb::VmdbFault;
use std::alloc::Global;
use std::test::Fail;

// What is read of an image: the type of the first entry of its MBR, and a private header.
fn glimpse(sectors: u64, first: u8) -> Glimpse {
    let mut mbr = [0u8; 512];
    mbr[0x1C2] = first;
    let mut head = [0u8; 512];
    // Version 2.13, data 63+9, a database at 100352, of 4096 sectors.
    let bytes = [
        (0x0D, 2),
        (0x0F, 13),
        (0x122, 63),
        (0x12A, 9),
        (0x130, 0x01),
        (0x131, 0x88),
        (0x139, 0x10),
    ];
    for (at, byte) in bytes {
        if at < 512 {
            head[at] = byte;
        }
    }
    Glimpse { sectors, mbr, head }
}

fn names(alloc: Global) -> Result<Vec<String>, Fail> {
    let mut names = Vec::new(alloc);
    names.push(String::from_str(alloc, "b\n.img")?)?;
    names.push(String::from_str(alloc, "c.img")?)?;
    Ok(names)
}

// A fault of image 1, of so many sectors, and the type of the first entry of its MBR.
type Row = (LabelFault, u64, u8, &'static str);

const LABELS: [Row; 12] = [
    (
        LabelFault::Short,
        6,
        0,
        "ldm: c.img has 6 sectors, and a disk has more: is it the image of a disk?\n",
    ),
    (
        LabelFault::NoLdmEntry,
        9,
        0x07,
        "ldm: c.img is a basic disk: the first entry of its MBR has the type 0x07, and none has 0x42\n",
    ),
    (
        LabelFault::NoMetadata,
        9,
        0xEE,
        "ldm: c.img is a basic GPT disk: its GPT has no LDM metadata partition\n",
    ),
    (
        LabelFault::NoLdmEntry,
        9,
        131,
        "ldm: c.img is no dynamic disk: the first entry of its MBR has the type 131 (in decimal), and none has 0x42\n",
    ),
    (
        LabelFault::NoPrivhead,
        9,
        0,
        "ldm: sector 6 of c.img is no private header (PRIVHEAD): was it overwritten?\n",
    ),
    (
        LabelFault::NoPrivhead,
        9,
        0xEE,
        "ldm: the last sector of the LDM metadata partition of c.img is no private header (PRIVHEAD): was it overwritten?\n",
    ),
    (
        LabelFault::Version,
        9,
        0,
        "ldm: the private header of c.img has the version 2.13, and ldm reads 2.11 and 2.12\n",
    ),
    (
        LabelFault::DatabaseSize,
        9,
        0,
        "ldm: the private header of c.img says a database of 4096 sectors, and ldm reads 2048\n",
    ),
    (
        LabelFault::Range,
        102_399,
        0,
        "ldm: c.img has 102399 sectors, its label needs 102400: is its end missing?\n",
    ),
    (
        LabelFault::Range,
        102_400,
        0,
        "ldm: the private header of c.img says data 63+9 and a database at 100352, which don't fit\n",
    ),
    (
        LabelFault::PrivheadsDiffer(3),
        9,
        0,
        "ldm: the private header of c.img and its copy 3 say different things\n",
    ),
    (
        LabelFault::NoToc,
        9,
        0,
        "ldm: none of the four tables of contents of c.img reads\n",
    ),
];

#[test]
fn says_what_is_wrong_with_a_label(rt: HostRuntime) -> Result<(), Fail> {
    let names = names(rt.alloc())?;
    for (fault, sectors, first, want) in LABELS {
        let text = label_line(rt.alloc(), &names, 1, &glimpse(sectors, first), fault)?;
        assert_eq!(rt; string_of(rt.alloc(), &text)?.as_str(), want);
    }
    Ok(())
}

const COPIES: [(CopyFault, &str); 5] = [
    (
        CopyFault::Vmdb(VmdbFault::Unsettled),
        "ldm: an update of the database on b\\x0a.img was begun and not ended\n",
    ),
    (
        CopyFault::Frag(FragFault::NoMagic(12)),
        "ldm: b\\x0a.img: block 12 of its database doesn't begin with VBLK\n",
    ),
    (
        CopyFault::BadRecord(4, RecordFault::UnknownType(0x60)),
        "ldm: b\\x0a.img: the record at block 4 of its database has a type that ldm doesn't read\n",
    ),
    (
        CopyFault::BadRecord(5, RecordFault::Malformed),
        "ldm: b\\x0a.img: block 5 of its database holds no record of its type\n",
    ),
    (
        CopyFault::SameId { kind: 1, id: 9 },
        "ldm: b\\x0a.img: two records of its database have the id 9\n",
    ),
];

#[test]
fn says_what_is_wrong_with_a_copy(rt: HostRuntime) -> Result<(), Fail> {
    let names = names(rt.alloc())?;
    for (fault, want) in COPIES {
        let text = copy_line(rt.alloc(), &names, 0, fault)?;
        assert_eq!(rt; string_of(rt.alloc(), &text)?.as_str(), want);
    }
    Ok(())
}
