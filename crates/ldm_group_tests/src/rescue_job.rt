//! The words of a rescue, and the job: how it ends, what it says and which ranges it tells.
use crate::made::{put, put_at};
use crate::rescue::{Sectors, Told, fill, host_of, mirror_images, was_said};
use ldm_host::Host;
use ldm_images::usual_images;
use ldm_memory::MemoryHost;
use ldm_rescue::{Cause, Loss, Rescue, Totals, rescue_words, run_rescue};
use ldm_words::{Section, Status};
use std::alloc::Global;
use std::test::Fail;

// What words ask for: a name, the first sector and how many, or none, and how many images.
type Asked = (&'static str, Option<(u64, u64)>, usize);

const WORDS: [(&str, Option<Asked>); 11] = [
    ("dump --rescue V on A B", Some(("V", None, 2))),
    ("dump --rescue V 3 4 on A", Some(("V", Some((3, 4)), 1))),
    ("dump --rescue --rescue on A", Some(("--rescue", None, 1))),
    ("dump --rescue on A B", None),
    ("dump --rescue 3 4 on A", None),
    ("dump --rescue V 3 on A", None),
    ("dump V --rescue on A", None),
    ("dump V on A", None),
    ("map --rescue V 0 1 on A", None),
    ("dump --rescue --rescue V on A", None),
    ("dump --rescue V", None),
];

fn words_of(alloc: Global, text: &str) -> Result<Vec<String>, Fail> {
    let mut words = Vec::new(alloc);
    for word in text.split_whitespace() {
        words.push(word.to_string(alloc)?)?;
    }
    Ok(words)
}

// Whether the words ask for just this.
fn ask_for(alloc: Global, text: &str, wanted: Option<Asked>) -> Result<bool, Fail> {
    let words = words_of(alloc, text)?;
    let Some(asked) = rescue_words(alloc, &words)? else {
        return Ok(wanted.is_none());
    };
    let Some((name, section, images)) = wanted else {
        return Ok(false);
    };
    let same = match (asked.section, section) {
        (None, None) => true,
        (Some(Section { first, count }), Some((at, size))) => first == at && count == size,
        _ => false,
    };
    Ok(same && asked.name.as_slice() == name.as_bytes() && asked.images == images)
}

#[test]
fn takes_the_words_of_a_dump(rt: HostRuntime) -> Result<(), Fail> {
    for (text, asked) in &WORDS {
        assert!(rt; ask_for(rt.alloc(), text, *asked)?, "{text}");
    }
    Ok(())
}

// Rescues what the words ask for off the disks of a host, and answers how it ended and what was
// told.
fn rescue(alloc: Global, host: &mut MemoryHost, text: &str) -> Result<(Rescue, Vec<Loss>), Fail> {
    let words = words_of(alloc, text)?;
    let Some(asked) = rescue_words(alloc, &words)? else {
        return Err(Fail::from("no words of a rescue"));
    };
    if host.disks() == 0 {
        return Err(Fail::from("no disk"));
    }
    let mut told = Told {
        ranges: Vec::new(alloc),
    };
    let name = asked.name.as_slice();
    let end = run_rescue(alloc, host, &mut told, name, asked.section);
    let Told { ranges } = told;
    Ok((end, ranges))
}

// All sectors were said, and so many of them are lost.
fn end_of(sectors: u64, lost: u64) -> Rescue {
    let status = if lost == 0 {
        Status::Done
    } else {
        Status::Refused
    };
    Rescue {
        status,
        totals: Some(Totals { sectors, lost }),
    }
}

// Sectors that are lost since this image can't be read.
fn unread(first: u64, count: u64, image: usize) -> Loss {
    Loss {
        first,
        count,
        cause: Cause::Unread(image),
    }
}

// Sector 5 of the mirror can be read on no disk, and sector 9 on one.
const MIRROR: [Sectors; 3] = [(0, 1568, 1), (2, 580, 1), (2, 584, 1)];

// Volumes, the sectors that are said, and those that are lost.
const SECTIONS: [(&str, u64, &[(u64, u64)]); 5] = [
    ("dump --rescue Mirror1 on A B C", 700, &[(5, 1)]),
    ("dump --rescue Mirror1 5 1 on A B C", 1, &[(5, 1)]),
    ("dump --rescue Mirror1 4 3 on A B C", 3, &[(5, 1)]),
    ("dump --rescue Mirror1 6 694 on A B C", 694, &[]),
    ("dump --rescue Volume1 on A B C", 1000, &[]),
];

#[test]
fn ends_by_what_is_lost_of_a_section(rt: HostRuntime) -> Result<(), Fail> {
    let alloc = rt.alloc();
    for (text, sectors, lost) in &SECTIONS {
        let mut host = host_of(alloc, mirror_images(alloc)?, &MIRROR)?;
        let (end, told) = rescue(alloc, &mut host, text)?;
        assert!(rt; end == end_of(*sectors, lost.len() as u64), "{text}");
        assert_eq!(rt; host.said().len() as u64, 512 * *sectors);
        assert_eq!(rt; told.len(), lost.len());
        for ((first, count), range) in lost.iter().zip(told.iter()) {
            assert!(rt; *range == unread(*first, *count, 2), "{text}");
        }
    }
    Ok(())
}

#[test]
fn says_a_section_from_its_first_sector_on(rt: HostRuntime) -> Result<(), Fail> {
    let alloc = rt.alloc();
    let mut host = host_of(alloc, mirror_images(alloc)?, &MIRROR)?;
    let (end, _told) = rescue(alloc, &mut host, "dump --rescue Mirror1 9 2 on A B C")?;
    assert!(rt; end == end_of(2, 0));
    assert_eq!(rt; host.said().len(), 1024);
    assert!(rt; was_said(&host, 0, 8) && was_said(&host, 1, 0));
    Ok(())
}

#[test]
fn tells_each_chunk_of_a_disk_that_cannot_be_read(rt: HostRuntime) -> Result<(), Fail> {
    let alloc = rt.alloc();
    let mut host = host_of(alloc, usual_images(alloc)?, &[(1, 63, 6000)])?;
    let (end, told) = rescue(alloc, &mut host, "dump --rescue Stripe1 on A B C")?;
    assert!(rt; end == end_of(1024, 512));
    let lost = [
        unread(0, 128, 1),
        unread(256, 128, 1),
        unread(512, 128, 1),
        unread(768, 128, 1),
    ];
    assert!(rt; told.as_slice() == lost.as_slice());
    Ok(())
}

#[test]
fn counts_the_sectors_of_an_absent_disk(rt: HostRuntime) -> Result<(), Fail> {
    let alloc = rt.alloc();
    let mut images = usual_images(alloc)?;
    if images.len() > 1 {
        let _absent = images.remove(1);
    }
    let mut host = host_of(alloc, images, &[])?;
    let (end, told) = rescue(alloc, &mut host, "dump --rescue Volume2 400 300 on A C")?;
    assert!(rt; end == end_of(300, 200));
    let lost = Loss {
        first: 500,
        count: 200,
        cause: Cause::Absent(1026),
    };
    assert!(rt; told.as_slice() == [lost].as_slice());
    Ok(())
}

// Where the header has the committed sequence.
const SEQUENCE: usize = 0x75;

// Sector 5 of the mirror has the byte 1 on the first disk and 3 on the third, and this image alone
// has the newest copy of the database.
fn newest_images(alloc: Global, newest: usize) -> Result<Vec<Vec<u8>>, Fail> {
    let mut images = usual_images(alloc)?;
    fill(images.as_mut_slice(), 0, 1568, 1);
    fill(images.as_mut_slice(), 2, 580, 3);
    if let Some(image) = images.get_mut(newest) {
        put(image, SEQUENCE, &[0, 0, 0, 0, 0, 0, 0, 9]);
    }
    Ok(images)
}

#[test]
fn prefers_the_copy_that_is_not_behind(rt: HostRuntime) -> Result<(), Fail> {
    let alloc = rt.alloc();
    let rows: [(usize, &[Sectors], u8); 4] = [
        (0, &[], 1),
        (2, &[], 3),
        (0, &[(0, 1568, 1)], 3),
        (2, &[(2, 580, 1)], 1),
    ];
    for (newest, bad, byte) in &rows {
        let mut host = host_of(alloc, newest_images(alloc, *newest)?, bad)?;
        let (end, _told) = rescue(alloc, &mut host, "dump --rescue Mirror1 on A B C")?;
        assert!(rt; end == end_of(700, 0));
        assert!(rt; was_said(&host, 5, *byte));
    }
    Ok(())
}

const REFUSALS: [(&str, &[u8]); 4] = [
    ("dump --rescue Mirror2 on A B C", b"refused: no volume\n"),
    (
        "dump --rescue Mirror1 699 2 on A B C",
        b"refused: bad range\n",
    ),
    (
        "dump --rescue Mirror1 0 0 on A B C",
        b"refused: bad range\n",
    ),
    (
        "dump --rescue Mirror1 18446744073709551615 2 on A B C",
        b"refused: bad range\n",
    ),
];

#[test]
fn refuses_as_dump_does(rt: HostRuntime) -> Result<(), Fail> {
    let alloc = rt.alloc();
    let refused = Rescue {
        status: Status::Refused,
        totals: None,
    };
    for (text, line) in &REFUSALS {
        let mut host = host_of(alloc, usual_images(alloc)?, &[])?;
        let (end, told) = rescue(alloc, &mut host, text)?;
        assert!(rt;
            end == refused && host.said() == *line && told.is_empty(),
            "{text}"
        );
    }
    Ok(())
}

#[test]
fn refuses_images_of_no_group(rt: HostRuntime) -> Result<(), Fail> {
    let alloc = rt.alloc();
    let mut images = usual_images(alloc)?;
    if let Some(image) = images.get_mut(1) {
        put_at(image, 0, &[0; 7 * 512]);
    }
    let mut host = host_of(alloc, images, &[])?;
    let (end, _told) = rescue(alloc, &mut host, "dump --rescue Mirror1 on A B C")?;
    assert!(rt; end.status == Status::Refused && end.totals.is_none());
    assert!(rt; host.said().starts_with(b"refused: image 1"));
    Ok(())
}

#[test]
fn ends_where_a_label_cannot_be_read(rt: HostRuntime) -> Result<(), Fail> {
    let alloc = rt.alloc();
    let mut host = host_of(alloc, usual_images(alloc)?, &[(2, 0, 8192)])?;
    let (end, told) = rescue(alloc, &mut host, "dump --rescue Mirror1 on A B C")?;
    assert!(rt; end.status == Status::DiskFault && end.totals.is_none());
    assert!(rt; host.said().is_empty() && told.is_empty());
    Ok(())
}
