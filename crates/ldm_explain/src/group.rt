//! What is wrong with the images of a group together.
use crate::image::copy_line;
use crate::saying::{line_of, path_line, path_of, paths_line};
use crate::volume::say_disk;
use ldm_bytes::NoMemory;
use ldm_found::{Found, OpenFault};
use ldm_group::RuleFault;
use ldm_text::{Part, Text};
use std::alloc::Global;

const NONE: [u64; 3] = [0, 0, 0];

/// An image of a disk that the newest group, of this name, doesn't have. Its own copy is of a group
/// of that name, or it has none, and then `own` is that of the newest.
pub fn stranger_line(
    alloc: Global,
    names: &[String],
    image: usize,
    own: &[u8],
    newest: &[u8],
) -> Result<Text, NoMemory> {
    let path = path_of(alloc, names, image)?;
    let (path, newest_part) = (Part::Word(path.as_bytes()), Part::Name(newest));
    if own == newest {
        let said = "% is of a disk that the newest copy of group % doesn't name: leave it out";
        return line_of(alloc, said, &[path, newest_part]);
    }
    let said = "% is of group %, the newest group is %: leave one out";
    line_of(alloc, said, &[path, Part::Name(own), newest_part])
}

/// Why images hold no group, where nothing but the fault is known.
pub fn fault_line(
    alloc: Global,
    names: &[String],
    fault: OpenFault,
) -> Result<Option<Text>, NoMemory> {
    let text = match fault {
        OpenFault::SameDisk(i, j) => paths_line(
            alloc,
            names,
            [i, j],
            "% and % are images of one disk: name one of them",
        )?,
        OpenFault::Copy(image, fault) => copy_line(alloc, names, image, fault)?,
        OpenFault::NoCopy => line_of(
            alloc,
            "no image holds an open copy of the database: name more disks of the group",
            &[],
        )?,
        OpenFault::Split(i, j) => paths_line(
            alloc,
            names,
            [i, j],
            "% and % say different groups at one sequence: see both with ldm records, and leave one out",
        )?,
        OpenFault::Rule(RuleFault { rule, id }) => line_of(
            alloc,
            "the database breaks rule % of docs/FORMAT.md at the object of id %, and is left as it is",
            &[Part::Number(u64::from(rule)), Part::Number(id)],
        )?,
        _ => return Ok(None),
    };
    Ok(Some(text))
}

// A disk that is absent, of a group that is to be edited.
fn absent_line(alloc: Global, found: &Found, id: u64) -> Result<Text, NoMemory> {
    let mut text = Text::new(alloc);
    text.push(b"ldm: ")?;
    say_disk(&mut text, &found.db, id)?;
    text.push(b" is absent: name the images of all disks of the group\n")?;
    Ok(text)
}

// A config area that is too small.
fn small_line(
    alloc: Global,
    names: &[String],
    found: &Found,
    image: usize,
) -> Result<Text, NoMemory> {
    let labels = found.labels.as_slice();
    let area = match labels.get(image) {
        Some(label) => label.area_sectors,
        None => 0,
    };
    path_line(
        alloc,
        names,
        image,
        "the config area of % has % blocks, and the database has %: the group is only read",
        [area.saturating_mul(4), u64::from(found.db.header().last), 0],
    )
}

/// Why the group that the images hold may not be edited.
pub fn block_line(
    alloc: Global,
    names: &[String],
    found: &Found,
    fault: OpenFault,
) -> Result<Option<Text>, NoMemory> {
    let text = match fault {
        OpenFault::Absent(id) => absent_line(alloc, found, id)?,
        OpenFault::FewDisks => path_line(
            alloc,
            names,
            0,
            "% is the only disk of its group, and a group of one disk isn't edited",
            NONE,
        )?,
        OpenFault::AreaSmall(image) => small_line(alloc, names, found, image)?,
        OpenFault::AreaClash(image) => path_line(
            alloc,
            names,
            image,
            "the config area of % meets its tables of contents, a private header or its log area: the group is only read",
            NONE,
        )?,
        _ => return Ok(None),
    };
    Ok(Some(text))
}
