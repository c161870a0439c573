//! Images of a usual group, and what is explained of a job on them.
use crate::arrays::{clear_volumes, put_arrays};
use ldm_explain::{Sight, explain, untabled_text};
use ldm_found::find_group;
use ldm_host::Host;
use ldm_images::usual_images;
use ldm_memory::MemoryHost;
use ldm_text::Text;
use ldm_words::{Job, read_words};
use std::alloc::Global;
use std::test::Fail;

/// What is changed of the images.
#[derive(Clone, Copy)]
pub(crate) enum Change {
    None,
    /// The last sector of an image is missing.
    Cut(usize),
    /// The first entry of the MBR of an image has the type of a GPT disk, and no other is one.
    Gpt(usize),
    /// The first block of the database of an image has another beginning.
    Block(usize),
    /// All copies are closed.
    Close,
    /// The group has no volume.
    NoVolume,
    /// Its volumes are R and T, two RAID-5s with partitions of one name.
    Arrays,
}

/// Where the config area begins, in bytes.
pub(crate) const AREA: usize = (6144 + 17) * 512;

/// Sets a byte of an image.
pub(crate) fn put(image: &mut Vec<u8>, at: usize, byte: u8) {
    if at < image.len() {
        image[at] = byte;
    }
}

fn change_image(alloc: Global, image: &mut Vec<u8>, at: usize, change: Change) -> Result<(), Fail> {
    match change {
        Change::Cut(cut) if cut == at => image.truncate(8191 * 512),
        Change::Gpt(gpt) if gpt == at => put(image, 0x1C2, 0xEE),
        Change::Block(block) if block == at => put(image, AREA + 512, 0),
        Change::Close => put(image, AREA, 0),
        Change::NoVolume => clear_volumes(image),
        Change::Arrays => {
            clear_volumes(image);
            put_arrays(alloc, image)?;
        }
        _ => (),
    }
    Ok(())
}

// Copies of the images that the words name by their first letters. The letter x stands for one of
// another group, which is older.
fn named_images(alloc: Global, names: &[String], change: Change) -> Result<Vec<Vec<u8>>, Fail> {
    let mut group = usual_images(alloc)?;
    for (at, image) in group.iter_mut().enumerate() {
        change_image(alloc, image, at, change)?;
    }
    let mut images = Vec::new(alloc);
    for name in names {
        images.push(image_named(alloc, &group, name.as_str())?)?;
    }
    Ok(images)
}

// A copy of the image with this name.
fn image_named(alloc: Global, group: &[Vec<u8>], name: &str) -> Result<Vec<u8>, Fail> {
    let place = match name.as_bytes().first() {
        Some(b'b') => 1,
        Some(b'c') => 2,
        _ => 0,
    };
    let Some(image) = group.get(place) else {
        return Err(Fail::from("no image"));
    };
    let mut copy = Vec::new(alloc);
    copy.extend_from_slice(image.as_slice())?;
    if name.starts_with("x") {
        // Another disk, group and sequence.
        for at in [6usize, 6144 + 1856, 6144 + 2047] {
            put(&mut copy, at * 512 + 0x30, b'9');
        }
        put(&mut copy, AREA + 0x16, b'X');
        put(&mut copy, AREA + 0x17, b'g');
        put(&mut copy, AREA + 0x75 + 7, 6);
        put(&mut copy, AREA + 0x7D + 7, 6);
    }
    Ok(copy)
}

/// A text that was made, as one.
pub(crate) fn string_of(alloc: Global, text: &Text) -> Result<String, Fail> {
    match str::from_utf8(text.as_slice()) {
        Ok(text) => Ok(String::from_str(alloc, text)?),
        Err(_) => Err(Fail::from("no UTF-8")),
    }
}

fn words_in(alloc: Global, line: &str) -> Result<Vec<String>, Fail> {
    let mut words = Vec::new(alloc);
    for word in line.split(' ') {
        words.push(String::from_str(alloc, word)?)?;
    }
    Ok(words)
}

/// What is explained of a job on the images that its words name, with this script.
pub(crate) fn explained(
    alloc: Global,
    line: &str,
    script: &str,
    change: Change,
) -> Result<String, Fail> {
    let words = words_in(alloc, line)?;
    let Ok((job, count)) = read_words(alloc, &words) else {
        return Err(Fail::from("no reading"));
    };
    let names = &words[words.len() - count..];
    let images = named_images(alloc, names, change)?;
    let mut host = MemoryHost::new(alloc, images, Vec::new(alloc))?;
    match Sight::of(alloc, &mut host, names, &job) {
        Some(sight) => string_of(alloc, &explain(alloc, sight, &job, script.as_bytes())?),
        None => Ok(String::new(alloc)),
    }
}

/// What is told of volumes that the text of all tables leaves out, of the images that the words of
/// that job name.
pub(crate) fn untabled(alloc: Global, line: &str) -> Result<String, Fail> {
    let words = words_in(alloc, line)?;
    let Ok((job, count)) = read_words(alloc, &words) else {
        return Err(Fail::from("no reading"));
    };
    let images = named_images(alloc, &words[words.len() - count..], Change::None)?;
    let Job::Tables { images: named } = job else {
        return Err(Fail::from("another job"));
    };
    let mut host = MemoryHost::new(alloc, images, Vec::new(alloc))?;
    if host.disks() == 0 {
        return Err(Fail::from("no image"));
    }
    match find_group(alloc, &mut host) {
        Ok(found) => string_of(alloc, &untabled_text(alloc, &host, &found, &named)?),
        Err(_) => Err(Fail::from("no group")),
    }
}
