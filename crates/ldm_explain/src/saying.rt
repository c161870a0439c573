//! Lines that explain, made of a text and of what stands in it.
use ldm_bytes::NoMemory;
use ldm_edge::Shown;
use ldm_text::{Part, Text, push_parts};
use std::alloc::Global;

/// Adds a text in which each `%` stands for the next of these parts.
pub fn say(text: &mut Text, said: &str, parts: &[Part]) -> Result<(), NoMemory> {
    let mut next = parts;
    for c in said.as_bytes() {
        match next {
            [part, rest @ ..] if *c == b'%' => {
                push_parts(text, &[*part])?;
                next = rest;
            }
            _ => text.push(&[*c])?,
        }
    }
    Ok(())
}

/// A line of such a text.
pub fn line_of(alloc: Global, said: &str, parts: &[Part]) -> Result<Text, NoMemory> {
    let mut text = Text::new(alloc);
    text.push(b"ldm: ")?;
    say(&mut text, said, parts)?;
    text.push(b"\n")?;
    Ok(text)
}

/// The path of an image, as it is said.
pub fn path_of(alloc: Global, names: &[String], image: usize) -> Result<String, NoMemory> {
    let name = match names.get(image) {
        Some(name) => name.as_str(),
        None => "",
    };
    let shown = Shown(name);
    Ok(format!(in alloc; "{shown}")?)
}

/// A line in which the path of an image stands first, and then three numbers may.
pub fn path_line(
    alloc: Global,
    names: &[String],
    image: usize,
    said: &str,
    numbers: [u64; 3],
) -> Result<Text, NoMemory> {
    let path = path_of(alloc, names, image)?;
    let [first, second, third] = numbers;
    let parts = [
        Part::Word(path.as_bytes()),
        Part::Number(first),
        Part::Number(second),
        Part::Number(third),
    ];
    line_of(alloc, said, &parts)
}

/// A line in which the paths of two images stand.
pub fn paths_line(
    alloc: Global,
    names: &[String],
    images: [usize; 2],
    said: &str,
) -> Result<Text, NoMemory> {
    let [first, second] = images;
    let path = path_of(alloc, names, first)?;
    let other = path_of(alloc, names, second)?;
    let parts = [Part::Word(path.as_bytes()), Part::Word(other.as_bytes())];
    line_of(alloc, said, &parts)
}
