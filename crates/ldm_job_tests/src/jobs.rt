//! How jobs are run over the images of a small group, and what is compared.
use ldm_host::Host;
use ldm_memory::MemoryHost;
use ldm_past::{past_words, run_past};
use ldm_repair::{Ran, repair, repair_images};
use ldm_run::{Status, run};
use ldm_vectors::sample_images;
use ldm_words::{WordsError, read_words};
use std::alloc::Global;
use std::process::Abort;
use std::test::Fail;

// Runs the words where the host has just the images that they name.
pub(crate) fn run_over<H: Host>(alloc: Global, words: &[String], host: &mut H) -> Option<Status> {
    match read_words(alloc, words) {
        Ok((_, count)) => {
            if count == host.disks() {
                Some(run(alloc, words, host))
            } else {
                None
            }
        }
        Err(WordsError::Usage) => Some(run(alloc, words, host)),
        Err(WordsError::NoMemory) => None,
    }
}

// Runs words without the option, which may be those of a repair. The host comes back.
fn run_plain(alloc: Global, words: &[String], host: MemoryHost) -> Option<(MemoryHost, Status)> {
    match repair_images(alloc, words).ok()? {
        Some(count) if count == host.disks() => {
            let Ran {
                host,
                status,
                damages: _,
            } = repair(alloc, host);
            Some((host, status))
        }
        Some(_) => None,
        None => {
            let mut host = host;
            let status = run_over(alloc, words, &mut host)?;
            Some((host, status))
        }
    }
}

// Runs the words, past damage where they ask for that, where the host has just the images that they
// name. The host comes back.
pub(crate) fn run_any(
    alloc: Global,
    words: &[String],
    host: MemoryHost,
) -> Option<(MemoryHost, Status)> {
    let Some(rest) = past_words(alloc, words).ok()? else {
        return run_plain(alloc, words, host);
    };
    match read_words(alloc, &rest) {
        Ok((_, count)) if count == host.disks() => {
            let Ran {
                host,
                status,
                damages: _,
            } = run_past(alloc, &rest, host);
            Some((host, status))
        }
        _ => None,
    }
}

pub(crate) fn words_in(alloc: Global, line: &str) -> Result<Vec<String>, Fail> {
    let mut words = Vec::new(alloc);
    for word in line.split(' ') {
        words.push(String::from_str(alloc, word)?)?;
    }
    Ok(words)
}

// The images of the sample group of so many disks and with this `last`.
pub(crate) fn sample_group(alloc: Global, disks: u8, last: u32) -> Result<Vec<Vec<u8>>, Fail> {
    Ok(sample_images(alloc, disks.clamp(1, 3), last.clamp(8, 5924))?)
}

// The letters of the images that the words name.
pub(crate) fn letters_of(words: &str) -> Result<&str, Fail> {
    match words.split_once(" on ") {
        Some((_, letters)) => Ok(letters),
        None => Err(Fail::from("no images")),
    }
}

pub(crate) fn place_of(letter: &str) -> usize {
    match letter {
        "A" => 0,
        "B" => 1,
        _ => 2,
    }
}

// The images of a group that the words name by their letters.
pub(crate) fn named_images(
    alloc: Global,
    group: &[Vec<u8>],
    words: &str,
) -> Result<Vec<Vec<u8>>, Fail> {
    let mut images = Vec::new(alloc);
    for letter in letters_of(words)?.split(' ') {
        if let Some(image) = group.get(place_of(letter)) {
            images.push(image.as_slice().to_vec(alloc)?)?;
        }
    }
    Ok(images)
}

// Runs the words over these images and this script, and answers how the run ends and what is said.
pub(crate) fn answer_of(
    alloc: Global,
    words: &str,
    images: Vec<Vec<u8>>,
    script: &[u8],
) -> Result<(Option<Status>, Vec<u8>), Fail> {
    let mut host = MemoryHost::new(alloc, images, script.to_vec(alloc)?)?;
    let status = run_over(alloc, &words_in(alloc, words)?, &mut host);
    Ok((status, host.said().to_vec(alloc)?))
}

// Compares how such a run ends, and all that is said.
pub(crate) fn expect(
    alloc: Global,
    rt: &impl Abort,
    words: &str,
    images: Vec<Vec<u8>>,
    script: &[u8],
    (text, status): (&str, Status),
) -> Result<(), Fail> {
    let (ended, said) = answer_of(alloc, words, images, script)?;
    assert_eq!(rt;
        (ended, said.as_slice()),
        (Some(status), text.as_bytes()),
        "{words}: {text}"
    );
    Ok(())
}

// Compares how a run ends whose first call fails. Nothing is said then.
pub(crate) fn expect_fault(
    alloc: Global,
    rt: &impl Abort,
    words: &str,
    images: Vec<Vec<u8>>,
    status: Status,
) -> Result<(), Fail> {
    let first = vec![in alloc; 1u64]?;
    let mut host = MemoryHost::new(alloc, images, Vec::new(alloc))?.with_failures(first);
    let ended = run_over(alloc, &words_in(alloc, words)?, &mut host);
    assert_eq!(rt;
        (ended, host.said()),
        (Some(status), b"".as_slice()),
        "{words}"
    );
    Ok(())
}

pub(crate) fn put(image: &mut [u8], place: usize, bytes: &[u8]) {
    let end = place.saturating_add(bytes.len());
    if end <= image.len() && place <= end {
        image[place..end].copy_from_slice(bytes);
    }
}

// The image of the last disk of the sample group of so many, with these bytes at these places.
pub(crate) fn image_with(
    alloc: Global,
    disks: u8,
    changes: &[(usize, &[u8])],
) -> Result<Vec<Vec<u8>>, Fail> {
    let Some(mut image) = sample_group(alloc, disks, 64)?.pop() else {
        return Err(Fail::from("no image"));
    };
    for (place, bytes) in changes {
        put(&mut image, *place, bytes);
    }
    let mut images = Vec::new(alloc);
    images.push(image)?;
    Ok(images)
}

// Changes of an image, what is said of it, and the status.
pub(crate) type Case = (&'static [(usize, &'static [u8])], &'static str, Status);

pub(crate) fn expect_cases(
    alloc: Global,
    rt: &impl Abort,
    words: &str,
    disks: u8,
    cases: &[Case],
) -> Result<(), Fail> {
    for (changes, text, status) in cases {
        let images = image_with(alloc, disks, changes)?;
        expect(alloc, rt, words, images, b"", (text, *status))?;
    }
    Ok(())
}
