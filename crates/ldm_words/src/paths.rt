//! The words that name the images of a job.
ghost use Rattle.std.specs.Prelude.{◌≡◌, IfOk, slice_get};
ghost use Rattle.std.specs.Option.{option_map};
ghost use Rattle.ldm_words.specs.Jobs.{texts};

use ldm_bytes::NoMemory;
use std::alloc::Global;
use std::marker::Model;

/// The words behind `on`, each of which names an image, in their order. Contracts see them as their
/// bytes.
#[derive(Drop)]
pub struct Paths {
    words: Vec<String>,
}

impl Model for Paths {
    ghost use Rattle.std.specs.Prelude.{List, ℕ, map, string_bytes};

    ghost Value = { List (List ℕ) };

    ghost view = { λ paths. map string_bytes paths.words.items };
}

impl Paths {
    /// A copy of these words.
    pub fn of(alloc: Global, words: &[String]) -> Result<Paths, NoMemory>
        ensures { IfOk result (λ paths. paths ≡ texts words.now) }
    {
        let mut copied = Vec::new(alloc);
        for word in words {
            copied.push(word.as_str().to_string(alloc)?)?;
        }
        Ok(Paths { words: copied })
    }

    /// The word of an image by its number, where it has one.
    pub fn get(&self, image: usize) -> Option<&str>
        ensures { option_map (λ word. word.now) result ≡ slice_get self.now image }
    {
        match self.words.get(image) {
            Some(word) => Some(word.as_str()),
            None => None,
        }
    }
}
