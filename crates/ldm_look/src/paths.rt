//! Images as JSON names them: by their numbers, and by the words that were given.
ghost use Rattle.std.specs.Prelude.{◌≡◌};
ghost use Rattle.std.specs.Option.{option_map};
ghost use Rattle.ldm_look.specs.Paths.{path_of};

use ldm_words::Paths;

/// The number of an image.
pub(crate) fn image_number(image: Option<usize>) -> Option<u64>
    ensures { result ≡ image }
{
    match image {
        Some(image) => Some(image as u64),
        None => None,
    }
}

/// The word of an image.
pub(crate) fn path_of(paths: &Paths, image: Option<usize>) -> Option<&str>
    ensures { option_map (λ word. word.now) result ≡ path_of paths.now image }
{
    match image {
        Some(image) => paths.get(image),
        None => None,
    }
}
