//! The words of a command line, and the images that they name.
ghost use Rattle.std.specs.Prelude.{◌≡◌, ◌⊎◌, IfOk, length, vec_len};
ghost use Rattle.ldm_words.specs.declared.status.Status.TheVariants.{DiskFault, NoMemory};
ghost use Rattle.ldm_edge.specs.Ends.{stop_status};

use crate::shown::Shown;
use crate::stop::{Stop, Written};
use ldm_files::{Access, ImageError, ImageFile};
use std::alloc::Global;
use std::env;
use std::io::ErrorKind;

/// The words of the command line, without the program's name. A word that isn't UTF-8 has no
/// reading.
pub fn words_of<'a, U>(alloc: Global, rt: &HostRuntime) -> Result<Vec<String>, Stop<'a, U>> {
    let args = match env::args(rt) {
        Ok(args) => args,
        Err(error) if error.kind() == ErrorKind::OutOfMemory => return Err(Stop::NoMemory(
            Written::Never,
        )),
        Err(_) => return Err(Stop::NotUtf8),
    };
    let mut words = Vec::new(alloc);
    for word in args.skip(1) {
        if words.push(word).is_err() {
            return Err(Stop::NoMemory(Written::Never));
        }
    }
    Ok(words)
}

/// The end of a run whose image of this number and name can't be had.
pub fn stop_unopened<U>(image: usize, name: &str, error: ImageError) -> Stop<'_, U>
    ensures { (stop_status result ≡ DiskFault) ⊎ (stop_status result ≡ NoMemory) }
{
    match error {
        ImageError::NoMemory => Stop::NoMemory(Written::Never),
        error => Stop::CannotOpen {
            image,
            name: Shown(name),
            error,
        },
    }
}

/// Opens the images of these names, in their order.
pub fn open_images<'a, U>(
    alloc: Global,
    rt: &HostRuntime,
    names: &'a [String],
    access: Access,
) -> Result<Vec<ImageFile>, Stop<'a, U>>
    ensures all { IfOk result (λ images. vec_len images ≡ length names.now) }
{
    let mut images = Vec::new(alloc);
    for name in names {
        let image = match ImageFile::open(rt, name.as_str(), access) {
            Ok(image) => image,
            Err(error) => return Err(stop_unopened(images.len(), name.as_str(), error)),
        };
        if images.push(image).is_err() {
            return Err(Stop::NoMemory(Written::Never));
        }
    }
    Ok(images)
}
