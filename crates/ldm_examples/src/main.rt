//! Writes the images of the three disks of a usual group into a folder, as `a.img`, `b.img` and
//! `c.img`. They are examples for `ldm`. It writes over no file: where one of the names is taken,
//! it writes none.
#![tactic(auto)]

ghost use Rattle.std.specs.Prelude.{◌≡◌, ◌++◌, IfOk, codes, string_bytes};

use ldm_bytes::NoMemory;
use ldm_images::usual_images;
use std::alloc::Global;
use std::fs::File;
use std::io::{ErrorKind, Write};
use std::process::ExitCode;
use std::{env, fs};
use thiserror::Error;

/// Why not all images were written.
#[derive(Clone, Copy, Debug, PartialEq, Eq, Drop, Error)]
enum ExamplesError {
    #[error("usage: examples FOLDER")]
    Usage,
    #[error("no memory")]
    NoMemory,
    #[error("{0} is there already, and no file is written over")]
    Taken(&'static str),
    #[error("cannot write {0}")]
    CannotWrite(&'static str),
    /// Standard output failed.
    #[error("talk fault")]
    TalkFault,
}

impl From<NoMemory> for ExamplesError {
    fn from(_: NoMemory) -> ExamplesError {
        ExamplesError::NoMemory
    }
}

const NAMES: [&str; 3] = ["a.img", "b.img", "c.img"];

// The folder that the only word of the command line names.
fn folder_of(rt: &HostRuntime) -> Result<String, ExamplesError> {
    let mut words = env::args(rt).map_err(|_| ExamplesError::Usage)?.skip(1);
    match (words.next(), words.next()) {
        (Some(folder), None) => Ok(folder),
        _ => Err(ExamplesError::Usage),
    }
}

// The path of a file in the folder.
fn path_of(alloc: Global, folder: &str, name: &str) -> Result<String, NoMemory>
    ensures { IfOk result (λ path. string_bytes path ≡ folder.now ++ (codes "/" ++ name.now)) }
{
    Ok(format!(in alloc; "{folder}/{name}")?)
}

// Refuses a folder in which one of the names is taken, be it by a link to nothing.
fn require_free(rt: &HostRuntime, folder: &str) -> Result<(), ExamplesError> {
    for name in NAMES {
        let path = path_of(rt.alloc(), folder, name)?;
        match fs::symlink_metadata(rt, path.as_str()) {
            Ok(_) => return Err(ExamplesError::Taken(name)),
            Err(error) if error.kind() == ErrorKind::NotFound => {}
            Err(_) => return Err(ExamplesError::CannotWrite(name)),
        }
    }
    Ok(())
}

// Makes a new file of the image.
fn write_image(
    rt: &HostRuntime,
    folder: &str,
    name: &'static str,
    image: &[u8],
) -> Result<(), ExamplesError> {
    let path = path_of(rt.alloc(), folder, name)?;
    let mut file = match File::create_new(rt, path.as_str()) {
        Ok(file) => file,
        Err(error) if error.kind() == ErrorKind::AlreadyExists => {
            return Err(ExamplesError::Taken(name));
        }
        Err(_) => return Err(ExamplesError::CannotWrite(name)),
    };
    file.write_all(image)
        .map_err(|_| ExamplesError::CannotWrite(name))
}

// Writes the images into the folder, and says the name of each when its file is written and closed.
fn write_images(rt: &HostRuntime, folder: &str) -> Result<(), ExamplesError> {
    let images = usual_images(rt.alloc())?;
    require_free(rt, folder)?;
    for (name, image) in NAMES.into_iter().zip(images.iter()) {
        write_image(rt, folder, name, image.as_slice())?;
        println!(rt; "{name}").map_err(|_| ExamplesError::TalkFault)?;
    }
    Ok(())
}

fn main(rt: HostRuntime) -> ExitCode {
    match folder_of(&rt).and_then(|folder| write_images(&rt, folder.as_str())) {
        Ok(()) => ExitCode::SUCCESS,
        Err(error) => {
            let _ = eprint!(rt; "examples: {error}\n");
            ExitCode::FAILURE
        }
    }
}

#[cfg(test)]
mod tests;
