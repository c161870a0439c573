//! What the program writes, and that it writes over no file.
use super::*;
use std::path::PathBuf;
use std::test::Fail;

// A new folder of its own, and its name.
fn new_folder(rt: &HostRuntime) -> Result<PathBuf, Fail> {
    let mut folder = env::temp_dir(rt)?;
    let id = std::process::id(rt.process());
    folder.push(format!(in rt.alloc(); "ldm-examples-{id}")?)?;
    fs::create_dir(rt, &folder)?;
    Ok(folder)
}

#[test]
fn writes_the_images_and_over_no_file(rt: HostRuntime) -> Result<(), Fail> {
    let alloc = rt.alloc();
    let folder = new_folder(&rt)?;
    let Some(name) = folder.to_str() else {
        return Err(Fail::from("no name"));
    };
    assert_eq!(rt; write_images(&rt, name), Ok(()));
    let Ok(images) = usual_images(alloc) else {
        return Err(Fail::from("no memory"));
    };
    for (file, image) in NAMES.iter().zip(images.iter()) {
        let path = path_of(alloc, name, file)?;
        let bytes = fs::read(&rt, path.as_str())?;
        assert!(rt; bytes.as_slice() == image.as_slice(), "{file}");
    }

    assert_eq!(rt; write_images(&rt, name), Err(ExamplesError::Taken("a.img")));
    fs::remove_file(&rt, path_of(alloc, name, "a.img")?.as_str())?;
    fs::remove_file(&rt, path_of(alloc, name, "b.img")?.as_str())?;
    let taken = path_of(alloc, name, "c.img")?;
    fs::write(&rt, taken.as_str(), b"mine")?;
    assert_eq!(rt; write_images(&rt, name), Err(ExamplesError::Taken("c.img")));
    assert_eq!(rt;
        fs::read(&rt, taken.as_str())?.as_slice(),
        b"mine".as_slice()
    );
    assert!(rt; !fs::exists(&rt, path_of(alloc, name, "a.img")?.as_str())?);
    fs::remove_dir_all(&rt, &folder)?;
    Ok(())
}
