//! Stores in files of the system.
use super::{new, old, same};
use abt_disk::{FileFault, FileStore, OpenFault, create_store, open_store};
use abt_keep::{Record, SeqStore};
use std::fs::OpenOptions;
use std::os::unix::fs::FileExt;
use std::test::Fail;
use std::{env, fs};

// A new folder for the files of a test, of which others may run meanwhile.
fn folder(rt: &HostRuntime) -> Result<String, Fail> {
    for number in 0..1000 {
        if let Some(name) = made_folder(rt, number) {
            return Ok(name);
        }
    }
    Err("no folder is made".into())
}

fn made_folder(rt: &HostRuntime, number: u32) -> Option<String> {
    let temporary = env::temp_dir(rt).ok()?;
    let parent = temporary.as_str();
    let name = format!(in rt.alloc(); "{parent}/abt_disk_{number}").ok()?;
    fs::create_dir(rt, name.as_str()).ok()?;
    Some(name)
}

// The name of a file in a folder; if memory was refused, once more.
fn file_in(rt: &HostRuntime, folder: &String, file: &str) -> Result<String, Fail> {
    let folder = folder.as_str();
    match format!(in rt.alloc(); "{folder}/{file}") {
        Ok(name) => Ok(name),
        Err(_) => Ok(format!(in rt.alloc(); "{folder}/{file}")?),
    }
}

// Removes a folder; if memory was refused, once more.
fn remove(rt: &HostRuntime, folder: &String) -> Result<(), Fail> {
    if fs::remove_dir_all(rt, folder.as_str()).is_err() {
        fs::remove_dir_all(rt, folder.as_str())?;
    }
    Ok(())
}

// Makes a store; if memory was refused, once more.
fn create(rt: &HostRuntime, path: &str, kept: Record) -> Result<(), FileFault> {
    match create_store(rt, path, kept) {
        Err(FileFault::Memory) => create_store(rt, path, kept),
        made => made,
    }
}

// Opens a store; if memory was refused, once more.
fn open(rt: &HostRuntime, path: &str) -> Result<FileStore, FileFault> {
    match open_store(rt, path) {
        Err(FileFault::Memory) => open_store(rt, path),
        opened => opened,
    }
}

// The record that a store in a file holds.
fn kept(rt: &HostRuntime, path: &str) -> Result<Record, Fail> {
    let Ok(mut store) = open(rt, path) else {
        return Err("the store isn't opened".into());
    };
    let Ok(kept) = store.kept() else {
        return Err("the store isn't read".into());
    };
    Ok(kept)
}

#[test]
fn a_record_is_found_by_the_next_opening(rt: HostRuntime) -> Result<(), Fail> {
    let folder = folder(&rt)?;
    let name = file_in(&rt, &folder, "store")?;
    let path = name.as_str();
    same(&rt, &create(&rt, path, old()), &Ok(()));
    same(&rt, &kept(&rt, path)?, &old());
    for number in 43..48 {
        let Ok(mut store) = open(&rt, path) else {
            return Err("the store isn't opened".into());
        };
        same(&rt, &store.keep(Record::old(number)), &Ok(()));
        same(&rt, &store.keep(new()?), &Ok(()));
    }
    same(&rt, &kept(&rt, path)?, &new()?);
    remove(&rt, &folder)
}

#[test]
fn nothing_is_written_over(rt: HostRuntime) -> Result<(), Fail> {
    let folder = folder(&rt)?;
    let name = file_in(&rt, &folder, "store")?;
    let path = name.as_str();
    same(&rt, &open(&rt, path).err(), &Some(FileFault::Missing));
    same(&rt, &create(&rt, path, old()), &Ok(()));
    same(&rt, &create(&rt, path, new()?), &Err(FileFault::Exists));
    same(&rt, &kept(&rt, path)?, &old());
    let beside = file_in(&rt, &folder, "store.new")?;
    same(&rt, &fs::exists(&rt, beside.as_str())?, &false);
    remove(&rt, &folder)
}

#[test]
fn a_creation_that_was_cut_short_is_told(rt: HostRuntime) -> Result<(), Fail> {
    let folder = folder(&rt)?;
    let left = file_in(&rt, &folder, "store.new")?;
    fs::write(&rt, left.as_str(), b"".as_slice())?;
    let name = file_in(&rt, &folder, "store")?;
    let unfinished = create(&rt, name.as_str(), old());
    same(&rt, &unfinished, &Err(FileFault::Unfinished));
    same(&rt, &fs::exists(&rt, name.as_str())?, &false);
    remove(&rt, &folder)
}

#[test]
fn a_store_has_one_user(rt: HostRuntime) -> Result<(), Fail> {
    let folder = folder(&rt)?;
    let name = file_in(&rt, &folder, "store")?;
    let path = name.as_str();
    same(&rt, &create(&rt, path, old()), &Ok(()));
    let Ok(store) = open(&rt, path) else {
        return Err("the store isn't opened".into());
    };
    same(&rt, &open(&rt, path).err(), &Some(FileFault::Busy));
    drop(store);
    same(&rt, &kept(&rt, path)?, &old());
    remove(&rt, &folder)
}

#[test]
fn other_files_are_refused_by_name(rt: HostRuntime) -> Result<(), Fail> {
    let folder = folder(&rt)?;
    let name = file_in(&rt, &folder, "store")?;
    let path = name.as_str();
    let itself = open(&rt, folder.as_str());
    same(&rt, &itself.err(), &Some(FileFault::NotAFile));
    fs::write(&rt, path, b"short".as_slice())?;
    same(&rt, &open(&rt, path).err(), &Some(FileFault::Length(5)));
    fs::write(&rt, path, [0u8; 16384].as_slice())?;
    let format = FileFault::Blocks(OpenFault::Format);
    same(&rt, &open(&rt, path).err(), &Some(format));
    remove(&rt, &folder)
}

#[test]
fn a_damaged_store_is_refused(rt: HostRuntime) -> Result<(), Fail> {
    let folder = folder(&rt)?;
    let name = file_in(&rt, &folder, "store")?;
    let path = name.as_str();
    same(&rt, &create(&rt, path, old()), &Ok(()));
    let file = OpenOptions::new().write(true).open(&rt, path)?;
    file.write_all_at(&[7], 2 * 4096)?;
    let damaged = FileFault::Blocks(OpenFault::Damaged);
    same(&rt, &open(&rt, path).err(), &Some(damaged));
    file.write_all_at(&[2], 23)?;
    let version = FileFault::Blocks(OpenFault::Version(2));
    same(&rt, &open(&rt, path).err(), &Some(version));
    remove(&rt, &folder)
}

// Nobody, not even root, makes a file there.
#[test]
fn a_folder_that_is_read_alone_is_told(rt: HostRuntime) {
    let made = create(&rt, "/sys/abt_disk_store", old());
    same(&rt, &made, &Err(FileFault::Denied));
}
