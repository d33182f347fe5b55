//! Stores in files.
ghost use Rattle.std.specs.Prelude.{◌≡◌, IfOk, true};
ghost use Rattle.std.specs.Fs.{asks_create_new, asks_write};
ghost use Rattle.abt_disk.specs.Stores.{IsWhole};

use crate::file_disk::FileDisk;
use crate::file_fault::FileFault;
use crate::host_file::{HostFile, PAGE, block_at};
use crate::laying_out::lay_out;
use crate::store::{OpenRefused, SlotStore};
use abt_keep::Record;
use std::fs::{File, OpenOptions};
use std::io::ErrorKind;
use std::os::unix::fs::FileExt;
use std::path::Path;
use std::{fs, io};

/// The octets of a file: four pages.
const LENGTH: u64 = 4 * PAGE;

/// A store in a file.
pub type FileStore = SlotStore<FileDisk<HostFile>>;

/// Makes a store that holds this record, in a file of this name. It is made beside that, under the name with `.new`, and is
/// on the device with its name at Ok.
///
/// # Errors
/// [`FileFault::Exists`] if something of that name is there, which stays as it is; [`FileFault::Unfinished`] if something
/// is there of the name with `.new`; the others as the system refuses.
pub fn create_store(rt: &HostRuntime, path: &str, kept: Record) -> Result<(), FileFault> {
    if fs::symlink_metadata(rt, path).is_ok() {
        return Err(FileFault::Exists);
    }
    let beside = format!(in rt.alloc(); "{path}.new")?;
    let file = match new_file(rt, beside.as_str()) {
        Err(error) if error.kind() == ErrorKind::AlreadyExists => return Err(FileFault::Unfinished),
        other => other?,
    };
    let made = fill_and_name(rt, file, beside.as_str(), path, kept);
    let removed = fs::remove_file(rt, beside.as_str());
    made?;
    removed?;
    sync_folder(rt, path)?;
    Ok(())
}

/// Opens the store in a file, and locks it. It writes nothing: it syncs the file and its folder, and reads.
///
/// # Errors
/// The first that applies: [`FileFault::Missing`] if there is no such file, [`FileFault::NotAFile`],
/// [`FileFault::Busy`] while a process uses it, [`FileFault::Length`], [`FileFault::Blocks`] as [`SlotStore::open`] refuses;
/// or as the system refuses.
pub fn open_store(rt: &HostRuntime, path: &str) -> Result<FileStore, FileFault>
    ensures { IfOk result (λ store. store.failures ≡ 0) }
{
    let real = fs::canonicalize(rt, path)?;
    let file = OpenOptions::new()
        .read(true)
        .write(true)
        .open(rt, real.as_str())?;
    let about = file.metadata()?;
    if !about.is_file() {
        return Err(FileFault::NotAFile);
    }
    lock(&file)?;
    if about.len() != LENGTH {
        return Err(FileFault::Length(about.len()));
    }
    // What a process wrote that was killed may stand in memory alone.
    file.sync_all()?;
    sync_folder(rt, real.as_str())?;
    let first = blocks_in(&file)?;
    match SlotStore::open(FileDisk::new(HostFile::new(file), first)) {
        Ok(store) => Ok(store),
        Err(OpenRefused { disk: _, fault }) => Err(FileFault::Blocks(fault)),
    }
}

fn new_file(rt: &HostRuntime, path: &str) -> io::Result<File> {
    how_to_make().open(rt, path)
}

// How a file is opened that isn't there yet: with O_EXCL, so one that is there stays as it is.
fn how_to_make() -> OpenOptions
    ensures exclusive { asks_create_new result ≡ true }
    ensures write { asks_write result ≡ true }
{
    let mut how = OpenOptions::new();
    how.write(true).create_new(true);
    how
}

// Locks a file, if no other opening of it holds the lock.
fn lock(file: &File) -> Result<(), FileFault> {
    match file.try_lock() {
        Ok(()) => Ok(()),
        Err(error) => Err(FileFault::from(io::Error::from(error))),
    }
}

// Lays a store out in a new file, and gives it its name.
fn fill_and_name(
    rt: &HostRuntime,
    file: File,
    beside: &str,
    path: &str,
    kept: Record,
) -> Result<(), FileFault> {
    fill(&file)?;
    let mut file = HostFile::new(file);
    lay_out(&mut file, kept)?;
    give_name(rt, &file, beside, path, kept)?;
    Ok(())
}

// Writes four whole pages, so that no later write needs room.
fn fill(file: &File) -> io::Result<()> {
    let zeros = [0; 4096];
    for page in 0..4 {
        file.write_all_at(&zeros, page * PAGE)?;
    }
    file.sync_all()
}

// Gives a file beside its name that name, if nothing has it. It is a store of this record, whatever a crash does.
fn give_name(
    rt: &HostRuntime,
    _file: &HostFile,
    beside: &str,
    path: &str,
    _kept: Record,
) -> io::Result<()>
    requires { IsWhole _file.now.log.calls _kept }
{
    fs::hard_link(rt, beside, path)
}

fn blocks_in(file: &File) -> io::Result<[[u8; 24]; 4]> {
    Ok([
        block_at(file, 0)?,
        block_at(file, 1)?,
        block_at(file, 2)?,
        block_at(file, 3)?,
    ])
}

// Has the names in the folder of a file on the device.
fn sync_folder(rt: &HostRuntime, path: &str) -> io::Result<()> {
    let folder = match Path::new(path).parent() {
        Some(folder) if !folder.as_str().is_empty() => folder.as_str(),
        _ => ".",
    };
    fs::open(rt, folder)?.sync_all()
}
