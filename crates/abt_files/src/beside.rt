//! Files that are made beside those that they become.
ghost use Rattle.std.specs.Prelude.{◌≡◌, ◌⊎◌, ◌∷◌, true, MatchResult};
ghost use Rattle.std.specs.Fs.{asks_create_new, asks_write};
ghost use Rattle.abt_files.specs.declared.calls.OutCall.TheVariants.{Failed, Synced, Named, Removed, Left};

use crate::calls::{CallLog, OutCall};
use crate::names::{cut_name, name_beside};
use crate::why::{Why, why_of, why_unmade};
use std::alloc::AllocGlobal;
use std::fs::{Metadata, OpenFile, OpenOptions, Permissions};
use std::io::{self, ErrorKind};
use std::os::unix::fs::{MetadataExt, OpenOptionsExt, PermissionsExt};
use std::rt::Files;

// The most files that are looked for beside another.
const FILES_MAX: u32 = 1000;

// The bits of a mode that say who may read, write and run a file.
const MODE_BITS: u32 = 0o777;

// The mode of a new file, from which the process's mask takes bits.
const MODE_NEW: u32 = 0o666;

// A file that was made beside the one that it is to become. It isn't Drop: it is named, or it is removed.
pub(crate) struct Beside {
    made: String,
    becomes: String,
}

impl Beside {
    // Makes a file in the folder of a name, under a name that nothing has, with the rights of what has that name.
    pub(crate) fn make<T: Files + AllocGlobal>(
        rt: &T,
        becomes: String,
        other: Option<&Metadata>,
    ) -> Result<(Beside, T::File), Why> {
        let (folder, last) = cut_name(becomes.as_str());
        if matches!(last, "" | "." | "..") {
            return Err(Why::Name);
        }
        for number in 0..FILES_MAX {
            let made = name_beside(rt.alloc(), folder, number)?;
            match open_new(rt, made.as_str(), other) {
                Ok(file) => return Ok((Beside { made, becomes }, file)),
                Err(error) if error.kind() == ErrorKind::AlreadyExists => {}
                Err(error) => return Err(why_unmade(error.kind())),
            }
        }
        Err(Why::Crowded)
    }

    // Gives it the name that it is to have, in place of what has it, or gives it back.
    pub(crate) fn name_it<T: Files>(self, rt: &T, log: &mut CallLog) -> Result<(), (Beside, Why)>
        ensures { MatchResult result
            (λ _. log.new.calls ≡ Named ∷ log.old.calls)
            (λ _. log.new.calls ≡ Failed ∷ log.old.calls) }
    {
        match rt.rename(self.made.as_str(), self.becomes.as_str()) {
            Ok(()) => {
                log.note(&OutCall::Named);
                let Beside {
                    made: _,
                    becomes: _,
                } = self;
                Ok(())
            }
            Err(error) => {
                log.note(&OutCall::Failed);
                Err((self, why_of(error.kind())))
            }
        }
    }

    // Removes it.
    pub(crate) fn remove<T: Files>(self, rt: &T, log: &mut CallLog)
        ensures { (log.new.calls ≡ Removed ∷ log.old.calls) ⊎ (log.new.calls ≡ Left ∷ log.old.calls) }
    {
        match rt.remove_file(self.made.as_str()) {
            Ok(()) => log.note(&OutCall::Removed),
            Err(_) => log.note(&OutCall::Left),
        }
        let Beside {
            made: _,
            becomes: _,
        } = self;
    }
}

// Makes a file of a name that nothing has, no link either, with the rights of another one if it is to take its place.
fn open_new<T: Files>(rt: &T, name: &str, other: Option<&Metadata>) -> io::Result<T::File> {
    let Some(other) = other else {
        return how_to_make(MODE_NEW).open(rt, name);
    };
    let mode = other.mode() & MODE_BITS;
    let file = how_to_make(mode).open(rt, name)?;
    keep_rights(rt, &file, name, other, mode);
    Ok(file)
}

// Gives a file the group, the owner and the mode of another one. Where the system refuses one of them, the file has that of its maker.
fn keep_rights<T: Files>(rt: &T, file: &T::File, name: &str, other: &Metadata, mode: u32) {
    let _ = rt.lchown(name, None, Some(other.gid()));
    let _ = rt.lchown(name, Some(other.uid()), None);
    let _ = file.set_permissions(Permissions::from_mode(mode));
}

// How a file is opened that isn't there yet: with O_EXCL.
fn how_to_make(mode: u32) -> OpenOptions
    ensures exclusive { asks_create_new result ≡ true }
    ensures write { asks_write result ≡ true }
{
    let mut how = OpenOptions::new();
    how.mode(mode);
    how.write(true).create_new(true);
    how
}

// Has all that was written on the device: what a close would tell, this tells.
pub(crate) fn sync_file<F: OpenFile>(file: &F, log: &mut CallLog) -> Result<(), Why>
    ensures { MatchResult result
        (λ _. log.new.calls ≡ Synced ∷ log.old.calls)
        (λ _. log.new.calls ≡ Failed ∷ log.old.calls) }
{
    match file.sync_all() {
        Ok(()) => {
            log.note(&OutCall::Synced);
            Ok(())
        }
        Err(error) => {
            log.note(&OutCall::Failed);
            Err(why_of(error.kind()))
        }
    }
}
