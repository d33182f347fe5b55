//! Which files names are of.
ghost use Rattle.std.specs.Prelude.{◌↔◌, IsTrue};
ghost use Rattle.abt_files.specs.Places.{AreOne};

use crate::links::{Target, target_of};
use crate::names::cut_name;
use crate::why::Why;
use std::alloc::{AllocError, AllocGlobal};
use std::os::unix::fs::MetadataExt;
use std::rt::Files;

// Which file a name is of, as far as the system says.
#[derive(Drop)]
pub(crate) enum Place {
    // A regular file: the number of its device, and its own there.
    There {
        device: u64,
        number: u64,
    },
    // None yet: the numbers of its folder, and its name there.
    New {
        device: u64,
        number: u64,
        name: String,
    },
    // A device, a pipe, a folder, or what the system says nothing of: it is never taken for another.
    Apart,
}

// Which file a name is of. Links are followed.
pub(crate) fn place_of<T: Files + AllocGlobal>(rt: &T, name: &str) -> Result<Place, AllocError> {
    match rt.metadata(name) {
        Ok(about) if about.is_file() && about.ino() != 0 => Ok(Place::There {
            device: about.dev(),
            number: about.ino(),
        }),
        Ok(_) => Ok(Place::Apart),
        Err(_) => match target_of(rt, name) {
            Ok(Target::Named(name)) => new_place(rt, name.as_str()),
            Ok(Target::Held) => Ok(Place::Apart),
            Err(Why::Memory) => Err(AllocError),
            Err(_) => Ok(Place::Apart),
        },
    }
}

// The place of a file that isn't there.
fn new_place<T: Files + AllocGlobal>(rt: &T, name: &str) -> Result<Place, AllocError> {
    let (folder, last) = cut_name(name);
    let folder = if folder.is_empty() { "." } else { folder };
    match rt.metadata(folder) {
        Ok(about) if about.ino() != 0 => Ok(Place::New {
            device: about.dev(),
            number: about.ino(),
            name: String::from_str(rt.alloc(), last)?,
        }),
        _ => Ok(Place::Apart),
    }
}

// Whether two names are of one file.
pub(crate) fn are_one(place: &Place, other: &Place) -> bool
    ensures { IsTrue result ↔ AreOne place.now other.now }
{
    match (place, other) {
        (
            Place::There { device, number },
            Place::There {
                device: other_device,
                number: other_number,
            },
        ) => *device == *other_device && *number == *other_number,
        (
            Place::New {
                device,
                number,
                name,
            },
            Place::New {
                device: other_device,
                number: other_number,
                name: other_name,
            },
        ) => {
            *device == *other_device
                && *number == *other_number
                && name.as_str() == other_name.as_str()
        }
        _ => false,
    }
}
