//! Files that are opened to be read, and what is told of one that can't be.
ghost use Rattle.std.specs.Prelude.{◌≡◌, IfErr};
ghost use Rattle.abt_commands.specs.Opening.{TellsEach, TellsOpenFault, TellsUnopened, unopened_pieces};
ghost use Rattle.abt_files.specs.Shown.{shown};
ghost use Rattle.abt_perform.specs.Plans.{Tells};
ghost use Rattle.abt_commands.specs.Opening as spec;

use abt_files::put_shown;
use abt_perform::{MEMORY_LINE, OPEN_LINE, tell_text};
use std::fs::{self, File};
use std::io::{ErrorKind, Write};
use std::rt::Files;

// What is told of a file that is opened and can't be read.
pub(crate) const READ_LINE: &str = "fault: read\n";

// Why a file can't be opened or read.
#[derive(Clone, Copy)]
pub(crate) enum Why {
    Memory,
    Missing,
    Forbidden,
    Folder,
    ThroughFile,
    Name,
    Circle,
    Other,
}

// A file that can't be opened or read, by its name.
#[derive(Clone, Copy)]
pub(crate) struct Unopened<'a> {
    pub(crate) name: &'a str,
    pub(crate) why: Why,
}

impl Unopened<'_> {
    // Tells the fault, and behind it the file's name and why, without memory. Gives the exit status.
    pub(crate) fn tell<E: Write>(self, errors: &mut E) -> u8
        ensures status { result ≡ 1 }
        ensures told { TellsUnopened self.entry.name.now (E.contents errors.old) (E.contents errors.new) }
    {
        match self.why {
            Why::Memory => tell_text(errors, MEMORY_LINE),
            why => tell_why(self.name, why, errors),
        }
        1
    }

    // Tells the fault, and nothing else. Gives the exit status.
    pub(crate) fn tell_fault<E: Write>(self, errors: &mut E) -> u8
        ensures status { result ≡ 1 }
        ensures told { TellsOpenFault self.entry.name.now (E.contents errors.old) (E.contents errors.new) }
    {
        tell_text(errors, unopened_line(self.why));
        1
    }
}

// Opens a file that isn't a folder.
pub(crate) fn open_named<'a, T: Files>(rt: &T, name: &'a str) -> Result<T::File, Unopened<'a>>
    ensures { IfErr result (λ unopened. unopened.name.now ≡ name.now) }
{
    let why = match File::open(rt, name) {
        Ok(_) if is_folder(rt, name) => Why::Folder,
        Ok(file) => return Ok(file),
        Err(error) => why_of(error.kind()),
    };
    Err(Unopened { name, why })
}

// Whether a name is a folder's.
fn is_folder<T: Files>(rt: &T, name: &str) -> bool {
    match fs::metadata(rt, name) {
        Ok(found) => found.is_dir(),
        Err(_) => false,
    }
}

// Why a file isn't opened, by what the error is to the system.
fn why_of(kind: ErrorKind) -> Why
    ensures { result ≡ spec.why_of kind }
{
    match kind {
        ErrorKind::OutOfMemory => Why::Memory,
        ErrorKind::NotFound => Why::Missing,
        ErrorKind::PermissionDenied => Why::Forbidden,
        ErrorKind::IsADirectory => Why::Folder,
        ErrorKind::NotADirectory => Why::ThroughFile,
        ErrorKind::InvalidFilename | ErrorKind::InvalidInput => Why::Name,
        ErrorKind::FilesystemLoop => Why::Circle,
        _ => Why::Other,
    }
}

// Tells the fault, and behind it the file's name and why.
fn tell_why<E: Write>(name: &str, why: Why, errors: &mut E)
    ensures { TellsEach (unopened_pieces name.now why) (E.contents errors.old) (E.contents errors.new) }
{
    tell_text(errors, unopened_line(why));
    tell_shown(errors, name);
    tell_text(errors, ": ");
    tell_text(errors, why_words(why));
    tell_text(errors, "\n");
}

// Tells a name as it is shown.
pub(crate) fn tell_shown<E: Write>(errors: &mut E, name: &str)
    ensures { Tells (shown name.now) (E.contents errors.old) (E.contents errors.new) }
{
    let _ = put_shown(errors, name);
}

// The line of the fault: a folder is opened, and then can't be read.
fn unopened_line(why: Why) -> &'static str
    ensures { result.now ≡ spec.unopened_line why }
{
    match why {
        Why::Memory => MEMORY_LINE,
        Why::Folder => READ_LINE,
        _ => OPEN_LINE,
    }
}

// The name of that fault.
pub(crate) fn unopened_name(why: Why) -> &'static str
    ensures { result.now ≡ spec.unopened_name why }
{
    match why {
        Why::Memory => "memory",
        Why::Folder => "read",
        _ => "open",
    }
}

// Why a file can't be opened or read, in words.
pub(crate) fn why_words(why: Why) -> &'static str
    ensures { result.now ≡ spec.why_words why }
{
    match why {
        Why::Memory => "memory was refused",
        Why::Missing => "there is no such file",
        Why::Forbidden => "it may not be read",
        Why::Folder => "it is a folder",
        Why::ThroughFile => "its path goes through a file",
        Why::Name => "the system takes no such name",
        Why::Circle => "its links go round in a circle",
        Why::Other => "the system doesn't open it",
    }
}
