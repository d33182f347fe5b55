//! Why a file isn't written, and what is told then.
ghost use Rattle.std.specs.Prelude.{◌≡◌, IfOk, string_bytes};
ghost use Rattle.abt_files.specs.Shown as shown_spec;
ghost use Rattle.abt_files.specs.Why as spec;

use crate::showing::shown;
use std::alloc::{AllocError, Global};
use std::io::{Error, ErrorKind};

/// Why a file isn't written.
#[derive(Clone, Copy, Debug, PartialEq, Eq)]
pub enum Why {
    /// Memory was refused.
    Memory,
    /// Its folder isn't there.
    Missing,
    /// It may not be written.
    Forbidden,
    /// Its folder takes no new file.
    Closed,
    /// It is a folder.
    Folder,
    /// Its path goes through a file.
    ThroughFile,
    /// The system takes no such name.
    Name,
    /// Its links go round in a circle.
    Circle,
    /// Its folder is full of files that runs left which were killed.
    Crowded,
    /// The disk is full.
    Full,
    /// It may not be so long.
    TooLong,
    /// The disk may only be read.
    Locked,
    /// The system doesn't say, or something else.
    Other,
}

/// What isn't done of a file that is to be written.
#[derive(Clone, Copy, Debug, PartialEq, Eq)]
pub enum OutFault {
    /// It isn't opened: nothing was written.
    Open(Why),
    /// It is opened, and not wholly written.
    Write(Why),
}

/// Why a file isn't written, by what the error is to the system.
pub fn why_of(kind: ErrorKind) -> Why
    ensures { result ≡ spec.why_of kind }
{
    match kind {
        ErrorKind::OutOfMemory => Why::Memory,
        ErrorKind::NotFound => Why::Missing,
        ErrorKind::PermissionDenied => Why::Forbidden,
        ErrorKind::IsADirectory => Why::Folder,
        ErrorKind::NotADirectory => Why::ThroughFile,
        ErrorKind::InvalidFilename | ErrorKind::InvalidInput => Why::Name,
        ErrorKind::FilesystemLoop => Why::Circle,
        ErrorKind::StorageFull | ErrorKind::QuotaExceeded => Why::Full,
        ErrorKind::FileTooLarge => Why::TooLong,
        ErrorKind::ReadOnlyFilesystem => Why::Locked,
        _ => Why::Other,
    }
}

impl From<AllocError> for Why {
    ghost use Rattle.abt_files.specs.declared.why.Why.TheVariants.{Memory};

    ghost from_gives = { λ _ why. why ≡ Memory };

    fn from(_: AllocError) -> Why {
        Why::Memory
    }
}

impl From<Error> for Why {
    ghost use Rattle.std.specs.IoError.{error_kind};

    ghost from_gives = { λ error why. why ≡ spec.why_of (error_kind error) };

    fn from(error: Error) -> Why {
        why_of(error.kind())
    }
}

// Why a file isn't made in its folder.
pub(crate) fn why_unmade(kind: ErrorKind) -> Why
    ensures { result ≡ spec.why_unmade kind }
{
    match kind {
        ErrorKind::PermissionDenied => Why::Closed,
        other => why_of(other),
    }
}

/// The words for it, as they stand behind a file's name.
pub fn unwritten_words(why: Why) -> &'static str
    ensures { result.now ≡ spec.unwritten_words why }
{
    match why {
        Why::Memory => "there is no memory for it",
        Why::Missing => "its folder isn't there",
        Why::Forbidden => "it may not be written",
        Why::Closed => "its folder takes no new file",
        Why::Folder => "it is a folder",
        Why::ThroughFile => "its path goes through a file",
        Why::Name => "the system takes no such name",
        Why::Circle => "its links go round in a circle",
        Why::Crowded => "its folder has the files .abt.0.part to .abt.999.part: remove them",
        Why::Full => "there is no room on its disk",
        Why::TooLong => "it may not be so long",
        Why::Locked => "its disk may only be read",
        Why::Other => "the system doesn't write it",
    }
}

/// The line that tells why the file of a name isn't written or read, the name as it is shown.
///
/// # Errors
/// If memory is refused.
pub fn line_of(alloc: Global, name: &str, words: &str) -> Result<String, AllocError>
    ensures { IfOk result (λ line. string_bytes line ≡ shown_spec.line_of name.now words.now) }
{
    let name = shown(alloc, name)?;
    let name = name.as_str();
    format!(in alloc; "{name}: {words}\n")
}
