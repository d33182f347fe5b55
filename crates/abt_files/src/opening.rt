//! Outputs of names.
ghost use Rattle.std.specs.Prelude.{◌≡◌, true, IfOk};
ghost use Rattle.std.specs.Fs.{new_options, with_append, with_write};
ghost use Rattle.abt_files.specs.Calls.{IsBegun};

use crate::beside::Beside;
use crate::links::{Target, target_of};
use crate::output::Output;
use crate::why::{Why, why_of};
use std::alloc::AllocGlobal;
use std::fs::{OpenFile, OpenOptions};
use std::io::ErrorKind;
use std::rt::Files;

/// An output of a name, to which nothing went out yet (docs/FORMATS.md, "Files").
///
/// What has the name isn't changed before the output is kept: it is opened to see whether it may be written. A device or a pipe is written
/// straight, and so is a file that a process holds open, as `/dev/stdout`, behind what it has.
///
/// # Errors
/// Why it can't be written.
pub fn create_output<T: Files + AllocGlobal>(rt: &T, name: &str) -> Result<Output<T::File>, Why>
    ensures { IfOk result (λ output. IsBegun output.log.calls) }
{
    let file = match how_to_look().open(rt, name) {
        Ok(file) => file,
        Err(error) if error.kind() == ErrorKind::NotFound => return create_new(rt, name),
        Err(error) => return Err(why_of(error.kind())),
    };
    let about = match file.metadata() {
        Ok(about) => about,
        Err(error) => return Err(why_of(error.kind())),
    };
    if !about.is_file() {
        return Ok(Output::straight(file));
    }
    match target_of(rt, name)? {
        Target::Named(name) => {
            let (beside, file) = Beside::make(rt, name, Some(&about))?;
            Ok(Output::beside(beside, file))
        }
        Target::Held => match how_to_append().open(rt, name) {
            Ok(file) => Ok(Output::straight(file)),
            Err(error) => Err(why_of(error.kind())),
        },
    }
}

// An output of a name that nothing has.
fn create_new<T: Files + AllocGlobal>(rt: &T, name: &str) -> Result<Output<T::File>, Why>
    ensures { IfOk result (λ output. IsBegun output.log.calls) }
{
    match target_of(rt, name)? {
        Target::Named(name) => {
            let (beside, file) = Beside::make(rt, name, None)?;
            Ok(Output::beside(beside, file))
        }
        Target::Held => Err(Why::Missing),
    }
}

// How a file is opened to see whether it may be written: it is neither made nor emptied.
fn how_to_look() -> OpenOptions
    ensures { result ≡ with_write new_options true }
{
    let mut how = OpenOptions::new();
    how.write(true);
    how
}

// How a file is opened to be written behind what it has.
fn how_to_append() -> OpenOptions
    ensures { result ≡ with_append new_options true }
{
    let mut how = OpenOptions::new();
    how.append(true);
    how
}
