//! `abt check`.
ghost use Rattle.std.specs.Prelude.{◌≡◌, option_map};
ghost use Rattle.abt_commands.specs.Check as spec;
ghost use Rattle.abt_commands.specs.Check.{Checks, ChecksAlone};

use crate::check_files::check_files;
use crate::opening::open_named;
use abt_check::{FileForm, perform_check};
use abt_cli::CheckCommand;
use abt_progress::{Progress, Watched};
use std::alloc::AllocGlobal;
use std::io::{Read, Write};
use std::rt::Files;

// Checks the scenarios of some files, or else that of the input that is there, and gives the exit status. The check of one text alone
// names no file, unless that is asked for.
pub(crate) fn check<T: Files + AllocGlobal, R: Read, W: Write, E: Write, P: Write + Drop>(
    rt: &T,
    progress: &Progress<P>,
    command: &CheckCommand,
    input: &mut R,
    out: &mut W,
    errors: &mut E,
) -> u8
    ensures { Checks command.now result (R.remaining input.old) (R.remaining input.new)
        (W.contents out.old) (W.contents out.new) (E.contents errors.old) (E.contents errors.new) }
{
    let names = command.files.as_slice();
    if names_files(command) {
        check_files(rt, progress, form_of(command), names, input, out, errors)
    } else {
        let file = first_of(names);
        check_alone(rt, progress, file, command.json, input, out, errors)
    }
}

// Whether each line names its file: if there are several, it is asked for, or they are tested.
fn names_files(command: &CheckCommand) -> bool
    ensures { result ≡ spec.names_files command.now }
{
    command.expect || command.located || command.files.len() > 1
}

// How files are told that are named. Without a file there is one text, that of the input that is there.
fn form_of(command: &CheckCommand) -> FileForm
    ensures { result ≡ spec.form_of command.now }
{
    if command.expect {
        let count = command.files.len().max(1) as u64;
        FileForm::Tests { count }
    } else if command.json {
        FileForm::Objects
    } else {
        FileForm::Lines
    }
}

// The first file, if there is one.
fn first_of(names: &[String]) -> Option<&str>
    ensures { option_map (λ name. name.now) result ≡ spec.first_of names.entry.now }
{
    let (name, _) = names.split_first()?;
    Some(name.as_str())
}

// Checks the scenario of a file, or else of the input that is there, and gives the exit status.
fn check_alone<T: Files + AllocGlobal, R: Read, W: Write, E: Write, P: Write + Drop>(
    rt: &T,
    progress: &Progress<P>,
    file: Option<&str>,
    json: bool,
    input: &mut R,
    out: &mut W,
    errors: &mut E,
) -> u8
    ensures { ChecksAlone (option_map (λ name. name.now) file.entry) json result
        (R.remaining input.old) (R.remaining input.new)
        (W.contents out.old) (W.contents out.new) (E.contents errors.old) (E.contents errors.new) }
{
    let Some(name) = file else {
        return perform_check(rt.alloc(), json, input, out, errors);
    };
    match open_named(rt, name) {
        Ok(file) => {
            let mut file = Watched::new(file, progress);
            perform_check(rt.alloc(), json, &mut file, out, errors)
        }
        Err(unopened) => unopened.tell(errors),
    }
}
