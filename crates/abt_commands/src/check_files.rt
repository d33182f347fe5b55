//! Several files, checked one behind the other.
ghost use Rattle.std.specs.Prelude.{◌≡◌, IfOk, IfErr, OnOk};
ghost use Rattle.std.specs.Io.KnownBytes.{Appends};
ghost use Rattle.abt_text.specs.Streams.{AppendsPrefix};
ghost use Rattle.abt_perform.specs.declared.fault.Fault.TheVariants as fault;
ghost use Rattle.abt_commands.specs.Check.{ChecksHere, ChecksNamed, IsSaidOfInput};
ghost use Rattle.abt_commands.specs.CheckedFiles.{AreTold, AreToldPart, ChecksEach, IsSaidOf, IsTold, IsUnopenedSaid, IsUntold};
ghost use Rattle.abt_commands.specs.Ends.{TakesText};

use crate::opening::{Why, open_named, unopened_name, why_words};
use abt_check::{FileForm, FileSaid, check_named, unread_said};
use abt_perform::{Fault, tell_fault};
use abt_progress::{Progress, Watched};
use abt_text::put;
use std::alloc::{AllocError, AllocGlobal, Global};
use std::io::{Read, Write};
use std::rt::Files;

// The name of the input that is there.
const INPUT: &str = "-";

// Checks the scenarios of some files, or else that of the input that is there, each under its name, and gives the exit status.
pub(crate) fn check_files<T: Files + AllocGlobal, R: Read, W: Write, E: Write, P: Write + Drop>(
    rt: &T,
    progress: &Progress<P>,
    form: FileForm,
    names: &[String],
    input: &mut R,
    out: &mut W,
    errors: &mut E,
) -> u8
    ensures { ChecksNamed form names.now result (R.remaining input.old) (R.remaining input.new)
        (W.contents out.old) (W.contents out.new) (E.contents errors.old) (E.contents errors.new) }
{
    if names.is_empty() {
        return check_here(rt.alloc(), form, input, out, errors);
    }
    check_each(rt, progress, form, names, out, errors)
}

// Checks the scenario of the input that is there.
fn check_here<R: Read, W: Write, E: Write>(
    alloc: Global,
    form: FileForm,
    input: &mut R,
    out: &mut W,
    errors: &mut E,
) -> u8
    ensures { ChecksHere form result (R.remaining input.old) (R.remaining input.new)
        (W.contents out.old) (W.contents out.new) (E.contents errors.old) (E.contents errors.new) }
{
    match here_told(alloc, form, input, out) {
        Ok(false) => 0,
        Ok(true) => 1,
        Err(fault) => {
            tell_fault(fault, errors);
            1
        }
    }
}

// Tells the check of the input that is there, and whether it has a fault.
fn here_told<R: Read, W: Write>(
    alloc: Global,
    form: FileForm,
    input: &mut R,
    out: &mut W,
) -> Result<bool, Fault>
    ensures takes { TakesText (R.remaining input.old) (R.remaining input.new) }
    ensures ok { IfOk result (λ faulty. IsTold (IsSaidOfInput form (R.remaining input.old)) faulty
        (W.contents out.old) (W.contents out.new)) }
    ensures err { IfErr result (λ fault. IsUntold (IsSaidOfInput form (R.remaining input.old)) fault
        (W.contents out.old) (W.contents out.new)) }
{
    let said = check_named(alloc, form, 1, INPUT, input)?;
    put_said(&said, out)?;
    Ok(said.is_faulty)
}

// Checks each of some files.
fn check_each<T: Files + AllocGlobal, W: Write, E: Write, P: Write + Drop>(
    rt: &T,
    progress: &Progress<P>,
    form: FileForm,
    names: &[String],
    out: &mut W,
    errors: &mut E,
) -> u8
    ensures { ChecksEach form names.now result
        (W.contents out.old) (W.contents out.new) (E.contents errors.old) (E.contents errors.new) }
{
    match each_told(rt, progress, form, names, out) {
        Ok(false) => 0,
        Ok(true) => 1,
        Err(fault) => {
            tell_fault(fault, errors);
            1
        }
    }
}

// Tells the check of each of some files, and whether one has a fault.
fn each_told<T: Files + AllocGlobal, W: Write, P: Write + Drop>(
    rt: &T,
    progress: &Progress<P>,
    form: FileForm,
    names: &[String],
    out: &mut W,
) -> Result<bool, Fault>
    ensures ok { IfOk result
        (λ faulty. AreTold form 1 names.now faulty (W.contents out.old) (W.contents out.new)) }
    ensures err { IfErr result
        (λ fault. AreToldPart form names.now fault (W.contents out.old) (W.contents out.new)) }
{
    let mut is_faulty = false;
    for (index, name) in names.iter().enumerate() {
        let number = index as u64 + 1;
        let more = file_told(rt, progress, form, number, name.as_str(), out)?;
        is_faulty = is_faulty || more;
    }
    Ok(is_faulty)
}

// Tells the check of a file, and whether it has a fault.
fn file_told<T: Files + AllocGlobal, W: Write, P: Write + Drop>(
    rt: &T,
    progress: &Progress<P>,
    form: FileForm,
    number: u64,
    name: &str,
    out: &mut W,
) -> Result<bool, Fault>
    ensures ok { IfOk result
        (λ faulty. IsTold (IsSaidOf form number name.now) faulty (W.contents out.old) (W.contents out.new)) }
    ensures err { IfErr result
        (λ fault. IsUntold (IsSaidOf form number name.now) fault (W.contents out.old) (W.contents out.new)) }
{
    let said = file_said(rt, progress, form, number, name)?;
    put_said(&said, out)?;
    Ok(said.is_faulty)
}

// What is said of a file: its check, or why it can't be checked.
fn file_said<T: Files + AllocGlobal, P: Write + Drop>(
    rt: &T,
    progress: &Progress<P>,
    form: FileForm,
    number: u64,
    name: &str,
) -> Result<FileSaid, AllocError>
    ensures { IfOk result (IsSaidOf form number name.now) }
{
    match open_named(rt, name) {
        Ok(file) => {
            let mut file = Watched::new(file, progress);
            check_named(rt.alloc(), form, number, name, &mut file)
        }
        Err(unopened) => unopened_said(rt.alloc(), form, number, name, unopened.why),
    }
}

// That a file can't be opened, and why; want of memory is told alone.
fn unopened_said(
    alloc: Global,
    form: FileForm,
    number: u64,
    name: &str,
    why: Why,
) -> Result<FileSaid, AllocError>
    ensures { IfOk result (IsUnopenedSaid form number name.now) }
{
    match why {
        Why::Memory => Err(AllocError),
        why => unread_said(
            alloc,
            form,
            number,
            name,
            unopened_name(why),
            why_words(why),
        ),
    }
}

// Writes what is said of a file.
fn put_said<W: Write>(said: &FileSaid, out: &mut W) -> Result<(), Fault>
    ensures ok { OnOk result (Appends (W.contents out.old) (W.contents out.new) said.now.octets.items) }
    ensures err { IfErr result (λ found. (found ≡ fault.Write)
        × AppendsPrefix (W.contents out.old) (W.contents out.new) said.now.octets.items) }
{
    put(out, said.octets.as_slice()).map_err(|_| Fault::Write)
}
