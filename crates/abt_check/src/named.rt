//! Checks of files, one of several, by their names.
ghost use Rattle.std.specs.Prelude.{◌≡◌, ◌+◌, IfOk, IfSome, Some, false};
ghost use Rattle.abt_files.specs.Shown as spec;
ghost use Rattle.abt_text.specs.Streams.{ConsumesAtMost, text_max};
ghost use Rattle.abt_check.specs.CheckObjects.{check_objects, unread_object};
ghost use Rattle.abt_check.specs.Located.{check_lines, unread_line};
ghost use Rattle.abt_check.specs.Named.{IsCheckSaid, IsSaidOfFile, IsTestSaid, IsTextSaid, IsUnreadSaid, unread_name, unread_why};
ghost use Rattle.abt_check.specs.Tests as tests;

use crate::checking::check;
use crate::located::{self, push_located};
use crate::objects;
use crate::telling::has_some;
use crate::testing::{Diagnosis, diagnosis_of, mark_of, test_text};
use crate::unread::Unread;
use abt_files::shown;
use abt_text::{TextFault, octets_of};
use std::alloc::{AllocError, Global};
use std::io::Read;

/// How one file of several is told.
#[derive(Clone, Copy, Debug, PartialEq, Eq)]
pub enum FileForm {
    /// In lines as editors read them: the file's name, line, column, and what is there.
    Lines,
    /// As JSON, an object a line, with the file's name.
    Objects,
    /// As one of so many tests of the Test Anything Protocol: whether its events have the outcomes that it expects.
    Tests { count: u64 },
}

/// What is told of one file of several, and whether that has a fault.
#[derive(Debug, Drop)]
pub struct FileSaid {
    pub octets: Vec<u8>,
    pub is_faulty: bool,
}

/// The check of the file of a name, whose text a reader has left; or a fault that says why it isn't checked (docs/FORMATS.md, "Checks of
/// files"). It is the file of this number, from 1, among several.
///
/// # Errors
/// If memory is refused.
pub fn check_named<R: Read>(
    alloc: Global,
    form: FileForm,
    number: u64,
    name: &str,
    reader: &mut R,
) -> Result<FileSaid, AllocError>
    ensures ok { IfOk result (λ said. IfSome (R.remaining reader.old)
        (λ source. IsSaidOfFile form number name.now source said)) }
    ensures stops { ConsumesAtMost (R.remaining reader.old) (R.remaining reader.new) (text_max + 1) }
{
    let octets = match octets_of(alloc, reader) {
        Ok(octets) => octets,
        Err(TextFault::Read) => return text_unread(alloc, form, number, name, Unread::Read),
        Err(TextFault::TooLong) => return text_unread(alloc, form, number, name, Unread::TooLong),
        Err(TextFault::Memory) => return Err(AllocError),
    };
    match std::str::from_utf8(octets.as_slice()) {
        Ok(source) => text_said(alloc, form, number, name, source),
        Err(_) => text_unread(alloc, form, number, name, Unread::NotUtf8),
    }
}

// The check of a file's text, or its test.
fn text_said(
    alloc: Global,
    form: FileForm,
    number: u64,
    name: &str,
    source: &str,
) -> Result<FileSaid, AllocError>
    ensures { IfOk result (IsTextSaid form number name.now source.now) }
{
    match form {
        FileForm::Lines => lines_said(alloc, name, source),
        FileForm::Objects => objects_said(alloc, name, source),
        FileForm::Tests { count } => test_said(alloc, count, number, name, source),
    }
}

fn lines_said(alloc: Global, name: &str, source: &str) -> Result<FileSaid, AllocError>
    ensures { IfOk result (IsCheckSaid (check_lines (spec.shown name.now)) source.now) }
{
    let checked = check(alloc, source)?;
    let name = shown(alloc, name)?;
    let mut text = String::new(alloc);
    push_located(alloc, &mut text, name.as_str(), source, &checked)?;
    let is_faulty = has_some(checked.faults.as_slice());
    let octets = text.into_bytes();
    Ok(FileSaid { octets, is_faulty })
}

fn objects_said(alloc: Global, name: &str, source: &str) -> Result<FileSaid, AllocError>
    ensures { IfOk result (IsCheckSaid (check_objects (Some name.now)) source.now) }
{
    let checked = check(alloc, source)?;
    let mut octets = Vec::new(alloc);
    objects::push_objects(alloc, &mut octets, Some(name), source, &checked)?;
    let is_faulty = has_some(checked.faults.as_slice());
    Ok(FileSaid { octets, is_faulty })
}

fn test_said(
    alloc: Global,
    count: u64,
    number: u64,
    name: &str,
    source: &str,
) -> Result<FileSaid, AllocError>
    ensures { IfOk result (IsTestSaid count number name.now source.now) }
{
    let diagnosis = diagnosis_of(alloc, name, source)?;
    let text = test_text(alloc, count, number, name, &diagnosis)?;
    let is_faulty = !diagnosis.is_skipped && !diagnosis.text.is_empty();
    let octets = text.into_bytes();
    Ok(FileSaid { octets, is_faulty })
}

// It is told why a file's text isn't checked.
fn text_unread(
    alloc: Global,
    form: FileForm,
    number: u64,
    name: &str,
    unread: Unread,
) -> Result<FileSaid, AllocError>
    ensures { IfOk result
        (IsUnreadSaid form number name.now (unread_name unread) (unread_why unread)) }
{
    unread_said(alloc, form, number, name, unread.name(), unread.why())
}

/// It is told that a file isn't checked, by the name of a fault, and why.
///
/// # Errors
/// If memory is refused.
pub fn unread_said(
    alloc: Global,
    form: FileForm,
    number: u64,
    name: &str,
    fault: &str,
    why: &str,
) -> Result<FileSaid, AllocError>
    ensures { IfOk result (IsUnreadSaid form number name.now fault.now why.now) }
{
    let octets = match form {
        FileForm::Lines => unread_line(alloc, name, fault, why)?,
        FileForm::Objects => unread_object(alloc, name, fault, why)?,
        FileForm::Tests { count } => unread_test(alloc, count, number, name, fault, why)?,
    };
    Ok(FileSaid {
        octets,
        is_faulty: true,
    })
}

fn unread_line(alloc: Global, name: &str, fault: &str, why: &str) -> Result<Vec<u8>, AllocError>
    ensures { IfOk result
        (λ octets. octets.items ≡ unread_line (spec.shown name.now) fault.now why.now) }
{
    let name = shown(alloc, name)?;
    let text = located::unread_line(alloc, name.as_str(), fault, why)?;
    Ok(text.into_bytes())
}

fn unread_object(alloc: Global, name: &str, fault: &str, why: &str) -> Result<Vec<u8>, AllocError>
    ensures { IfOk result (λ octets. octets.items ≡ unread_object name.now fault.now why.now) }
{
    let mut octets = Vec::new(alloc);
    objects::push_unread(alloc, &mut octets, name, fault, why)?;
    Ok(octets)
}

fn unread_test(
    alloc: Global,
    count: u64,
    number: u64,
    name: &str,
    fault: &str,
    why: &str,
) -> Result<Vec<u8>, AllocError>
    ensures { IfOk result (λ octets. octets.items ≡ tests.test_text count number name.now false
        (unread_line (tests.mark_of name.now) fault.now why.now)) }
{
    let mark = mark_of(alloc, name)?;
    let diagnosis = Diagnosis {
        text: located::unread_line(alloc, mark.as_str(), fault, why)?,
        is_skipped: false,
    };
    let text = test_text(alloc, count, number, name, &diagnosis)?;
    Ok(text.into_bytes())
}
