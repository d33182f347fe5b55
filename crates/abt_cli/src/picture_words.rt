//! The words of pictures.
ghost use Rattle.std.specs.Prelude.{◌≡◌, ◌⊎◌, ℕ, List, Option, None, Some, map, codes, IfOk, IfErr, IfSome, IfNone};
ghost use Rattle.abt_perform.specs.declared.plan.WordsFault.TheVariants.{Memory};
ghost use Rattle.abt_cli.specs.Pictures.{AreNamed, IsEventOf, IsPictureIfNamed, IsPicturePlan};
ghost use Rattle.abt_cli.specs.Pictures as pictures;
ghost use Rattle.abt_cli.specs.Refused.{HasNoPicture};
ghost use Rattle.abt_cli.specs.Words.{AreNumbers, text_in};

use crate::lost::PRINTED;
use crate::names::{DRAW, FROM, ONLY, OUTPUT, TO};
use crate::readers::{numbers_of, wrong_words};
use abt_perform::WordsFault;
use abt_plans::{PictureForm, PicturePlan};
use abt_text::u64_of;
use clap::ArgMatches;
use std::alloc::{AllocError, Global};

// The rule of a file for a picture.
const OUT_RULE: &str = "OUT is to end in .svg, .html or .txt; only abt draw takes - too";

// The rule of the connections that are shown.
const ONLY_RULE: &str = "--only names connections by their places, as 0,2";

/// What is to be shown by the words of a command that has `--only`, `--from` and `--to`, and the file for the picture under the name `out`.
///
/// # Errors
/// Words that are wrong, or want of memory.
pub(crate) fn picture_of(
    alloc: Global,
    found: &ArgMatches<'_>,
    out: &str,
) -> Result<PicturePlan, WordsFault>
    ensures ok { IfOk result (IsPicturePlan found.now out.now) }
    ensures err { IfErr result (λ fault. (fault ≡ Memory) ⊎ HasNoPicture found.now out.now) }
{
    let Some((out, form)) = file_of(found, out) else {
        return Err(wrong_words(alloc, OUT_RULE)?);
    };
    let only = only_of(alloc, found)?;
    let from = event_of(alloc, found, FROM)?;
    let to = event_of(alloc, found, TO)?;
    Ok(PicturePlan {
        out: String::from_str(alloc, out)?,
        form,
        only,
        from,
        to,
    })
}

/// The picture of an audit or of a play, if a file is named for it.
///
/// # Errors
/// Words that are wrong, or want of memory.
pub(crate) fn picture_if_named(
    alloc: Global,
    found: &ArgMatches<'_>,
) -> Result<Option<PicturePlan>, WordsFault>
    ensures ok { IfOk result (IsPictureIfNamed found.now) }
    ensures err { IfErr result (λ fault. (fault ≡ Memory) ⊎ HasNoPicture found.now (codes "draw")) }
{
    if found.get_str(DRAW).is_none() {
        return Ok(None);
    }
    Ok(Some(picture_of(alloc, found, DRAW)?))
}

// The file under a name, and the form of what is drawn there; none if its name ends in no way that is known.
fn file_of<'a>(found: &ArgMatches<'a>, name: &str) -> Option<(&'a str, PictureForm)>
    ensures some { IfSome result (λ file. (text_in found.now name.now ≡ Some file.0.now) ×
        (pictures.form_of name.now file.0.now ≡ Some file.1)) }
    ensures none { IfNone result ((file : List ℕ) → text_in found.now name.now ≡ Some file →
        pictures.form_of name.now file ≡ None) }
{
    let file = found.get_str(name)?;
    let form = form_of(name, file)?;
    Some((file, form))
}

// The form of what is drawn into a file under a name. The picture of `abt draw` may go to the standard output.
fn form_of(name: &str, file: &str) -> Option<PictureForm>
    ensures { result ≡ pictures.form_of name.now file.now }
{
    if name == OUTPUT && file == PRINTED {
        return Some(PictureForm::Svg);
    }
    form_in(file)
}

// The form of what is drawn into a file, by the end of its name.
fn form_in(file: &str) -> Option<PictureForm>
    ensures { result ≡ pictures.form_in file.now }
{
    if file.ends_with(".html") {
        Some(PictureForm::Page)
    } else if file.ends_with(".svg") {
        Some(PictureForm::Svg)
    } else if file.ends_with(".txt") {
        Some(PictureForm::Text)
    } else {
        None
    }
}

// The connections that are named.
fn only_of(alloc: Global, found: &ArgMatches<'_>) -> Result<Vec<u16>, WordsFault>
    ensures ok { IfOk result (λ only. AreNamed (text_in found.now (codes "only")) only.items) }
    ensures err { IfErr result (λ fault. (fault ≡ Memory) ⊎
        ((only : List ℕ) → AreNamed (text_in found.now (codes "only")) only → ⊥)) }
{
    match found.get_str(ONLY) {
        Some(list) => conns_in(alloc, list),
        None => Ok(Vec::new(alloc)),
    }
}

// The connections of a list.
fn conns_in(alloc: Global, list: &str) -> Result<Vec<u16>, WordsFault>
    ensures ok { IfOk result (λ only. AreNumbers (pictures.parts_of list.now) only.items) }
    ensures err { IfErr result (λ fault. (fault ≡ Memory) ⊎
        ((only : List ℕ) → AreNumbers (pictures.parts_of list.now) only → ⊥)) }
{
    let parts = parts_of(alloc, list)?;
    numbers_of(alloc, parts.as_slice(), ONLY_RULE)
}

// The parts of a list between its commas.
fn parts_of<'a>(alloc: Global, list: &'a str) -> Result<Vec<&'a str>, AllocError>
    ensures { IfOk result (λ parts. map (λ part. part.now) parts.items ≡ pictures.parts_of list.now) }
{
    list.split(',').collect(alloc)
}

// The event that is named, counted from 1, if one is.
fn event_of(alloc: Global, found: &ArgMatches<'_>, id: &str) -> Result<Option<u64>, WordsFault>
    ensures ok { IfOk result (IsEventOf (text_in found.now id.now)) }
    ensures err { IfErr result (λ fault. (fault ≡ Memory) ⊎
        ((number : Option ℕ) → IsEventOf (text_in found.now id.now) number → ⊥)) }
{
    let Some(word) = found.get_str(id) else {
        return Ok(None);
    };
    match u64_of(word) {
        Some(0) | None => Err(wrong_words(
            alloc,
            "--from and --to name events by numbers, the first by 1",
        )?),
        Some(number) => Ok(Some(number)),
    }
}
