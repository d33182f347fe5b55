//! Files that are written, apart from all others of a command.
ghost use Rattle.std.specs.Prelude.{◌≡◌, ◌↔◌, IfOk, IsTrue, Any};
ghost use Rattle.abt_files.specs.Names.{AreNamesApart};
ghost use Rattle.abt_files.specs.Places.{AreOne, ArePlacesApart};

use crate::place::{Place, are_one, place_of};
use std::alloc::{AllocError, AllocGlobal};
use std::rt::Files;

/// Whether no file that is written is used otherwise, and none is written twice. Files are told apart by their devices and numbers there,
/// and those that aren't there yet by their folders and their names. Equal names are of one file, whatever they are of.
///
/// # Errors
/// If memory is refused.
pub fn are_apart<T: Files + AllocGlobal>(
    rt: &T,
    used: &[&str],
    written: &[&str],
) -> Result<bool, AllocError>
    ensures { IfOk result (λ apart. IsTrue apart →
        AreNamesApart (λ name. name.now) used.now written.now) }
{
    if !are_names_apart(used, written) {
        return Ok(false);
    }
    let used = places_of(rt, used)?;
    let written = places_of(rt, written)?;
    Ok(are_places_apart(used.as_slice(), written.as_slice()))
}

fn places_of<T: Files + AllocGlobal>(rt: &T, names: &[&str]) -> Result<Vec<Place>, AllocError> {
    let mut places = Vec::with_capacity(rt.alloc(), names.len())?;
    for name in names {
        places.push(place_of(rt, name)?)?;
    }
    Ok(places)
}

// Whether they are apart as far as the words of their names say.
fn are_names_apart(used: &[&str], written: &[&str]) -> bool
    ensures { IsTrue result ↔ AreNamesApart (λ name. name.now) used.now written.now }
{
    match written.split_first() {
        Some((name, more)) => {
            !is_name_among(used, name) && !is_name_among(more, name) && are_names_apart(used, more)
        }
        None => true,
    }
}

fn is_name_among(names: &[&str], name: &str) -> bool
    ensures { IsTrue result ↔ Any (λ other. other.now ≡ name.now) names.now }
{
    names.iter().any(|other| *other == name)
}

// Whether they are apart as far as the system says which files they are.
fn are_places_apart(used: &[Place], written: &[Place]) -> bool
    ensures { IsTrue result ↔ ArePlacesApart used.now written.now }
{
    match written.split_first() {
        Some((place, more)) => {
            !is_place_among(used, place)
                && !is_place_among(more, place)
                && are_places_apart(used, more)
        }
        None => true,
    }
}

fn is_place_among(places: &[Place], place: &Place) -> bool
    ensures { IsTrue result ↔ Any (AreOne place.now) places.now }
{
    places.iter().any(|other| are_one(place, other))
}
