//! Places in texts, by line and column.
ghost use Rattle.std.specs.Prelude.{◌≡◌, IsTrue, ◌↔◌, true, take};
ghost use Rattle.abt_places.specs.Places.{place_at, begins_character};

/// A place in a text. Lines and columns are counted from 1, and a column counts characters.
#[derive(Clone, Copy, Debug, PartialEq, Eq)]
pub struct Place {
    pub line: u64,
    pub column: u64,
}

/// The place behind so many octets of a text, or at its end if it has fewer.
pub fn place_at(text: &str, at: usize) -> Place
    ensures { result ≡ place_at at text.now }
{
    let mut line = 1;
    let mut column = 1;
    for octet in before(text.as_bytes(), at) {
        if *octet == b'\n' {
            line += 1;
            column = 1;
        } else if begins_character(*octet) {
            column += 1;
        }
    }
    Place { line, column }
}

// The octets before a place.
pub(crate) fn before(octets: &[u8], at: usize) -> &[u8]
    ensures { result.now ≡ take at octets.now }
{
    if at < octets.len() {
        &octets[..at]
    } else {
        octets
    }
}

// Whether an octet of UTF-8 is the first of its character.
fn begins_character(octet: u8) -> bool
    ensures { result ≡ begins_character octet }
{
    octet < 128 || octet >= 192
}
