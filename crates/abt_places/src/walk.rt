//! The walk along a TOML text that notes where its keys stand.
ghost use Rattle.std.specs.Prelude.{◌≡◌};
ghost use Rattle.abt_places.specs.Marks as spec;

use crate::layout::{Entry, Layout, Section};
use std::alloc::{AllocError, Global};
use toml_parser::text::{byte_at, first, skip_blank, skip_ws};
use toml_parser::{Key, ParseError, dotted_key, quoted, starts_string};

// Where the next keys belong.
#[derive(Clone, Copy)]
enum Current {
    Document,
    Section,
    Elsewhere,
}

/// Where the keys of a TOML document stand, and those of the tables in its array `sections`. If it is no TOML, any places are returned.
///
/// # Errors
/// If memory is refused.
pub fn layout_of(alloc: Global, text: &str, sections: &str) -> Result<Layout, AllocError> {
    let mut walk = Walk {
        alloc,
        text,
        name: sections,
        current: Current::Document,
        found: Layout {
            entries: Vec::new(alloc),
            sections: Vec::new(alloc),
        },
    };
    let mut rest = without_mark(text);
    for _statement in 0..=text.len() {
        let start = skip_blank(rest, true);
        if start.is_empty() {
            break;
        }
        rest = after_line(walk.statement(start)?);
    }
    Ok(walk.found)
}

#[derive(Drop)]
struct Walk<'a> {
    alloc: Global,
    text: &'a str,
    name: &'a str,
    current: Current,
    found: Layout,
}

impl<'a> Walk<'a> {
    // Notes what begins here, and gives what stands behind it.
    fn statement(&mut self, start: &'a str) -> Result<&'a str, AllocError> {
        if first(start) == b'[' {
            return self.header(start);
        }
        let Some((name, at_value)) = key_at(self.alloc, start)? else {
            return Ok("");
        };
        match self.current {
            Current::Document if name.as_str() == self.name && first(at_value) == b'[' => {
                self.tables(at_value)
            }
            Current::Document => {
                let (entry, rest) = entry_at(self.alloc, self.text, name, start, at_value)?;
                push(&mut self.found.entries, entry)?;
                Ok(rest)
            }
            Current::Section => {
                let (entry, rest) = entry_at(self.alloc, self.text, name, start, at_value)?;
                match self.found.sections.last_mut() {
                    Some(section) => push(&mut section.entries, entry)?,
                    None => {}
                }
                Ok(rest)
            }
            Current::Elsewhere => after_value(self.alloc, at_value),
        }
    }

    // The header of a table, or of one in an array of tables.
    fn header(&mut self, start: &'a str) -> Result<&'a str, AllocError> {
        let double = byte_at(start, 1) == b'[';
        let inside = behind(start, if double { 2 } else { 1 });
        let Some((key, rest)) = parsed(dotted_key(self.alloc, skip_ws(inside)))? else {
            return Ok("");
        };
        let at = offset(self.text, start);
        let whole = key.path.is_empty();
        let (name, next) = first_parts(key);
        if name.as_str() != self.name {
            self.current = Current::Elsewhere;
            let entry = bare_entry(self.alloc, name, at);
            push(&mut self.found.entries, entry)?;
        } else if whole && double {
            self.current = Current::Section;
            let entries = Vec::new(self.alloc);
            push(&mut self.found.sections, Section { at, entries })?;
        } else {
            self.current = Current::Elsewhere;
            self.inner_header(at, name, next)?;
        }
        Ok(rest)
    }

    // A header that goes on behind the array's name, or is no header of an array.
    fn inner_header(
        &mut self,
        at: usize,
        name: String,
        next: Option<String>,
    ) -> Result<(), AllocError> {
        match (self.found.sections.last_mut(), next) {
            (Some(section), Some(next)) => {
                push(&mut section.entries, bare_entry(self.alloc, next, at))
            }
            (_, _) => push(&mut self.found.entries, bare_entry(self.alloc, name, at)),
        }
    }

    // The tables of an array in brackets.
    fn tables(&mut self, start: &'a str) -> Result<&'a str, AllocError> {
        let mut rest = behind(start, 1);
        for _table in 0..=start.len() {
            let item = skip_blank(rest, true);
            match first(item) {
                b']' => return Ok(behind(item, 1)),
                b',' => rest = behind(item, 1),
                0 => return Ok(""),
                _ => rest = self.table(item)?,
            }
        }
        Ok("")
    }

    // One item of such an array.
    fn table(&mut self, start: &'a str) -> Result<&'a str, AllocError> {
        let at = offset(self.text, start);
        let mut entries = Vec::new(self.alloc);
        let rest = if first(start) == b'{' {
            members(self.alloc, self.text, start, &mut entries)?
        } else {
            after_value(self.alloc, start)?
        };
        push(&mut self.found.sections, Section { at, entries })?;
        Ok(rest)
    }
}

// The keys of an inline table.
fn members<'a>(
    alloc: Global,
    text: &str,
    start: &'a str,
    entries: &mut Vec<Entry>,
) -> Result<&'a str, AllocError> {
    let mut rest = behind(start, 1);
    for _member in 0..=start.len() {
        let member = skip_blank(rest, true);
        match first(member) {
            b'}' => return Ok(behind(member, 1)),
            b',' => rest = behind(member, 1),
            _ => {
                let Some((name, at_value)) = key_at(alloc, member)? else {
                    return Ok("");
                };
                let (entry, after) = entry_at(alloc, text, name, member, at_value)?;
                push(entries, entry)?;
                rest = after;
            }
        }
    }
    Ok("")
}

// The first part of a key that begins here, and its value.
fn key_at(alloc: Global, start: &str) -> Result<Option<(String, &str)>, AllocError> {
    let Some((key, rest)) = parsed(dotted_key(alloc, start))? else {
        return Ok(None);
    };
    if first(rest) != b'=' {
        return Ok(None);
    }
    let (name, _) = first_parts(key);
    Ok(Some((name, skip_blank(behind(rest, 1), true))))
}

// A key with the items of its value, and what stands behind it.
fn entry_at<'a>(
    alloc: Global,
    text: &str,
    name: String,
    start: &str,
    at_value: &'a str,
) -> Result<(Entry, &'a str), AllocError> {
    let at = offset(text, start);
    let mut items = Vec::new(alloc);
    let rest = if first(at_value) == b'[' {
        items_at(alloc, text, at_value, &mut items)?
    } else {
        after_value(alloc, at_value)?
    };
    Ok((Entry { name, at, items }, rest))
}

// Where each item of an array begins.
fn items_at<'a>(
    alloc: Global,
    text: &str,
    start: &'a str,
    items: &mut Vec<usize>,
) -> Result<&'a str, AllocError> {
    let mut rest = behind(start, 1);
    for _item in 0..=start.len() {
        let item = skip_blank(rest, true);
        match first(item) {
            b']' => return Ok(behind(item, 1)),
            b',' => rest = behind(item, 1),
            0 => return Ok(""),
            _ => {
                push(items, offset(text, item))?;
                rest = after_value(alloc, item)?;
            }
        }
    }
    Ok("")
}

// What stands behind a value, however deep it is.
fn after_value(alloc: Global, start: &str) -> Result<&str, AllocError> {
    let mut rest = start;
    let mut depth: usize = 0;
    for _piece in 0..=start.len() {
        match first(rest) {
            b'[' | b'{' => {
                depth = depth.saturating_add(1);
                rest = behind(rest, 1);
            }
            b']' | b'}' => {
                depth = depth.saturating_sub(1);
                rest = behind(rest, 1);
            }
            b',' | b'=' => rest = behind(rest, 1),
            0 => return Ok(""),
            _ => rest = after_scalar(alloc, rest)?,
        }
        if depth == 0 {
            return Ok(rest);
        }
        rest = skip_blank(rest, true);
    }
    Ok("")
}

// What stands behind a string, or a word.
fn after_scalar(alloc: Global, start: &str) -> Result<&str, AllocError> {
    if !starts_string(start) {
        return Ok(after_word(start));
    }
    match parsed(quoted(alloc, start))? {
        Some((_, rest)) => Ok(rest),
        None => Ok(""),
    }
}

// What stands behind a word: at a mark of TOML, or at the end of the line.
fn after_word(start: &str) -> &str {
    for (at, octet) in start.as_bytes().iter().enumerate() {
        if is_mark(*octet) {
            return behind(start, at);
        }
    }
    ""
}

// Whether a word ends at an octet.
fn is_mark(octet: u8) -> bool
    ensures { result ≡ spec.is_mark octet }
{
    matches!(
        octet,
        b',' | b'=' | b'[' | b']' | b'{' | b'}' | b'"' | b'\'' | b'#' | b'\n'
    )
}

// What stands behind the end of the line.
fn after_line(start: &str) -> &str {
    for (at, octet) in start.as_bytes().iter().enumerate() {
        if *octet == b'\n' {
            return behind(start, at);
        }
    }
    ""
}

// What stands behind so many octets, nothing if a character would be cut.
fn behind(text: &str, count: usize) -> &str {
    text.get(count..).unwrap_or("")
}

// A text without the byte order mark at its beginning.
fn without_mark(text: &str) -> &str {
    text.strip_prefix("\u{feff}").unwrap_or(text)
}

// How many octets of a text stand before its end `rest`.
fn offset(text: &str, rest: &str) -> usize {
    text.len().saturating_sub(rest.len())
}

// The first part of a key, and the second if it has one.
fn first_parts(key: Key) -> (String, Option<String>) {
    let Key { path, last } = key;
    let mut parts = path.into_iter();
    match parts.next() {
        None => (last, None),
        Some(name) => match parts.next() {
            Some(next) => (name, Some(next)),
            None => (name, Some(last)),
        },
    }
}

// What was parsed, nothing if it doesn't parse.
fn parsed<T: Drop>(parse: Result<T, ParseError>) -> Result<Option<T>, AllocError> {
    match parse {
        Ok(found) => Ok(Some(found)),
        Err(ParseError::OutOfMemory) => Err(AllocError),
        Err(_) => Ok(None),
    }
}

fn bare_entry(alloc: Global, name: String, at: usize) -> Entry {
    let items = Vec::new(alloc);
    Entry { name, at, items }
}

fn push<T: Drop>(found: &mut Vec<T>, item: T) -> Result<(), AllocError> {
    found.push(item).map_err(|_| AllocError)
}
