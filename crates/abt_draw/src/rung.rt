//! One line of a ladder diagram: the lifelines, a mark on one of them, a line that crosses them, and words.
ghost use Rattle.std.specs.Prelude.{◌≡◌, ◌++◌, ◌≤◌, ◌<◌, IfOk, IfSome, OnOk, length, string_bytes};
ghost use Rattle.abt_draw.specs.Rungs as spec;

use crate::Actor;
use crate::mark::Mark;
use crate::sheet::Sheet;
use abt_chart::Kind;
use std::alloc::{AllocError, Global};

// How many signs a column is wide, and a line.
const COLUMN: usize = 8;

const LINE: usize = 80;

// For how many signs of words there is always room.
const WORDS: usize = 32;

// A line that crosses the lifelines. Places count from 0.
#[derive(Clone, Copy, Debug)]
pub(crate) struct Stroke {
    /// The place of the lifeline from which it goes.
    pub(crate) from: usize,
    /// The place of its head.
    pub(crate) to: usize,
    /// What it is of.
    pub(crate) kind: Kind,
    /// Whether its message came again, or late.
    pub(crate) is_broken: bool,
    /// Whether its message never came.
    pub(crate) is_lost: bool,
}

// What stands on a lifeline.
#[derive(Clone, Copy)]
pub(crate) enum Sign {
    /// The mark of an event.
    Of(Mark),
    /// That of an entry at which a journal is stuck.
    Stuck,
}

// A place, and what stands there.
#[derive(Clone, Copy)]
pub(crate) struct Marked {
    pub(crate) place: usize,
    pub(crate) sign: Sign,
}

/// The place of somebody's lifeline, if it is shown.
pub(crate) fn bar_at(columns: &[Actor], who: Option<Actor>) -> Option<usize>
    requires { length columns.now ≤ 1024 }
    ensures bar { result ≡ spec.bar_at columns.now who }
    ensures few { IfSome result (λ bar. bar ≤ 8191) }
{
    let column = column_in(columns, who?)?;
    Some(bar_of(column))
}

// The first column that is somebody's.
fn column_in(columns: &[Actor], who: Actor) -> Option<usize>
    requires { length columns.now ≤ 1024 }
    ensures column { result ≡ spec.column_from 0 who columns.now }
    ensures within { IfSome result (λ column. column < 1024) }
{
    for column in 0..columns.len() {
        if columns[column] == who {
            return Some(column);
        }
    }
    None
}

fn bar_of(column: usize) -> usize
    requires { column < 1024 }
    ensures bar { result ≡ spec.bar_of column }
    ensures few { result ≤ 8191 }
{
    COLUMN * column + COLUMN - 1
}

/// Adds a line: the lifelines with a mark and a line that crosses them, if there are such, and words as far as there is room.
pub(crate) fn push_rung(
    sheet: &Sheet<'_>,
    out: &mut String,
    stroke: Option<Stroke>,
    marked: Option<Marked>,
    words: &str,
) -> Result<(), AllocError>
    ensures { OnOk result (string_bytes out.new ≡ string_bytes out.old ++
        spec.rung_text sheet.now stroke marked words.now) }
{
    push_signs(out, stroke, marked, COLUMN * sheet.columns.len())?;
    let words = clipped_to(sheet.alloc, room_of(sheet), words)?;
    out.push_str("  ")?;
    out.push_str(words.as_str())?;
    out.push_str("\n")
}

// How many signs of words have room.
fn room_of(sheet: &Sheet<'_>) -> usize
    ensures { result ≡ spec.room_of sheet.now }
{
    LINE.saturating_sub(COLUMN * sheet.columns.len() + 2)
        .max(WORDS)
}

// The beginning of a text that has room, with dots behind it if the text goes on.
fn clipped_to(alloc: Global, room: usize, text: &str) -> Result<String, AllocError>
    requires { 2 ≤ room }
    ensures { IfOk result (λ out. string_bytes out ≡ spec.clipped room text.now) }
{
    if room >= text.len() {
        return String::from_str(alloc, text);
    }
    let mut out = String::from_str(alloc, beginning_of(text, room - 2))?;
    out.push_str("..")?;
    Ok(out)
}

// The first octets of a text, as far as whole characters have room in them.
fn beginning_of(text: &str, octets: usize) -> &str
    requires { octets < length text.now }
    ensures { result.now ≡ spec.beginning octets text.now }
{
    let end = text.floor_char_boundary(octets);
    &text[..end]
}

// Adds what stands at so many places.
fn push_signs(
    out: &mut String,
    stroke: Option<Stroke>,
    marked: Option<Marked>,
    count: usize,
) -> Result<(), AllocError>
    ensures { OnOk result (string_bytes out.new ≡ string_bytes out.old ++ spec.signs_from stroke marked 0 count) }
{
    for place in 0..count {
        out.push_str(sign_at(stroke, marked, place))?;
    }
    Ok(())
}

// What stands at a place: the head of the line that crosses the lifelines, that line, or what stands there without it.
fn sign_at(stroke: Option<Stroke>, marked: Option<Marked>, place: usize) -> &'static str
    ensures { result.now ≡ spec.sign_at stroke marked place }
{
    match stroke {
        Some(stroke) if place == stroke.to => head_sign(stroke),
        Some(stroke) if is_between(stroke.from, stroke.to, place) => line_sign(stroke, place),
        _ => bare_sign(marked, place),
    }
}

// What stands at a place of the lifelines alone, of which one may have a mark.
fn bare_sign(marked: Option<Marked>, place: usize) -> &'static str
    ensures { result.now ≡ spec.bare_sign marked place }
{
    match marked {
        Some(marked) if place == marked.place => sign_text(marked.sign),
        _ => bar_sign(place),
    }
}

fn bar_sign(place: usize) -> &'static str
    ensures { result.now ≡ spec.bar_sign place }
{
    if place % COLUMN == COLUMN - 1 {
        "|"
    } else {
        " "
    }
}

fn is_between(from: usize, to: usize, place: usize) -> bool
    ensures { result ≡ spec.is_between from to place }
{
    (from < place && place < to) || (to < place && place < from)
}

fn head_sign(stroke: Stroke) -> &'static str
    ensures { result.now ≡ spec.head_sign stroke }
{
    if stroke.is_lost {
        "x"
    } else if stroke.from < stroke.to {
        ">"
    } else {
        "<"
    }
}

// The line of what came again or late is broken.
fn line_sign(stroke: Stroke, place: usize) -> &'static str
    ensures { result.now ≡ spec.line_sign stroke place }
{
    if stroke.is_broken && place % 2 == 0 {
        " "
    } else {
        kind_sign(stroke.kind)
    }
}

fn kind_sign(kind: Kind) -> &'static str
    ensures { result.now ≡ spec.kind_sign kind }
{
    match kind {
        Kind::Request => "-",
        Kind::Yes => "=",
        Kind::No => "~",
    }
}

fn sign_text(sign: Sign) -> &'static str
    ensures { result.now ≡ spec.sign_text sign }
{
    match sign {
        Sign::Of(mark) => mark_sign(mark),
        Sign::Stuck => "@",
    }
}

fn mark_sign(mark: Mark) -> &'static str
    ensures { result.now ≡ spec.mark_sign mark }
{
    match mark {
        Mark::Start => "o",
        Mark::Crash => "X",
        Mark::Ask => "*",
        Mark::Cell => "+",
        Mark::Set => "#",
        Mark::Refused => "!",
        Mark::Idle => "?",
    }
}
