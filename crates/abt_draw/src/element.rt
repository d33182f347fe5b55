//! Elements, each whole.
ghost use Rattle.std.specs.Prelude.{◌≡◌, ◌++◌, OnOk, string_bytes};
ghost use Rattle.abt_draw.specs.Elements as spec;

use crate::escape::escaped;
use crate::point::{Point, Size, Tenths};
use std::alloc::{AllocError, Global};

/// Adds a line from one point to another.
pub fn push_line(
    alloc: Global,
    out: &mut String,
    class: &str,
    from: Point,
    to: Point,
) -> Result<(), AllocError>
    ensures { OnOk result (string_bytes out.new ≡ string_bytes out.old ++ spec.line_text class.now from to) }
{
    let class = escaped(alloc, class)?;
    let (x1, y1) = (Tenths(from.x), Tenths(from.y));
    let (x2, y2) = (Tenths(to.x), Tenths(to.y));
    write!(
        out,
        "<line class='{class}' x1='{x1}' y1='{y1}' x2='{x2}' y2='{y2}'></line>\n"
    )
}

/// Adds a rectangle, by its corner above on the left.
pub fn push_rect(
    alloc: Global,
    out: &mut String,
    class: &str,
    at: Point,
    size: Size,
) -> Result<(), AllocError>
    ensures { OnOk result (string_bytes out.new ≡ string_bytes out.old ++ spec.rect_text class.now at size) }
{
    let class = escaped(alloc, class)?;
    let (x, y) = (Tenths(at.x), Tenths(at.y));
    let (width, height) = (Tenths(size.width), Tenths(size.height));
    write!(
        out,
        "<rect class='{class}' x='{x}' y='{y}' width='{width}' height='{height}'></rect>\n"
    )
}

/// Adds a line from one point to another, with what is told of it.
pub fn push_told_line(
    alloc: Global,
    out: &mut String,
    class: &str,
    from: Point,
    to: Point,
    told: &str,
) -> Result<(), AllocError>
    ensures { OnOk result (string_bytes out.new ≡ string_bytes out.old ++
        spec.told_line_text class.now from to told.now) }
{
    push_line_start(alloc, out, class, from, to)?;
    push_title(alloc, out, told)?;
    out.push_str("</line>\n")
}

// The beginning of a line.
#[tactic(auto, unfolding(crate::specs::Elements::line_start))]
fn push_line_start(
    alloc: Global,
    out: &mut String,
    class: &str,
    from: Point,
    to: Point,
) -> Result<(), AllocError>
    ensures { OnOk result (string_bytes out.new ≡ string_bytes out.old ++ spec.line_start class.now from to) }
{
    let class = escaped(alloc, class)?;
    let (x1, y1) = (Tenths(from.x), Tenths(from.y));
    let (x2, y2) = (Tenths(to.x), Tenths(to.y));
    write!(
        out,
        "<line class='{class}' x1='{x1}' y1='{y1}' x2='{x2}' y2='{y2}'>"
    )
}

// What is told of an element.
#[tactic(auto, unfolding(crate::specs::Elements::title_text))]
fn push_title(alloc: Global, out: &mut String, told: &str) -> Result<(), AllocError>
    ensures { OnOk result (string_bytes out.new ≡ string_bytes out.old ++ spec.title_text told.now) }
{
    let words = escaped(alloc, told)?;
    write!(out, "<title>{words}</title>")
}

/// Adds a rectangle, by its corner above on the left, with what is told of it.
pub fn push_told_rect(
    alloc: Global,
    out: &mut String,
    class: &str,
    at: Point,
    size: Size,
    told: &str,
) -> Result<(), AllocError>
    ensures { OnOk result (string_bytes out.new ≡ string_bytes out.old ++
        spec.told_rect_text class.now at size told.now) }
{
    push_rect_start(alloc, out, class, at, size)?;
    push_title(alloc, out, told)?;
    out.push_str("</rect>\n")
}

// The beginning of a rectangle.
#[tactic(auto, unfolding(crate::specs::Elements::rect_start))]
fn push_rect_start(
    alloc: Global,
    out: &mut String,
    class: &str,
    at: Point,
    size: Size,
) -> Result<(), AllocError>
    ensures { OnOk result (string_bytes out.new ≡ string_bytes out.old ++ spec.rect_start class.now at size) }
{
    let class = escaped(alloc, class)?;
    let (x, y) = (Tenths(at.x), Tenths(at.y));
    let (width, height) = (Tenths(size.width), Tenths(size.height));
    write!(
        out,
        "<rect class='{class}' x='{x}' y='{y}' width='{width}' height='{height}'>"
    )
}

/// Adds a circle.
pub fn push_circle(
    alloc: Global,
    out: &mut String,
    class: &str,
    at: Point,
    radius: u64,
) -> Result<(), AllocError>
    ensures { OnOk result (string_bytes out.new ≡ string_bytes out.old ++
        spec.circle_text class.now at radius) }
{
    let class = escaped(alloc, class)?;
    let (x, y) = (Tenths(at.x), Tenths(at.y));
    let r = Tenths(radius);
    write!(
        out,
        "<circle class='{class}' cx='{x}' cy='{y}' r='{r}'></circle>\n"
    )
}

/// Adds words.
pub fn push_label(
    alloc: Global,
    out: &mut String,
    class: &str,
    at: Point,
    words: &str,
) -> Result<(), AllocError>
    ensures { OnOk result (string_bytes out.new ≡ string_bytes out.old ++
        spec.label_text class.now at words.now) }
{
    let class = escaped(alloc, class)?;
    let words = escaped(alloc, words)?;
    let (x, y) = (Tenths(at.x), Tenths(at.y));
    write!(
        out,
        "<text class='{class}' x='{x}' y='{y}'>{words}</text>\n"
    )
}

/// Adds a group of elements with their title. Links go to it by its name, and keys reach it.
pub fn push_group(
    alloc: Global,
    out: &mut String,
    class: &str,
    name: &str,
    title: &str,
    content: &str,
) -> Result<(), AllocError>
    ensures { OnOk result (string_bytes out.new ≡ string_bytes out.old ++
        spec.group_text class.now name.now title.now content.now) }
{
    let class = escaped(alloc, class)?;
    let name = escaped(alloc, name)?;
    let title = escaped(alloc, title)?;
    write!(
        out,
        "<g class='{class}' id='{name}' tabindex='0'><title>{title}</title>\n{content}</g>\n"
    )
}

/// The parts of a whole picture.
#[derive(Clone, Copy)]
pub struct Picture<'a> {
    /// What it is of.
    pub title: &'a str,
    /// What it shows, in words.
    pub description: &'a str,
    /// How its shapes look, as a style sheet.
    pub style: &'a str,
    /// Elements that its style names.
    pub definitions: &'a str,
    /// Its elements.
    pub content: &'a str,
}

/// Adds a whole picture of a size.
pub fn push_document(
    alloc: Global,
    out: &mut String,
    size: Size,
    picture: &Picture<'_>,
) -> Result<(), AllocError>
    ensures { OnOk result (string_bytes out.new ≡ string_bytes out.old ++ spec.document_text size
        picture.now.title.now picture.now.description.now picture.now.style.now picture.now.definitions.now
        picture.now.content.now) }
{
    push_opening(out, size)?;
    push_about(alloc, out, picture.title, picture.description)?;
    push_style(alloc, out, picture.style)?;
    out.push_str(picture.definitions)?;
    out.push_str(picture.content)?;
    out.push_str("</svg>\n")
}

// The beginning of a picture of a size.
#[tactic(auto, unfolding(crate::specs::Elements::opening_text))]
fn push_opening(out: &mut String, size: Size) -> Result<(), AllocError>
    ensures { OnOk result (string_bytes out.new ≡ string_bytes out.old ++ spec.opening_text size) }
{
    let (width, height) = (Tenths(size.width), Tenths(size.height));
    write!(
        out,
        "<svg xmlns='http://www.w3.org/2000/svg' viewBox='0 0 {width} {height}' width='{width}' height='{height}' role='img' aria-labelledby='title' aria-describedby='description'>\n"
    )
}

// The title and the description of a picture.
fn push_about(
    alloc: Global,
    out: &mut String,
    title: &str,
    description: &str,
) -> Result<(), AllocError>
    ensures { OnOk result (string_bytes out.new ≡ string_bytes out.old ++
        spec.about_text title.now description.now) }
{
    let name = escaped(alloc, title)?;
    let words = escaped(alloc, description)?;
    write!(
        out,
        "<title id='title'>{name}</title>\n<desc id='description'>{words}</desc>\n"
    )
}

// How the shapes of a picture look.
#[tactic(auto, unfolding(crate::specs::Elements::style_text))]
fn push_style(alloc: Global, out: &mut String, style: &str) -> Result<(), AllocError>
    ensures { OnOk result (string_bytes out.new ≡ string_bytes out.old ++ spec.style_text style.now) }
{
    let rules = escaped(alloc, style)?;
    write!(out, "<style>{rules}</style>\n")
}
