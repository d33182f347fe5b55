//! Pictures as whole files: an SVG text, a page with the picture in it, or text.
ghost use Rattle.std.specs.Prelude.{IfOk, OnOk, codes, string_bytes};
ghost use Rattle.abt_text.specs.Text.{◌⋅◌};
ghost use Rattle.abt_draw.specs.Escapes as spec;
ghost use Rattle.abt_draw.specs.Pictures.{IsSvg, IsPage, IsFile};
ghost use Rattle.abt_draw.specs.Within.{Grows, Holds};

use crate::ladder::ladder_of;
use crate::picture::{axis_of, push_picture};
use crate::script::{KEYS, PAGE, script};
use crate::sheet::Sheet;
use crate::style::{definitions, shapes};
use crate::{Picture, PictureForm, Point, Rows, Size, escaped, push_document, push_line};
use std::alloc::{AllocError, Global};

/// The text of a picture in a form. The explanation is that of the whole run.
pub(crate) fn file_of(
    sheet: &Sheet<'_>,
    form: PictureForm,
    explanation: &str,
) -> Result<String, AllocError>
    ensures { IfOk result (λ text. IsFile form sheet.now explanation.now (string_bytes text)) }
{
    match form {
        PictureForm::Svg => svg_of(sheet, explanation),
        PictureForm::Page => html_of(sheet, explanation),
        PictureForm::Text => ladder_of(sheet, explanation),
    }
}

// The SVG text of a picture. The explanation is that of the whole run, and stands in it for readers of screens.
fn svg_of(sheet: &Sheet<'_>, explanation: &str) -> Result<String, AllocError>
    ensures { IfOk result (λ text. IsSvg sheet.now explanation.now (string_bytes text)) }
{
    let alloc = sheet.alloc;
    let title = title_of(sheet)?;
    let mut content = String::new(alloc);
    let lower = push_picture(sheet, &mut content, explanation)?;
    push_cursor(sheet, &mut content)?;
    let size = Size {
        width: sheet.width(),
        height: lower,
    };
    let picture = Picture {
        title: title.as_str(),
        description: explanation,
        style: shapes(),
        definitions: definitions(),
        content: content.as_str(),
    };
    let mut out = String::new(alloc);
    push_document(alloc, &mut out, size, &picture)?;
    Ok(out)
}

// The line across the bands that goes with the event that a page shows.
#[tactic(auto, using(crate::proofs::Within::growing))]
fn push_cursor(sheet: &Sheet<'_>, out: &mut String) -> Result<(), AllocError>
    ensures { OnOk result (Grows (string_bytes out.old) (string_bytes out.new)) }
{
    let from = Point {
        x: 0,
        y: sheet.bottom().saturating_add(200),
    };
    let to = Point {
        x: 0,
        y: axis_of(sheet),
    };
    push_line(sheet.alloc, out, "cursor", from, to)
}

/// What a picture is of.
pub(crate) fn title_of(sheet: &Sheet<'_>) -> Result<String, AllocError> {
    let alloc = sheet.alloc;
    let events = sheet.chart.told.len();
    let behind = if sheet.stuck.is_empty() {
        ""
    } else {
        ", behind which journals are stuck"
    };
    if events == 0 {
        return format!(in alloc; "A run without events{behind}");
    }
    let first = (sheet.rows.first as u64).saturating_add(1);
    let last = (sheet.rows.first as u64).saturating_add(sheet.rows.levels.len() as u64);
    let only = only_of(sheet)?;
    format!(in alloc; "Events {first} to {last} of a run of {events}{only}{behind}")
}

// The connections that are shown, if not all are.
fn only_of(sheet: &Sheet<'_>) -> Result<String, AllocError> {
    let mut out = String::new(sheet.alloc);
    for conn in sheet.only {
        let mark = if out.is_empty() { ", --only " } else { "," };
        write!(out, "{mark}{conn}")?;
    }
    Ok(out)
}

// A page with the picture, which steps through its events.
fn html_of(sheet: &Sheet<'_>, explanation: &str) -> Result<String, AllocError>
    ensures { IfOk result (λ text. IsPage sheet.now explanation.now (string_bytes text)) }
{
    let alloc = sheet.alloc;
    let title = title_of(sheet)?;
    let title = escaped(alloc, title.as_str())?;
    let picture = svg_of(sheet, explanation)?;
    let mut out = String::new(alloc);
    push_steps(&mut out, title.as_str(), &sheet.rows)?;
    push_both(alloc, &mut out, picture.as_str(), explanation)?;
    let script = script();
    write!(out, "<script>{script}</script>\n</body>\n</html>\n")?;
    Ok(out)
}

// What stands above the picture: the title, already escaped, and what steps through the rows.
fn push_steps(out: &mut String, title: &str, rows: &Rows<'_>) -> Result<(), AllocError> {
    let (count, first, shown) = (rows.count, rows.first, rows.levels.len());
    out.push_str(HEAD)?;
    write!(
        out,
        "<title>{title}</title>\n<style>{PAGE}</style>\n</head>\n<body>\n<h1>{title}</h1>\n"
    )?;
    out.push_str(KEYS)?;
    write!(
        out,
        "<div class='steps'>\n<button id='back'>Back</button>\n<input id='slider' type='range' min='1' max='{count}' value='1' data-before='{first}' data-shown='{shown}' aria-label='Event'>\n"
    )?;
    out.push_str(
        "<button id='on'>On</button>\n<output id='now' aria-live='polite'></output>\n</div>\n",
    )
}

// The picture, and below it the whole run in words.
fn push_both(
    alloc: Global,
    out: &mut String,
    picture: &str,
    explanation: &str,
) -> Result<(), AllocError>
    ensures picture { OnOk result (Holds (string_bytes out.new) picture.now) }
    ensures words { OnOk result (Holds (string_bytes out.new)
        (codes "<pre>" ⋅ spec.escaped explanation.now ⋅ codes "</pre>")) }
{
    let text = escaped(alloc, explanation)?;
    write!(
        out,
        "<div class='both'>\n<div class='picture'>\n{picture}</div>\n<aside id='held' aria-label='What is held'></aside>\n</div>\n<h2>The whole run in words</h2>\n"
    )?;
    write!(out, "<pre>{text}</pre>\n")
}

// The head of a page: it takes nothing from outside.
const HEAD: &str = "<!DOCTYPE html>
<html lang='en'>
<head>
<meta charset='utf-8'>
<meta http-equiv='Content-Security-Policy' content=\"default-src 'none'; style-src 'unsafe-inline'; script-src 'unsafe-inline'\">
";
