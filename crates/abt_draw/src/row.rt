//! The rows of a picture: what each event sent and brought, and its outcome.
ghost use Rattle.std.specs.Prelude.{◌≡◌, ◌<◌, nat_lt, None, IfSome, OnOk, codes, string_bytes};
ghost use Rattle.abt_text.specs.Text.{◌⋅◌};
ghost use Rattle.abt_draw.specs.Places as places;
ghost use Rattle.abt_draw.specs.Rows.{DrawsArrow, DrawsArrival, DrawsLost, DrawsStump, DrawsDeparture, HasRow};
ghost use Rattle.abt_draw.specs.Rows as spec;
ghost use Rattle.abt_draw.specs.Within.{Grows};

use crate::arrow::standing;
use crate::mark::{Mark, actor_of, mark_of, push_cross, push_mark};
use crate::sheet::Sheet;
use crate::words::{answer_in, clipped, message_words};
use crate::{
    Arrow, Lost, Point, Size, actor_at, arrow_of, column_of, level_of, lost_of, push_group,
    push_label, push_line, push_rect, y_of,
};
use abt_chart::{Arrival, Crossing, Departure, Kind, Message, Told};
use abt_format::push_event;
use std::alloc::AllocError;

/// Adds the row of an event, whose line in the explanation of its run this is, and to the notes the words of its arrows.
#[tactic(auto, using(crate::proofs::Within::growing))]
pub(crate) fn push_row(
    sheet: &Sheet<'_>,
    out: &mut String,
    notes: &mut String,
    event: usize,
    told: &Told,
    crossing: &Crossing,
    line: &str,
) -> Result<(), AllocError>
    requires { event < usize.MAX }
    ensures grows { OnOk result (Grows (string_bytes out.old) (string_bytes out.new)) }
    ensures row { OnOk result (HasRow sheet.now event told.now crossing.now line.now (string_bytes out.new)) }
{
    let alloc = sheet.alloc;
    let number = event + 1;
    let mut content = String::new(alloc);
    push_words(sheet, &mut content, event, number, told, line)?;
    push_brought(sheet, &mut content, notes, event, crossing)?;
    push_sent(sheet, &mut content, notes, event, crossing)?;
    push_mark(sheet, &mut content, event, told)?;
    let name = format!(in alloc; "e{number}")?;
    let class = class_of(sheet, told);
    push_group(alloc, out, class, name.as_str(), line, content.as_str())
}

// What an event brings, if it brings a message.
#[tactic(auto, using(crate::proofs::Within::growing))]
fn push_brought(
    sheet: &Sheet<'_>,
    out: &mut String,
    notes: &mut String,
    event: usize,
    crossing: &Crossing,
) -> Result<(), AllocError>
    ensures grows { OnOk result (Grows (string_bytes out.old) (string_bytes out.new)) }
    ensures drawn { OnOk result (IfSome crossing.now.arrival
        (λ arrival. DrawsArrival sheet.now event arrival (string_bytes out.new))) }
{
    match &crossing.arrival {
        Some(arrival) => {
            let departure = crossing.departure.as_ref();
            push_arrival(sheet, out, notes, event, arrival, departure)
        }
        None => Ok(()),
    }
}

// What an event sends, if it sends a message.
#[tactic(auto, using(crate::proofs::Within::growing))]
fn push_sent(
    sheet: &Sheet<'_>,
    out: &mut String,
    notes: &mut String,
    event: usize,
    crossing: &Crossing,
) -> Result<(), AllocError>
    ensures grows { OnOk result (Grows (string_bytes out.old) (string_bytes out.new)) }
    ensures drawn { OnOk result (IfSome crossing.now.departure
        (λ departure. DrawsDeparture sheet.now event departure (string_bytes out.new))) }
{
    match &crossing.departure {
        Some(departure) => push_departure(sheet, out, notes, event, departure),
        None => Ok(()),
    }
}

// How the row of an event looks: what happens on no lifeline of the picture is pale.
fn class_of(sheet: &Sheet<'_>, told: &Told) -> &'static str {
    let place = standing(sheet.columns, actor_of(sheet.net, &told.event));
    match (place, mark_of(&told.outcome)) {
        (_, Some(Mark::Idle)) => "event off",
        (None, _) => "event else",
        (_, Some(Mark::Refused)) => "event bad",
        _ => "event",
    }
}

// The number and the text of the event, and below them its outcome.
#[tactic(auto, using(crate::proofs::Within::growing))]
fn push_words(
    sheet: &Sheet<'_>,
    out: &mut String,
    event: usize,
    number: usize,
    told: &Told,
    line: &str,
) -> Result<(), AllocError>
    ensures grows { OnOk result (Grows (string_bytes out.old) (string_bytes out.new)) }
{
    let alloc = sheet.alloc;
    let y = y_of(level_of(&sheet.rows, event));
    let corner = Point {
        x: 0,
        y: y.saturating_sub(120),
    };
    let size = Size {
        width: sheet.width(),
        height: 240,
    };
    push_rect(alloc, out, "row", corner, size)?;
    let mut words = String::new(alloc);
    write!(words, "{number} ")?;
    push_event(&mut words, &told.event)?;
    let words = clipped(alloc, words.as_str())?;
    let at = Point {
        x: 60,
        y: y.saturating_sub(15),
    };
    push_label(alloc, out, "told", at, words.as_str())?;
    let answer = clipped(alloc, answer_in(line))?;
    let at = Point {
        x: 160,
        y: y.saturating_add(80),
    };
    push_label(alloc, out, "answer", at, answer.as_str())
}

// The arrow of the message that an event brings.
#[tactic(auto, using(crate::proofs::Within::growing))]
fn push_arrival(
    sheet: &Sheet<'_>,
    out: &mut String,
    notes: &mut String,
    event: usize,
    arrival: &Arrival,
    departure: Option<&Departure>,
) -> Result<(), AllocError>
    ensures grows { OnOk result (Grows (string_bytes out.old) (string_bytes out.new)) }
    ensures drawn { OnOk result (DrawsArrival sheet.now event arrival.now (string_bytes out.new)) }
{
    match arrow_of(sheet.net, sheet.columns, &sheet.rows, event, arrival) {
        Some(arrow) => push_arrow(sheet, out, notes, &arrow, departure),
        None => Ok(()),
    }
}

// An arrow, and among the notes its words, below its head: on the side from which it comes, or on the other one, if what the event sends
// goes back there.
#[tactic(auto, using(crate::proofs::Within::growing))]
fn push_arrow(
    sheet: &Sheet<'_>,
    out: &mut String,
    notes: &mut String,
    arrow: &Arrow,
    departure: Option<&Departure>,
) -> Result<(), AllocError>
    ensures grows { OnOk result (Grows (string_bytes out.old) (string_bytes out.new)) }
    ensures drawn { OnOk result (DrawsArrow sheet.now arrow.now (string_bytes out.new)) }
{
    let alloc = sheet.alloc;
    let from = sheet.point(arrow.from);
    let to = sheet.point(arrow.to);
    push_line(alloc, out, arrow_class(arrow), from, to)?;
    let words = message_words(sheet, &arrow.message, arrow.again, arrow.late)?;
    let y = to.y.saturating_add(95);
    if is_noted_behind(sheet, from.x, to.x, departure) {
        let x = to.x.saturating_add(60);
        push_label(alloc, notes, "note", Point { x, y }, words.as_str())
    } else {
        let x = to.x.saturating_sub(60);
        push_label(alloc, notes, "note end", Point { x, y }, words.as_str())
    }
}

// Whether the words of an arrow stand to the right of its head: so they do where it comes from there, and what the event sends doesn't go
// back, or where it comes from the left, and that goes back.
fn is_noted_behind(sheet: &Sheet<'_>, from: u64, to: u64, departure: Option<&Departure>) -> bool {
    let from_left = from < to;
    let target = match departure {
        Some(departure) => target_x(sheet, departure),
        None => None,
    };
    let returns = match target {
        Some(x) => (x < to) == from_left,
        None => false,
    };
    from_left == returns
}

// Where the lifeline is to which a message goes.
fn target_x(sheet: &Sheet<'_>, departure: &Departure) -> Option<u64> {
    let message = departure.message;
    let actor = actor_at(sheet.net, message.conn, message.stop)?;
    let column = column_of(sheet.columns, actor)?;
    Some(sheet.x(column))
}

fn arrow_class(arrow: &Arrow) -> &'static str
    ensures { result.now ≡ spec.arrow_class arrow.now }
{
    match (arrow.message.kind, arrow.again || arrow.late) {
        (Kind::Request, false) => "arrow request",
        (Kind::Request, true) => "arrow request old",
        (Kind::Yes, false) => "arrow yes",
        (Kind::Yes, true) => "arrow yes old",
        (Kind::No, false) => "arrow no",
        (Kind::No, true) => "arrow no old",
    }
}

// What an event sends: nothing is drawn of it if it comes in a row of the picture, since its arrow is drawn there.
#[tactic(auto, using(crate::proofs::Within::growing))]
fn push_departure(
    sheet: &Sheet<'_>,
    out: &mut String,
    notes: &mut String,
    event: usize,
    departure: &Departure,
) -> Result<(), AllocError>
    ensures grows { OnOk result (Grows (string_bytes out.old) (string_bytes out.new)) }
    ensures drawn { OnOk result (DrawsDeparture sheet.now event departure.now (string_bytes out.new)) }
{
    match departure.came {
        Some(came) if is_behind(sheet, came) => {
            let leaving = Arrival {
                message: departure.message,
                sent: Some(event),
                again: false,
                late: false,
            };
            push_arrival(sheet, out, notes, came, &leaving, None)
        }
        Some(_) => Ok(()),
        None => push_lost(sheet, out, notes, event, departure),
    }
}

// Whether an event comes behind the last row.
fn is_behind(sheet: &Sheet<'_>, event: usize) -> bool
    ensures { result ≡ nat_lt sheet.now.rows.count (places.level_of sheet.now.rows event) }
{
    level_of(&sheet.rows, event) > sheet.rows.count
}

// A message that never comes, if its sender and receiver are shown.
#[tactic(auto, using(crate::proofs::Within::growing))]
fn push_lost(
    sheet: &Sheet<'_>,
    out: &mut String,
    notes: &mut String,
    event: usize,
    departure: &Departure,
) -> Result<(), AllocError>
    ensures grows { OnOk result (Grows (string_bytes out.old) (string_bytes out.new)) }
    ensures drawn { departure.now.came ≡ None →
        OnOk result (DrawsStump sheet.now event departure.now (string_bytes out.new)) }
{
    match lost_of(sheet.net, sheet.columns, &sheet.rows, event, departure) {
        Some(lost) => push_stump(sheet, out, notes, &lost),
        None => Ok(()),
    }
}

// A message that never comes: the beginning of its way, a cross, and among the notes its words, above.
#[tactic(auto, using(crate::proofs::Within::growing))]
fn push_stump(
    sheet: &Sheet<'_>,
    out: &mut String,
    notes: &mut String,
    lost: &Lost,
) -> Result<(), AllocError>
    ensures grows { OnOk result (Grows (string_bytes out.old) (string_bytes out.new)) }
    ensures drawn { OnOk result (DrawsLost sheet.now lost.now (string_bytes out.new)) }
{
    let from = sheet.point(lost.from);
    let end = stump_end(sheet, lost);
    push_line(sheet.alloc, out, lost_class(&lost.message), from, end)?;
    push_cross(sheet, out, "lost", end, 35)?;
    let words = message_words(sheet, &lost.message, false, false)?;
    let at = Point {
        x: end.x,
        y: end.y.saturating_sub(45),
    };
    push_label(sheet.alloc, notes, "note middle", at, words.as_str())
}

// Where the line of a message that never comes ends: half a column on its way, where no lifeline is.
fn stump_end(sheet: &Sheet<'_>, lost: &Lost) -> Point
    ensures { result ≡ spec.stump_end sheet.now lost.now }
{
    let from = sheet.point(lost.from);
    let half = u64::from(sheet.step / 2);
    let x = if lost.from.column < lost.toward {
        from.x + half
    } else {
        from.x.saturating_sub(half)
    };
    Point { x, y: from.y }
}

fn lost_class(message: &Message) -> &'static str
    ensures { result.now ≡ codes "stump " ⋅ spec.kind_class message.now.kind }
{
    match message.kind {
        Kind::Request => "stump request",
        Kind::Yes => "stump yes",
        Kind::No => "stump no",
    }
}
