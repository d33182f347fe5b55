//! The lines of a source's journal.
ghost use Rattle.std.specs.Prelude.{◌≡◌, IfOk};
ghost use Rattle.abt_rate.specs.Code.{code_of};
ghost use Rattle.abt_text.specs.Text.{◌⋅◌, code_text, decimal};
ghost use Rattle.abt_live.specs.SourceJournal.{about_line, ask_line, deed_line, done_line, is_open};

use crate::failed_line::failed_line;
use crate::source_asked::SourceAsked;
use abt_entry::entry_line;
use abt_keep::StorePlan;
use abt_model::{Event, Outcome, SourceEntry};
use abt_rate::Rate;
use abt_source::AskFault;
use abt_text::HexCode;
use itoa::Buffer;
use std::alloc::{AllocError, Global};

// What is written of what was done.
pub(crate) fn done_line(
    alloc: Global,
    conn: u16,
    asked: &SourceAsked,
    outcome: &Outcome,
) -> Result<Vec<u8>, AllocError>
    ensures { IfOk result (λ line. line.items ≡ done_line conn asked.now outcome.now) }
{
    match asked {
        SourceAsked::Start { now } => deed_line(
            alloc,
            conn,
            Event::Start { conn, now: *now },
            outcome,
        ),
        SourceAsked::Ask { rate } => ask_line(alloc, conn, *rate, outcome),
        SourceAsked::Again => deed_line(alloc, conn, Event::Again { conn }, outcome),
        SourceAsked::Emit { now } => deed_line(
            alloc,
            conn,
            Event::Emit { conn, now: *now },
            outcome,
        ),
        SourceAsked::Told(answer) => {
            let told = Event::Told {
                conn,
                seq: answer.seq(),
                granted: answer.granted(),
            };
            deed_line(alloc, conn, told, outcome)
        }
        SourceAsked::Wrong(_) => Ok(Vec::new(alloc)),
    }
}

// The line of an ask.
fn ask_line(alloc: Global, conn: u16, rate: Rate, outcome: &Outcome) -> Result<Vec<u8>, AllocError>
    ensures { IfOk result (λ line. line.items ≡ ask_line conn rate outcome.now) }
{
    if is_open(outcome) {
        return failed_line(alloc, conn, rate);
    }
    let ask = Event::Ask {
        conn,
        rate,
        plan: StorePlan::Works,
    };
    deed_line(alloc, conn, ask, outcome)
}

// Whether an outcome leaves open what the store has.
fn is_open(outcome: &Outcome) -> bool
    ensures { result ≡ is_open outcome.now }
{
    matches!(outcome, Outcome::AskRefused(AskFault::Keep))
}

// The line of a deed with its outcome.
pub(crate) fn deed_line(
    alloc: Global,
    conn: u16,
    deed: Event,
    outcome: &Outcome,
) -> Result<Vec<u8>, AllocError>
    ensures { IfOk result (λ line. line.items ≡ deed_line conn deed outcome.now) }
{
    let mut line = entry_line(alloc, conn, &SourceEntry::Did(deed, *outcome))?;
    line.push(b'\n')?;
    Ok(line)
}

// The line before an ask writes into the store.
pub(crate) fn about_line(alloc: Global, conn: u16, rate: Rate) -> Result<Vec<u8>, AllocError>
    ensures { IfOk result (λ line. line.items ≡ about_line conn rate) }
{
    line_of(alloc, "{\"about\":", conn, ",\"ask\":\"", rate, "\"}\n")
}

// A line with the number of a connection, and the code of a rate behind it.
fn line_of(
    alloc: Global,
    begin: &str,
    conn: u16,
    middle: &str,
    rate: Rate,
    end: &str,
) -> Result<Vec<u8>, AllocError>
    ensures { IfOk result (λ line. line.items
        ≡ begin.now ⋅ decimal conn ⋅ middle.now ⋅ code_text (code_of rate) ⋅ end.now) }
{
    let mut digits = Buffer::new();
    let mut line = String::new(alloc);
    line.push_str(begin)?;
    line.push_str(digits.format(conn))?;
    line.push_str(middle)?;
    HexCode(rate.code()).push_to(&mut line)?;
    line.push_str(end)?;
    Ok(line.into_bytes())
}
