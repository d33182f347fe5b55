//! The lines of entries at which journals are stuck.
ghost use Rattle.std.specs.Prelude.{◌≡◌, ◌-◌, map, option_map, slice_get, IfOk, OnOk, string_bytes, Vec};
ghost use Rattle.std.specs.declared.alloc.Global.{Global as GlobalSpec};
ghost use Rattle.abt_text.specs.Text.{◌⋅◌, newline};
ghost use Rattle.abt_journal_text.specs.Books.{lists_of};
ghost use Rattle.abt_weave.specs.declared.actor.Actor.TheVariants.{Port, Source};
ghost use Rattle.abt_audit.specs.Names.{name_in, spot_head};
ghost use Rattle.abt_audit.specs.Stuck.{item_at, entry_at, line_at};

use abt_entry::{entry_line, step_line};
use abt_journal_text::{Run, Spot};
use abt_model::{SourceEntry, SourceJournal};
use abt_weave::{Actor, Stuck};
use std::alloc::{AllocError, Global};

#[tactic(auto, using(crate::proofs::Lists::got_map))]
// The item of a place in the list of a number.
pub(crate) fn item_at<T>(lists: &[Vec<T>], number: u16, place: u64) -> Option<&T>
    ensures { option_map
        (λ item. item.now) result ≡
        item_at (map (λ (items : Vec T GlobalSpec). items.items) lists.now) number place }
{
    match lists.get(usize::from(number)) {
        Some(items) => items.get(place as usize),
        None => None,
    }
}

// The entry of a place in the journal of a source.
pub(crate) fn entry_at(sources: &[SourceJournal], number: u16, place: u64) -> Option<&SourceEntry>
    ensures { option_map (λ entry. entry.now) result ≡ entry_at sources.now number place }
{
    match sources.get(usize::from(number)) {
        Some(journal) => journal.entries.as_slice().get(place as usize),
        None => None,
    }
}

#[tactic(auto, using(crate::proofs::Lists::joined))]
// Adds where an entry stands, and the entry.
fn add_line(
    alloc: Global,
    text: &mut Vec<u8>,
    names: &[String],
    spot: Spot,
    entry: &[u8],
) -> Result<(), AllocError>
    ensures { OnOk result (text.new.items ≡ text.old.items ⋅ spot_head names.now spot ⋅ entry.now ⋅ newline) }
{
    let head = head_of(alloc, names, spot)?;
    text.extend_from_slice(head.as_bytes())?;
    text.extend_from_slice(entry)?;
    Ok(text.push(b'\n')?)
}

// Where a line stands, and what parts it from what is said of it.
pub(crate) fn head_of(alloc: Global, names: &[String], spot: Spot) -> Result<String, AllocError>
    ensures { IfOk result (λ text. string_bytes text ≡ spot_head names.now spot) }
{
    let name = name_of(names, spot.text);
    let line = spot.line;
    format!(in alloc; "{name}:{line}: ")
}

// The name of the text of a number, which counts from 1.
pub(crate) fn name_of(names: &[String], number: u64) -> &str
    ensures { result.now ≡ name_in (slice_get names.now (number - 1)) }
{
    match names.get(number.saturating_sub(1) as usize) {
        Some(name) => name.as_str(),
        None => "-",
    }
}

fn add_step(
    alloc: Global,
    text: &mut Vec<u8>,
    names: &[String],
    run: &Run,
    port: u16,
    place: u64,
) -> Result<(), AllocError>
    ensures { OnOk result (text.new.items ≡ text.old.items ⋅ line_at names.now run.now (Port port) place) }
{
    let Some(spot) = item_at(run.port_spots.as_slice(), port, place) else {
        return Ok(());
    };
    let Some(entry) = item_at(run.journals.ports.as_slice(), port, place) else {
        return Ok(());
    };
    let line = step_line(alloc, port, entry)?;
    add_line(alloc, text, names, *spot, line.as_slice())
}

fn add_entry(
    alloc: Global,
    text: &mut Vec<u8>,
    names: &[String],
    run: &Run,
    source: u16,
    place: u64,
) -> Result<(), AllocError>
    ensures { OnOk result (text.new.items ≡
        text.old.items ⋅ line_at names.now run.now (Source source) place) }
{
    let Some(spot) = item_at(run.source_spots.as_slice(), source, place) else {
        return Ok(());
    };
    let Some(entry) = entry_at(run.sources.as_slice(), source, place) else {
        return Ok(());
    };
    let line = entry_line(alloc, source, entry)?;
    add_line(alloc, text, names, *spot, line.as_slice())
}

// Adds the line of an entry at which a journal is stuck.
pub(crate) fn add_stuck(
    alloc: Global,
    text: &mut Vec<u8>,
    names: &[String],
    run: &Run,
    stuck: Stuck,
) -> Result<(), AllocError>
    ensures { OnOk result (text.new.items ≡
        text.old.items ⋅ line_at names.now run.now stuck.actor stuck.place) }
{
    match stuck.actor {
        Actor::Port(port) => add_step(alloc, text, names, run, port, stuck.place),
        Actor::Source(source) => add_entry(alloc, text, names, run, source, stuck.place),
    }
}

// Where the entry of a place stands in the journal of a port.
pub(crate) fn spot_of(run: &Run, port: u16, place: u64) -> Option<Spot>
    ensures { result ≡ item_at (lists_of run.now.port_spots) port place }
{
    item_at(run.port_spots.as_slice(), port, place).copied()
}
