//! Journals of sources that start again after a crash which nobody wrote down.
ghost use Rattle.std.specs.Prelude.{◌≡◌, map, length, option_to_list, IfOk, OnOk, Vec, List};
ghost use Rattle.std.specs.declared.alloc.Global.{Global as GlobalSpec};
ghost use Rattle.abt_journal_text.specs.Books.{lists_of};
ghost use Rattle.abt_journal_text.specs.declared.spot.Spot.{Spot as SpotSpec};
ghost use Rattle.abt_derive.specs.Completes.{HasMore};
ghost use Rattle.abt_derive.specs.Restarts as spec;
ghost use Rattle.abt_derive.specs.Restarts.{AreRestarted, IsRestarted, IsRestartedOf};

use crate::completing::{Completed, spot_at};
use crate::completion::spots_of;
use abt_journal_text::{OpenWrite, Run, Spot};
use abt_model::{Event, Outcome, Sequence, SourceEntry, SourceJournal};
use std::alloc::{AllocError, Global};

// A journal with each crash that was missing, and how many of its entries stand before each of those that were written.
#[derive(Debug, Drop)]
pub(crate) struct Restarted {
    full: Completed,
    places: Vec<u64>,
}

// The journals of all sources so, where their entries stand, and how many stand before each that was written.
#[derive(Debug, Drop)]
struct AllRestarted {
    sources: Vec<SourceJournal>,
    spots: Vec<Vec<Spot>>,
    places: Vec<Vec<u64>>,
}

// Whether a source is up behind an entry, by what the entries tell.
fn up_behind(up: bool, entry: &SourceEntry) -> bool
    ensures { result ≡ spec.up_behind up entry.now }
{
    match entry {
        SourceEntry::Did(Event::Start { .. }, Outcome::Started) => true,
        SourceEntry::Did(Event::Crash { .. }, Outcome::Crashed) => false,
        _ => up,
    }
}

// The crash that is missing before an entry: a source that is up starts.
fn crash_before(up: bool, entry: &SourceEntry) -> Option<SourceEntry>
    ensures { result ≡ spec.crash_before up entry.now }
{
    match entry {
        SourceEntry::Did(Event::Start { conn, .. }, Outcome::Started) if up => Some(
            SourceEntry::Did(Event::Crash { conn: *conn }, Outcome::Crashed),
        ),
        _ => None,
    }
}

impl Completed {
    // Adds an entry at a spot, if there is one.
    fn push_some(&mut self, entry: Option<SourceEntry>, spot: Spot) -> Result<(), AllocError>
        ensures { OnOk result (HasMore (spec.lines_at_spot spot (option_to_list entry)) self.old self.new) }
    {
        match entry {
            Some(entry) => self.push(entry, spot),
            None => Ok(()),
        }
    }
}

// The journal of a source with each crash that is missing, in the line of the start behind it.
fn with_crashes(
    alloc: Global,
    entries: &[SourceEntry],
    spots: &[Spot],
) -> Result<Restarted, AllocError>
    ensures { IfOk result (IsRestartedOf spots.now entries.now) }
{
    let mut full = Completed {
        entries: Vec::new(alloc),
        spots: Vec::new(alloc),
    };
    let mut places = Vec::new(alloc);
    let mut up = false;
    for (place, entry) in entries.iter().enumerate() {
        let spot = spot_at(spots, place);
        full.push_some(crash_before(up, entry), spot)?;
        places.push(full.entries.len() as u64)?;
        full.push(*entry, spot)?;
        up = up_behind(up, entry);
    }
    Ok(Restarted { full, places })
}

// The journals of all sources so.
fn all_restarted(
    alloc: Global,
    sources: &[SourceJournal],
    spots: &[Vec<Spot>],
) -> Result<AllRestarted, AllocError>
    ensures { IfOk result (AreRestarted
        (map (λ (spots : Vec SpotSpec GlobalSpec). spots.items) spots.now) sources.now) }
{
    let mut all = AllRestarted {
        sources: Vec::new(alloc),
        spots: Vec::new(alloc),
        places: Vec::new(alloc),
    };
    for (number, journal) in sources.iter().enumerate() {
        let own = spots_of(spots, number);
        let made = with_crashes(alloc, journal.entries.as_slice(), own)?;
        all.push(made)?;
    }
    Ok(all)
}

impl AllRestarted {
    // Adds the journal of the next source.
    fn push(&mut self, made: Restarted) -> Result<(), AllocError>
        ensures { OnOk result (spec.HasOneMore made self.old self.new) }
    {
        let Restarted { full, places } = made;
        let Completed { entries, spots } = full;
        let entries = Sequence::from(entries);
        self.sources.push(SourceJournal { entries })?;
        self.spots.push(spots)?;
        self.places.push(places)?;
        Ok(())
    }
}

// A write that is left open, where its entry stands among those of these lists of places.
fn moved(lists: &[Vec<u64>], write: &OpenWrite) -> OpenWrite
    ensures { result ≡ spec.moved (map (λ (places : Vec _ GlobalSpec). places.items) lists.now) write.now }
{
    let place = match lists.get(usize::from(write.source)) {
        Some(places) => place_in(places.as_slice(), write.place),
        None => write.place,
    };
    OpenWrite {
        source: write.source,
        place,
    }
}

// The number that stands at a place of a list; the place itself, if the list is shorter.
fn place_in(places: &[u64], place: u64) -> u64
    ensures { result ≡ spec.place_at places.now place }
{
    match places.get(place as usize) {
        Some(there) => *there,
        None => place,
    }
}

fn all_moved(
    alloc: Global,
    lists: &[Vec<u64>],
    writes: &[OpenWrite],
) -> Result<Vec<OpenWrite>, AllocError>
    ensures { IfOk result (λ made. made.items ≡
        map (spec.moved (map (λ (places : Vec _ GlobalSpec). places.items) lists.now)) writes.now) }
{
    let mut made = Vec::with_capacity(alloc, writes.len())?;
    for write in writes {
        made.push(moved(lists, write))?;
    }
    Ok(made)
}

/// Puts a crash into the journal of a source before each entry by which it starts though it is up (docs/JOURNALS.md, "What may be left
/// out"), in the line of that start. All that was written stays, in its order. Writes that are left open keep to their entries.
///
/// # Errors
/// Memory was refused.
pub fn restart(alloc: Global, run: Run) -> Result<Run, AllocError>
    ensures { IfOk result (IsRestarted run) }
{
    let AllRestarted {
        sources,
        spots,
        places,
    } = all_restarted(alloc, run.sources.as_slice(), run.source_spots.as_slice())?;
    let open_writes = all_moved(alloc, places.as_slice(), run.open_writes.as_slice())?;
    let Run {
        net,
        journals,
        sources: _,
        port_spots,
        source_spots: _,
        open_writes: _,
        cuts,
    } = run;
    Ok(Run {
        net,
        journals,
        sources,
        port_spots,
        source_spots: spots,
        open_writes,
        cuts,
    })
}
