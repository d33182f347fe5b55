//! Runs with the journals of their sources completed.
ghost use Rattle.std.specs.Prelude.{◌≡◌, List, map, IfOk, Vec};
ghost use Rattle.std.specs.declared.alloc.Global.{Global as GlobalSpec};
ghost use Rattle.abt_journal_text.specs.Books.{lists_of};
ghost use Rattle.abt_journal_text.specs.declared.spot.Spot.{Spot as SpotSpec};
ghost use Rattle.abt_net.specs.Topology.{conn_at};
ghost use Rattle.abt_derive.specs.Derives as spec;
ghost use Rattle.abt_derive.specs.Derives.{AreCompletedFrom, CompletesAt, IsDerived, lacks};
ghost use Rattle.abt_derive.specs.Serves.{AreServed, served_at};
ghost use Rattle.abt_journal.specs.declared.entry.Entry.{Entry as EntrySpec};

use crate::completing::{Completed, complete};
use crate::derived::Derived;
use crate::served::{Served, all_served, first_of};
use crate::walk::derived_of;
use abt_journal_text::{Run, Spot};
use abt_model::{Sequence, SourceJournal};
use abt_net::Net;
use std::alloc::{AllocError, Global};

// The journals of sources, and where their entries stand.
#[derive(Debug, Drop)]
struct Full {
    sources: Vec<SourceJournal>,
    spots: Vec<Vec<Spot>>,
}

#[tactic(auto, using(crate::proofs::Lists::got_map))]
// The spots of the list of a number.
pub(crate) fn spots_of(lists: &[Vec<Spot>], number: usize) -> &[Spot]
    ensures { result.now ≡
        spec.spots_of (map (λ (spots : Vec SpotSpec GlobalSpec). spots.items) lists.now) number }
{
    match lists.get(number) {
        Some(spots) => spots.as_slice(),
        None => &[],
    }
}

// The number of the first port of the path of a connection.
fn first_port(net: &Net, number: usize) -> usize
    ensures { result ≡ spec.first_port (conn_at net.now number) }
{
    match net.conns().get(number) {
        Some(conn) => first_of(conn),
        None => 0,
    }
}

#[tactic(auto, using(crate::proofs::Lists::got_or_map))]
// What the first port of its path served of the connection of a number.
fn served_at(served: &[Vec<Served>], number: usize) -> &[Served]
    ensures { result.now ≡ served_at served.now number }
{
    match served.get(number) {
        Some(served) => served.as_slice(),
        None => &[],
    }
}

// What the journal of the source of a number lacks, where the first ports served these.
fn lacking_at(
    alloc: Global,
    net: &Net,
    served: &Vec<Vec<Served>>,
    number: usize,
    journal: &SourceJournal,
) -> Result<Vec<Derived>, AllocError>
    ensures { IfOk result (λ lacking. (ports : List (List EntrySpec)) → AreServed net.now ports served.now →
        lacking.items ≡ lacks ports (conn_at net.now number) journal.now.entries) }
{
    let Some(conn) = net.conns().get(number) else {
        return Ok(Vec::new(alloc));
    };
    let served = served_at(served.as_slice(), number);
    derived_of(alloc, conn, journal.entries.as_slice(), served)
}

fn completed_at(
    alloc: Global,
    run: &Run,
    served: &Vec<Vec<Served>>,
    number: usize,
    journal: &SourceJournal,
) -> Result<(SourceJournal, Vec<Spot>), AllocError>
    requires { AreServed run.now.net run.now.journals served.now }
    ensures { IfOk result (λ full. CompletesAt run.now.net run.now.journals
        (lists_of run.now.port_spots) (lists_of run.now.source_spots) number journal.now full.0 full.1.items) }
{
    let derived = lacking_at(alloc, &run.net, served, number, journal)?;
    let first = spots_of(run.port_spots.as_slice(), first_port(&run.net, number));
    let spots = spots_of(run.source_spots.as_slice(), number);
    let entries = journal.entries.as_slice();
    let Completed { entries, spots } = complete(alloc, first, entries, spots, derived.as_slice())?;
    let entries = Sequence::from(entries);
    Ok((SourceJournal { entries }, spots))
}

// What the first ports of all paths served in a run.
fn served_of(alloc: Global, run: &Run) -> Result<Vec<Vec<Served>>, AllocError>
    ensures { IfOk result (AreServed run.now.net run.now.journals) }
{
    all_served(alloc, &run.net, run.journals.ports.as_slice())
}

fn completed(alloc: Global, run: &Run) -> Result<Full, AllocError>
    ensures { IfOk result (λ full. AreCompletedFrom run.now.net run.now.journals
        (lists_of run.now.port_spots) (lists_of run.now.source_spots) 0 run.now.sources.items
        full.sources.items (lists_of full.spots)) }
{
    let served = served_of(alloc, run)?;
    let mut full = Full {
        sources: Vec::new(alloc),
        spots: Vec::new(alloc),
    };
    for (number, journal) in run.sources.iter().enumerate() {
        let (journal, spots) = completed_at(alloc, run, &served, number, journal)?;
        full.sources.push(journal)?;
        full.spots.push(spots)?;
    }
    Ok(full)
}

/// Completes the journals of a run's sources by entries of what the first ports of their paths served (docs/JOURNALS.md, "What may
/// be left out"). An entry that is added stands where the step stands that it is of. What was written stays, in its order.
///
/// Open writes are to be settled before: how many entries come before one is told of the journal as it was written.
///
/// # Errors
/// Memory was refused.
pub fn derive(alloc: Global, run: Run) -> Result<Run, AllocError>
    ensures { IfOk result (IsDerived run) }
{
    let Full { sources, spots } = completed(alloc, &run)?;
    let Run {
        net,
        journals,
        sources: _,
        port_spots,
        source_spots: _,
        open_writes,
        cuts,
    } = run;
    Ok(Run {
        net,
        journals,
        sources,
        port_spots,
        source_spots: spots,
        open_writes,
        cuts,
    })
}
