//! Journals that aren't woven, woven up to the entries at which they are stuck.
ghost use Rattle.std.specs.Prelude.{◌≡◌, ◌≢◌, ◌++◌, map, take, IfOk, IsOk, OnOk, Vec};
ghost use Rattle.std.specs.declared.alloc.Global.{Global as GlobalSpec};
ghost use Rattle.abt_journal.specs.declared.entry.Entry.{Entry as EntrySpec};
ghost use Rattle.abt_journal_text.specs.Books.{lists_of};
ghost use Rattle.abt_weave.specs.OneFault.{AreJournalsOf};
ghost use Rattle.abt_weave.specs.declared.fault.WeaveFault.TheVariants.{Memory};
ghost use Rattle.abt_audit.specs.Parts as spec;
ghost use Rattle.abt_audit.specs.Parts.{IsSizedRun, IsWovenPart, NamesEachOnce, cut_list, cut_source, journals_in, run_journals};

use abt_journal::{Entry, Journals};
use abt_journal_text::Run;
use abt_model::{Event, Sequence, SourceJournal};
use abt_net::Net;
use abt_weave::{Actor, Stuck, WeaveFault, weave};
use std::alloc::{AllocError, Global};

/// The events of journals before the entries at which they are stuck.
#[derive(Debug, Drop)]
pub struct WovenPart {
    /// The events, in an order in which they can have happened.
    pub events: Sequence<Event>,
    /// The entries at which journals are stuck, as they got so one after the other.
    pub stuck: Sequence<Stuck>,
}

// The journals of all ports and of all sources of a net, as far as they are taken.
#[derive(Drop)]
struct Part {
    journals: Journals,
    sources: Vec<SourceJournal>,
}

fn copied_ports(alloc: Global, ports: &[Vec<Entry>]) -> Result<Vec<Vec<Entry>>, AllocError>
    ensures { IfOk result
        (λ copied. lists_of copied ≡ map (λ (items : Vec EntrySpec GlobalSpec). items.items) ports.now) }
{
    let mut copied = Vec::with_capacity(alloc, ports.len())?;
    for entries in ports {
        copied.push(Vec::from_slice(alloc, entries.as_slice())?)?;
    }
    Ok(copied)
}

// The journal of a source, its first entries alone.
fn first_of(
    alloc: Global,
    journal: &SourceJournal,
    count: usize,
) -> Result<SourceJournal, AllocError>
    ensures { IfOk result (λ first. first.entries ≡ take count journal.now.entries) }
{
    let entries = journal.entries.as_slice();
    let count = count.min(entries.len());
    let first = Vec::from_slice(alloc, &entries[..count])?;
    Ok(SourceJournal {
        entries: Sequence::from(first),
    })
}

fn copied_sources(
    alloc: Global,
    sources: &[SourceJournal],
) -> Result<Vec<SourceJournal>, AllocError>
    ensures { IfOk result (λ copied. copied.items ≡ sources.now) }
{
    let mut copied = Vec::with_capacity(alloc, sources.len())?;
    for journal in sources {
        copied.push(first_of(alloc, journal, journal.entries.len())?)?;
    }
    Ok(copied)
}

// Cuts the list of a number before the item of a place.
fn cut_list<T: Drop>(lists: &mut Vec<Vec<T>>, number: u16, place: u64)
    ensures { lists_of lists.new ≡ cut_list (lists_of lists.old) number place }
{
    if let Some(items) = lists.get_mut(usize::from(number)) {
        items.truncate(place as usize);
    }
}

// Cuts the journal of a source before the entry of a place.
fn cut_source(
    alloc: Global,
    sources: &mut Vec<SourceJournal>,
    number: u16,
    place: u64,
) -> Result<(), AllocError>
    ensures { OnOk result (sources.new.items ≡ cut_source sources.old.items number place) }
{
    let number = usize::from(number);
    if number < sources.len() {
        sources[number] = first_of(alloc, &sources[number], place as usize)?;
    }
    Ok(())
}

// Cuts the journal of an actor before the entry at which it is stuck.
fn cut_at(alloc: Global, part: &mut Part, stuck: Stuck) -> Result<(), AllocError>
    ensures { OnOk result (journals_in part.new ≡ spec.cut_at (journals_in part.old) stuck) }
{
    match stuck.actor {
        Actor::Port(port) => {
            cut_list(&mut part.journals.ports, port, stuck.place);
            Ok(())
        }
        Actor::Source(source) => cut_source(alloc, &mut part.sources, source, stuck.place),
    }
}

fn cut_all(alloc: Global, part: &mut Part, all: &[Stuck]) -> Result<(), AllocError>
    ensures { OnOk result (journals_in part.new ≡ spec.cut_all (journals_in part.old) all.now) }
{
    for stuck in all {
        cut_at(alloc, part, *stuck)?;
    }
    Ok(())
}

// The entries that a fault names; Err at want of memory.
fn named_in(alloc: Global, fault: &WeaveFault) -> Result<Vec<Stuck>, AllocError>
    ensures value { IfOk result (λ named. named.items ≡ spec.named_in fault.now) }
    ensures other { IsOk result → fault.now ≢ Memory }
{
    match fault {
        WeaveFault::Mismatch { actor, place } => {
            let stuck = Stuck {
                actor: *actor,
                place: *place,
            };
            Vec::from_slice(alloc, &[stuck])
        }
        WeaveFault::NoOrder(all) => Vec::from_slice(alloc, all.as_slice()),
        WeaveFault::Memory => Err(AllocError),
    }
}

// Cuts the journals before the entries that a fault names, and notes these.
fn stop_at(
    alloc: Global,
    part: &mut Part,
    stuck: &mut Vec<Stuck>,
    fault: &WeaveFault,
) -> Result<(), AllocError>
    ensures cut { OnOk result (journals_in part.new ≡
        spec.cut_all (journals_in part.old) (spec.named_in fault.now)) }
    ensures noted { OnOk result (stuck.new.items ≡ stuck.old.items ++ spec.named_in fault.now) }
    ensures other { IsOk result → fault.now ≢ Memory }
{
    let named = named_in(alloc, fault)?;
    cut_all(alloc, part, named.as_slice())?;
    stuck.extend_from_slice(named.as_slice())?;
    Ok(())
}

// Weaves journals up to the entries at which they are stuck.
fn weave_cut(alloc: Global, net: &Net, mut part: Part) -> Result<WovenPart, AllocError>
    requires { AreJournalsOf net.now (journals_in part) }
    ensures ok { IfOk result (IsWovenPart net.now (journals_in part)) }
    ensures once { IfOk result (λ part. NamesEachOnce part.stuck) }
{
    let mut stuck = Vec::with_capacity(alloc, net.conns().len())?;
    'cutting: loop {
        match weave(alloc, net, &part.journals, part.sources.as_slice()) {
            Ok(events) => {
                let stuck = Sequence::from(stuck);
                return Ok(WovenPart { events, stuck });
            }
            Err(fault) => stop_at(alloc, &mut part, &mut stuck, &fault)?,
        }
    }
}

/// Weaves the journals of a run up to the entries at which they are stuck: each journal is cut before the entry of it that a fault names,
/// and what is left is woven again, until it is woven. So no actor is named twice.
pub fn weave_part(alloc: Global, told: &Run) -> Result<WovenPart, AllocError>
    requires { IsSizedRun told.now }
    ensures ok { IfOk result (IsWovenPart told.now.net (run_journals told.now)) }
    ensures once { IfOk result (λ part. NamesEachOnce part.stuck) }
{
    let ports = copied_ports(alloc, told.journals.ports.as_slice())?;
    let part = Part {
        journals: Journals { ports },
        sources: copied_sources(alloc, told.sources.as_slice())?,
    };
    weave_cut(alloc, &told.net, part)
}
