//! Journals of runs in threads, written as a text and read from it. The scenarios are those of scenarios/threads_*.toml, without comments.
use super::{joined, same};
use abt_journal::{Entry, Journals};
use abt_journal_text::{Book, Run, read_text, write_journals};
use abt_links::OpenGate;
use abt_model::SourceJournal;
use abt_net::Net;
use abt_perform_threads::{Ran, Unrun};
use std::alloc::Global;
use std::process::Abort;
use std::sync::Wait;
use std::test::Fail;
use std::thread::Threads;

const ONE_SOURCE: &str = "ports = [512000]\n\
[[connection]]\nvpi = 1\nvci = 100\npath = [0]\ndelay = 1000\ntau = 200\n\
script = [\"start 0\", \"ask 5120\", \"listen 1000000\", \"emit 1000000000000 0\", \"emit 1002500000000 200\"]\n";

/// The net and the sources of threads_crossing.toml behind its ports.
const CROSSING: &str =
    "[[connection]]\nvpi = 1\nvci = 100\npath = [0, 1]\ndelay = 1000\ntau = 200\n\
script = [\"start 0\", \"ask 5120\", \"listen 1000000\", \"emit 1000000000000 0\", \"ask 5258\", \"listen 1000000\"]\n\
[[connection]]\nvpi = 1\nvci = 101\npath = [1, 0]\ndelay = 1000\ntau = 200\n\
script = [\"start 0\", \"ask 5258\", \"listen 1000000\", \"emit 1000000000000 200\", \"crash\", \"start 1000000000001\", \"ask 5120\"]\n\
[[connection]]\nvpi = 1\nvci = 102\npath = [0]\ndelay = 0\ntau = 0\n\
script = [\"start 0\", \"ask 5120\", \"again\", \"listen 1000000\", \"emit 1000000000000 lost\"]\n";

const PORTS: &str = "ports = [512000, 512000]\n";

const OPERATOR: &str =
    "operator = [\"capacity 0 1024000\", \"capacity 1 0\", \"capacity 0 512000\"]\n";

/// What the scripts of a scenario leave.
fn ran<T: Threads + Wait + Sync>(
    rt: &T,
    alloc: Global,
    text: &str,
    workers: u16,
) -> Result<Ran, Fail> {
    let Ok(unrun) = Unrun::read_from(alloc, &mut text.as_bytes()) else {
        return Err(Fail::from("no scenario"));
    };
    match unrun.run(rt, alloc, workers, &OpenGate) {
        Ok(ran) => Ok(ran),
        Err(_) => Err(Fail::from("no run")),
    }
}

/// The text of a net and its journals.
fn written(
    alloc: Global,
    net: &Net,
    journals: &Journals,
    sources: &[SourceJournal],
) -> Result<Vec<u8>, Fail> {
    if journals.ports.len() != net.capacities().len() || sources.len() != net.conns().len() {
        return Err(Fail::from("a journal is missing"));
    }
    let mut text = Vec::new(alloc);
    match write_journals(alloc, net, journals, sources, &mut text) {
        Ok(()) => Ok(text),
        Err(_) => Err(Fail::from("the journals aren't written")),
    }
}

/// What a text tells.
fn told(alloc: Global, text: &[u8]) -> Result<Run, Fail> {
    let mut book = Book::new(alloc);
    let mut left = text;
    if read_text(alloc, &mut book, 1, &mut left).is_err() {
        return Err(Fail::from("the text isn't read"));
    }
    match book.into_run(alloc)? {
        Some(run) => Ok(run),
        None => Err(Fail::from("no net")),
    }
}

/// Demands that the steps of ports are the same.
fn same_steps(rt: &impl Abort, some: &[Vec<Entry>], others: &[Vec<Entry>]) {
    same(rt, &some.len(), &others.len());
    for (port, steps) in some.iter().enumerate() {
        if let Some(read) = others.get(port) {
            same(rt, &read.as_slice(), &steps.as_slice());
        }
    }
}

/// Demands that the entries of sources are the same.
fn same_entries(rt: &impl Abort, some: &[SourceJournal], others: &[SourceJournal]) {
    same(rt, &some.len(), &others.len());
    for (source, journal) in some.iter().enumerate() {
        if let Some(read) = others.get(source) {
            same(rt, &read.entries.as_slice(), &journal.entries.as_slice());
        }
    }
}

/// Demands that what is written of a run is read as the journals of that run, and is written from these again.
fn comes_back<T: Threads + Wait + Sync + Abort>(
    rt: &T,
    alloc: Global,
    scenario: &str,
    workers: u16,
) -> Result<(), Fail> {
    let Ran { net, gathered } = ran(rt, alloc, scenario, workers)?;
    let sources = gathered.sources.as_slice();
    let text = written(alloc, &net, &gathered.journals, sources)?;
    let run = told(alloc, text.as_slice())?;
    same(rt, &run.net.capacities(), &net.capacities());
    same_steps(
        rt,
        gathered.journals.ports.as_slice(),
        run.journals.ports.as_slice(),
    );
    same_entries(rt, sources, run.sources.as_slice());
    let again = written(alloc, &run.net, &run.journals, run.sources.as_slice())?;
    same(rt, &again.as_slice(), &text.as_slice());
    Ok(())
}

#[test]
fn one_source_comes_back(rt: HostRuntime) -> Result<(), Fail> {
    comes_back(&rt, rt.alloc(), ONE_SOURCE, 1)
}

#[test]
fn crossing_paths_come_back(rt: HostRuntime) -> Result<(), Fail> {
    let alloc = rt.alloc();
    let text = joined(alloc, &[PORTS, CROSSING])?;
    comes_back(&rt, alloc, text.as_str(), 1)?;
    comes_back(&rt, alloc, text.as_str(), 4)
}

#[test]
fn capacities_that_the_operator_gives_come_back(rt: HostRuntime) -> Result<(), Fail> {
    let alloc = rt.alloc();
    let text = joined(alloc, &[PORTS, OPERATOR, CROSSING])?;
    comes_back(&rt, alloc, text.as_str(), 4)
}
