//! A run, and a worker by itself, of which one allocation may be refused (`tools/sweeps`): that is told, nothing waits for ever, and the same
//! call then gives what it should.
use super::fixture::{
    START, ask, entries, faithful, fits, lone_boxes, lone_cells, net, port, ran, scripts,
};
use abt_cell::{Request, Rm, Vc};
use abt_journal::{Entry, PortInput, PortReply, ServeFault};
use abt_links::{Gathered, OpenGate, Parcel, RunFault, access_worker, link_worker};
use abt_model::SourceEntry;
use abt_net::Net;
use abt_node::Onward;
use abt_rate::Rate;
use crossbeam_channel::{Sender, unbounded};
use std::alloc::Global;
use std::process::Abort;
use std::sync::Wait;
use std::test::*;
use std::thread::Threads;

/// How a call ended.
#[derive(Clone, Copy, Debug, PartialEq)]
enum End {
    Done,
    Refused,
    Wrong,
}

// Of three calls one may have been refused memory: demands that the others returned what they should.
fn are_done(rt: &impl Abort, ends: &[End; 3]) {
    let mut refused = false;
    for end in ends {
        if *end == End::Refused && !refused {
            refused = true;
        } else {
            assert_eq!(rt; *end, End::Done);
        }
    }
}

// The entry that the source's request leaves at the port, if memory for it isn't refused.
fn is_passed(entry: Option<&Entry>) -> bool {
    let Some(entry) = entry else {
        return false;
    };
    entry.place == 0
        && entry.caller == 0
        && matches!(entry.input, PortInput::Request(_))
        && entry.reply == PortReply::Requested(Onward::Pass)
}

// Whether a source started, asked, and had its request served by the first port.
fn has_sent(entries: &[SourceEntry]) -> bool {
    entries.len() == 3 && entries.get(2) == Some(&SourceEntry::Sent { place: 0 })
}

fn is_whole(run: &Gathered) -> bool {
    has_sent(entries(run, 0)) && is_passed(port(run, 0).first())
}

// The net with one port and one connection through it, if memory for it isn't refused.
fn lone_net(alloc: Global) -> Option<Net> {
    net(alloc, 1, &[(&[0], 1000, 200)])
}

// The first request of its source.
fn asked() -> Option<Request> {
    let vc = Vc::new(1, 100)?;
    Request::new(vc, 1, Rate::ZERO, Rate::from_code(0x5258))
}

fn run_end<R: Threads + Wait + Sync>(rt: &R, alloc: Global, workers: u16) -> End {
    let Some(net) = lone_net(alloc) else {
        return End::Refused;
    };
    match ran(rt, alloc, &net, &[&[START, ask(0x5120)]], faithful(workers)) {
        Ok(run) if is_whole(&run) => End::Done,
        Ok(_) => End::Wrong,
        Err(RunFault::Memory | RunFault::Thread) => End::Refused,
        Err(_) => End::Wrong,
    }
}

#[test]
fn a_run_by_one_link_worker_is_gathered_after_memory_was_refused(rt: HostRuntime) {
    let alloc = rt.alloc();
    let ends = [
        run_end(&rt, alloc, 1),
        run_end(&rt, alloc, 1),
        run_end(&rt, alloc, 1),
    ];
    are_done(&rt, &ends);
}

#[test]
fn a_run_by_three_link_workers_is_gathered_after_memory_was_refused(rt: HostRuntime) {
    let alloc = rt.alloc();
    let ends = [
        run_end(&rt, alloc, 3),
        run_end(&rt, alloc, 3),
        run_end(&rt, alloc, 3),
    ];
    are_done(&rt, &ends);
}

// What is wrong with an access worker's end, None if what it needs was refused memory.
fn access_end<R: Wait>(rt: &R, alloc: Global) -> Option<End> {
    let net = lone_net(alloc)?;
    let cells = lone_cells(alloc, &net)?;
    let boxes = lone_boxes(alloc, &net)?;
    let scripts = scripts(alloc, &[&[START, ask(0x5258)]])?;
    let script = scripts.first()?;
    let (to, _from) = unbounded(alloc).ok()?;
    if !fits(&net, 0, script) {
        return Some(End::Wrong);
    }
    let worked = access_worker(rt, alloc, &net, 0, script, &cells, to, &boxes, &OpenGate);
    Some(match worked {
        Ok((seat, journal)) => {
            if has_sent(journal.entries.as_slice()) && seat.receipts().len() == 1 {
                End::Done
            } else {
                End::Wrong
            }
        }
        Err(ServeFault::Memory) => End::Refused,
        Err(_) => End::Wrong,
    })
}

#[test]
fn an_access_worker_works_after_memory_was_refused(rt: HostRuntime) {
    let alloc = rt.alloc();
    let ends = [
        access_end(&rt, alloc).unwrap_or(End::Refused),
        access_end(&rt, alloc).unwrap_or(End::Refused),
        access_end(&rt, alloc).unwrap_or(End::Refused),
    ];
    are_done(&rt, &ends);
}

// Sends a parcel, once more if memory for it was refused.
fn send_surely<R: Wait>(rt: &R, to: &Sender<Parcel>, parcel: Parcel) {
    if to.send(rt, parcel).is_err() {
        let _ = to.send(rt, parcel);
    }
}

// The end of a link worker to which two parcels and a stop come. A parcel for which there is no memory is lost.
fn link_end<R: Wait>(rt: &R, alloc: Global) -> Option<End> {
    let net = lone_net(alloc)?;
    let cells = lone_cells(alloc, &net)?;
    let boxes = lone_boxes(alloc, &net)?;
    let (to, from) = unbounded(alloc).ok()?;
    let parcel = Parcel::of(0, &Rm::Request(asked()?));
    send_surely(rt, &to, parcel);
    send_surely(rt, &to, parcel);
    send_surely(rt, &to, Parcel::Stop);
    let plan = faithful(1);
    let worked = link_worker(
        rt, alloc, &net, 1, plan, &cells, to, from, &boxes, &OpenGate,
    );
    Some(match worked {
        Ok(seat) => match seat.receipts().len() {
            2 => End::Done,
            1 => End::Refused,
            _ => End::Wrong,
        },
        Err(_) => End::Wrong,
    })
}

#[test]
fn a_link_worker_works_after_memory_was_refused(rt: HostRuntime) {
    let alloc = rt.alloc();
    let ends = [
        link_end(&rt, alloc).unwrap_or(End::Refused),
        link_end(&rt, alloc).unwrap_or(End::Refused),
        link_end(&rt, alloc).unwrap_or(End::Refused),
    ];
    are_done(&rt, &ends);
}
