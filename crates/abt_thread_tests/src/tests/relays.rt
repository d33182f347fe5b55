//! A connection through 16 ports, whose every request makes 31 parcels of the one link worker: the request comes to 15 ports more,
//! and its yes to all 16.
use super::fixture::{LONG, START, ask, entries, faithful, is_told, listen, net, port, ran};
use abt_cell::Answer;
use abt_journal::PortInput;
use abt_links::ThreadPlan;
use abt_model::{Command, Heard, Outcome, SourceEntry};
use abt_net::Net;
use std::alloc::Global;
use std::test::*;

const PATH: &[u16] = &[0, 1, 2, 3, 4, 5, 6, 7, 8, 9, 10, 11, 12, 13, 14, 15];

fn long_net(alloc: Global) -> Result<Net, Fail> {
    Ok(net(alloc, 16, &[(PATH, 1000, 200)]).ok_or("no net")?)
}

// A start, and so many requests, each with its answer.
fn many(alloc: Global, requests: usize) -> Option<Vec<Command>> {
    let mut script = Vec::new(alloc);
    script.push(START).ok()?;
    let request = [ask(0x5258), listen(LONG)];
    for _request in 0..requests {
        script.extend_from_slice(&request).ok()?;
    }
    Some(script)
}

// The number of the request that was asked, if one was.
fn asked_number(entry: &SourceEntry) -> Option<u32> {
    match entry {
        SourceEntry::Did(_, outcome) => number_in(outcome),
        _ => None,
    }
}

fn number_in(outcome: &Outcome) -> Option<u32> {
    match outcome {
        Outcome::Asked(request) => Some(request.seq()),
        _ => None,
    }
}

// Whether three entries are those of a request that was granted.
fn is_granted(entries: &[SourceEntry], number: u32) -> bool {
    let [asked, sent, told] = entries else {
        return false;
    };
    asked_number(asked) == Some(number)
        && matches!(sent, SourceEntry::Sent { .. })
        && is_told(told, number)
        && matches!(told, SourceEntry::Did(_, Outcome::Told(Heard::Raised)))
}

// The yes to a request that came to a port.
fn yes_to(input: &PortInput) -> Option<PortInput> {
    match input {
        PortInput::Request(request) => Some(PortInput::Answer(Answer::of(request, true))),
        _ => None,
    }
}

#[test]
fn each_of_a_hundred_requests_is_granted(rt: HostRuntime) -> Result<(), Fail> {
    let net = long_net(rt.alloc())?;
    let script = many(rt.alloc(), 100).ok_or("no script")?;
    let run = ran(&rt, rt.alloc(), &net, &[script.as_slice()], faithful(1))?;
    assert_eq!(rt; entries(&run, 0).len(), 301);
    let [_, granted @ ..] = entries(&run, 0) else {
        return Err(Fail::from("no entry"));
    };
    let mut number = 1u32;
    for three in granted.chunks(3) {
        assert!(rt; is_granted(three, number));
        number = number.saturating_add(1);
    }
    Ok(())
}

#[test]
fn a_request_whose_first_parcel_is_lost_is_not_answered(rt: HostRuntime) -> Result<(), Fail> {
    let net = long_net(rt.alloc())?;
    let plan = ThreadPlan {
        workers: 1,
        drop_every: 32,
        repeat_every: 0,
    };
    let script = [START, ask(0x5258), listen(LONG), ask(0x5258), listen(1000)];
    let run = ran(&rt, rt.alloc(), &net, &[&script], plan)?;
    let [_, asked, sent, told, _, last] = entries(&run, 0) else {
        return Err(Fail::from("not six entries"));
    };
    assert!(rt; is_granted(&[*asked, *sent, *told], 1));
    assert!(rt; matches!(last, SourceEntry::Sent { .. }));
    assert_eq!(rt; port(&run, 0).len(), 3);
    for number in 1..16usize {
        assert_eq!(rt; port(&run, number).len(), 2);
    }
    Ok(())
}

#[test]
fn the_last_parcel_is_served_twice(rt: HostRuntime) -> Result<(), Fail> {
    let net = long_net(rt.alloc())?;
    let plan = ThreadPlan {
        workers: 1,
        drop_every: 0,
        repeat_every: 31,
    };
    let script = [START, ask(0x5258), listen(LONG)];
    let run = ran(&rt, rt.alloc(), &net, &[&script], plan)?;
    let [first, second, third] = port(&run, 0) else {
        return Err(Fail::from("not three entries"));
    };
    let yes = yes_to(&first.input);
    assert!(rt; yes == Some(second.input));
    assert!(rt; yes == Some(third.input));
    Ok(())
}
