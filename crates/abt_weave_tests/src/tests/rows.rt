//! Small journals, whose weaving was worked by hand.
use super::*;

#[test]
fn a_port_that_served_what_no_source_sent_is_left(rt: HostRuntime) -> Result<(), Fail> {
    let net = lone(rt.alloc())?;
    let first = request(100, 1, 0, 0x5258)?;
    let port = [served(0, 0, first, Onward::Pass)];
    let answer = woven(rt.alloc(), &net, &[&port], &[&[]])?;
    is_stuck(&rt, answer, &[at(Actor::Port(0), 0)]);
    Ok(())
}

#[test]
fn a_request_is_one_event_at_its_source_and_its_port(rt: HostRuntime) -> Result<(), Fail> {
    let net = lone(rt.alloc())?;
    let first = request(100, 1, 0, 0x5258)?;
    let source = [started(0, 0), asked(0, first), sent(0)];
    let dropped = [served(0, 0, first, Onward::Drop(DropCause::UnknownVc))];
    let answer = woven(rt.alloc(), &net, &[&dropped], &[&source])?;
    mismatches(&rt, answer, at(Actor::Port(0), 0));
    let passed = [served(0, 0, first, Onward::Pass)];
    let answer = woven(rt.alloc(), &net, &[&passed], &[&source])?;
    let events = [
        Event::Start { conn: 0, now: 0 },
        Event::Ask {
            conn: 0,
            rate: rate(0x5258),
            plan: StorePlan::Works,
        },
        Event::Request {
            conn: 0,
            hop: 1,
            seq: 1,
        },
    ];
    gives(&rt, answer, &events);
    Ok(())
}

#[test]
fn a_source_that_never_asked_hears_nothing(rt: HostRuntime) -> Result<(), Fail> {
    let net = lone(rt.alloc())?;
    let first = request(100, 1, 0, 0x5258)?;
    let port = [served(0, 0, first, Onward::Pass)];
    let source = [started(0, 0), told(0, 1, true, Heard::Raised)];
    let answer = woven(rt.alloc(), &net, &[&port], &[&source])?;
    is_stuck(
        &rt,
        answer,
        &[at(Actor::Source(0), 1), at(Actor::Port(0), 0)],
    );
    Ok(())
}

// The yes comes back at the one hop.
fn comes_back() -> Event {
    Event::Answer {
        conn: 0,
        hop: 1,
        seq: 1,
        granted: true,
    }
}

// The source is told of it.
fn comes_home() -> Event {
    Event::Told {
        conn: 0,
        seq: 1,
        granted: true,
    }
}

// A yes that is turned once, and comes twice.
fn turned_once() -> [Event; 8] {
    [
        Event::Start { conn: 0, now: 0 },
        Event::Ask {
            conn: 0,
            rate: rate(0x5258),
            plan: StorePlan::Works,
        },
        Event::Request {
            conn: 0,
            hop: 1,
            seq: 1,
        },
        Event::Turn { conn: 0, seq: 1 },
        comes_back(),
        comes_home(),
        comes_back(),
        comes_home(),
    ]
}

// The yes at the last hop needs its Turn, which stands in no journal, and needs it once. Each pass takes one entry of an actor.
#[test]
fn a_yes_is_turned_once_however_often_it_comes(rt: HostRuntime) -> Result<(), Fail> {
    let net = lone(rt.alloc())?;
    let first = request(100, 1, 0, 0x5258)?;
    let port = [
        served(0, 0, first, Onward::Pass),
        returned(1, first, true, Back::Pass),
        returned(2, first, true, Back::Pass),
    ];
    let source = [
        started(0, 0),
        asked(0, first),
        sent(0),
        told(0, 1, true, Heard::Raised),
        told(0, 1, true, Heard::Ignored),
    ];
    let answer = woven(rt.alloc(), &net, &[&port], &[&source])?;
    gives(&rt, answer, &turned_once());
    Ok(())
}
