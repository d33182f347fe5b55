//! Journals in which something was made up, and what is left of them.
use super::*;
use abt_gcra::Verdict;
use abt_world::Cause;

/// A source over two ports that asked for 600 cells per second and sent its request.
fn asks(first: Request) -> [SourceEntry; 3] {
    [started(0, 0), asked(0, first), sent(0)]
}

#[test]
fn a_yes_that_a_link_worker_made_by_itself_is_left(rt: HostRuntime) -> Result<(), Fail> {
    let net = net(rt.alloc(), 2, &[&[0, 1]])?;
    let first = request(100, 1, 0, 0x5258)?;
    let port = [
        served(0, 0, first, Onward::Pass),
        returned(1, first, true, Back::Pass),
    ];
    let source = [
        started(0, 0),
        asked(0, first),
        sent(0),
        told(0, 1, true, Heard::Raised),
    ];
    let answer = woven(rt.alloc(), &net, &[&port, &[]], &[&source])?;
    is_stuck(
        &rt,
        answer,
        &[at(Actor::Source(0), 3), at(Actor::Port(0), 1)],
    );
    Ok(())
}

#[test]
fn a_yes_to_what_was_refused_is_left(rt: HostRuntime) -> Result<(), Fail> {
    let net = lone(rt.alloc())?;
    let first = request(100, 1, 0, 0x53e9)?;
    let no = Answer::of(&first, false);
    let port = [
        served(0, 0, first, Onward::Refuse(no)),
        returned(1, first, true, Back::Drop(DropCause::Conflict)),
    ];
    let answer = woven(rt.alloc(), &net, &[&port], &[&asks(first)])?;
    is_stuck(&rt, answer, &[at(Actor::Port(0), 1)]);
    Ok(())
}

#[test]
fn a_yes_at_a_port_before_its_request_is_left(rt: HostRuntime) -> Result<(), Fail> {
    let net = net(rt.alloc(), 2, &[&[0, 1]])?;
    let first = request(100, 1, 0, 0x5258)?;
    let near = [served(0, 0, first, Onward::Pass)];
    let far = [
        returned(0, first, true, Back::Pass),
        served(1, 7, first, Onward::Pass),
    ];
    let answer = woven(rt.alloc(), &net, &[&near, &far], &[&asks(first)])?;
    is_stuck(&rt, answer, &[at(Actor::Port(1), 0)]);
    Ok(())
}

// The same port, path and number, but another channel, asked rate or floor; and a port that isn't on the path.
#[test]
fn what_no_event_brings_is_left(rt: HostRuntime) -> Result<(), Fail> {
    let net = net(rt.alloc(), 2, &[&[0]])?;
    let first = request(100, 1, 0, 0x5258)?;
    let left = [at(Actor::Source(0), 2), at(Actor::Port(0), 0)];
    let others = [
        request(101, 1, 0, 0x5258)?,
        request(100, 2, 0, 0x5258)?,
        request(100, 1, 0, 0x5120)?,
        request(100, 1, 0x5120, 0x5258)?,
    ];
    for other in others {
        let port = [served(0, 0, other, Onward::Pass)];
        let answer = woven(rt.alloc(), &net, &[&port, &[]], &[&asks(first)])?;
        is_stuck(&rt, answer, &left);
    }
    let port = [served(0, 0, first, Onward::Pass)];
    let answer = woven(rt.alloc(), &net, &[&[], &port], &[&asks(first)])?;
    is_stuck(
        &rt,
        answer,
        &[at(Actor::Source(0), 2), at(Actor::Port(1), 0)],
    );
    Ok(())
}

#[test]
fn an_entry_at_another_place_is_left(rt: HostRuntime) -> Result<(), Fail> {
    let net = lone(rt.alloc())?;
    let first = request(100, 1, 0, 0x5258)?;
    let left = [at(Actor::Source(0), 2), at(Actor::Port(0), 0)];
    let late = [served(1, 0, first, Onward::Pass)];
    let answer = woven(rt.alloc(), &net, &[&late], &[&asks(first)])?;
    is_stuck(&rt, answer, &left);
    let port = [served(0, 0, first, Onward::Pass)];
    let source = [started(0, 0), asked(0, first), sent(1)];
    let answer = woven(rt.alloc(), &net, &[&port], &[&source])?;
    is_stuck(&rt, answer, &left);
    Ok(())
}

#[test]
fn what_a_source_can_not_have_answered_mismatches(rt: HostRuntime) -> Result<(), Fail> {
    let net = lone(rt.alloc())?;
    let first = request(100, 1, 0, 0x5258)?;
    let ahead = [asked(0, first), started(0, 0)];
    let answer = woven(rt.alloc(), &net, &[&[]], &[&ahead])?;
    mismatches(&rt, answer, at(Actor::Source(0), 0));
    let twice = [started(0, 0), started(0, 0)];
    let answer = woven(rt.alloc(), &net, &[&[]], &[&twice])?;
    mismatches(&rt, answer, at(Actor::Source(0), 1));
    Ok(())
}

// A source that did nothing is answered that it is down, which its journal has.
#[test]
fn what_was_not_enabled_is_woven(rt: HostRuntime) -> Result<(), Fail> {
    let net = lone(rt.alloc())?;
    let source = [did(Event::Crash { conn: 0 }, Outcome::NotEnabled(Cause::Down))];
    let answer = woven(rt.alloc(), &net, &[&[]], &[&source])?;
    gives(&rt, answer, &[Event::Crash { conn: 0 }]);
    Ok(())
}

#[test]
fn an_answer_that_was_not_sent_is_left_though_its_entry_says_so(
    rt: HostRuntime,
) -> Result<(), Fail> {
    let net = lone(rt.alloc())?;
    let yes = Event::Told {
        conn: 0,
        seq: 1,
        granted: true,
    };
    let source = [started(0, 0), did(yes, Outcome::NotEnabled(Cause::NotSent))];
    let answer = woven(rt.alloc(), &net, &[&[]], &[&source])?;
    is_stuck(&rt, answer, &[at(Actor::Source(0), 1)]);
    Ok(())
}

// Of two sources and a port whose next entries mismatch, the first source is named; of a source that is only left and a port
// that mismatches, the port.
#[test]
fn the_first_that_mismatches_is_named(rt: HostRuntime) -> Result<(), Fail> {
    let net = net(rt.alloc(), 2, &[&[0], &[1], &[1]])?;
    let first = request(100, 1, 0, 0x5258)?;
    let dropped = [served(0, 0, first, Onward::Drop(DropCause::Stale))];
    let again = [did(Event::Again { conn: 1 }, Outcome::Crashed)];
    let crash = [did(Event::Crash { conn: 2 }, Outcome::Crashed)];
    let ports: [&[Entry]; 2] = [&dropped, &[]];
    let answer = woven(rt.alloc(), &net, &ports, &[&asks(first), &again, &crash])?;
    mismatches(&rt, answer, at(Actor::Source(1), 0));
    let answer = woven(rt.alloc(), &net, &ports, &[&asks(first), &[sent(0)], &[]])?;
    mismatches(&rt, answer, at(Actor::Port(0), 0));
    Ok(())
}

// A cell is one event at its source and at its port, and who had a step done doesn't matter.
#[test]
fn a_cell_comes_as_its_source_sent_it(rt: HostRuntime) -> Result<(), Fail> {
    let net = lone(rt.alloc())?;
    let first = request(100, 1, 0, 0x53e8)?;
    let now = 1_000_000_000_000;
    let next = 1_001_000_000_000;
    let emit = Event::Emit { conn: 0, now };
    let arrived = |at, verdict| Entry {
        place: 2,
        caller: 65535,
        input: PortInput::Arrive { vc: first.vc(), at },
        reply: PortReply::Arrived(Ok(verdict)),
    };
    let source = [
        started(0, 0),
        asked(0, first),
        sent(0),
        told(0, 1, true, Heard::Raised),
        did(emit, Outcome::Emitted { cell: 0, next }),
        SourceEntry::Arrived { cell: 0, place: 2 },
    ];
    let early = [
        served(0, 9, first, Onward::Pass),
        returned(1, first, true, Back::Pass),
        arrived(now + 1000, Verdict::TooEarly),
    ];
    let answer = woven(rt.alloc(), &net, &[&early], &[&source])?;
    mismatches(&rt, answer, at(Actor::Port(0), 2));
    let late = [
        served(0, 9, first, Onward::Pass),
        returned(1, first, true, Back::Pass),
        arrived(now + 1201, Verdict::Conforming),
    ];
    let answer = woven(rt.alloc(), &net, &[&late], &[&source])?;
    is_stuck(
        &rt,
        answer,
        &[at(Actor::Source(0), 5), at(Actor::Port(0), 2)],
    );
    let port = [
        served(0, 9, first, Onward::Pass),
        returned(1, first, true, Back::Pass),
        arrived(now + 1200, Verdict::Conforming),
    ];
    match woven(rt.alloc(), &net, &[&port], &[&source])? {
        Ok(events) => assert_eq!(rt; events.len(), 8),
        Err(fault) => assert!(rt; false, "{fault:?}"),
    }
    Ok(())
}

#[test]
fn nothing_is_woven_of_a_net_without_ports(rt: HostRuntime) -> Result<(), Fail> {
    let net = net(rt.alloc(), 0, &[])?;
    let answer = woven(rt.alloc(), &net, &[], &[])?;
    gives(&rt, answer, &[]);
    Ok(())
}
