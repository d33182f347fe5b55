//! Capacities in the journals of ports. 600 cells per second are 307,200 units.
use super::*;

#[test]
fn a_capacity_is_an_event_of_its_port_alone(rt: HostRuntime) -> Result<(), Fail> {
    let net = net(rt.alloc(), 2, &[&[0]])?;
    let ports: [&[Entry]; 2] = [&[], &[capped(0, 7, Ok(()))]];
    let answer = woven(rt.alloc(), &net, &ports, &[&[]])?;
    let at_port_1 = Event::Capacity {
        port: 1,
        capacity: 7,
    };
    gives(&rt, answer, &[at_port_1]);
    Ok(())
}

#[test]
fn a_capacity_that_says_another_place_is_left(rt: HostRuntime) -> Result<(), Fail> {
    let net = lone(rt.alloc())?;
    let answer = woven(rt.alloc(), &net, &[&[capped(1, 7, Ok(()))]], &[&[]])?;
    is_stuck(&rt, answer, &[at(Actor::Port(0), 0)]);
    Ok(())
}

#[test]
fn a_capacity_above_the_limit_is_refused_by_name(rt: HostRuntime) -> Result<(), Fail> {
    let net = lone(rt.alloc())?;
    let above = 1_152_921_504_606_846_977;
    let refused = [capped(0, above, Err(CapacityFault::AboveLimit))];
    weaves(&rt, woven(rt.alloc(), &net, &[&refused], &[&[]])?);
    let below = [capped(0, above, Err(CapacityFault::BelowSum))];
    let answer = woven(rt.alloc(), &net, &[&below], &[&[]])?;
    mismatches(&rt, answer, at(Actor::Port(0), 0));
    let set = [capped(0, above, Ok(()))];
    let answer = woven(rt.alloc(), &net, &[&set], &[&[]])?;
    mismatches(&rt, answer, at(Actor::Port(0), 0));
    Ok(())
}

/// The port passes a request for 600 cells per second, and is then given a capacity.
fn capped_after_a_grant(
    rt: &HostRuntime,
    capacity: u64,
    answer: Result<(), CapacityFault>,
) -> Result<Result<Sequence<Event>, WeaveFault>, Fail> {
    let net = lone(rt.alloc())?;
    let first = request(100, 1, 0, 0x5258)?;
    let source = [started(0, 0), asked(0, first), sent(0)];
    let port = [
        served(0, 0, first, Onward::Pass),
        capped(1, capacity, answer),
    ];
    woven(rt.alloc(), &net, &[&port], &[&source])
}

#[test]
fn a_capacity_below_the_sum_is_refused(rt: HostRuntime) -> Result<(), Fail> {
    let below = Err(CapacityFault::BelowSum);
    weaves(&rt, capped_after_a_grant(&rt, 307_199, below)?);
    weaves(&rt, capped_after_a_grant(&rt, 307_200, Ok(()))?);
    let answer = capped_after_a_grant(&rt, 307_199, Ok(()))?;
    mismatches(&rt, answer, at(Actor::Port(0), 1));
    let answer = capped_after_a_grant(&rt, 307_200, below)?;
    mismatches(&rt, answer, at(Actor::Port(0), 1));
    Ok(())
}

/// The port is given a capacity, and then answers a request for 600 cells per second so.
fn asked_after_a_capacity(
    rt: &HostRuntime,
    capacity: u64,
    passes: bool,
) -> Result<Result<Sequence<Event>, WeaveFault>, Fail> {
    let net = lone(rt.alloc())?;
    let first = request(100, 1, 0, 0x5258)?;
    let source = [started(0, 0), asked(0, first), sent(1)];
    let onward = if passes {
        Onward::Pass
    } else {
        Onward::Refuse(Answer::of(&first, false))
    };
    let port = [capped(0, capacity, Ok(())), served(1, 0, first, onward)];
    woven(rt.alloc(), &net, &[&port], &[&source])
}

#[test]
fn a_request_is_answered_by_the_capacity_in_force(rt: HostRuntime) -> Result<(), Fail> {
    weaves(&rt, asked_after_a_capacity(&rt, 307_200, true)?);
    weaves(&rt, asked_after_a_capacity(&rt, 307_199, false)?);
    let answer = asked_after_a_capacity(&rt, 307_199, true)?;
    mismatches(&rt, answer, at(Actor::Port(0), 1));
    let answer = asked_after_a_capacity(&rt, 307_200, false)?;
    mismatches(&rt, answer, at(Actor::Port(0), 1));
    Ok(())
}
