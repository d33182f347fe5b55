//! Ports and rates that no world can have, on which the checks are seen to find violations.
use super::{same, same_items};
use abt_cell::{Request, Vc};
use abt_index::Lookups;
use abt_node::Port;
use abt_rate::Rate;
use abt_safety::{
    ViolationFlags, Violations, fits, held_along, is_above, is_held, is_over, recount,
};
use std::alloc::{AllocError, Global};
use std::process::Abort;
use std::test::Fail;

/// Two ports of 1,000 cells per second, of which the first holds 600 for the channel and the second 400.
fn ports_with(alloc: Global, vc: Vc) -> Result<Vec<Port>, AllocError> {
    let mut ports = Vec::new(alloc);
    for (id, code) in [(0, 0x5258), (1, 0x5120)] {
        let mut port = Port::new(alloc, id, 512000)?;
        port.add(vc, None).map_err(|_| AllocError)?;
        if let Some(request) = Request::new(vc, 1, Rate::ZERO, Rate::from_code(code)) {
            port.request(&request);
        }
        ports.push(port)?;
    }
    Ok(ports)
}

/// These two ports, made once more if memory was refused.
fn ports(alloc: Global, vc: Vc) -> Result<Vec<Port>, AllocError> {
    match ports_with(alloc, vc) {
        Ok(ports) => Ok(ports),
        Err(_) => ports_with(alloc, vc),
    }
}

// Demands whether a rate is held along a path.
fn covers(rt: &impl Abort, ports: &[Port], vc: Vc, path: &[u16], rate: Rate, expected: bool) {
    same(
        rt,
        &is_held(rate, vc, path, ports, &mut Lookups::new()),
        &expected,
    );
}

// Code 5121 is the next rate above that of 5120.
#[test]
fn a_rate_one_step_above_what_a_hop_holds_is_found(rt: HostRuntime) -> Result<(), Fail> {
    let vc = Vc::new(1, 100).unwrap();
    let ports = ports(rt.alloc(), vc)?;
    let (held, above) = (Rate::from_code(0x5120), Rate::from_code(0x5121));
    covers(&rt, &ports, vc, &[0, 1], held, true);
    covers(&rt, &ports, vc, &[0], above, true);
    covers(&rt, &ports, vc, &[0, 1], above, false);
    covers(&rt, &ports, vc, &[1, 0], above, false);
    Ok(())
}

// A list of what is held; if memory was refused, it is asked for once more.
#[test]
fn what_each_hop_holds_is_listed_in_order(rt: HostRuntime) -> Result<(), Fail> {
    let vc = Vc::new(1, 100).unwrap();
    let ports = ports(rt.alloc(), vc)?;
    let path = [1, 0, 2];
    let held = match held_along(rt.alloc(), vc, &path, &ports) {
        Ok(held) => held,
        Err(_) => held_along(rt.alloc(), vc, &path, &ports)?,
    };
    let expected = [Rate::from_code(0x5120), Rate::from_code(0x5258), Rate::ZERO];
    same_items(&rt, held.as_slice(), &expected);
    Ok(())
}

#[test]
fn a_port_that_is_not_there_holds_nothing(rt: HostRuntime) -> Result<(), Fail> {
    let (vc, other) = (Vc::new(1, 100).unwrap(), Vc::new(1, 101).unwrap());
    let ports = ports(rt.alloc(), vc)?;
    let least = Rate::from_code(0x4000);
    covers(&rt, &ports, vc, &[2], least, false);
    covers(&rt, &ports, other, &[0], least, false);
    covers(&rt, &ports, other, &[2], Rate::ZERO, true);
    Ok(())
}

#[test]
fn a_sum_up_to_its_capacity_fits(rt: HostRuntime) -> Result<(), Fail> {
    assert!(rt; fits(512000, 512000));
    assert!(rt; !fits(512001, 512000));
    let mut ports = ports(rt.alloc(), Vc::new(1, 100).unwrap())?;
    let mut looks = Lookups::new();
    for port in [Some(0), Some(1), Some(2), None] {
        is_well(&rt, port, &ports, &mut looks);
    }
    same(&rt, &looks.count(), &3);
    let first = ports.get_mut(0).ok_or("no first port")?;
    is_well_at(&rt, first, 307200);
    Ok(())
}

// Gives a port the sum that it holds as its capacity.
fn is_well_at(rt: &impl Abort, port: &mut Port, capacity: u64) {
    assert!(rt; port.set_capacity(capacity).is_ok());
    assert!(rt; !is_above(port));
    assert!(rt; !ViolationFlags::of_port(port).over);
}

fn is_well(rt: &impl Abort, port: Option<u16>, ports: &[Port], looks: &mut Lookups) {
    assert!(rt; !is_over(port, ports, looks));
}

#[test]
fn a_count_follows_the_one_that_changed(rt: HostRuntime) -> Result<(), Fail> {
    for (before, after, count) in [
        (false, false, 5),
        (false, true, 6),
        (true, false, 4),
        (true, true, 5),
    ] {
        same(&rt, &recount(5, before, after), &count);
    }
    Ok(())
}

#[test]
fn each_count_keeps_a_net_from_being_safe(rt: HostRuntime) -> Result<(), Fail> {
    let none = Violations::none();
    assert!(rt; none.is_safe());
    let marks = ViolationFlags::none();
    for mark in [
        ViolationFlags {
            above: true,
            ..marks
        },
        ViolationFlags {
            over: true,
            ..marks
        },
        ViolationFlags {
            broken: true,
            ..marks
        },
    ] {
        let violations = none.after(&marks, &mark);
        assert!(rt; !violations.is_safe());
        assert!(rt; violations.after(&mark, &marks).is_safe());
    }
    Ok(())
}
