//! What is sent in two nets (docs/FORMATS.md, "Test cells"): one whose only connection visits port 0, and one in which the
//! first connection visits port 1, and the second port 0 and then port 1.
use super::fixture::{net, request};
use abt_cell::{Answer, Request, Rm};
use abt_journal::{Next, PortReply, follow};
use abt_net::Net;
use abt_node::{Back, DropCause, Onward};
use std::alloc::Global;
use std::process::Abort;
use std::test::Fail;

// The first request of a connection, for 600 cells per second.
fn first(vci: u16) -> Result<Request, Fail> {
    request(vci, 1, 0x5258)
}

// Two ports, and connections along these paths, where memory is there for them, and else made once more.
fn made(alloc: Global, conns: &[(u16, &[u16])]) -> Result<Net, Fail> {
    let built = match net(alloc, 2, conns) {
        Some(built) => Some(built),
        None => net(alloc, 2, conns),
    };
    Ok(built.ok_or("no net")?)
}

// Demands what follows a message and a port's reply to it.
fn follows(rt: &impl Abort, net: &Net, port: u16, rm: &Rm, reply: &PortReply, next: Next) {
    assert!(rt; follow(net, port, rm, reply) == next);
}

const PASSED: PortReply = PortReply::Requested(Onward::Pass);

const PASSED_BACK: PortReply = PortReply::Answered(Back::Pass);

#[test]
fn on_a_path_of_one_port_its_yes_comes_to_it_and_then_to_the_source(
    rt: HostRuntime,
) -> Result<(), Fail> {
    let asks = Rm::Request(first(100)?);
    let yes = Answer::of(&first(100)?, true);
    let net = made(rt.alloc(), &[(100, &[0])])?;
    let turned = Next::Send {
        port: 0,
        rm: Rm::Answer(yes),
    };
    follows(&rt, &net, 0, &asks, &PASSED, turned);
    let told = Next::Tell {
        conn: 0,
        answer: yes,
    };
    follows(&rt, &net, 0, &Rm::Answer(yes), &PASSED_BACK, told);
    follows(&rt, &net, 1, &asks, &PASSED, Next::Nothing);
    Ok(())
}

#[test]
fn a_request_climbs_and_its_no_comes_down(rt: HostRuntime) -> Result<(), Fail> {
    let elsewhere = Rm::Request(first(100)?);
    let asks = Rm::Request(first(101)?);
    let no = Answer::of(&first(101)?, false);
    let net = made(rt.alloc(), &[(100, &[1]), (101, &[0, 1])])?;
    follows(&rt, &net, 0, &elsewhere, &PASSED, Next::Nothing);
    let on = Next::Send { port: 1, rm: asks };
    follows(&rt, &net, 0, &asks, &PASSED, on);
    let refused = PortReply::Requested(Onward::Refuse(no));
    let back = Next::Send {
        port: 0,
        rm: Rm::Answer(no),
    };
    follows(&rt, &net, 1, &asks, &refused, back);
    let told = Next::Tell {
        conn: 1,
        answer: no,
    };
    follows(&rt, &net, 0, &Rm::Answer(no), &PASSED_BACK, told);
    Ok(())
}

#[test]
fn nothing_follows_a_drop_or_a_reply_that_does_not_fit(rt: HostRuntime) -> Result<(), Fail> {
    let asks = Rm::Request(first(100)?);
    let yes = Rm::Answer(Answer::of(&first(100)?, true));
    let agreed = PortReply::Requested(Onward::Refuse(Answer::of(&first(100)?, true)));
    let others = PortReply::Requested(Onward::Refuse(Answer::of(&first(101)?, false)));
    let elsewhere = Rm::Request(first(101)?);
    let net = made(rt.alloc(), &[(100, &[0])])?;
    let dropped = PortReply::Requested(Onward::Drop(DropCause::Stale));
    follows(&rt, &net, 0, &asks, &dropped, Next::Nothing);
    let dropped = PortReply::Answered(Back::Drop(DropCause::Stale));
    follows(&rt, &net, 0, &yes, &dropped, Next::Nothing);
    follows(&rt, &net, 0, &asks, &PASSED_BACK, Next::Nothing);
    follows(&rt, &net, 0, &yes, &PASSED, Next::Nothing);
    let capped = PortReply::Capped(Ok(()));
    follows(&rt, &net, 0, &asks, &capped, Next::Nothing);
    follows(&rt, &net, 0, &yes, &capped, Next::Nothing);
    follows(&rt, &net, 0, &asks, &agreed, Next::Nothing);
    follows(&rt, &net, 0, &asks, &others, Next::Nothing);
    follows(&rt, &net, 0, &elsewhere, &PASSED, Next::Nothing);
    Ok(())
}
