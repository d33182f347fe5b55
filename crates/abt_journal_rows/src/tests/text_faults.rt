//! Faults of texts that no single line shows: places, actors, nets, octets, and what comes from a text before.
use super::{fault_in, joined, same};
use abt_journal_text::{Book, Cause, LineFault, read_text};
use abt_net::NetFault;
use std::alloc::Global;
use std::process::Abort;
use std::test::Fail;

const NET: &str =
    "{\"net\":{\"ports\":[512000],\"connections\":[{\"vpi\":1,\"vci\":100,\"path\":[0],\"delay\":0,\"tau\":0}]}}\n";

const END: &str = "{\"end\":true}\n";

/// Demands that the lines of a text behind its net, if it has one, have this fault there.
fn fails(
    rt: &impl Abort,
    alloc: Global,
    lines: &[&str],
    line: u64,
    cause: Cause,
) -> Result<(), Fail> {
    let text = joined(alloc, lines)?;
    let found = fault_in(alloc, &mut text.as_bytes());
    same(rt, &found, &Some((line, cause)));
    Ok(())
}

/// The step of a port of this place.
fn step(alloc: Global, port: &str, place: &str) -> Result<String, Fail> {
    Ok(joined(
        alloc,
        &[
            "{\"port\":",
            port,
            ",\"place\":",
            place,
            ",\"input\":{\"capacity\":0},\"reply\":\"set\"}\n",
        ],
    )?)
}

#[test]
fn places_count_on(rt: HostRuntime) -> Result<(), Fail> {
    let alloc = rt.alloc();
    let zero = step(alloc, "0", "0")?;
    let one = step(alloc, "0", "1")?;
    let two = step(alloc, "0", "2")?;
    fails(&rt, alloc, &[NET, one.as_str()], 2, Cause::Place)?;
    fails(
        &rt,
        alloc,
        &[NET, zero.as_str(), two.as_str()],
        3,
        Cause::Place,
    )?;
    fails(
        &rt,
        alloc,
        &[NET, zero.as_str(), one.as_str(), one.as_str()],
        4,
        Cause::Place,
    )?;
    fails(
        &rt,
        alloc,
        &[NET, zero.as_str(), one.as_str(), zero.as_str()],
        4,
        Cause::Place,
    )
}

#[test]
fn actors_are_those_of_the_net(rt: HostRuntime) -> Result<(), Fail> {
    let alloc = rt.alloc();
    let other = step(alloc, "1", "0")?;
    fails(&rt, alloc, &[NET, other.as_str()], 2, Cause::NoPort)?;
    fails(
        &rt,
        alloc,
        &[NET, "{\"source\":1,\"sent\":0}\n"],
        2,
        Cause::NoSource,
    )?;
    fails(
        &rt,
        alloc,
        &[
            "{\"net\":{\"ports\":[],\"connections\":[]}}\n",
            other.as_str(),
        ],
        2,
        Cause::NoPort,
    )
}

#[test]
fn the_net_is_one_by_the_rules(rt: HostRuntime) -> Result<(), Fail> {
    let alloc = rt.alloc();
    let far =
        "{\"net\":{\"ports\":[],\"connections\":[{\"vpi\":1,\"vci\":1,\"path\":[0],\"delay\":0,\"tau\":0}]}}\n";
    fails(
        &rt,
        alloc,
        &[far],
        1,
        Cause::Net(NetFault::NoPort { connection: 0 }),
    )?;
    let still =
        "{\"net\":{\"ports\":[0],\"connections\":[{\"vpi\":1,\"vci\":1,\"path\":[],\"delay\":0,\"tau\":0}]}}\n";
    fails(
        &rt,
        alloc,
        &[still],
        1,
        Cause::Net(NetFault::PathLength { connection: 0 }),
    )
}

#[test]
fn octets_that_are_no_text_are_told_before_what_they_say(rt: HostRuntime) {
    let alloc = rt.alloc();
    let mut octets: &[u8] = b"{\"end\":true,\"\xff\":0}\n";
    same(
        &rt,
        &fault_in(alloc, &mut octets),
        &Some((1, Cause::Line(LineFault::Utf8))),
    );
    let mut cut: &[u8] = b"\xc3\n\xa9";
    same(
        &rt,
        &fault_in(alloc, &mut cut),
        &Some((1, Cause::Line(LineFault::Utf8))),
    );
    let mut ended_by_two: &[u8] = b"{\"end\":true}\r\n";
    same(
        &rt,
        &fault_in(alloc, &mut ended_by_two),
        &Some((1, Cause::NoNet)),
    );
}

/// Where the second of two texts has its fault.
fn second_fault(
    alloc: Global,
    first: &[&str],
    second: &[&str],
) -> Result<Option<(u64, u64, Cause)>, Fail> {
    let first = joined(alloc, first)?;
    let second = joined(alloc, second)?;
    let mut book = Book::new(alloc);
    if read_text(alloc, &mut book, 1, &mut first.as_bytes()).is_err() {
        return Err(Fail::from("the first text isn't read"));
    }
    match read_text(alloc, &mut book, 2, &mut second.as_bytes()) {
        Ok(()) => Ok(None),
        Err(fault) => Ok(Some((fault.spot.text, fault.spot.line, fault.cause))),
    }
}

#[test]
fn a_later_text_goes_on_where_the_one_before_ended(rt: HostRuntime) -> Result<(), Fail> {
    let alloc = rt.alloc();
    let zero = step(alloc, "0", "0")?;
    let one = step(alloc, "0", "1")?;
    let first = [NET, zero.as_str(), END];
    same(
        &rt,
        &second_fault(alloc, &first, &[one.as_str(), END])?,
        &None,
    );
    same(
        &rt,
        &second_fault(alloc, &first, &[zero.as_str(), END])?,
        &Some((2, 1, Cause::Place)),
    );
    same(
        &rt,
        &second_fault(alloc, &first, &[NET, END])?,
        &Some((2, 1, Cause::SecondNet)),
    );
    same(&rt, &second_fault(alloc, &first, &[one.as_str()])?, &None);
    same(&rt, &second_fault(alloc, &first, &[])?, &None);
    same(
        &rt,
        &second_fault(alloc, &first, &[END, END])?,
        &Some((2, 2, Cause::Behind)),
    );
    Ok(())
}
