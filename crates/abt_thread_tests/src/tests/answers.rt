//! Answers in the box of a source.
ghost use Rattle.std.specs.Prelude.{◌≡◌, length};

use super::fixture::{
    LONG, START, ask, entries, faithful, first_request, fits, is_told, listen, lone_boxes,
    lone_cells, net, one_port, ran, request, scripts,
};
use abt_cell::{Answer, Request, Rm};
use abt_history::NotKept;
use abt_journal::PortReply;
use abt_links::{AnswerBox, OpenGate, Router, access_worker};
use abt_model::{Event, Heard, Outcome, Script, SourceEntry, SourceJournal};
use abt_net::Net;
use abt_node::Onward;
use crossbeam_channel::unbounded;
use std::alloc::Global;
use std::process::Abort;
use std::sync::Wait;
use std::test::*;

// The first port refuses a request.
fn refuse<R: Wait>(rt: &R, post: &Router<'_>, request: &Request) {
    let no = Answer::of(request, false);
    let reply = PortReply::Requested(Onward::Refuse(no));
    post.send_on(rt, 0, &Rm::Request(*request), &reply, NotKept);
}

// Demands that these answers lie in a box in this order, and no more.
fn lie<R: Wait + Abort>(rt: &R, answers: &AnswerBox, expected: &[Answer]) {
    let mut answers = answers.lock(rt);
    for answer in expected {
        assert_eq!(rt; answers.pop_front(), Some(*answer));
    }
    assert_eq!(rt; answers.pop_front(), None);
}

/// The first port refuses two requests, one after the other.
#[test]
fn answers_stand_in_a_box_in_the_order_in_which_they_came(rt: HostRuntime) -> Result<(), Fail> {
    let net = one_port(rt.alloc())?;
    let (parcels, _from) = unbounded(rt.alloc())?;
    let boxes = lone_boxes(rt.alloc(), &net).ok_or("no box")?;
    let post = Router::new(&net, parcels, &boxes);
    let first = request(100, 1, 0x5258)?;
    let second = request(100, 2, 0x5258)?;
    refuse(&rt, &post, &first);
    refuse(&rt, &post, &second);
    let expected = [Answer::of(&first, false), Answer::of(&second, false)];
    lie(&rt, boxes.first().ok_or("no box")?, &expected);
    Ok(())
}

// What the source of the one connection does by a script, with these boxes.
pub(super) fn worked<R: Wait>(
    rt: &R,
    alloc: Global,
    net: &Net,
    script: &Script,
    boxes: &[AnswerBox],
) -> Result<SourceJournal, Fail>
    requires { length boxes.now ≡ length net.now.conns }
{
    let cells = lone_cells(alloc, net).ok_or("no port")?;
    let (to, _from) = unbounded(alloc)?;
    if !fits(net, 0, script) {
        return Err(Fail::from("no script of the net"));
    }
    let (_, journal) = access_worker(rt, alloc, net, 0, script, &cells, to, boxes, &OpenGate)?;
    Ok(journal)
}

// Demands that the fourth entry of four is that of a no to request 1.
fn heard_a_no(rt: &impl Abort, entries: &[SourceEntry]) -> Result<(), Fail> {
    let told = Event::Told {
        conn: 0,
        seq: 1,
        granted: false,
    };
    let [_, _, _, heard] = entries else {
        return Err(Fail::from("not four entries"));
    };
    assert!(rt; *heard == SourceEntry::Did(told, Outcome::Told(Heard::Refused)));
    Ok(())
}

/// A no and a yes to its request lie in the source's box, in this order. It takes one, and then waits for none.
#[test]
fn a_source_takes_the_oldest_answer_of_its_box(rt: HostRuntime) -> Result<(), Fail> {
    let alloc = rt.alloc();
    let net = one_port(alloc)?;
    let boxes = lone_boxes(alloc, &net).ok_or("no box")?;
    let first = first_request(100, 0x5258)?;
    for answers in &boxes {
        answers.lock(&rt).push_back(Answer::of(&first, false))?;
        answers.lock(&rt).push_back(Answer::of(&first, true))?;
    }
    let scripts = scripts(alloc, &[&[START, ask(0x5258), listen(2)]]).ok_or("no script")?;
    let script = scripts.first().ok_or("no script")?;
    let journal = worked(&rt, alloc, &net, script, &boxes)?;
    heard_a_no(&rt, journal.entries.as_slice())
}

/// The number of the connection is 0, and that of the first port of its path is 1.
#[test]
fn a_source_whose_first_port_has_another_number_hears_its_yes(rt: HostRuntime) -> Result<(), Fail> {
    let net = net(rt.alloc(), 2, &[(&[1, 0], 1000, 200)]).ok_or("no net")?;
    let script = [START, ask(0x5258), listen(LONG)];
    let run = ran(&rt, rt.alloc(), &net, &[&script], faithful(1))?;
    let [_, _, _, heard] = entries(&run, 0) else {
        return Err(Fail::from("not four entries"));
    };
    assert!(rt; is_told(heard, 1));
    Ok(())
}
