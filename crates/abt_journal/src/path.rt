//! Where messages go along a path.
ghost use Rattle.std.specs.Prelude.{◌≡◌, ◌≤◌, length};
ghost use Rattle.abt_journal.specs.Following as following;

use crate::PortReply;
use crate::next_message::Next;
use abt_cell::{Answer, Request, Rm};
use abt_node::{Back, Onward};

// The answer that goes back from a hop.
fn back_from(path: &[u16], conn: u16, hop: usize, answer: Answer) -> Next
    requires first { 1 ≤ hop }
    requires last { hop ≤ length path.now }
    ensures { result ≡ following.back_from path.now conn hop answer }
{
    if hop == 1 {
        return Next::Tell { conn, answer };
    }
    Next::Send {
        port: path[hop - 2],
        rm: Rm::Answer(answer),
    }
}

// The message that goes on from a hop that passed a request.
fn on_from(path: &[u16], hop: usize, request: Request) -> Next
    requires first { 1 ≤ hop }
    requires last { hop ≤ length path.now }
    ensures { result ≡ following.on_from path.now hop request }
{
    if hop == path.len() {
        return Next::Send {
            port: path[hop - 1],
            rm: Rm::Answer(Answer::of(&request, true)),
        };
    }
    Next::Send {
        port: path[hop],
        rm: Rm::Request(request),
    }
}

// Whether the answer is the no to this request.
fn is_no_to(request: &Request, answer: &Answer) -> bool
    ensures { result ≡ following.is_no_to request.now answer.now }
{
    !answer.granted()
        && answer.vc() == request.vc()
        && answer.seq() == request.seq()
        && answer.floor() == request.floor()
        && answer.ask() == request.ask()
}

// The message that is sent after a hop's reply to one.
pub(crate) fn sent_after(path: &[u16], conn: u16, hop: usize, rm: &Rm, reply: &PortReply) -> Next
    requires first { 1 ≤ hop }
    requires last { hop ≤ length path.now }
    ensures { result ≡ following.sent_after path.now conn hop rm.now reply.now }
{
    match (rm, reply) {
        (Rm::Request(request), PortReply::Requested(Onward::Pass)) => on_from(path, hop, *request),
        (Rm::Request(request), PortReply::Requested(Onward::Refuse(answer)))
            if is_no_to(request, answer) => { back_from(path, conn, hop, *answer) }
        (Rm::Answer(answer), PortReply::Answered(Back::Pass)) => {
            back_from(path, conn, hop, *answer)
        }
        _ => Next::Nothing,
    }
}
