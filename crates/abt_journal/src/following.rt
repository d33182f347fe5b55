//! The rule that workers go by.
ghost use Rattle.std.specs.Prelude.{◌≡◌, ◌≢◌, ℕ, Some};
ghost use Rattle.abt_net.specs.Paths.{hop_of};
ghost use Rattle.abt_net.specs.Topology.{conn_at, channel_at};
ghost use Rattle.abt_net.specs.declared.conn.Conn.{Conn};
ghost use Rattle.abt_journal.specs.Following as following;

use crate::PortReply;
use crate::next_message::Next;
use crate::path::sent_after;
use abt_cell::Rm;
use abt_net::Net;

/// The message that is sent once a port replied to one (docs/RULES.md, "Path"): a request that it passed goes to the
/// next port of its path, and its yes to the last port itself; a no, or an answer that it passed back, goes to the port
/// before, or from the first to the source.
///
/// Nothing is sent after a drop, of a connection that the net doesn't have, by a port off the connection's path, or if
/// the reply isn't one to such a message: one of the other kind, or a refusal with another answer than the request's no.
pub fn follow(net: &Net, port: u16, rm: &Rm, reply: &PortReply) -> Next
    ensures on_path { (c : ℕ) (conn : Conn) → conn_at net.now c ≡ Some conn →
        conn.vc ≡ following.channel_of rm.now →
        hop_of conn.path port ≢ 0 →
        result ≡ following.sent_after conn.path c (hop_of conn.path port) rm.now reply.now }
    ensures off_path { (c : ℕ) (conn : Conn) → conn_at net.now c ≡ Some conn →
        conn.vc ≡ following.channel_of rm.now →
        hop_of conn.path port ≡ 0 → result ≡ Next.Nothing }
    ensures unknown { ((c : ℕ) → channel_at net.now.conns c ≢ Some (following.channel_of rm.now)) →
        result ≡ Next.Nothing }
{
    let Some(number) = net.find(rm.request().vc()) else {
        return Next::Nothing;
    };
    let path = &net.conns()[usize::from(number)].path;
    match path.hop_of(port) {
        Some(hop) => sent_after(path.as_slice(), number, hop, rm, reply),
        None => Next::Nothing,
    }
}
