//! What a port's reply leaves.
ghost use Rattle.std.specs.Prelude.{◌≡◌, ◌≢◌, ℕ, Some};
ghost use Rattle.abt_journal.specs.Following as following;
ghost use Rattle.abt_journal.specs.declared.next_message.Next.{Next as NextSpec};
ghost use Rattle.abt_net.specs.Paths.{hop_of};
ghost use Rattle.abt_net.specs.Topology.{conn_at, channel_at};
ghost use Rattle.abt_net.specs.declared.conn.Conn.{Conn};
ghost use Rattle.abt_weave.specs.Projections.{past_of};
ghost use Rattle.abt_serving.specs.Followed.{FollowsOn};
ghost use Rattle.abt_history.specs.Histories.{happened};
ghost use Rattle.abt_history.specs.Left as left;
ghost use Rattle.abt_history.specs.Modes.{When};

use crate::keeping::{Keeping, Kept};
use crate::letter::{LetterOf, NoticeOf};
use abt_cell::Rm;
use abt_journal::{Next, PortReply, follow};
use abt_net::Net;

/// What a port's reply leaves.
#[derive(Drop)]
pub enum LeftOf<K: Keeping> {
    /// A message to a port.
    ToPort(LetterOf<K>),
    /// An answer to a source.
    ToSource(NoticeOf<K>),
    /// Nothing.
    Nothing,
}

/// What a port's reply leaves in a run that keeps its history.
pub type Left<N, J> = LeftOf<Kept<N, J>>;

/// What follows a port's reply to a message ([`follow`]), with what was seen once the port had replied.
pub fn left_after<K: Keeping>(
    net: &Net,
    port: u16,
    message: &Rm,
    reply: &PortReply,
    front: K::Front,
) -> LeftOf<K>
    requires net { When K.kept (K.net ≡ net.now) }
    requires follows { When K.kept
        (FollowsOn K.net (past_of K.net (happened (K.log front))) port message.now reply.now) }
    ensures on_path { (c : ℕ) (conn : Conn) → conn_at net.now c ≡ Some conn →
        conn.vc ≡ following.channel_of message.now →
        hop_of conn.path port ≢ 0 →
        left.next_in result ≡ following.sent_after conn.path c (hop_of conn.path port) message.now reply.now }
    ensures off_path { (c : ℕ) (conn : Conn) → conn_at net.now c ≡ Some conn →
        conn.vc ≡ following.channel_of message.now →
        hop_of conn.path port ≡ 0 → left.next_in result ≡ NextSpec.Nothing }
    ensures unknown { ((c : ℕ) → channel_at net.now.conns c ≢ Some (following.channel_of message.now)) →
        left.next_in result ≡ NextSpec.Nothing }
{
    match follow(net, port, message, reply) {
        Next::Send { port, rm } => LeftOf::ToPort(LetterOf::new(port, rm, front)),
        Next::Tell { conn, answer } => LeftOf::ToSource(NoticeOf::new(conn, answer, front)),
        Next::Nothing => LeftOf::Nothing,
    }
}
