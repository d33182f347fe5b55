//! The way of messages from one worker to another.
ghost use Rattle.std.specs.Prelude.{◌≡◌, ◌≢◌, ℕ, Some, slice_get, option_copied};
ghost use Rattle.abt_cell.specs.Codec.{written_of};
ghost use Rattle.abt_journal.specs.Following as following;
ghost use Rattle.abt_journal.specs.declared.next_message.Next.{Next as NextSpec};
ghost use Rattle.abt_net.specs.Paths.{hop_of};
ghost use Rattle.abt_net.specs.Topology.{conn_at, channel_at};
ghost use Rattle.abt_net.specs.declared.conn.Conn.{Conn};
ghost use Rattle.abt_weave.specs.Projections.{past_of};
ghost use Rattle.abt_serving.specs.Followed.{FollowsOn};
ghost use Rattle.abt_history.specs.Histories.{happened};
ghost use Rattle.abt_history.specs.Left.{next_in};
ghost use Rattle.abt_history.specs.Modes.{When};
ghost use Rattle.abt_links.specs.declared.parcel.Parcel.{Parcel};

use crate::carrying::Carrying;
use abt_cell::{Rm, write_rm};
use abt_history::{LeftOf, LetterOf, NotKept, NoticeOf, left_after};
use abt_journal::PortReply;
use abt_net::Net;
use crossbeam_channel::Sender;
use std::collections::VecDeque;
use std::sync::{Mutex, Wait};

/// Where a worker leaves messages: the channel to the link workers, and the answer boxes of the sources, by the
/// numbers of their connections.
#[derive(Drop)]
pub struct RouterOf<'net, K: Carrying> {
    net: &'net Net,
    parcels: Sender<K::Parcel>,
    boxes: &'net [Mutex<VecDeque<K::Told>>],
}

/// The router of a run that keeps no history.
pub type Router<'net> = RouterOf<'net, NotKept>;

impl<'net, K: Carrying> RouterOf<'net, K> {
    /// The router of a net.
    pub fn new(
        net: &'net Net,
        parcels: Sender<K::Parcel>,
        boxes: &'net [Mutex<VecDeque<K::Told>>],
    ) -> RouterOf<'net, K>
        ensures net { result.net.now ≡ net.now }
        ensures boxes { result.boxes.now ≡ boxes.now }
    {
        RouterOf {
            net,
            parcels,
            boxes,
        }
    }

    /// Sends what follows a port's reply to a message ([`left_after`]), with what was seen once the port had replied. Without memory it
    /// is lost.
    pub fn send_on<R: Wait>(
        &self,
        rt: &R,
        port: u16,
        message: &Rm,
        reply: &PortReply,
        front: K::Front,
    )
        requires net { When K.kept (K.net ≡ self.now.net.now) }
        requires follows { When K.kept
            (FollowsOn K.net (past_of K.net (happened (K.log front))) port message.now reply.now) }
    {
        match self.left(port, message, reply, front) {
            LeftOf::ToPort(letter) => {
                let _ = self.parcels.send(rt, packed::<K>(&letter));
            }
            LeftOf::ToSource(notice) => {
                if let Some(answers) = self.box_for(&notice) {
                    let told = told::<K>(&notice);
                    let _ = answers.lock(rt).push_back(told);
                }
            }
            LeftOf::Nothing => {}
        }
    }

    // What a port's reply to a message leaves.
    fn left(&self, port: u16, message: &Rm, reply: &PortReply, front: K::Front) -> LeftOf<K>
        requires net { When K.kept (K.net ≡ self.now.net.now) }
        requires follows { When K.kept
            (FollowsOn K.net (past_of K.net (happened (K.log front))) port message.now reply.now) }
        ensures on_path { (c : ℕ) (conn : Conn) → conn_at self.now.net.now c ≡ Some conn →
            conn.vc ≡ following.channel_of message.now →
            hop_of conn.path port ≢ 0 →
            next_in result ≡
            following.sent_after conn.path c (hop_of conn.path port) message.now reply.now }
        ensures off_path { (c : ℕ) (conn : Conn) → conn_at self.now.net.now c ≡ Some conn →
            conn.vc ≡ following.channel_of message.now →
            hop_of conn.path port ≡ 0 → next_in result ≡ NextSpec.Nothing }
        ensures unknown { ((c : ℕ) →
            channel_at self.now.net.now.conns c ≢ Some (following.channel_of message.now)) →
            next_in result ≡ NextSpec.Nothing }
    {
        left_after(self.net, port, message, reply, front)
    }

    // The box of the source that an answer is for, if the net has it.
    fn box_for(&self, notice: &NoticeOf<K>) -> Option<&Mutex<VecDeque<K::Told>>>
        ensures { option_copied result ≡ slice_get self.now.boxes.now notice.now.conn }
    {
        self.boxes.get(usize::from(notice.conn()))
    }
}

// The parcel that brings a message to its port.
fn packed<K: Carrying>(letter: &LetterOf<K>) -> K::Parcel
    ensures { K.plain result ≡ Parcel.Cell letter.now.port (written_of letter.now.message) }
{
    let octets = write_rm(letter.message()).to_octets();
    K::packed(letter.port(), octets, K::again(letter.front()))
}

// An answer as it lies in the box of its source.
fn told<K: Carrying>(notice: &NoticeOf<K>) -> K::Told {
    K::told(notice.conn(), notice.answer(), K::again(notice.front()))
}
