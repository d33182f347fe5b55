//! What workers send to each other.
ghost use Rattle.std.specs.Prelude.{◌≡◌};
ghost use Rattle.abt_history.specs.Modes.{When};

use abt_history::{Keeping, LeftOf, LetterOf, NoticeOf, StationOf, left_after};
use abt_journal::Seat;
use abt_net::Net;
use crossbeam_channel::Sender;
use std::sync::{Mutex, Wait};

/// What the link worker takes.
#[derive(Drop)]
pub(super) enum Parcel<K: Keeping> {
    Letter(LetterOf<K>),
    Stop,
}

/// What a source is told of a message that is on its way.
#[derive(Drop)]
pub(super) enum Report<K: Keeping> {
    Notice(NoticeOf<K>),
    Lost,
}

/// Sends on what a reply leaves. If it doesn't go to a port, its way has ended.
pub(super) fn sent<K: Keeping, R: Wait>(
    rt: &R,
    left: LeftOf<K>,
    to: &Sender<Parcel<K>>,
) -> Option<Report<K>> {
    match left {
        LeftOf::ToPort(letter) => match to.send(rt, Parcel::Letter(letter)) {
            Ok(()) => None,
            Err(_) => Some(Report::Lost),
        },
        LeftOf::ToSource(notice) => Some(Report::Notice(notice)),
        LeftOf::Nothing => Some(Report::Lost),
    }
}

/// Has a port serve a letter, and gives what its reply leaves. A letter for another port isn't served.
pub(super) fn served<K: Keeping, R: Wait>(
    rt: &R,
    net: &Net,
    port: &Mutex<StationOf<K>>,
    seat: &mut Seat,
    letter: &LetterOf<K>,
) -> Option<LeftOf<K>>
    requires net { When K.kept (K.net ≡ net.now) }
{
    let mut station = port.lock(rt);
    if station.port() != letter.port() {
        return None;
    }
    let (_, reply) = station.serve(rt, seat, letter).ok()?;
    let front = station.front();
    Some(left_after(net, letter.port(), letter.message(), &reply, front))
}
