//! A link worker, which loses letters and has others served twice.
ghost use Rattle.std.specs.Prelude.{◌≡◌};
ghost use Rattle.abt_history.specs.Modes.{When};

use super::messages::{Parcel, Report, sent, served};
use abt_history::{Keeping, LetterOf, StationOf};
use abt_journal::Seat;
use abt_net::Net;
use crossbeam_channel::{Receiver, Sender};
use std::alloc::Global;
use std::sync::{Mutex, Wait};

/// How many letters a link worker takes at most, one less, so that it ends also if a letter goes round.
const LETTERS_MAX: u64 = 100_000;

/// Of the letters that a link worker takes, counted from 1, each whose number `drop_every` divides is lost, and of the others each whose
/// number `repeat_every` divides is served twice. 0 divides none.
#[derive(Clone, Copy)]
pub(super) struct Losses {
    pub(super) drop_every: u64,
    pub(super) repeat_every: u64,
}

impl Losses {
    // How often the letter of this number is served.
    fn times(self, number: u64) -> u8 {
        if divides(self.drop_every, number) {
            0
        } else if divides(self.repeat_every, number) {
            2
        } else {
            1
        }
    }
}

fn divides(every: u64, number: u64) -> bool {
    every != 0 && number % every == 0
}

/// Both ports, each under its lock.
#[derive(Drop)]
pub(super) struct Ports<'run, K: Keeping> {
    pub(super) zero: &'run Mutex<StationOf<K>>,
    pub(super) one: &'run Mutex<StationOf<K>>,
}

impl<'run, K: Keeping> Ports<'run, K> {
    fn at(&self, port: u16) -> &'run Mutex<StationOf<K>> {
        if port == 0 { self.zero } else { self.one }
    }
}

/// Takes parcels until one says stop, or no more can come, and tells the source of each letter whose way has ended. Gives the seat.
pub(super) fn link<K: Keeping, R: Wait>(
    rt: &R,
    alloc: Global,
    net: &Net,
    ports: Ports<K>,
    losses: Losses,
    from: Receiver<Parcel<K>>,
    to: Sender<Parcel<K>>,
    reports: Sender<Report<K>>,
) -> Seat
    requires net { When K.kept (K.net ≡ net.now) }
{
    let mut seat = Seat::new(alloc, 1);
    for number in 1..LETTERS_MAX {
        let Ok(Parcel::Letter(letter)) = from.recv(rt) else {
            break;
        };
        let times = losses.times(number);
        if times == 0 {
            let _ = reports.send(rt, Report::Lost);
        }
        for _time in 0..times {
            relay(rt, net, &ports, &mut seat, &letter, &to, &reports);
        }
    }
    seat
}

// Has a letter served by its port, and sends on what follows, or tells the source that nothing does.
fn relay<K: Keeping, R: Wait>(
    rt: &R,
    net: &Net,
    ports: &Ports<K>,
    seat: &mut Seat,
    letter: &LetterOf<K>,
    to: &Sender<Parcel<K>>,
    reports: &Sender<Report<K>>,
)
    requires net { When K.kept (K.net ≡ net.now) }
{
    let report = match served(rt, net, ports.at(letter.port()), seat, letter) {
        Some(left) => sent(rt, left, to),
        None => Some(Report::Lost),
    };
    if let Some(report) = report {
        let _ = reports.send(rt, report);
    }
}
