//! A source, which asks until it is answered, and then sends cells.
ghost use Rattle.std.specs.Prelude.{◌≡◌};
ghost use Rattle.abt_history.specs.Modes.{When};

use super::access::{Access, brings, emits};
use super::messages::{Parcel, Report};
use abt_actor::{Outcome, SourceCommand};
use abt_history::{Keeping, NoticeOf, SiteOf};
use abt_journal::Seat;
use abt_keep::StorePlan;
use abt_net::Net;
use abt_rate::Rate;
use std::alloc::Global;
use std::sync::Wait;

/// How often a source asks again.
const TRIES: u32 = 1000;

/// The moment from which a source that started at 0 over an empty store sends cells, in picoseconds (docs/RULES.md, "Source").
const HOLD_OFF: u64 = 1_000_000_000_000;

/// What a source is to do: ask for the rate of this code, and then send so many cells, each later by one picosecond of jitter than the one
/// before.
#[derive(Clone, Copy)]
pub(super) struct Errand {
    pub(super) code: u16,
    pub(super) cells: u64,
}

/// Does the errand, and has the link worker stop, however it goes. Gives the seat.
pub(super) fn source<K: Keeping, R: Wait>(
    rt: &R,
    alloc: Global,
    net: &Net,
    site: &mut SiteOf<K>,
    access: Access<K>,
    errand: Errand,
) -> Seat
    requires net { When K.kept (K.net ≡ net.now) }
{
    let mut seat = Seat::new(alloc, 0);
    let _ = runs(rt, net, site, &mut seat, &access, errand);
    let _ = access.to.send(rt, Parcel::Stop);
    seat
}

fn runs<K: Keeping, R: Wait>(
    rt: &R,
    net: &Net,
    site: &mut SiteOf<K>,
    seat: &mut Seat,
    access: &Access<K>,
    errand: Errand,
) -> Option<()>
    requires net { When K.kept (K.net ≡ net.now) }
{
    let seen = site.front();
    site.carry_out(rt, &seen, &SourceCommand::Start { now: 0 })
        .ok()?;
    let mut report = asks(rt, net, site, seat, access, errand.code)?;
    for _try in 0..TRIES {
        hears(rt, site, next(rt, access, report)?)?;
        if !site.is_asking() {
            break;
        }
        report = asks_again(rt, net, site, seat, access)?;
    }
    let mut now = HOLD_OFF;
    for jitter in 0..errand.cells {
        now = emits(rt, net, site, seat, access, now, jitter)?;
    }
    Some(())
}

// The report, or the next one that comes.
fn next<K: Keeping, R: Wait>(
    rt: &R,
    access: &Access<K>,
    report: Option<Report<K>>,
) -> Option<Report<K>> {
    match report {
        Some(report) => Some(report),
        None => access.from.recv(rt).ok(),
    }
}

// Has the source take the answer of a report.
fn hears<K: Keeping, R: Wait>(rt: &R, site: &mut SiteOf<K>, report: Report<K>) -> Option<()> {
    match report {
        Report::Notice(notice) => is_told(rt, site, &notice),
        Report::Lost => Some(()),
    }
}

fn is_told<K: Keeping, R: Wait>(rt: &R, site: &mut SiteOf<K>, notice: &NoticeOf<K>) -> Option<()> {
    if notice.conn() != site.conn() {
        return Some(());
    }
    let answer = notice.answer();
    site.carry_out(rt, notice.front(), &SourceCommand::Told(answer))
        .ok()?;
    Some(())
}

// Asks for a rate, and gives what is known of the request, if its way has ended.
fn asks<K: Keeping, R: Wait>(
    rt: &R,
    net: &Net,
    site: &mut SiteOf<K>,
    seat: &mut Seat,
    access: &Access<K>,
    code: u16,
) -> Option<Option<Report<K>>>
    requires net { When K.kept (K.net ≡ net.now) }
{
    let seen = site.front();
    let rate = Rate::from_code(code);
    let _units = rate.units();
    let plan = StorePlan::Works;
    let outcome = site
        .carry_out(rt, &seen, &SourceCommand::Ask { rate, plan })
        .ok()?;
    let Outcome::Asked(request) = outcome else {
        return None;
    };
    brings(rt, net, site, seat, access, request)
}

// Repeats the request.
fn asks_again<K: Keeping, R: Wait>(
    rt: &R,
    net: &Net,
    site: &mut SiteOf<K>,
    seat: &mut Seat,
    access: &Access<K>,
) -> Option<Option<Report<K>>>
    requires net { When K.kept (K.net ≡ net.now) }
{
    let seen = site.front();
    let outcome = site.carry_out(rt, &seen, &SourceCommand::Again).ok()?;
    let Outcome::Repeated(request) = outcome else {
        return None;
    };
    brings(rt, net, site, seat, access, request)
}
