//! A run that keeps its history, and one that keeps none.
ghost use Rattle.std.specs.Prelude.{◌≡◌, IfSome, length};
ghost use mathlib.Core.List.{IsPrefix};
ghost use Rattle.abt_history.specs.Ended.{CanBeWoven};

use abt_cell::Rm;
use abt_history::{
    Ended, Left, Letter, LetterOf, Naming, NotKept, Place, Station, StationOf, left_after,
};
use abt_journal::{Journals, PortState, Seat};
use abt_model::{Sequence, SourceJournal};
use abt_net::Net;
use std::sync::Wait;

/// The place of a port's step that serves a message, and what it leaves, if there is memory. The port has seen what the message saw.
pub fn is_noted<N: Place, J: Naming, R: Wait>(
    rt: &R,
    net: &Net,
    station: &mut Station<N, J>,
    seat: &mut Seat,
    letter: &Letter<N, J>,
) -> Option<(u64, Left<N, J>)>
    requires net { N.net ≡ net.now }
    requires port { letter.now.port ≡ station.old.port }
    ensures { IfSome result (λ r. IsPrefix letter.now.front station.new.front) }
{
    let (place, reply) = station.serve(rt, seat, letter).ok()?;
    let left = left_after(
        net,
        letter.port(),
        letter.message(),
        &reply,
        station.front(),
    );
    Some((place, left))
}

/// The journals of a run that has ended. They can be woven.
pub fn is_woven<N: Place, J: Naming>(ended: Ended<N, J>) -> (Journals, Sequence<SourceJournal>)
    ensures { CanBeWoven N.net result.0 result.1 }
{
    ended.into_journals()
}

/// A port that keeps no history, once it has served a message, and the place of its step, if there is memory.
pub fn is_served<R: Wait>(
    rt: &R,
    state: PortState,
    seat: &mut Seat,
    message: Rm,
) -> Option<(StationOf<NotKept>, u64)>
    ensures { IfSome result (λ r. r.1 ≡ length state.entries) }
{
    let mut station = StationOf::not_kept(state);
    let letter = LetterOf::new(station.port(), message, NotKept);
    let (place, _) = station.serve(rt, seat, &letter).ok()?;
    Some((station, place))
}
