//! The end of a run: its ports and its source end, one after the other.
ghost use Rattle.std.specs.Prelude.{IfSome};
ghost use Rattle.abt_history.specs.Ended.{CanBeWoven};
ghost use Rattle.abt_history.specs.Modes.{When};

use abt_history::{EndedOf, Keeping, SiteOf, StationOf};
use abt_journal::Journals;
use abt_model::{Sequence, SourceJournal};
use std::alloc::Global;
use std::sync::Wait;

/// What a run leaves.
pub(super) type Left = (Journals, Sequence<SourceJournal>);

/// Ends two ports and the source of one connection, and gives their journals.
pub(super) fn ended<K: Keeping, R: Wait>(
    rt: &R,
    alloc: Global,
    front: K::Front,
    ports: (StationOf<K>, StationOf<K>),
    site: SiteOf<K>,
) -> Option<Left>
    ensures { IfSome result (λ r. When K.kept (CanBeWoven K.net r.0 r.1)) }
{
    let (zero, one) = ports;
    if zero.port() != 0 || one.port() != 1 || site.conn() != 0 {
        return None;
    }
    let mut ended = EndedOf::<K>::new(alloc, front);
    ended.end_port(rt, zero).ok()?;
    ended.end_port(rt, one).ok()?;
    ended.end_source(rt, site).ok()?;
    Some(ended.into_journals())
}
