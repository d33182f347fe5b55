//! The next entry of a source.
ghost use Rattle.std.specs.Prelude.{◌≡◌, ◌<◌, length, IfOk};
ghost use Rattle.abt_weave.specs.Candidates as candidates;
ghost use Rattle.abt_weave.specs.Progress.{IsAfterLook, IsSourceSettled, run_journals, IsProgressOf};

use crate::look::Look;
use crate::progress::{Progress, world_after};
use crate::trying::{Tried, try_own};
use crate::weave_input::WeaveInput;
use abt_model::{Event, SourceEntry, Target};
use std::alloc::{AllocError, Global};

// Whether an event is a command of this source, or an answer that it is told.
fn is_own_of(event: &Event, source: u16) -> bool
    ensures { result ≡ candidates.is_own_of source event.now }
{
    matches!(event.target(), Target::Source { conn, .. } if conn == source)
}

/// Places the next entry of a source, if it is something that the source did and that it can have done now.
pub(crate) fn look_at_source<'run>(
    alloc: Global,
    given: &WeaveInput<'run>,
    progress: &mut Progress<'run>,
    conn: u16,
) -> Result<Look, AllocError>
    requires source { conn < length given.now.sources.now }
    requires progress { IsProgressOf given.now progress.old }
    ensures { let journals = run_journals given.now in
        IfOk result (IsAfterLook given.now.net.now journals
        (λ earlier mismatches. IsSourceSettled given.now.net.now journals earlier conn mismatches)
        progress.old progress.new) }
{
    let c = usize::from(conn);
    let entries = given.sources[c].entries.as_slice();
    let place = progress.source_places[c];
    if place >= entries.len() {
        return Ok(Look::Waits);
    }
    let SourceEntry::Did(event, told) = entries[place] else {
        return Ok(Look::Waits);
    };
    if !is_own_of(&event, conn) {
        return Ok(Look::Waits);
    }
    progress.events.reserve(1)?;
    match try_own(&mut progress.world, &event, &told)? {
        Tried::Agrees => {
            progress.events.push(event)?;
            progress.source_places[c] = place + 1;
            Ok(Look::Placed(event))
        }
        Tried::Differs => {
            progress.world = world_after(alloc, given, &progress.events)?;
            Ok(Look::Mismatches)
        }
        Tried::Absent => Ok(Look::Waits),
    }
}
