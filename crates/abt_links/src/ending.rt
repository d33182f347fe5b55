//! Ports and sources that end.
ghost use Rattle.std.specs.Prelude.{◌≡◌, ◌≤◌, [], vec_len, vec_capacity, map};
ghost use mathlib.Core.List.{IsPrefix};
ghost use Rattle.abt_history.specs.Ended.{AreEnded};
ghost use Rattle.abt_links.specs.Ends.{HavePortsEnded, journals_left};
ghost use Rattle.abt_links.specs.Lines.{AreNumberedFrom};

use crate::PortCellOf;
use abt_history::{Front, Kept, Naming, Place, Site};
use abt_journal::PortState;
use abt_model::SourceJournal;
use std::sync::Wait;

// The states of the ports, in the room that is there for them. They have ended by the front beside them.
pub(crate) fn end_ports<N: Place, J: Naming, R: Wait>(
    rt: &R,
    cells: Vec<PortCellOf<Kept<N, J>>>,
    mut states: Vec<PortState>,
    mut front: Front<N, J>,
) -> (Vec<PortState>, Front<N, J>)
    requires empty { states.items ≡ [] }
    requires room { vec_len cells ≤ vec_capacity states }
    ensures { HavePortsEnded N.net result.0.items result.1 }
{
    for cell in cells {
        let (state, last) = cell.into_station().into_state(rt);
        front = front.with(&last);
        states.push_reserved(state);
    }
    (states, front)
}

// The journals of the sources, in the room that is there for them. They have ended by the front beside them, which goes on from the one
// that is given.
pub(crate) fn end_sources<N: Place, J: Naming, R: Wait>(
    rt: &R,
    sites: Vec<Site<N, J>>,
    mut journals: Vec<SourceJournal>,
    mut front: Front<N, J>,
) -> (Vec<SourceJournal>, Front<N, J>)
    requires empty { journals.items ≡ [] }
    requires room { vec_len sites ≤ vec_capacity journals }
    requires numbers { AreNumberedFrom 0 sites.items }
    ensures journals { result.0.items ≡ journals_left sites.items }
    ensures ended { AreEnded N.net [] result.0.items result.1 }
    ensures seen { IsPrefix front result.1 }
{
    for site in sites {
        let (journal, done) = site.end(rt);
        front = front.with(&done);
        journals.push_reserved(journal);
    }
    (journals, front)
}
