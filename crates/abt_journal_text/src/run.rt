//! The run that texts tell.
ghost use Rattle.std.specs.Prelude.{◌≡◌, IfOk, map};
ghost use Rattle.abt_journal_text.specs.Books.{IsToldRun, IsToldRunIfAny, journal_of, lists_of};

use crate::book::Book;
use crate::open_write::OpenWrite;
use crate::spot::Spot;
use abt_journal::Journals;
use abt_model::{Sequence, SourceEntry, SourceJournal};
use abt_net::Net;
use std::alloc::{AllocError, Global};

/// A net with the journals of its ports and sources, where each of their entries stands, and which of them leave something open.
#[derive(Debug, Drop)]
pub struct Run {
    /// The net.
    pub net: Net,
    /// The journals of its ports.
    pub journals: Journals,
    /// The journals of its sources.
    pub sources: Vec<SourceJournal>,
    /// Where the steps of each port stand.
    pub port_spots: Vec<Vec<Spot>>,
    /// Where the entries of each source stand.
    pub source_spots: Vec<Vec<Spot>>,
    /// The entries of sources that leave open whether a write that failed was stored. Their plans are that it wasn't.
    pub open_writes: Vec<OpenWrite>,
    /// The lines in whose middle texts ended. What they have isn't in the journals.
    pub cuts: Vec<Spot>,
}

impl Book {
    /// The run that the texts have told, or `None` if no net was told.
    pub fn into_run(self, alloc: Global) -> Result<Option<Run>, AllocError>
        ensures { IfOk result (IsToldRunIfAny self) }
    {
        let Book {
            net,
            journals,
            sources,
            port_spots,
            source_spots,
            open_writes,
            cuts,
            ended: _,
        } = self;
        let Some(net) = net else {
            return Ok(None);
        };
        let sources = source_journals(alloc, sources)?;
        Ok(Some(Run {
            net,
            journals,
            sources,
            port_spots,
            source_spots,
            open_writes,
            cuts,
        }))
    }
}

// The journals of sources that have these entries.
fn source_journals(
    alloc: Global,
    lists: Vec<Vec<SourceEntry>>,
) -> Result<Vec<SourceJournal>, AllocError>
    ensures { IfOk result (λ journals. journals.items ≡ map journal_of (lists_of lists)) }
{
    let mut journals = Vec::with_capacity(alloc, lists.len())?;
    for entries in lists {
        journals.push(SourceJournal {
            entries: Sequence::from(entries),
        })?;
    }
    Ok(journals)
}
