//! The journals of a run whose ports and sources end one after the other.
ghost use Rattle.std.specs.Prelude.{◌≡◌, ◌+◌, ◌∷◌, ◌++◌, [], length, IfOk, OnErr};
ghost use Rattle.abt_history.specs.Ended.{CanBeWoven};
ghost use Rattle.abt_history.specs.Modes.{When};

use crate::keeping::{Keeping, Kept};
use crate::site::SiteOf;
use crate::station::StationOf;
use abt_journal::{Entry, Journals};
use abt_model::{Sequence, SourceJournal};
use std::alloc::{AllocError, Global};
use std::marker::Model;
use std::sync::Wait;

/// The journals of the ports and the sources of a run that have ended, by their numbers.
#[derive(Drop)]
pub struct EndedOf<K: Keeping> {
    ports: Vec<Vec<Entry>>,
    sources: Sequence<SourceJournal>,
    front: K::Front,
}

/// The same of a run that keeps its history.
pub type Ended<N, J> = EndedOf<Kept<N, J>>;

impl<K: Keeping> Model for EndedOf<K> {
    ghost use Rattle.std.specs.Prelude.{List, map};
    ghost use Rattle.abt_journal.specs.declared.entry.Entry.{Entry};
    ghost use Rattle.abt_model.specs.declared.journal.SourceJournal.{SourceJournal};
    ghost use Rattle.abt_history.specs.Ended.{AreEnded};
    ghost use Rattle.abt_history.specs.Modes.{When};

    ghost Value = { List (List Entry) × List SourceJournal };

    ghost view = { λ e. (map (λ v. v.items) e.ports.items, e.sources) };

    ghost invariant = { λ e. When K.kept
        (AreEnded K.net (map (λ v. v.items) e.ports.items) e.sources (K.log e.front)) };
}

impl<K: Keeping> EndedOf<K> {
    /// None has ended.
    pub fn new(alloc: Global, front: K::Front) -> EndedOf<K>
        ensures { result ≡ ([], []) }
    {
        EndedOf {
            ports: Vec::new(alloc),
            sources: Sequence::new(alloc),
            front,
        }
    }

    /// Ends the next port.
    pub fn end_port<R: Wait>(&mut self, rt: &R, station: StationOf<K>) -> Result<(), AllocError>
        requires next { station.port ≡ length self.old.0 }
        ensures ok { IfOk result (λ done. self.new ≡ (self.old.0 ++ station.state.entries ∷ [], self.old.1)) }
        ensures same { OnErr result (self.new ≡ self.old) }
    {
        let (entries, last) = station.end(rt);
        let front = K::with(&self.front, &last);
        self.ports.push(entries)?;
        self.front = front;
        Ok(())
    }

    /// Ends the next source.
    pub fn end_source<R: Wait>(&mut self, rt: &R, site: SiteOf<K>) -> Result<(), AllocError>
        requires next { site.conn ≡ length self.old.1 }
        ensures ok { IfOk result (λ done. self.new ≡
            (self.old.0, self.old.1 ++ record { entries = site.entries } ∷ [])) }
        ensures same { OnErr result (self.new ≡ self.old) }
    {
        let (journal, last) = site.end(rt);
        let seen = K::with(&self.front, &last);
        self.sources.push(journal)?;
        self.front = seen;
        Ok(())
    }

    /// The journals. They can be woven into one list of events.
    pub fn into_journals(self) -> (Journals, Sequence<SourceJournal>)
        ensures value { (result.0 ≡ self.0) × (result.1 ≡ self.1) }
        ensures woven { When K.kept (CanBeWoven K.net result.0 result.1) }
    {
        let _ = K::again(&self.front);
        let EndedOf {
            ports,
            sources,
            front: _,
        } = self;
        (Journals { ports }, sources)
    }
}
