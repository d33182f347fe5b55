//! A source, line by line.
ghost use Rattle.std.specs.Prelude.{◌≡◌, ◌*◌, ◌≤◌, ◌⊎◌, [], IfOk, IfSome, IfNone, OnOk, OnErr, string_bytes};
ghost use Rattle.std.specs.Io.KnownBytes.{Appends};
ghost use Rattle.std.specs.Option.{option_map};
ghost use Rattle.abt_lines.specs.Served.{AppendsFront};
ghost use Rattle.abt_cell.specs.Channel.{Channel};
ghost use Rattle.abt_rate.specs.Limits.{spacing_min};
ghost use Rattle.abt_live.specs.Source.{new_actor};
ghost use Rattle.abt_live.specs.SourceAsked.{asked_on};
ghost use Rattle.abt_live.specs.SourceJournal.{before_line, done_line, writes_in};
ghost use Rattle.abt_live.specs.SourceRecords.{answer_text};
ghost use Rattle.abt_live.specs.SourceSteps.{CanCarry, Carries, Does, IsSameBut, Refuses, StopsBefore, StopsBehind};
ghost use Rattle.abt_live.specs.declared.fault.LiveFault.TheVariants.{Store};

use crate::fault::{LiveFault, StopFault};
use crate::live_source::LiveSource;
use crate::serving::JournalServer;
use crate::source_answer::SourceAnswer;
use crate::source_asked::{SourceAsked, asked_on};
use crate::source_journal::{about_line, done_line};
use abt_cell::Vc;
use abt_keep::SeqStore;
use abt_model::Outcome;
use abt_text::put;
use std::alloc::Global;
use std::io::Write;

/// The source of a connection: each line is something that it is to do, and is answered by what comes of it. That is in the journal by
/// then, and before the store is written the journal says that it will be (docs/LIVE.md, "A source").
#[derive(Drop)]
pub struct SourceLines<K: SeqStore, J: Write> {
    // The number of the connection in the net, and its channel.
    conn: u16,
    vc: Vc,
    source: LiveSource<K>,
    journal: J,
}

impl<K: SeqStore, J: Write> SourceLines<K, J> {
    /// The source of a connection of this number and channel, which is down, with a store and a journal, after so many cells, the last of
    /// which left at this moment, or before the last start.
    pub fn new(conn: u16, vc: Vc, cells: u64, clock: u64, store: K, journal: J) -> SourceLines<K, J>
        requires { spacing_min * cells ≤ clock }
        ensures conn { result.conn ≡ conn }
        ensures vc { result.vc ≡ vc }
        ensures source { result.source ≡ new_actor vc (K.content store) cells clock }
        ensures journal { result.journal ≡ journal }
    {
        SourceLines {
            conn,
            vc,
            source: LiveSource::new(vc, store, cells, clock),
            journal,
        }
    }

    /// Does what a line asks for, and puts the answer into an empty text. The journal has what happened before that.
    ///
    /// # Errors
    /// A source that stopped by one is of no use any more: it may have done what nobody is told of. Its store is written only if the
    /// journal says so.
    pub fn take(
        &mut self,
        alloc: Global,
        line: Option<&[u8]>,
        text: &mut String,
    ) -> Result<(), StopFault>
        requires { string_bytes text.old ≡ [] }
        ensures ok { OnOk result (Does J.contents self.old
            (asked_on (option_map (λ line. line.now) line.entry)) (string_bytes text.new) self.new) }
        ensures err { OnErr result (let asked = asked_on (option_map (λ line. line.now) line.entry) in
            StopsBefore J.contents self.old asked self.new ⊎ StopsBehind J.contents self.old asked self.new) }
    {
        let asked = asked_on(alloc, line)?;
        let answer = self.act(alloc, &asked)?;
        Ok(answer.push_to(alloc, text)?)
    }

    // Does what is asked for, and gives the answer.
    pub(crate) fn act(
        &mut self,
        alloc: Global,
        asked: &SourceAsked,
    ) -> Result<SourceAnswer, StopFault>
        ensures ok { IfOk result
            (λ answer. Does J.contents self.old asked.now (answer_text answer) self.new) }
        ensures err { OnErr result
            (StopsBefore J.contents self.old asked.now self.new
            ⊎ StopsBehind J.contents self.old asked.now self.new) }
    {
        if let Some(fault) = self.refusal(asked) {
            return Ok(SourceAnswer::Faulty(fault));
        }
        self.announce(alloc, asked)?;
        let Some(outcome) = happen(&mut self.source, asked) else {
            return Ok(SourceAnswer::Faulty(LiveFault::Store));
        };
        log_done(alloc, &mut self.journal, self.conn, asked, &outcome)?;
        Ok(SourceAnswer::Did {
            clock: self.source.clock(),
            outcome,
        })
    }

    // Why what is asked for can't be done whatever the source is, if so.
    fn refusal(&self, asked: &SourceAsked) -> Option<LiveFault>
        ensures some { IfSome result (Refuses self.now.vc asked.now) }
        ensures none { IfNone result (CanCarry self.now.vc asked.now) }
    {
        match asked {
            SourceAsked::Wrong(fault) => Some(*fault),
            SourceAsked::Told(answer) if answer.vc() != self.vc => Some(LiveFault::UnknownVc),
            _ => None,
        }
    }

    #[tactic(auto, using(crate::proofs::Fronts::front_part, crate::proofs::Fronts::front_none))]
    // Writes into the journal what is written before anything is done.
    fn announce(&mut self, alloc: Global, asked: &SourceAsked) -> Result<(), StopFault>
        ensures ok { OnOk result (Appends (J.contents self.old.journal) (J.contents self.new.journal)
            (before_line self.old.conn self.old.source asked.now)) }
        ensures err { OnErr result (AppendsFront (J.contents self.old.journal) (J.contents self.new.journal)
            (before_line self.old.conn self.old.source asked.now)) }
        ensures same { IsSameBut self.old self.new }
    {
        let SourceAsked::Ask { rate } = *asked else {
            return Ok(());
        };
        if !self.source.will_write(rate) {
            return Ok(());
        }
        let line = about_line(alloc, self.conn, rate)?;
        Ok(put(&mut self.journal, line.as_slice())?)
    }
}

impl<K: SeqStore, J: Write> JournalServer for SourceLines<K, J> {
    ghost use Rattle.abt_live.specs.SourceRecords.{answer_text};
    ghost use Rattle.abt_live.specs.SourceSteps.{SourcesLine};

    ghost steps = { SourcesLine J.contents };

    fn answer(
        &mut self,
        alloc: Global,
        _number: u64,
        line: Option<&[u8]>,
        text: &mut String,
    ) -> Result<(), StopFault> {
        self.take(alloc, line, text)
    }
}

// Has a source do what is asked for, or nothing if its store gives no record at a start.
fn happen<K: SeqStore>(source: &mut LiveSource<K>, asked: &SourceAsked) -> Option<Outcome>
    ensures some { IfSome result (λ outcome. (vc : Channel) → CanCarry vc asked.now →
        Carries vc asked.now source.old outcome source.new) }
    ensures none { IfNone result ((vc : Channel) → CanCarry vc asked.now →
        Refuses vc asked.now Store × (source.new ≡ source.old)) }
{
    match asked {
        SourceAsked::Start { now } => source.start(*now),
        SourceAsked::Ask { rate } => Some(source.ask(*rate)),
        SourceAsked::Again => Some(source.again()),
        SourceAsked::Emit { now } => Some(source.emit(*now)),
        SourceAsked::Told(answer) => Some(source.told(answer)),
        SourceAsked::Wrong(_) => None,
    }
}

#[tactic(auto, using(crate::proofs::Fronts::front_part, crate::proofs::Fronts::front_none))]
// Writes what was done into a journal.
fn log_done<J: Write>(
    alloc: Global,
    journal: &mut J,
    conn: u16,
    asked: &SourceAsked,
    outcome: &Outcome,
) -> Result<(), StopFault>
    ensures ok { OnOk result (Appends (J.contents journal.old) (J.contents journal.new)
        (done_line conn asked.now outcome.now)) }
    ensures err { OnErr result (AppendsFront (J.contents journal.old) (J.contents journal.new)
        (done_line conn asked.now outcome.now)) }
{
    let line = done_line(alloc, conn, asked, outcome)?;
    Ok(put(journal, line.as_slice())?)
}
