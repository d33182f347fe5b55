//! A source of a C program over its whole lifetime, with a store of any kind: what such a program does, in Rust. No export calls it, so it
//! isn't in the library; what is proved of it is what a C program gets that keeps to docs/C.md.
ghost use Rattle.std.specs.Prelude.{◌≡◌, ◌≢◌, ◌⊎◌, true, None, Option};
ghost use Rattle.abt_rate.specs.Limits.{number_max};
ghost use Rattle.abt_cell.specs.Message.{Terms};
ghost use Rattle.abt_keep.specs.Record.{octets_of};
ghost use Rattle.abt_keep.specs.declared.plan.StorePlan.{StorePlan};
ghost use Rattle.abt_source.specs.Calls.{has_to_write, record_to_write, new_source};
ghost use Rattle.abt_lifetime.specs.Lifetime.{Called, asked};
ghost use Rattle.abt_lifetime.specs.Numbers.{IsCarriedOut, new_stored};
ghost use Rattle.abt_lifetime.specs.declared.call.SourceCall.TheVariants as call;
ghost use Rattle.abt_c.specs.Lifetimes.{IsSentAs, IsCarriedOutInC, up_in};
ghost use Rattle.abt_c.specs.Records.{reply_in, IsAnswer};
ghost use Rattle.abt_c.specs.Sources.{IsSource, IsReady, source_in, down_phase};

use crate::asking::{abt_raw_source_answer, abt_raw_source_ask, abt_raw_source_wrote};
use crate::outcome::{ASKED, DONE, WRITE_FIRST};
use crate::record::AbtRm;
use crate::source::{
    abt_raw_source_crash, abt_raw_source_emit, abt_raw_source_init, abt_raw_source_start,
};
use crate::source_state::AbtSource;
use abt_cell::{Answer, Vc};
use abt_keep::{Record, SeqStore};
use abt_lifetime::SourceCall;
use abt_rate::Rate;
use abt_source::{AnySource, Source, Up};
use std::marker::Model;

/// What a program says of its write: it was made, or it failed.
const MADE: u32 = 1;

const FAILED: u32 = 2;

/// The kinds of an answer.
const YES: u32 = 2;

const NO: u32 = 3;

/// The phase of a source that isn't started (docs/C.md, "States").
const DOWN_PHASE: u32 = 0;

/// The state of a source that a C program keeps, and its store.
#[derive(Drop)]
pub struct ProgramSource<K: SeqStore> {
    state: AbtSource,
    was_started: bool,
    store: K,
}

impl<K: SeqStore> Model for ProgramSource<K> {
    ghost use Rattle.std.specs.Prelude.{◌≡◌};
    ghost use Rattle.abt_lifetime.specs.Lifetime.{StoredView};
    ghost use Rattle.abt_lifetime.specs.Sound.{IsSound};
    ghost use Rattle.abt_c.specs.Lifetimes.{stored_in};
    ghost use Rattle.abt_c.specs.Sources.{IsSource};

    ghost Value = { StoredView };

    ghost view = { λ v. stored_in v.state v.was_started (K.content v.store) };

    ghost invariant = { λ v. IsSource v.state × (v.state.is_writing ≡ 0)
        × IsSound (stored_in v.state v.was_started (K.content v.store)) };
}

// A record of no message, for an export to write over.
fn blank() -> AbtRm {
    AbtRm {
        kind: 0,
        seq: 0,
        vpi: 0,
        vci: 0,
        floor: 0,
        ask: 0,
    }
}

// The record of an answer, as a program fills it in.
fn filled_in(answer: &Answer) -> AbtRm
    ensures message { IsAnswer result }
    ensures value { reply_in result ≡ answer.now }
{
    AbtRm {
        kind: if answer.granted() { YES } else { NO },
        seq: answer.seq(),
        vpi: answer.vc().vpi(),
        vci: answer.vc().vci(),
        floor: answer.floor().code(),
        ask: answer.ask().code(),
    }
}

// What an ask has to write.
fn needed<S: Up>(source: &Source<S>, rate: Rate) -> Record
    requires { has_to_write source.now rate ≡ true }
    ensures { result ≡ record_to_write source.now rate }
{
    let Some(record) = source.record_to_write(rate) else {
        unreachable!()
    };
    record
}

// The same of a state.
fn expected(state: &AbtSource, rate: Rate) -> Record
    requires source { IsSource state.now }
    requires up { state.now.phase ≢ down_phase }
    requires writes { has_to_write (source_in state.now) rate ≡ true }
    ensures { result ≡ record_to_write (source_in state.now) rate }
{
    match state.any() {
        Some(AnySource::Idle(source)) => needed(&source, rate),
        Some(AnySource::Asking(source)) => needed(&source, rate),
        Some(AnySource::Down(_)) | None => unreachable!(),
    }
}

// What the octets say that a program was told to write: they are those of this record.
fn read_back(octets: &[u8], expected: Record) -> Record
    requires { octets.now ≡ octets_of expected }
    ensures { result ≡ expected }
{
    let _written = expected.to_octets();
    let Ok(record) = Record::from_octets(octets) else {
        unreachable!()
    };
    record
}

// Has the store keep a record, and gives what a program says became of that.
fn became<K: SeqStore>(store: &mut K, wanted: Record) -> u32
    ensures either { (result ≡ 1) ⊎ (result ≡ 2) }
    ensures made { result ≡ 1 → K.content store.new ≡ wanted }
    ensures failed { result ≡ 2 →
        (K.content store.new ≡ K.content store.old) ⊎ (K.content store.new ≡ wanted) }
{
    match store.keep(wanted) {
        Ok(()) => MADE,
        Err(_) => FAILED,
    }
}

// Asks in two steps: the library says what to write, the store takes it, and the library is told what became of that.
fn ask_through<K: SeqStore>(state: &mut AbtSource, store: &mut K, rate: Rate) -> Option<AbtRm>
    requires ready { IsReady state.old }
    ensures value { (plan : StorePlan) × (request : Option Terms) × IsSentAs result request ×
        (record { after = up_in state.new (K.content store.new); request = request } ≡
        asked plan (up_in state.old (K.content store.old)) rate) }
    ensures ready { IsReady state.new }
{
    let mut octets = [0u8; 12];
    let mut rm = blank();
    let outcome = abt_raw_source_ask(state, rate.code(), &mut octets, &mut rm);
    if outcome == ASKED {
        return Some(rm);
    }
    if outcome != WRITE_FIRST {
        return None;
    }
    let record = read_back(&octets, expected(state, rate));
    let told = became(store, record);
    if abt_raw_source_wrote(state, told, &mut rm) == ASKED {
        return Some(rm);
    }
    None
}

// A state of nothing, for the library to write over.
fn fresh() -> AbtSource {
    AbtSource {
        kind: 0,
        next: 0,
        emitted: 0,
        gap: 0,
        kept_spacing: 0,
        kept_number: 0,
        last: 0,
        phase: 0,
        has_emitted: 0,
        vpi: 0,
        vci: 0,
        rate: 0,
        ask: 0,
        is_writing: 0,
        wanted: 0,
        spare: 0,
    }
}

// The state of the source of a connection to which nothing has happened.
fn begun(vc: Vc) -> AbtSource
    ensures state { IsSource result × (result.phase ≡ down_phase) × (result.is_writing ≡ 0) }
    ensures value { source_in result ≡ new_source vc }
{
    let mut state = fresh();
    if abt_raw_source_init(&mut state, vc.vpi(), vc.vci()) != DONE {
        unreachable!()
    }
    state
}

impl<K: SeqStore> ProgramSource<K> {
    /// The source of a connection to which nothing has happened, with the store that it is to use.
    pub fn new(vc: Vc, store: K) -> ProgramSource<K>
        ensures { result ≡ new_stored vc (K.content store) }
    {
        ProgramSource {
            state: begun(vc),
            was_started: false,
            store,
        }
    }

    /// Does one call, and gives the record that goes out, if one does.
    pub fn call(&mut self, call: &SourceCall) -> Option<AbtRm>
        ensures { IsCarriedOutInC self.old call.now result self.new }
    {
        match *call {
            SourceCall::Start { now } => {
                self.start(now);
                None
            }
            SourceCall::Ask { rate } => self.ask(rate),
            SourceCall::Answer(answer) => {
                self.hear(answer);
                None
            }
            SourceCall::Emit { now } => {
                self.emit(now);
                None
            }
            SourceCall::Crash => {
                self.crash();
                None
            }
        }
    }

    fn start(&mut self, now: u64)
        ensures { IsCarriedOut self.old (call.Start now) None self.new }
    {
        let Ok(kept) = self.store.kept() else {
            return;
        };
        if abt_raw_source_start(&mut self.state, &kept.to_octets(), now) == DONE {
            self.was_started = true;
        }
    }

    fn ask(&mut self, rate: Rate) -> Option<AbtRm>
        ensures { IsCarriedOutInC self.old (call.Ask rate) result self.new }
    {
        if self.state.phase == DOWN_PHASE {
            return None;
        }
        ask_through(&mut self.state, &mut self.store, rate)
    }

    fn hear(&mut self, answer: Answer)
        ensures { IsCarriedOut self.old (call.Answer answer) None self.new }
    {
        let _ = abt_raw_source_answer(&mut self.state, &filled_in(&answer));
    }

    fn emit(&mut self, now: u64)
        ensures { IsCarriedOut self.old (call.Emit now) None self.new }
    {
        let mut next = 0;
        let _ = abt_raw_source_emit(&mut self.state, now, &mut next);
    }

    fn crash(&mut self)
        ensures { IsCarriedOut self.old call.Crash None self.new }
    {
        let _ = abt_raw_source_crash(&mut self.state);
    }
}
