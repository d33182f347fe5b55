//! A source that asks and hears answers, for C. Its store is the program's: the library says which octets to write, and the program comes
//! back with what became of it.
ghost use Rattle.std.specs.Prelude.{◌≡◌, ◌≢◌, ◌<◌, ◌≤◌, ◌↔◌, ◌⊎◌, true, false, length};
ghost use Rattle.abt_rate.specs.Limits.{number_max};
ghost use Rattle.abt_rate.specs.Rate.{units_of};
ghost use Rattle.abt_cell.specs.declared.message.Rm.TheVariants.{Request as RequestRm};
ghost use Rattle.abt_cell.specs.declared.fault.RmFault.TheVariants.{SeqZero, RateOrder};
ghost use Rattle.abt_keep.specs.Record.{octets_of};
ghost use Rattle.abt_source.specs.Calls.{next_request, has_to_write, record_to_write, asking_source, result_of_answer};
ghost use Rattle.abt_c.specs.Outcome.{done, first_fault, rm_number, no_state, wrong_length, wrong_kind, vpi_range, down, writing, not_writing, not_asking, seq_exhausted, not_kept, write_first, asked, ignored};
ghost use Rattle.abt_c.specs.Records.{record_of, reply_in, HasAnswerKind, HasVpi, HasSeq, IsMessage, IsAnswer};
ghost use Rattle.abt_c.specs.Sources.{IsSource, IsReady, IsWriting, IsAsked, source_in, newest_in, answer_number, heard_in, down_phase, asking_phase};

use crate::outcome::{
    self, ASKED, DONE, DOWN, IGNORED, NO_STATE, NOT_ASKING, NOT_KEPT, NOT_WRITING, RAISED, REFUSED,
    SEQ_EXHAUSTED, WRITE_FIRST, WRITING, WRONG_KIND, WRONG_LENGTH,
};
use crate::record::AbtRm;
use crate::source_state::AbtSource;
use abt_cell::{Answer, Request, Rm};
use abt_keep::MemoryStore;
use abt_rate::Rate;
use abt_source::{Answered, AnySource, Asking, Source, Up};

/// The outcome of a write, as C says it: it was made, it failed with nothing written, or it failed after all was.
const WRITTEN: u32 = 1;

const FAILED_AFTER: u32 = 3;

/// Asks for a rate, or says which twelve octets the program has to write first.
#[unsafe(no_mangle)]
pub extern "C" fn abt_raw_source_ask(
    state: &mut AbtSource,
    code: u16,
    octets: &mut [u8],
    rm: &mut AbtRm,
) -> u32
    ensures wrong_length { (result ≡ wrong_length) ↔ (length octets.old ≢ 12) }
    ensures no_state { (result ≡ no_state) ↔ ((length octets.old ≡ 12) × ¬ IsSource state.old) }
    ensures down { (result ≡ down) ↔
        ((length octets.old ≡ 12) × IsSource state.old × (state.old.phase ≡ down_phase)) }
    ensures writing { (result ≡ writing) ↔ ((length octets.old ≡ 12) × IsWriting state.old) }
    ensures seq_exhausted { (result ≡ seq_exhausted) ↔
        ((length octets.old ≡ 12) × IsReady state.old × (state.old.last ≡ number_max)) }
    ensures write_first { (result ≡ write_first) ↔ ((length octets.old ≡ 12) × IsReady state.old ×
        (state.old.last ≢ number_max) × (has_to_write (source_in state.old) (units_of code) ≡ true)) }
    ensures asked { (result ≡ asked) ↔ ((length octets.old ≡ 12) × IsReady state.old ×
        (state.old.last ≢ number_max) × (has_to_write (source_in state.old) (units_of code) ≡ false)) }
    ensures writes { result ≡ write_first →
        (octets.new ≡ octets_of (record_to_write (source_in state.old) (units_of code))) ×
        (state.new ≡ record state.old { is_writing = 1; wanted = code }) × (rm.new ≡ rm.old) }
    ensures goes { result ≡ asked → IsAsked state.old (units_of code) state.new × (octets.new ≡ octets.old) ×
        (rm.new ≡ record_of (RequestRm (next_request (source_in state.old) (units_of code)))) }
    ensures same { result ≢ asked → result ≢ write_first →
        (state.new ≡ state.old) × (octets.new ≡ octets.old) × (rm.new ≡ rm.old) }
{
    if octets.len() != 12 {
        return WRONG_LENGTH;
    }
    match state.any() {
        None => NO_STATE,
        Some(AnySource::Down(_)) => DOWN,
        Some(_) if state.is_writing != 0 => WRITING,
        Some(AnySource::Idle(source)) => ask_of(state, source, code, octets, rm),
        Some(AnySource::Asking(source)) => ask_of(state, source, code, octets, rm),
    }
}

// The ask of a source.
fn ask_of<S: Up>(
    state: &mut AbtSource,
    source: Source<S>,
    code: u16,
    octets: &mut [u8],
    rm: &mut AbtRm,
) -> u32
    requires length { length octets.old ≡ 12 }
    requires source { source ≡ source_in state.old }
    ensures seq_exhausted { (result ≡ seq_exhausted) ↔ (state.old.last ≡ number_max) }
    ensures write_first { (result ≡ write_first) ↔
        ((state.old.last ≢ number_max) × (has_to_write (source_in state.old) (units_of code) ≡ true)) }
    ensures asked { (result ≡ asked) ↔
        ((state.old.last ≢ number_max) × (has_to_write (source_in state.old) (units_of code) ≡ false)) }
    ensures writes { result ≡ write_first →
        (octets.new ≡ octets_of (record_to_write (source_in state.old) (units_of code))) ×
        (state.new ≡ record state.old { is_writing = 1; wanted = code }) × (rm.new ≡ rm.old) }
    ensures goes { result ≡ asked → IsAsked state.old (units_of code) state.new × (octets.new ≡ octets.old) ×
        (rm.new ≡ record_of (RequestRm (next_request (source_in state.old) (units_of code)))) }
    ensures same { result ≡ seq_exhausted →
        (state.new ≡ state.old) × (octets.new ≡ octets.old) × (rm.new ≡ rm.old) }
{
    if source.last() == u32::MAX {
        return SEQ_EXHAUSTED;
    }
    let rate = Rate::from_code(code);
    let Some(record) = source.record_to_write(rate) else {
        go_out(state, source, rate, rm);
        return ASKED;
    };
    octets.copy_from_slice(&record.to_octets());
    state.is_writing = 1;
    state.wanted = code;
    WRITE_FIRST
}

// Sends the request of a source, whose record is kept.
fn go_out<S: Up>(state: &mut AbtSource, source: Source<S>, rate: Rate, rm: &mut AbtRm)
    requires source { source ≡ source_in state.old }
    requires last { state.old.last ≢ number_max }
    ensures asked { IsAsked state.old rate state.new }
    ensures request { rm.new ≡ record_of (RequestRm (next_request (source_in state.old) rate)) }
{
    let (source, request) = asked(source, rate);
    state.set(AnySource::Asking(source));
    *rm = AbtRm::of(&Rm::Request(request));
}

// The source after an ask whose record is kept, and its request.
fn asked<S: Up>(source: Source<S>, rate: Rate) -> (Source<Asking>, Request)
    requires { source.last ≢ number_max }
    ensures source { result.0 ≡ asking_source source (next_request source rate) }
    ensures request { result.1 ≡ next_request source rate }
{
    let mut store = MemoryStore::with(source.kept());
    let Ok(asked) = source.ask(&mut store, rate) else {
        unreachable!()
    };
    asked
}

/// Takes what became of the write: 1 made, 2 failed with nothing written, 3 failed after all was. Only after the first the request
/// goes out.
#[unsafe(no_mangle)]
pub extern "C" fn abt_raw_source_wrote(state: &mut AbtSource, became: u32, rm: &mut AbtRm) -> u32
    ensures no_state { (result ≡ no_state) ↔ (¬ IsSource state.old) }
    ensures wrong_kind { (result ≡ wrong_kind) ↔ (IsSource state.old × ((became ≡ 0) ⊎ (3 < became))) }
    ensures not_writing { (result ≡ not_writing) ↔
        (IsSource state.old × (1 ≤ became) × (became ≤ 3) × ¬ IsWriting state.old) }
    ensures not_kept { (result ≡ not_kept) ↔ (IsWriting state.old × (2 ≤ became) × (became ≤ 3)) }
    ensures seq_exhausted { (result ≡ seq_exhausted) ↔
        (IsWriting state.old × (became ≡ 1) × (state.old.last ≡ number_max)) }
    ensures asked { (result ≡ asked) ↔ (IsWriting state.old × (became ≡ 1) × (state.old.last ≢ number_max)) }
    ensures stays { result ≡ not_kept →
        (state.new ≡ record state.old { is_writing = 0 }) × (rm.new ≡ rm.old) }
    ensures goes { result ≡ asked → IsAsked state.old (units_of state.old.wanted) state.new ×
        (rm.new ≡ record_of (RequestRm (next_request (source_in state.old) (units_of state.old.wanted)))) }
    ensures same { result ≢ asked → result ≢ not_kept → (state.new ≡ state.old) × (rm.new ≡ rm.old) }
{
    let any = state.any();
    if any.is_none() {
        return NO_STATE;
    }
    if became == 0 || became > FAILED_AFTER {
        return WRONG_KIND;
    }
    match any {
        None | Some(AnySource::Down(_)) => NOT_WRITING,
        Some(_) if state.is_writing == 0 => NOT_WRITING,
        Some(_) if became != WRITTEN => {
            state.is_writing = 0;
            NOT_KEPT
        }
        Some(AnySource::Idle(source)) => written_of(state, source, rm),
        Some(AnySource::Asking(source)) => written_of(state, source, rm),
    }
}

// The ask of a source for whose sake the record was written.
fn written_of<S: Up>(state: &mut AbtSource, source: Source<S>, rm: &mut AbtRm) -> u32
    requires source { source ≡ source_in state.old }
    ensures seq_exhausted { (result ≡ seq_exhausted) ↔ (state.old.last ≡ number_max) }
    ensures asked { (result ≡ asked) ↔ (state.old.last ≢ number_max) }
    ensures goes { result ≡ asked → IsAsked state.old (units_of state.old.wanted) state.new ×
        (rm.new ≡ record_of (RequestRm (next_request (source_in state.old) (units_of state.old.wanted)))) }
    ensures same { result ≡ seq_exhausted → (state.new ≡ state.old) × (rm.new ≡ rm.old) }
{
    if source.last() == u32::MAX {
        return SEQ_EXHAUSTED;
    }
    let rate = Rate::from_code(state.wanted);
    go_out(state, source, rate, rm);
    ASKED
}

/// The newest request, to be sent again.
#[unsafe(no_mangle)]
pub extern "C" fn abt_raw_source_again(state: &AbtSource, rm: &mut AbtRm) -> u32
    ensures no_state { (result ≡ no_state) ↔ (¬ IsSource state.now) }
    ensures not_asking { (result ≡ not_asking) ↔ (IsSource state.now × (state.now.phase ≢ asking_phase)) }
    ensures done { (result ≡ done) ↔ (IsSource state.now × (state.now.phase ≡ asking_phase)) }
    ensures value { result ≡ done → rm.new ≡ record_of (RequestRm (newest_in state.now)) }
    ensures same { result ≢ done → rm.new ≡ rm.old }
{
    match state.any() {
        None => NO_STATE,
        Some(AnySource::Asking(source)) => {
            *rm = AbtRm::of(&Rm::Request(source.again()));
            DONE
        }
        Some(_) => NOT_ASKING,
    }
}

/// Takes an answer.
#[unsafe(no_mangle)]
pub extern "C" fn abt_raw_source_answer(state: &mut AbtSource, rm: &AbtRm) -> u32
    ensures no_state { (result ≡ no_state) ↔ (¬ IsSource state.old) }
    ensures wrong_kind { (result ≡ wrong_kind) ↔ (IsSource state.old × ¬ HasAnswerKind rm.now) }
    ensures vpi_range { (result ≡ vpi_range) ↔ (IsSource state.old × HasAnswerKind rm.now × ¬ HasVpi rm.now) }
    ensures seq_zero { (result ≡ rm_number SeqZero) ↔
        (IsSource state.old × HasAnswerKind rm.now × HasVpi rm.now × ¬ HasSeq rm.now) }
    ensures rate_order { (result ≡ rm_number RateOrder) ↔
        (IsSource state.old × HasAnswerKind rm.now × HasSeq rm.now × ¬ IsMessage rm.now) }
    ensures writing { (result ≡ writing) ↔ (IsWriting state.old × IsAnswer rm.now) }
    ensures down { IsSource state.old → IsAnswer rm.now → state.old.phase ≡ down_phase → result ≡ ignored }
    ensures value { IsReady state.old → IsAnswer rm.now →
        (result ≡ answer_number (result_of_answer (source_in state.old) (reply_in rm.now))) ×
        (source_in state.new ≡ heard_in (result_of_answer (source_in state.old) (reply_in rm.now))) }
    ensures state { IsSource state.old → IsSource state.new }
    ensures ready { IsReady state.old → IsReady state.new }
    ensures same { (first_fault ≤ result) ⊎ (result ≡ ignored) → state.new ≡ state.old }
{
    let Some(any) = state.any() else {
        return NO_STATE;
    };
    let answer = match rm.answer() {
        Ok(answer) => answer,
        Err(lack) => return outcome::of_lack(lack),
    };
    match any {
        AnySource::Down(_) => IGNORED,
        _ if state.is_writing != 0 => WRITING,
        AnySource::Idle(_) => IGNORED,
        AnySource::Asking(source) => heard(state, source, &answer),
    }
}

// A source that waits for an answer, after one.
fn heard(state: &mut AbtSource, source: Source<Asking>, answer: &Answer) -> u32
    requires source { source ≡ source_in state.old }
    ensures value { result ≡ answer_number (result_of_answer source answer.now) }
    ensures source { source_in state.new ≡ heard_in (result_of_answer source answer.now) }
    ensures state { IsSource state.old → IsSource state.new }
    ensures ready { IsReady state.old → IsReady state.new }
    ensures same { result ≡ ignored → state.new ≡ state.old }
    ensures low { result < first_fault }
{
    match source.answer(answer) {
        Answered::Raised(source) => {
            state.set(AnySource::Idle(source));
            RAISED
        }
        Answered::Refused(source) => {
            state.set(AnySource::Idle(source));
            REFUSED
        }
        Answered::Ignored(_) => IGNORED,
    }
}
