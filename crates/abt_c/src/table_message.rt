//! Requests and answers at a port with a table of its connections, for C.
ghost use Rattle.std.specs.Prelude.{◌≡◌, ◌≢◌, ℕ, ◌<◌, ◌≤◌, ◌↔◌, ◌⊎◌};
ghost use Rattle.abt_cell.specs.declared.message.Rm.TheVariants.{Answer as AnswerRm};
ghost use Rattle.abt_cell.specs.declared.fault.RmFault.TheVariants.{SeqZero, RateOrder};
ghost use Rattle.abt_node.specs.declared.reply.DropCause.TheVariants.{UnknownVc};
ghost use Rattle.abt_node.specs.Reservation.{answer_of, no_to};
ghost use Rattle.abt_c.specs.Outcome.{first_fault, refuse, drop_number, rm_number, no_state, wrong_kind, vpi_range, damaged};
ghost use Rattle.abt_c.specs.Records.{record_of, terms_in, reply_in, request_kind, HasAnswerKind, HasVpi, HasSeq, IsMessage, IsAnswer, IsRequest};
ghost use Rattle.abt_c.specs.Ports.{reservation_in, decision_at, onward_number, back_number};
ghost use Rattle.abt_c.specs.Tables.{HasHead, IsTable, IsRowOf, IsUnknown, LeavesOthers, row_of};

use crate::outcome::{self, DAMAGED, NO_STATE, PASS, REFUSE};
use crate::record::AbtRm;
use crate::table_state::AbtTable;
use abt_cell::Rm;
use abt_node::{Back, Onward};

/// Decides a request of a connection of the table. The no to a request that is refused comes out as its answer.
#[unsafe(no_mangle)]
pub extern "C" fn abt_raw_table_request(table: &mut AbtTable, rm: &AbtRm, answer: &mut AbtRm) -> u32
    ensures no_state { (result ≡ no_state) ↔ (¬ HasHead table.old) }
    ensures wrong_kind { (result ≡ wrong_kind) ↔ (HasHead table.old × (rm.now.kind ≢ request_kind)) }
    ensures vpi_range { (result ≡ vpi_range) ↔ (HasHead table.old ×
        (rm.now.kind ≡ request_kind) × ¬ HasVpi rm.now) }
    ensures seq_zero { (result ≡ rm_number SeqZero) ↔ (HasHead table.old ×
        (rm.now.kind ≡ request_kind) × HasVpi rm.now × ¬ HasSeq rm.now) }
    ensures rate_order { (result ≡ rm_number RateOrder) ↔ (HasHead table.old ×
        (rm.now.kind ≡ request_kind) × HasSeq rm.now × ¬ IsMessage rm.now) }
    ensures whole { IsTable table.old → result ≢ damaged }
    ensures unknown_vc { IsTable table.old → IsRequest rm.now →
        (result ≡ drop_number UnknownVc) ↔ IsUnknown table.old (terms_in rm.now).vc }
    ensures value { IsTable table.old → IsRequest rm.now → (i : ℕ) →
        IsRowOf table.old (terms_in rm.now).vc i →
        (let decision = decision_at table.old.port (row_of table.old.rows i) (terms_in rm.now) in
        (result ≡ onward_number decision.0) × (reservation_in (row_of table.new.rows i) ≡ decision.1)) }
    ensures state { IsTable table.old → IsTable table.new }
    ensures others { LeavesOthers (terms_in rm.now).vc table.old table.new }
    ensures no { result ≡ refuse → answer.new ≡ record_of (AnswerRm (no_to (terms_in rm.now))) }
    ensures other { result ≢ refuse → answer.new ≡ answer.old }
    ensures same { (first_fault ≤ result) ⊎ (result ≡ drop_number UnknownVc) → table.new ≡ table.old }
{
    if !table.has_head() {
        return NO_STATE;
    }
    let request = match rm.asked() {
        Ok(request) => request,
        Err(lack) => return outcome::of_lack(lack),
    };
    let Some(onward) = table.request(&request) else {
        return DAMAGED;
    };
    match onward {
        Onward::Pass => PASS,
        Onward::Refuse(no) => {
            *answer = AbtRm::of(&Rm::Answer(no));
            REFUSE
        }
        Onward::Drop(cause) => outcome::of_drop(cause),
    }
}

/// Takes an answer of a connection of the table.
#[unsafe(no_mangle)]
pub extern "C" fn abt_raw_table_answer(table: &mut AbtTable, rm: &AbtRm) -> u32
    ensures no_state { (result ≡ no_state) ↔ (¬ HasHead table.old) }
    ensures wrong_kind { (result ≡ wrong_kind) ↔ (HasHead table.old × ¬ HasAnswerKind rm.now) }
    ensures vpi_range { (result ≡ vpi_range) ↔ (HasHead table.old ×
        HasAnswerKind rm.now × ¬ HasVpi rm.now) }
    ensures seq_zero { (result ≡ rm_number SeqZero) ↔ (HasHead table.old ×
        HasAnswerKind rm.now × HasVpi rm.now × ¬ HasSeq rm.now) }
    ensures rate_order { (result ≡ rm_number RateOrder) ↔ (HasHead table.old ×
        HasAnswerKind rm.now × HasSeq rm.now × ¬ IsMessage rm.now) }
    ensures whole { IsTable table.old → result ≢ damaged }
    ensures unknown_vc { IsTable table.old → IsAnswer rm.now →
        (result ≡ drop_number UnknownVc) ↔ IsUnknown table.old (terms_in rm.now).vc }
    ensures value { IsTable table.old → IsAnswer rm.now → (i : ℕ) →
        IsRowOf table.old (terms_in rm.now).vc i →
        (let taken = answer_of (reservation_in (row_of table.old.rows i)) (reply_in rm.now) in
        (result ≡ back_number taken.0) × (reservation_in (row_of table.new.rows i) ≡ taken.1)) }
    ensures state { IsTable table.old → IsTable table.new }
    ensures others { LeavesOthers (terms_in rm.now).vc table.old table.new }
    ensures same { (first_fault ≤ result) ⊎ (result ≡ drop_number UnknownVc) → table.new ≡ table.old }
{
    if !table.has_head() {
        return NO_STATE;
    }
    let answer = match rm.answer() {
        Ok(answer) => answer,
        Err(lack) => return outcome::of_lack(lack),
    };
    let Some(back) = table.answer(&answer) else {
        return DAMAGED;
    };
    match back {
        Back::Pass => PASS,
        Back::Drop(cause) => outcome::of_drop(cause),
    }
}
