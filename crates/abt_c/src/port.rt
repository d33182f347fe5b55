//! A port of a switch, for C: its link, and each connection in a record of its own, which the program finds.
ghost use Rattle.std.specs.Prelude.{◌≡◌, ◌≢◌, ◌+◌, ◌<◌, ◌≤◌, ◌^◌, ◌↔◌, ◌⊎◌};
ghost use Rattle.abt_rate.specs.Limits.{capacity_max};
ghost use Rattle.abt_rate.specs.Rate.{units_of, IsCanonical};
ghost use Rattle.abt_cell.specs.declared.message.Rm.TheVariants.{Answer as AnswerRm};
ghost use Rattle.abt_cell.specs.declared.fault.RmFault.TheVariants.{SeqZero, RateOrder};
ghost use Rattle.abt_node.specs.declared.reply.DropCause.TheVariants.{UnknownVc};
ghost use Rattle.abt_node.specs.Reservation.{first_reservation, answer_of, no_to};
ghost use Rattle.abt_c.specs.Outcome.{done, first_fault, pass, refuse, drop_number, rm_number, no_state, wrong_kind, vpi_range, below_sum, capacity_range};
ghost use Rattle.abt_c.specs.Records.{record_of, terms_in, reply_in, request_kind, HasAnswerKind, HasVpi, HasSeq, IsMessage, IsAnswer, IsRequest};
ghost use Rattle.abt_c.specs.Ports.{IsPort, IsConnection, IsCounted, port_kind, channel_in, reservation_in, held_in, port_after, decision_at, onward_number, back_number};

use crate::outcome::{self, BELOW_SUM, CAPACITY_RANGE, DONE, NO_STATE, PASS, REFUSE, VPI_RANGE};
use crate::port_state::{AbtConnection, AbtPort, PORT_KIND};
use crate::record::AbtRm;
use abt_cell::{Rm, Vc};
use abt_node::{Back, DropCause, Onward};
use abt_rate::CAPACITY_MAX;

/// Makes a state a port whose link has no holds, whatever it was before.
#[unsafe(no_mangle)]
pub extern "C" fn abt_raw_port_init(port: &mut AbtPort, capacity: u64) -> u32
    ensures done { (result ≡ done) ↔ (capacity ≤ capacity_max) }
    ensures capacity_range { (result ≡ capacity_range) ↔ (capacity_max < capacity) }
    ensures value { result ≡ done →
        port.new ≡ record { kind = port_kind; capacity = capacity; total = 0 } }
    ensures same { result ≢ done → port.new ≡ port.old }
{
    if capacity > CAPACITY_MAX {
        return CAPACITY_RANGE;
    }
    *port = AbtPort {
        kind: PORT_KIND,
        capacity,
        total: 0,
    };
    DONE
}

/// Makes a state that of a connection that asked for nothing yet, whatever it was before.
#[unsafe(no_mangle)]
pub extern "C" fn abt_raw_connection_init(connection: &mut AbtConnection, vpi: u16, vci: u16) -> u32
    ensures done { (result ≡ done) ↔ (vpi < 2 ^ 12) }
    ensures vpi_range { (result ≡ vpi_range) ↔ (2 ^ 12 ≤ vpi) }
    ensures state { result ≡ done → IsConnection connection.new }
    ensures value { result ≡ done → (reservation_in connection.new ≡ first_reservation) ×
        (channel_in connection.new ≡ record { vpi = vpi; vci = vci }) }
    ensures same { result ≢ done → connection.new ≡ connection.old }
{
    let Some(vc) = Vc::new(vpi, vci) else {
        return VPI_RANGE;
    };
    *connection = AbtConnection::first(vc);
    DONE
}

/// Decides a request of a connection. The no to a request that is refused comes out as its answer.
#[unsafe(no_mangle)]
pub extern "C" fn abt_raw_port_request(
    port: &mut AbtPort,
    connection: &mut AbtConnection,
    rm: &AbtRm,
    answer: &mut AbtRm,
) -> u32
    ensures no_state { (result ≡ no_state) ↔ (¬ IsCounted port.old connection.old) }
    ensures wrong_kind { (result ≡ wrong_kind) ↔
        (IsCounted port.old connection.old × (rm.now.kind ≢ request_kind)) }
    ensures vpi_range { (result ≡ vpi_range) ↔ (IsCounted port.old connection.old ×
        (rm.now.kind ≡ request_kind) × ¬ HasVpi rm.now) }
    ensures seq_zero { (result ≡ rm_number SeqZero) ↔ (IsCounted port.old connection.old ×
        (rm.now.kind ≡ request_kind) × HasVpi rm.now × ¬ HasSeq rm.now) }
    ensures rate_order { (result ≡ rm_number RateOrder) ↔ (IsCounted port.old connection.old ×
        (rm.now.kind ≡ request_kind) × HasSeq rm.now × ¬ IsMessage rm.now) }
    ensures unknown_vc { (result ≡ drop_number UnknownVc) ↔ (IsCounted port.old connection.old ×
        IsRequest rm.now × (channel_in connection.old ≢ (terms_in rm.now).vc)) }
    ensures value { IsCounted port.old connection.old → IsRequest rm.now →
        channel_in connection.old ≡ (terms_in rm.now).vc →
        (let decision = decision_at port.old connection.old (terms_in rm.now) in
        (result ≡ onward_number decision.0) × (reservation_in connection.new ≡ decision.1)) }
    ensures port { result < first_fault →
        port.new ≡ port_after port.old (held_in connection.old) (held_in connection.new) }
    ensures state { result < first_fault → IsCounted port.new connection.new ×
        (channel_in connection.new ≡ channel_in connection.old) }
    ensures no { result ≡ refuse → answer.new ≡ record_of (AnswerRm (no_to (terms_in rm.now))) }
    ensures other { result ≢ refuse → answer.new ≡ answer.old }
    ensures same { (first_fault ≤ result) ⊎ (result ≡ drop_number UnknownVc) →
        (port.new ≡ port.old) × (connection.new ≡ connection.old) }
{
    if !port.is_counted(connection) {
        return NO_STATE;
    }
    let request = match rm.asked() {
        Ok(request) => request,
        Err(lack) => return outcome::of_lack(lack),
    };
    if !connection.is_of(request.vc()) {
        return outcome::of_drop(DropCause::UnknownVc);
    }
    match connection.apply_request(port, &request) {
        Onward::Pass => PASS,
        Onward::Refuse(no) => {
            *answer = AbtRm::of(&Rm::Answer(no));
            REFUSE
        }
        Onward::Drop(cause) => outcome::of_drop(cause),
    }
}

/// Takes an answer of a connection.
#[unsafe(no_mangle)]
pub extern "C" fn abt_raw_port_answer(
    port: &mut AbtPort,
    connection: &mut AbtConnection,
    rm: &AbtRm,
) -> u32
    ensures no_state { (result ≡ no_state) ↔ (¬ IsCounted port.old connection.old) }
    ensures wrong_kind { (result ≡ wrong_kind) ↔
        (IsCounted port.old connection.old × ¬ HasAnswerKind rm.now) }
    ensures vpi_range { (result ≡ vpi_range) ↔ (IsCounted port.old connection.old ×
        HasAnswerKind rm.now × ¬ HasVpi rm.now) }
    ensures seq_zero { (result ≡ rm_number SeqZero) ↔ (IsCounted port.old connection.old ×
        HasAnswerKind rm.now × HasVpi rm.now × ¬ HasSeq rm.now) }
    ensures rate_order { (result ≡ rm_number RateOrder) ↔ (IsCounted port.old connection.old ×
        HasAnswerKind rm.now × HasSeq rm.now × ¬ IsMessage rm.now) }
    ensures unknown_vc { (result ≡ drop_number UnknownVc) ↔ (IsCounted port.old connection.old ×
        IsAnswer rm.now × (channel_in connection.old ≢ (terms_in rm.now).vc)) }
    ensures value { IsCounted port.old connection.old → IsAnswer rm.now →
        channel_in connection.old ≡ (terms_in rm.now).vc →
        (let taken = answer_of (reservation_in connection.old) (reply_in rm.now) in
        (result ≡ back_number taken.0) × (reservation_in connection.new ≡ taken.1)) }
    ensures port { result < first_fault →
        port.new ≡ port_after port.old (held_in connection.old) (held_in connection.new) }
    ensures state { result < first_fault → IsCounted port.new connection.new ×
        (channel_in connection.new ≡ channel_in connection.old) }
    ensures same { (first_fault ≤ result) ⊎ (result ≡ drop_number UnknownVc) →
        (port.new ≡ port.old) × (connection.new ≡ connection.old) }
{
    if !port.is_counted(connection) {
        return NO_STATE;
    }
    let answer = match rm.answer() {
        Ok(answer) => answer,
        Err(lack) => return outcome::of_lack(lack),
    };
    if !connection.is_of(answer.vc()) {
        return outcome::of_drop(DropCause::UnknownVc);
    }
    match connection.apply_answer(port, &answer) {
        Back::Pass => PASS,
        Back::Drop(cause) => outcome::of_drop(cause),
    }
}

/// Sets the link's capacity, in units, to no less than what is held.
#[unsafe(no_mangle)]
pub extern "C" fn abt_raw_port_set_capacity(port: &mut AbtPort, capacity: u64) -> u32
    ensures no_state { (result ≡ no_state) ↔ (¬ IsPort port.old) }
    ensures below_sum { (result ≡ below_sum) ↔ (IsPort port.old × (capacity < port.old.total)) }
    ensures capacity_range { (result ≡ capacity_range) ↔
        (IsPort port.old × (port.old.total ≤ capacity) × (capacity_max < capacity)) }
    ensures done { (result ≡ done) ↔
        (IsPort port.old × (port.old.total ≤ capacity) × (capacity ≤ capacity_max)) }
    ensures value { result ≡ done → port.new ≡ record port.old { capacity = capacity } }
    ensures same { result ≢ done → port.new ≡ port.old }
{
    if !port.is_port() {
        return NO_STATE;
    }
    if capacity < port.total {
        return BELOW_SUM;
    }
    if capacity > CAPACITY_MAX {
        return CAPACITY_RANGE;
    }
    port.capacity = capacity;
    DONE
}

/// The sum of what is held at a port, in units.
#[unsafe(no_mangle)]
pub extern "C" fn abt_raw_port_total(port: &AbtPort, total: &mut u64) -> u32
    ensures no_state { (result ≡ no_state) ↔ (¬ IsPort port.now) }
    ensures done { (result ≡ done) ↔ IsPort port.now }
    ensures value { result ≡ done → total.new ≡ port.now.total }
    ensures same { result ≢ done → total.new ≡ total.old }
{
    if !port.is_port() {
        return NO_STATE;
    }
    *total = port.total;
    DONE
}

/// The canonical code of the rate that is held for a connection.
#[unsafe(no_mangle)]
pub extern "C" fn abt_raw_connection_held(connection: &AbtConnection, held: &mut u16) -> u32
    ensures no_state { (result ≡ no_state) ↔ (¬ IsConnection connection.now) }
    ensures done { (result ≡ done) ↔ IsConnection connection.now }
    ensures value { result ≡ done → IsCanonical held.new × (units_of held.new ≡ held_in connection.now) }
    ensures same { result ≢ done → held.new ≡ held.old }
{
    if !connection.is_connection() {
        return NO_STATE;
    }
    *held = connection.held().code();
    DONE
}
