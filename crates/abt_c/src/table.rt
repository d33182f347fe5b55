//! A port of a switch with a table of its connections, for C: the table, its capacity and its sum.
ghost use Rattle.std.specs.Prelude.{◌≡◌, ◌≢◌, ℕ, ◌+◌, ◌<◌, ◌≤◌, ◌^◌, ◌↔◌, take, sum_by, slice_set};
ghost use Rattle.abt_rate.specs.Limits.{capacity_max};
ghost use Rattle.abt_rate.specs.Rate.{units_of, IsCanonical};
ghost use Rattle.abt_node.specs.declared.reply.DropCause.TheVariants.{UnknownVc};
ghost use Rattle.abt_node.specs.Reservation.{first_reservation};
ghost use Rattle.abt_c.specs.Outcome.{done, drop_number, no_state, tau_range, vpi_range, below_sum, capacity_range, known, full, damaged};
ghost use Rattle.abt_c.specs.Ports.{port_kind, reservation_in, held_in};
ghost use Rattle.abt_c.specs.States.{no_policer};
ghost use Rattle.abt_c.specs.Tables.{HasHead, IsTable, IsRowOf, IsUnknown, places, row_of};

use crate::outcome::{
    self, BELOW_SUM, CAPACITY_RANGE, DAMAGED, DONE, FULL, KNOWN, NO_STATE, VPI_RANGE,
};
use crate::table_state::{AbtTable, Found};
use abt_cell::Vc;
use abt_node::DropCause;
use abt_rate::CAPACITY_MAX;

/// Makes a state a port without connections, whatever it was before.
#[unsafe(no_mangle)]
pub extern "C" fn abt_raw_table_init(table: &mut AbtTable, capacity: u64) -> u32
    ensures done { (result ≡ done) ↔ (capacity ≤ capacity_max) }
    ensures capacity_range { (result ≡ capacity_range) ↔ (capacity_max < capacity) }
    ensures state { result ≡ done → IsTable table.new }
    ensures value { result ≡ done → (table.new.count ≡ 0) ×
        (table.new.port ≡ record { kind = port_kind; capacity = capacity; total = 0 }) }
    ensures same { result ≢ done → table.new ≡ table.old }
{
    if capacity > CAPACITY_MAX {
        return CAPACITY_RANGE;
    }
    table.begin(capacity);
    DONE
}

/// Takes a connection in, which holds nothing.
#[unsafe(no_mangle)]
pub extern "C" fn abt_raw_table_add(table: &mut AbtTable, vpi: u16, vci: u16) -> u32
    ensures no_state { (result ≡ no_state) ↔ (¬ HasHead table.old) }
    ensures vpi_range { (result ≡ vpi_range) ↔ (HasHead table.old × (2 ^ 12 ≤ vpi)) }
    ensures known { IsTable table.old → (result ≡ known) ↔
        ((vpi < 2 ^ 12) × ¬ IsUnknown table.old (record { vpi = vpi; vci = vci })) }
    ensures full { IsTable table.old → (result ≡ full) ↔ ((vpi < 2 ^ 12) ×
        IsUnknown table.old (record { vpi = vpi; vci = vci }) × (table.old.count ≡ places)) }
    ensures done { IsTable table.old → (result ≡ done) ↔ ((vpi < 2 ^ 12) ×
        IsUnknown table.old (record { vpi = vpi; vci = vci }) × (table.old.count < places)) }
    ensures row { result ≡ done → IsRowOf table.new (record { vpi = vpi; vci = vci }) table.old.count ×
        (reservation_in (row_of table.new.rows table.old.count) ≡ first_reservation) }
    ensures others { result ≡ done → (table.new.port ≡ table.old.port) ×
        (table.new.count ≡ table.old.count + 1) ×
        ((i : ℕ) → i < table.old.count → row_of table.new.rows i ≡ row_of table.old.rows i) }
    ensures policers { result ≡ done → (table.old.count < places) ×
        (table.new.policers ≡ slice_set table.old.policers table.old.count no_policer) }
    ensures kind { result ≢ tau_range }
    ensures state { IsTable table.old → IsTable table.new }
    ensures same { result ≢ done → table.new ≡ table.old }
{
    if !table.has_head() {
        return NO_STATE;
    }
    let Some(vc) = Vc::new(vpi, vci) else {
        return VPI_RANGE;
    };
    match table.find(vc) {
        Found::Row(_) => KNOWN,
        Found::Damaged => DAMAGED,
        Found::Unknown if table.is_full() => FULL,
        Found::Unknown => {
            table.insert(vc);
            DONE
        }
    }
}

/// Sets the link's capacity, in units, to no less than what is held.
#[unsafe(no_mangle)]
pub extern "C" fn abt_raw_table_set_capacity(table: &mut AbtTable, capacity: u64) -> u32
    ensures no_state { (result ≡ no_state) ↔ (¬ HasHead table.old) }
    ensures below_sum { (result ≡ below_sum) ↔ (HasHead table.old × (capacity < table.old.port.total)) }
    ensures capacity_range { (result ≡ capacity_range) ↔
        (HasHead table.old × (table.old.port.total ≤ capacity) × (capacity_max < capacity)) }
    ensures done { (result ≡ done) ↔
        (HasHead table.old × (table.old.port.total ≤ capacity) × (capacity ≤ capacity_max)) }
    ensures value { result ≡ done → table.new ≡
        record table.old { port = record table.old.port { capacity = capacity } } }
    ensures state { IsTable table.old → IsTable table.new }
    ensures same { result ≢ done → table.new ≡ table.old }
{
    if !table.has_head() {
        return NO_STATE;
    }
    if capacity < table.port.total {
        return BELOW_SUM;
    }
    if capacity > CAPACITY_MAX {
        return CAPACITY_RANGE;
    }
    table.port.capacity = capacity;
    DONE
}

/// The sum of what the connections hold, in units.
#[unsafe(no_mangle)]
pub extern "C" fn abt_raw_table_total(table: &AbtTable, total: &mut u64) -> u32
    ensures no_state { (result ≡ no_state) ↔ (¬ HasHead table.now) }
    ensures done { (result ≡ done) ↔ HasHead table.now }
    ensures value { IsTable table.now → total.new ≡ sum_by held_in (take table.now.count table.now.rows) }
    ensures same { result ≢ done → total.new ≡ total.old }
{
    if !table.has_head() {
        return NO_STATE;
    }
    *total = table.port.total;
    DONE
}

/// The canonical code of the rate that is held for a connection.
#[unsafe(no_mangle)]
pub extern "C" fn abt_raw_table_held(table: &AbtTable, vpi: u16, vci: u16, held: &mut u16) -> u32
    ensures no_state { (result ≡ no_state) ↔ (¬ HasHead table.now) }
    ensures vpi_range { (result ≡ vpi_range) ↔ (HasHead table.now × (2 ^ 12 ≤ vpi)) }
    ensures unknown_vc { IsTable table.now → (result ≡ drop_number UnknownVc) ↔
        ((vpi < 2 ^ 12) × IsUnknown table.now (record { vpi = vpi; vci = vci })) }
    ensures done { IsTable table.now → (result ≡ done) ↔
        ((vpi < 2 ^ 12) × ¬ IsUnknown table.now (record { vpi = vpi; vci = vci })) }
    ensures value { IsTable table.now → (i : ℕ) → vpi < 2 ^ 12 →
        IsRowOf table.now (record { vpi = vpi; vci = vci }) i →
        IsCanonical held.new × (units_of held.new ≡ held_in (row_of table.now.rows i)) }
    ensures same { result ≢ done → held.new ≡ held.old }
{
    if !table.has_head() {
        return NO_STATE;
    }
    let Some(vc) = Vc::new(vpi, vci) else {
        return VPI_RANGE;
    };
    match table.find(vc) {
        Found::Row(row) => {
            *held = table.rows[row].held().code();
            DONE
        }
        Found::Unknown => outcome::of_drop(DropCause::UnknownVc),
        Found::Damaged => DAMAGED,
    }
}
