//! The cells of a connection at its ingress, a port with a table, for C.
ghost use Rattle.std.specs.Prelude.{◌≡◌, ◌≢◌, ℕ, ◌+◌, ◌<◌, ◌≤◌, ◌^◌, ◌↔◌, ◌⊎◌, slice_set};
ghost use Rattle.abt_rate.specs.Limits.{tau_max};
ghost use Rattle.abt_gcra.specs.Policing.{fresh_policing};
ghost use Rattle.abt_node.specs.Reservation.{first_reservation};
ghost use Rattle.abt_node.specs.declared.reply.DropCause.TheVariants.{UnknownVc};
ghost use Rattle.abt_c.specs.Outcome.{done, drop_number, no_state, wrong_length, vpi_range, tau_range, known, full, damaged};
ghost use Rattle.abt_c.specs.Ports.{reservation_in, held_in};
ghost use Rattle.abt_c.specs.States.{policing_of, policer_kind, IsPolicing};
ghost use Rattle.abt_c.specs.Tables.{HasHead, IsTable, IsRowOf, IsUnknown, places, row_of, policer_of};
ghost use Rattle.abt_c.specs.TableArrivals.{IsArrival, IsJudged};

use crate::outcome::{self, DAMAGED, DONE, NO_STATE, NOT_INGRESS, TAU_RANGE, VPI_RANGE};
use crate::policer::abt_raw_policer_arrive;
use crate::state::POLICER_KIND;
use crate::table::abt_raw_table_add;
use crate::table_state::{AbtTable, Found};
use abt_cell::Vc;
use abt_node::DropCause;
use abt_rate::TAU_MAX;

/// Takes a connection in, which holds nothing, and whose cells are policed with a tolerance.
#[unsafe(no_mangle)]
pub extern "C" fn abt_raw_table_add_ingress(
    table: &mut AbtTable,
    vpi: u16,
    vci: u16,
    tau: u64,
) -> u32
    ensures tau_range { (result ≡ tau_range) ↔ (tau_max < tau) }
    ensures no_state { (result ≡ no_state) ↔ ((tau ≤ tau_max) × ¬ HasHead table.old) }
    ensures vpi_range { (result ≡ vpi_range) ↔ ((tau ≤ tau_max) × HasHead table.old × (2 ^ 12 ≤ vpi)) }
    ensures known { IsTable table.old → (result ≡ known) ↔ ((tau ≤ tau_max) ×
        (vpi < 2 ^ 12) × ¬ IsUnknown table.old (record { vpi = vpi; vci = vci })) }
    ensures full { IsTable table.old → (result ≡ full) ↔ ((tau ≤ tau_max) × (vpi < 2 ^ 12) ×
        IsUnknown table.old (record { vpi = vpi; vci = vci }) × (table.old.count ≡ places)) }
    ensures done { IsTable table.old → (result ≡ done) ↔ ((tau ≤ tau_max) × (vpi < 2 ^ 12) ×
        IsUnknown table.old (record { vpi = vpi; vci = vci }) × (table.old.count < places)) }
    ensures row { result ≡ done → IsRowOf table.new (record { vpi = vpi; vci = vci }) table.old.count ×
        (reservation_in (row_of table.new.rows table.old.count) ≡ first_reservation) }
    ensures policer { result ≡ done →
        IsPolicing policer_kind (policer_of table.new.policers table.old.count) ×
        (policing_of (policer_of table.new.policers table.old.count) ≡ fresh_policing tau) }
    ensures others { result ≡ done → (table.new.port ≡ table.old.port) ×
        (table.new.count ≡ table.old.count + 1) ×
        ((i : ℕ) → i < table.old.count → (row_of table.new.rows i ≡ row_of table.old.rows i) ×
        (policer_of table.new.policers i ≡ policer_of table.old.policers i)) }
    ensures state { IsTable table.old → IsTable table.new }
    ensures same { result ≢ done → table.new ≡ table.old }
{
    if tau > TAU_MAX {
        return TAU_RANGE;
    }
    let place = table.count as usize;
    let outcome = abt_raw_table_add(table, vpi, vci);
    if outcome == DONE {
        table.policers[place].begin(POLICER_KIND, tau);
    }
    outcome
}

/// The verdict on a cell of a connection that arrives at a moment, at the rate that the connection holds.
#[unsafe(no_mangle)]
pub extern "C" fn abt_raw_table_arrive(table: &mut AbtTable, vpi: u16, vci: u16, at: u64) -> u32
    ensures no_state { (result ≡ no_state) ↔ (¬ HasHead table.old) }
    ensures value { HasHead table.old →
        IsArrival (record { at = at; vpi = vpi; vci = vci }) table.old table.new result }
    ensures same { (result ≡ no_state) → table.new ≡ table.old }
{
    if !table.has_head() {
        return NO_STATE;
    }
    let Some(vc) = Vc::new(vpi, vci) else {
        return VPI_RANGE;
    };
    match table.find(vc) {
        Found::Row(row) => table.arrive_at(row, at),
        Found::Unknown => outcome::of_drop(DropCause::UnknownVc),
        Found::Damaged => DAMAGED,
    }
}

impl AbtTable {
    // The verdict on a cell of the connection of a row.
    fn arrive_at(&mut self, row: usize, at: u64) -> u32
        requires head { HasHead self.old }
        requires row { row < self.old.count }
        ensures value { IsJudged (policer_of self.old.policers row) (policer_of self.new.policers row)
            (held_in (row_of self.old.rows row)) at result }
        ensures rest { self.new ≡ record self.old {
          policers = slice_set self.old.policers row (policer_of self.new.policers row);
        } }
        ensures kind { (result ≢ no_state) × (result ≢ vpi_range) × (result ≢ damaged) ×
            (result ≢ drop_number UnknownVc) × (result ≢ wrong_length) }
    {
        let held = self.rows[row].held_code();
        if !self.policers[row].is(POLICER_KIND) {
            return NOT_INGRESS;
        }
        abt_raw_policer_arrive(&mut self.policers[row], at, held)
    }
}
