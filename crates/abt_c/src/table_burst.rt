//! A burst of cells of many connections at a port with a table, for C.
ghost use Rattle.std.specs.Prelude.{◌≡◌, ◌≢◌, ℕ, ◌<◌, ◌≤◌, ◌↔◌, ◌⊎◌, length, slice_index};
ghost use Rattle.abt_c.specs.Outcome.{done, no_state, wrong_length, first_fault};
ghost use Rattle.abt_c.specs.Tables.{HasHead, IsTable};
ghost use Rattle.abt_c.specs.TableArrivals.{AreArrivals, IsArrival, arrival_of};

use crate::outcome::{DONE, NO_STATE, WRONG_LENGTH};
use crate::table_arrival::abt_raw_table_arrive;
use crate::table_state::AbtTable;

/// A cell of a connection that arrives at a moment.
#[repr(C)]
#[derive(Clone, Copy)]
pub struct AbtArrival {
    pub at: u64,
    pub vpi: u16,
    pub vci: u16,
}

/// The outcomes below 32 are those of a cell that was carried out.
const FIRST_FAULT: u32 = 32;

/// The outcomes of cells of connections of the table, and how many got one: all up to the first for which a single call is refused,
/// whose fault this is.
#[unsafe(no_mangle)]
pub extern "C" fn abt_raw_table_arrive_burst(
    table: &mut AbtTable,
    cells: &[AbtArrival],
    outcomes: &mut [u8],
    judged: &mut usize,
) -> u32
    ensures no_state { (result ≡ no_state) ↔ (¬ HasHead table.old) }
    ensures wrong_length { (result ≡ wrong_length) ↔
        (HasHead table.old × (length cells.now ≢ length outcomes.old)) }
    ensures done { (result ≡ done) ↔ (HasHead table.old × (length cells.now ≡ length outcomes.old) ×
        (judged.new ≡ length cells.now)) }
    ensures value { result ≢ no_state → result ≢ wrong_length →
        AreArrivals table.old cells.now outcomes.new judged.new table.new }
    ensures rest { (i : ℕ) → judged.new ≤ i → slice_index outcomes.new i ≡ slice_index outcomes.old i }
    ensures stop { result ≢ done → result ≢ no_state → result ≢ wrong_length →
        (judged.new < length cells.now) × (first_fault ≤ result) ×
        IsArrival (arrival_of cells.now judged.new) table.new table.new result }
    ensures state { IsTable table.old → IsTable table.new }
    ensures same { (result ≡ no_state) ⊎ (result ≡ wrong_length) →
        (table.new ≡ table.old) × (judged.new ≡ 0) }
{
    *judged = 0;
    if !table.has_head() {
        return NO_STATE;
    }
    if cells.len() != outcomes.len() {
        return WRONG_LENGTH;
    }
    for (i, cell) in cells.iter().enumerate() {
        let outcome = abt_raw_table_arrive(table, cell.vpi, cell.vci, cell.at);
        if outcome >= FIRST_FAULT {
            *judged = i;
            return outcome;
        }
        outcomes[i] = outcome as u8;
    }
    *judged = cells.len();
    DONE
}
