//! A connection of a port with a table is taken away, for C.
ghost use Rattle.std.specs.Prelude.{◌≡◌, ◌≢◌, ℕ, ◌+◌, ◌-◌, ◌<◌, ◌≤◌, ◌^◌, ◌↔◌, slice_index, slice_set};
ghost use Rattle.abt_node.specs.declared.reply.DropCause.TheVariants.{UnknownVc};
ghost use Rattle.abt_c.specs.Outcome.{done, drop_number, no_state, vpi_range, held};
ghost use Rattle.abt_c.specs.Ports.{held_in};
ghost use Rattle.abt_c.specs.Tables.{HasHead, IsTable, IsRowOf, IsUnknown, KeepsOthers, places, chain_of, last_of, row_of, policer_of, channel_of};

use crate::outcome::{self, DAMAGED, DONE, HELD, NO_STATE, VPI_RANGE};
use crate::table_state::{AbtTable, Found, NOWHERE, chain_by};
use abt_cell::Vc;
use abt_node::DropCause;
use abt_rate::Rate;

/// Takes a connection away that holds nothing. One that holds a rate stays: what it was granted is given back by messages alone.
#[unsafe(no_mangle)]
pub extern "C" fn abt_raw_table_remove(table: &mut AbtTable, vpi: u16, vci: u16) -> u32
    ensures no_state { (result ≡ no_state) ↔ (¬ HasHead table.old) }
    ensures vpi_range { (result ≡ vpi_range) ↔ (HasHead table.old × (2 ^ 12 ≤ vpi)) }
    ensures unknown_vc { IsTable table.old → (result ≡ drop_number UnknownVc) ↔
        ((vpi < 2 ^ 12) × IsUnknown table.old (record { vpi = vpi; vci = vci })) }
    ensures held { (i : ℕ) → IsTable table.old → vpi < 2 ^ 12 →
        IsRowOf table.old (record { vpi = vpi; vci = vci }) i →
        (result ≡ held) ↔ (held_in (row_of table.old.rows i) ≢ 0) }
    ensures done { (i : ℕ) → IsTable table.old → vpi < 2 ^ 12 →
        IsRowOf table.old (record { vpi = vpi; vci = vci }) i →
        (result ≡ done) ↔ (held_in (row_of table.old.rows i) ≡ 0) }
    ensures gone { IsTable table.old → result ≡ done →
        IsUnknown table.new (record { vpi = vpi; vci = vci }) }
    ensures others { IsTable table.old → result ≡ done →
        KeepsOthers (record { vpi = vpi; vci = vci }) table.old table.new }
    ensures port { table.new.port ≡ table.old.port }
    ensures state { IsTable table.old → IsTable table.new }
    ensures same { result ≢ done → table.new ≡ table.old }
{
    if !table.has_head() {
        return NO_STATE;
    }
    let Some(vc) = Vc::new(vpi, vci) else {
        return VPI_RANGE;
    };
    match table.find(vc) {
        Found::Row(row) if table.rows[row].held() != Rate::ZERO => HELD,
        Found::Row(row) => {
            table.remove(row);
            DONE
        }
        Found::Unknown => outcome::of_drop(DropCause::UnknownVc),
        Found::Damaged => DAMAGED,
    }
}

impl AbtTable {
    // Takes a row away that holds nothing: the last row comes to its place, and all are linked anew.
    fn remove(&mut self, row: usize)
        requires head { HasHead self.old }
        requires row { row < self.old.count }
        ensures state { IsTable self.old → held_in (row_of self.old.rows row) ≡ 0 → IsTable self.new }
        ensures others { IsTable self.old → KeepsOthers (channel_of self.old.rows row) self.old self.new }
        ensures gone { IsTable self.old → IsUnknown self.new (channel_of self.old.rows row) }
        ensures port { self.new.port ≡ self.old.port }
    {
        let end = self.count as usize - 1;
        self.rows[row] = self.rows[end];
        self.policers[row] = self.policers[end];
        self.count -= 1;
        self.link();
    }

    // Links the rows to chains, from the first on.
    fn link(&mut self)
        requires { self.old.count ≤ places }
        ensures last { (chain : ℕ) → chain < places →
            slice_index self.new.last chain ≡ last_of self.old.rows chain self.old.count }
        ensures before { (i : ℕ) → i < self.old.count → slice_index self.new.before i
            ≡ last_of self.old.rows (chain_of (channel_of self.old.rows i)) i }
        ensures rest { self.new ≡ record self.old { last = self.new.last; before = self.new.before } }
    {
        self.last = [NOWHERE; 1024];
        for row in 0..self.count as usize {
            let chain = chain_by(self.rows[row].vpi, self.rows[row].vci);
            self.before[row] = self.last[chain];
            self.last[chain] = row as u16;
        }
    }
}
