//! What a port and its connections keep, for C to read.
ghost use Rattle.std.specs.Prelude.{◌≡◌, ◌≢◌, ℕ, ◌<◌, ◌≤◌, ◌^◌, ◌↔◌};
ghost use Rattle.abt_node.specs.declared.reply.DropCause.TheVariants.{UnknownVc};
ghost use Rattle.abt_c.specs.Outcome.{done, drop_number, no_state, vpi_range};
ghost use Rattle.abt_c.specs.Ports.{IsPort, IsConnection, reservation_in};
ghost use Rattle.abt_c.specs.Looks.{told_of};
ghost use Rattle.abt_c.specs.Tables.{HasHead, IsTable, IsRowOf, IsUnknown, row_of};

use crate::outcome::{self, DAMAGED, DONE, NO_STATE, VPI_RANGE};
use crate::port_state::{AbtConnection, AbtPort};
use crate::table_state::{AbtTable, Found};
use abt_cell::Vc;
use abt_node::DropCause;
use abt_rate::Rate;

/// What a port keeps of a connection. Rates are canonical codes.
#[repr(C)]
#[derive(Clone, Copy)]
pub struct AbtReservation {
    pub newest: u32,
    pub is_open: u32,
    pub floor: u16,
    pub ask: u16,
}

impl AbtReservation {
    // What a connection's state says.
    fn of(connection: &AbtConnection) -> AbtReservation
        ensures { result ≡ told_of (reservation_in connection.now) }
    {
        AbtReservation {
            newest: connection.newest,
            is_open: if connection.is_open == 0 { 0 } else { 1 },
            floor: Rate::from_code(connection.floor).code(),
            ask: Rate::from_code(connection.ask).code(),
        }
    }
}

/// The capacity of a port's link, in units.
#[unsafe(no_mangle)]
pub extern "C" fn abt_raw_port_capacity(port: &AbtPort, capacity: &mut u64) -> u32
    ensures no_state { (result ≡ no_state) ↔ (¬ IsPort port.now) }
    ensures done { (result ≡ done) ↔ IsPort port.now }
    ensures value { result ≡ done → capacity.new ≡ port.now.capacity }
    ensures same { result ≢ done → capacity.new ≡ capacity.old }
{
    if !port.is_port() {
        return NO_STATE;
    }
    *capacity = port.capacity;
    DONE
}

/// The newest request of a connection that was decided, and whether it's open.
#[unsafe(no_mangle)]
pub extern "C" fn abt_raw_connection_reservation(
    connection: &AbtConnection,
    reservation: &mut AbtReservation,
) -> u32
    ensures no_state { (result ≡ no_state) ↔ (¬ IsConnection connection.now) }
    ensures done { (result ≡ done) ↔ IsConnection connection.now }
    ensures value { result ≡ done → reservation.new ≡ told_of (reservation_in connection.now) }
    ensures same { result ≢ done → reservation.new ≡ reservation.old }
{
    if !connection.is_connection() {
        return NO_STATE;
    }
    *reservation = AbtReservation::of(connection);
    DONE
}

/// The capacity of the link of a port with a table, in units.
#[unsafe(no_mangle)]
pub extern "C" fn abt_raw_table_capacity(table: &AbtTable, capacity: &mut u64) -> u32
    ensures no_state { (result ≡ no_state) ↔ (¬ HasHead table.now) }
    ensures done { (result ≡ done) ↔ HasHead table.now }
    ensures value { result ≡ done → capacity.new ≡ table.now.port.capacity }
    ensures same { result ≢ done → capacity.new ≡ capacity.old }
{
    if !table.has_head() {
        return NO_STATE;
    }
    *capacity = table.port.capacity;
    DONE
}

/// How many connections the table has.
#[unsafe(no_mangle)]
pub extern "C" fn abt_raw_table_count(table: &AbtTable, count: &mut u64) -> u32
    ensures no_state { (result ≡ no_state) ↔ (¬ HasHead table.now) }
    ensures done { (result ≡ done) ↔ HasHead table.now }
    ensures value { result ≡ done → count.new ≡ table.now.count }
    ensures same { result ≢ done → count.new ≡ count.old }
{
    if !table.has_head() {
        return NO_STATE;
    }
    *count = table.count;
    DONE
}

/// The newest request that was decided of a connection of the table, and whether it's open.
#[unsafe(no_mangle)]
pub extern "C" fn abt_raw_table_reservation(
    table: &AbtTable,
    vpi: u16,
    vci: u16,
    reservation: &mut AbtReservation,
) -> u32
    ensures no_state { (result ≡ no_state) ↔ (¬ HasHead table.now) }
    ensures vpi_range { (result ≡ vpi_range) ↔ (HasHead table.now × (2 ^ 12 ≤ vpi)) }
    ensures unknown_vc { IsTable table.now → (result ≡ drop_number UnknownVc) ↔
        ((vpi < 2 ^ 12) × IsUnknown table.now (record { vpi = vpi; vci = vci })) }
    ensures done { IsTable table.now → (result ≡ done) ↔
        ((vpi < 2 ^ 12) × ¬ IsUnknown table.now (record { vpi = vpi; vci = vci })) }
    ensures value { IsTable table.now → (i : ℕ) → vpi < 2 ^ 12 →
        IsRowOf table.now (record { vpi = vpi; vci = vci }) i →
        reservation.new ≡ told_of (reservation_in (row_of table.now.rows i)) }
    ensures same { result ≢ done → reservation.new ≡ reservation.old }
{
    if !table.has_head() {
        return NO_STATE;
    }
    let Some(vc) = Vc::new(vpi, vci) else {
        return VPI_RANGE;
    };
    match table.find(vc) {
        Found::Row(row) => {
            *reservation = AbtReservation::of(&table.rows[row]);
            DONE
        }
        Found::Unknown => outcome::of_drop(DropCause::UnknownVc),
        Found::Damaged => DAMAGED,
    }
}
