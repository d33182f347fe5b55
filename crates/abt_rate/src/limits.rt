//! The limits that more than one crate goes by (docs/RULES.md, "Limits").
ghost use Rattle.std.specs.Prelude.{◌≡◌};
ghost use Rattle.abt_rate.specs.Limits.{capacity_max, net_connections_max, port_connections_max, tau_max, workers_max};

/// The greatest capacity of a port, in units of 1/512 cell/s: 2^60.
pub const CAPACITY_MAX: u64 = 1_152_921_504_606_846_976;

/// The most connections of a port, and of a net.
pub const CONNECTIONS_MAX: usize = 1024;

/// The greatest tolerance of a connection or a policer, in picoseconds.
pub const TAU_MAX: u64 = 1_000_000_000_000;

/// The most link workers of a run.
pub const WORKERS_MAX: u16 = 64;

/// The constants are the limits that contracts name.
pub fn limits_are_kept()
    ensures capacity { CAPACITY_MAX ≡ capacity_max }
    ensures port_connections { CONNECTIONS_MAX ≡ port_connections_max }
    ensures net_connections { CONNECTIONS_MAX ≡ net_connections_max }
    ensures tolerance { TAU_MAX ≡ tau_max }
    ensures workers { WORKERS_MAX ≡ workers_max }
{}
