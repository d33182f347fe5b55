//! Which run a history is of.
use std::marker::Brand;

/// The net that a run is over.
pub trait Place {
    ghost use Rattle.abt_net.specs.Topology.{Topology};

    ghost net: { Topology };
}

impl Place for Brand {
    ghost use Rattle.std.specs.Prelude.{[]};

    ghost net = { record { capacities = []; conns = [] } };
}

/// The book in which a run's history stands.
pub trait Naming {
    ghost use Rattle.logbook.specs.Pages.{Book};

    ghost book: { Book };
}

impl Naming for Brand {
    ghost book = { record { number = 0; log_name = 0; cells_name = 0 } };
}
