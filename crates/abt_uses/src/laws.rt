//! What fits is granted.
ghost use Rattle.std.specs.Prelude.{◌≡◌, true, List, Some, IfOk};
ghost use Rattle.abt_keep.specs.declared.plan.StorePlan.TheVariants.{Works};
ghost use Rattle.abt_net.specs.declared.conn.Conn.{Conn};
ghost use Rattle.abt_net.specs.Topology.{conn_at};
ghost use Rattle.abt_model.specs.Run.{facts_after};
ghost use Rattle.abt_model.specs.declared.event.Event.{Event};
ghost use Rattle.abt_world.specs.Standing.{StandsFor};
ghost use Rattle.abt_laws.specs.Granting.{IsGrantable};

use abt_keep::StorePlan;
use abt_laws::ask_with_nothing_between;
use abt_model::{Heard, Outcome};
use abt_net::Net;
use abt_node::Onward;
use abt_rate::Rate;
use abt_world::World;
use std::alloc::AllocError;

/// Whether a source is raised that asks for a rate while nothing else happens. It is, if the rate fits at every hop.
pub fn is_raised(world: &mut World, net: &Net, conn: u16, rate: Rate) -> Result<bool, AllocError>
    ensures { (events : List Event) (its : Conn) → StandsFor net.now events world.old →
        conn_at net.now conn ≡ Some its →
        IsGrantable net.now (facts_after net.now events) conn its rate Works →
        IfOk result (λ raised. raised ≡ true) }
{
    // Names a type within an outcome, without which the checker can't follow one.
    let _ = Onward::Pass;
    let answered = ask_with_nothing_between(world, net, conn, rate, StorePlan::Works)?;
    Ok(answered == Outcome::Told(Heard::Raised))
}
