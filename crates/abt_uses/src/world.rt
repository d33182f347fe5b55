//! Events, one by one and as a list.
ghost use Rattle.std.specs.Prelude.{◌≡◌, [], ◌∷◌, true, IfOk};
ghost use Rattle.abt_model.specs.Outcomes.{outcome_of};
ghost use Rattle.abt_model.specs.Run.{facts_after};

use abt_model::{Event, Outcome};
use abt_net::Net;
use abt_node::Onward;
use abt_world::{World, run};
use std::alloc::{AllocError, Global};

/// What the second of two events answers in a net to which nothing happened before.
pub fn second_outcome(
    alloc: Global,
    net: &Net,
    first: &Event,
    second: &Event,
) -> Result<Outcome, AllocError>
    ensures { IfOk result
        (λ outcome. outcome ≡ outcome_of net.now (facts_after net.now (first.now ∷ [])) second.now) }
{
    // Names a type within an outcome, without which the checker can't follow one.
    let _ = Onward::Pass;
    let mut world = World::new(alloc, net)?;
    world.step(first)?;
    let outcome = world.step(second)?;
    Ok(outcome)
}

/// Whether a net is safe after events. It is, whatever they are.
pub fn is_safe_after(alloc: Global, net: &Net, events: &[Event]) -> Result<bool, AllocError>
    ensures { IfOk result (λ safe. safe ≡ true) }
{
    let trace = run(alloc, net, events)?;
    Ok(trace.safe)
}
