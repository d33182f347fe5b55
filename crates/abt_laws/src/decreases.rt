//! Decreases are never refused.
ghost use Rattle.std.specs.Prelude.{◌≡◌, IsSomeAnd};
ghost use Rattle.abt_cell.specs.Message.{Reply};
ghost use Rattle.abt_model.specs.Promises.{EveryPast};
ghost use Rattle.abt_node.specs.Rule.{IsRepeat};
ghost use Rattle.abt_node.specs.Table.{connection_at, reply_to, table_after};
ghost use Rattle.abt_node.specs.declared.reply.Onward.TheVariants as onward;
ghost use Rattle.abt_laws.specs.Decreases.{DecreasesAreNeverShut, DecreasesPassOrAreStale};

use abt_cell::Request;
use abt_node::{Onward, Port};

/// A request that asks for no more than its floor is never refused: no hop ever shuts it, and at each hop it passes, or comes too late to
/// matter (docs/RULES.md, "Node").
///
/// This is a law and does nothing.
pub fn decreases_are_never_refused()
    ensures shut { EveryPast DecreasesAreNeverShut }
    ensures passes { EveryPast DecreasesPassOrAreStale }
{}

/// Decides a request at a port alone, as [`Port::request`] does. One that asks for no more than its floor is refused only if it repeats a
/// request that is shut: a port that nobody sent a no for it has none such (docs/RULES.md, "Node").
pub fn decide(port: &mut Port, request: &Request) -> Onward
    ensures value { result ≡ reply_to port.old request.now }
    ensures table { port.new ≡ table_after port.old request.now }
    ensures decrease { (answer : Reply) → request.now.floor ≡ request.now.ask →
        result ≡ onward.Refuse answer →
        IsSomeAnd (connection_at port.old request.now.vc) (λ c. IsRepeat c.reservation request.now) }
{
    // What a port holds is within its capacity.
    let _total = port.total();
    port.request(request)
}
