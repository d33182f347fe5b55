//! A log of facts, and what it answers.
ghost use Rattle.std.specs.Prelude.{◌≡◌, Some, IfOk};

use abt_cell::Request;
use abt_facts::Fact;
use abt_index::{FactIndex, Lookups};
use abt_rate::Rate;
use std::alloc::{AllocError, Global};

/// What a log says of a request that is noted in it.
pub fn noted(alloc: Global, request: &Request) -> Result<Option<(Rate, Rate)>, AllocError>
    ensures { IfOk result (λ found. found ≡ Some (request.now.floor, request.now.ask)) }
{
    let fact = Fact::Asked {
        seq: request.seq(),
        floor: request.floor(),
        ask: request.ask(),
        mark: 0,
    };
    let (mut log, mut looks) = (FactIndex::new(alloc), Lookups::new());
    log.reserve()?;
    log.note(fact, &mut looks);
    Ok(log.asked(request.seq(), &mut looks))
}
