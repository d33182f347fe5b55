//! A source with its store, over its lifetime.
ghost use Rattle.std.specs.Prelude.{◌<◌, IfSome};

use abt_cell::{Request, Vc};
use abt_keep::SeqStore;
use abt_lifetime::{SourceCall, StoredSource};
use abt_rate::Rate;

/// The first request of a source over any store, if its store gives a record and takes one. Its number is above the one that the store held.
pub fn first_request_over<K: SeqStore + Drop>(
    vc: Vc,
    store: K,
    now: u64,
    rate: Rate,
) -> Option<Request>
    ensures { IfSome result (λ request. (K.content store).number < request.seq) }
{
    let mut source = StoredSource::new(vc, store);
    source.call(&SourceCall::Start { now });
    source.call(&SourceCall::Ask { rate })
}
