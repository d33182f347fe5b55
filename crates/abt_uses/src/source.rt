//! A source that starts, asks and hears.
ghost use Rattle.std.specs.Prelude.{◌≡◌, ◌≢◌, ◌≤◌, true, Some, IfSome};

use abt_cell::{Answer, Request, Vc};
use abt_keep::SeqStore;
use abt_rate::Rate;
use abt_source::{Answered, Asking, Source};

/// The first request of a source that starts now, with the source, which waits for the answer; `None` if the store failed, no number is
/// left, or the moment is out of range. Its number is in the store before it goes out.
pub fn first_request<K: SeqStore>(
    vc: Vc,
    store: &mut K,
    now: u64,
    rate: Rate,
) -> Option<(Source<Asking>, Request)>
    ensures channel { IfSome result (λ r. r.1.vc ≡ vc) }
    ensures ask { IfSome result (λ r. r.1.ask ≡ rate) }
    ensures floor { IfSome result (λ r. r.1.floor ≡ 0) }
    ensures still { IfSome result (λ r. r.0.rate ≡ 0) }
    ensures stored { IfSome result (λ r. r.1.seq ≤ (K.content store.new).number) }
{
    let Ok(source) = Source::new(vc).start(store, now) else {
        return None;
    };
    let Ok((source, request)) = source.ask(store, rate) else {
        return None;
    };
    Some((source, request))
}

/// The rate at which a source shapes once it heard an answer. Only a yes to its newest request raises it.
pub fn rate_after(source: Source<Asking>, answer: &Answer) -> Rate
    ensures raised { source.newest ≡ Some answer.now.terms → answer.now.granted ≡ true →
        result ≡ answer.now.terms.ask }
    ensures ignored { source.newest ≢ Some answer.now.terms → result ≡ source.rate }
{
    match source.answer(answer) {
        Answered::Raised(source) => source.rate(),
        Answered::Refused(source) => source.rate(),
        Answered::Ignored(source) => source.rate(),
    }
}
