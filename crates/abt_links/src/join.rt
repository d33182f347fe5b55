//! Workers that are joined.
ghost use Rattle.std.specs.Prelude.{◌≡◌, ◌≤◌, [], map, option_map, vec_len, vec_capacity};
ghost use Rattle.abt_links.specs.Promises.{KeepEachAccess, KeepEachLink, KeepItsOperator};

use crate::promises::{AccessOf, LinkOf, OperatorOf};
use abt_history::{Keeping, SiteOf};
use abt_journal::{Seat, ServeFault};
use std::thread::{PromisedHandle, Threads};

/// The result of an access worker.
pub(crate) type AccessResult<K> = Result<(Seat, SiteOf<K>), ServeFault>;

/// The result of a link worker.
pub(crate) type LinkResult = Result<Seat, ServeFault>;

/// The result of the operator's worker.
pub(crate) type OperatorResult = Result<Seat, ServeFault>;

pub(crate) type AccessHandle<K> = PromisedHandle<AccessResult<K>, AccessOf>;

pub(crate) type LinkHandle = PromisedHandle<LinkResult, LinkOf>;

pub(crate) type OperatorHandle<'run> = PromisedHandle<OperatorResult, OperatorOf<'run>>;

/// The results of all workers that were started. There is the operator's only if all others were started.
#[derive(Drop)]
pub(crate) struct Joined<K: Keeping> {
    pub(crate) operator: Option<OperatorResult>,
    pub(crate) sources: Vec<AccessResult<K>>,
    pub(crate) links: Vec<LinkResult>,
}

// Joins the link workers.
pub(crate) fn join_links<R: Threads>(
    rt: &R,
    handles: Vec<LinkHandle>,
    mut results: Vec<LinkResult>,
) -> Vec<LinkResult>
    requires empty { results.items ≡ [] }
    requires room { vec_len handles ≤ vec_capacity results }
    ensures { KeepEachLink (map (λ h. h.promise) handles.items) result.items }
{
    for handle in handles {
        results.push_reserved(handle.join(rt));
    }
    results
}

// Joins the access workers.
pub(crate) fn join_sources<K: Keeping, R: Threads>(
    rt: &R,
    handles: Vec<AccessHandle<K>>,
    mut results: Vec<AccessResult<K>>,
) -> Vec<AccessResult<K>>
    requires empty { results.items ≡ [] }
    requires room { vec_len handles ≤ vec_capacity results }
    ensures { KeepEachAccess (map (λ h. h.promise) handles.items) result.items }
{
    for handle in handles {
        results.push_reserved(handle.join(rt));
    }
    results
}

// Joins the operator's worker, if it was started.
pub(crate) fn join_operator<R: Threads>(
    rt: &R,
    handle: Option<OperatorHandle<'_>>,
) -> Option<OperatorResult>
    ensures { KeepItsOperator (option_map (λ h. h.promise) handle.entry) result }
{
    match handle {
        Some(handle) => Some(handle.join(rt)),
        None => None,
    }
}
