//! The workers of a run, from the first start to the last join.
ghost use Rattle.std.specs.Prelude.{◌≡◌, ◌≤◌, ◌<◌, ◌+◌, [], ◌∷◌, ◌++◌, true, false, IfOk, map, option_map, vec_len, vec_capacity};
ghost use Rattle.abt_links.specs.Promises.{KeepEachAccess, KeepEachLink, KeepItsOperator};

use crate::Carrying;
use crate::join::{
    AccessHandle, AccessResult, Joined, LinkHandle, LinkResult, OperatorHandle, join_links,
    join_operator, join_sources,
};
use crate::stop::stop_all;
use crossbeam_channel::Sender;
use std::alloc::{AllocError, Global};
use std::sync::Wait;
use std::thread::Threads;

/// The workers that were started, but for the operator's. It has no `Drop`, and only [`WorkersWithOperator::stop_and_join`] takes
/// it apart: a way out that leaves a worker running doesn't compile.
pub(crate) struct WorkerHandles<K: Carrying> {
    to: Sender<K::Parcel>,
    workers: usize,
    links: Vec<LinkHandle>,
    sources: Vec<AccessHandle<K>>,
    complete: bool,
}

impl<K: Carrying> WorkerHandles<K> {
    /// No worker yet, with room for so many link workers and so many sources. The link workers are stopped by `to`.
    pub(crate) fn new(
        alloc: Global,
        to: Sender<K::Parcel>,
        workers: usize,
        sources: usize,
    ) -> Result<WorkerHandles<K>, AllocError>
        ensures complete { IfOk result (λ handles. handles.complete ≡ true) }
        ensures links { IfOk result
            (λ handles. (handles.links.items ≡ []) × (workers ≤ vec_capacity handles.links)) }
        ensures sources { IfOk result
            (λ handles. (handles.sources.items ≡ []) × (sources ≤ vec_capacity handles.sources)) }
    {
        let links = Vec::with_capacity(alloc, workers)?;
        let sources = Vec::with_capacity(alloc, sources)?;
        Ok(WorkerHandles {
            to,
            workers,
            links,
            sources,
            complete: true,
        })
    }

    /// Adds a link worker that was started.
    pub(crate) fn add_link(&mut self, handle: LinkHandle)
        requires room { vec_len self.old.links < vec_capacity self.old.links }
        ensures links { self.new.links.items ≡ self.old.links.items ++ handle ∷ [] }
        ensures len { vec_len self.new.links ≡ vec_len self.old.links + 1 }
        ensures room { vec_capacity self.new.links ≡ vec_capacity self.old.links }
        ensures rest { (self.new.sources ≡ self.old.sources) × (self.new.complete ≡ self.old.complete) }
    {
        self.links.push_reserved(handle);
    }

    /// Adds an access worker that was started.
    pub(crate) fn add_source(&mut self, handle: AccessHandle<K>)
        requires room { vec_len self.old.sources < vec_capacity self.old.sources }
        ensures sources { self.new.sources.items ≡ self.old.sources.items ++ handle ∷ [] }
        ensures len { vec_len self.new.sources ≡ vec_len self.old.sources + 1 }
        ensures room { vec_capacity self.new.sources ≡ vec_capacity self.old.sources }
        ensures rest { (self.new.links ≡ self.old.links) × (self.new.complete ≡ self.old.complete) }
    {
        self.sources.push_reserved(handle);
    }

    /// Whether each worker that was to be started was.
    pub(crate) fn is_complete(&self) -> bool
        ensures { result ≡ self.now.complete }
    {
        self.complete
    }

    /// These handles, marked as not those of all workers: one couldn't be started.
    pub(crate) fn broken_off(mut self) -> WorkerHandles<K>
        ensures complete { result.complete ≡ false }
        ensures rest { (result.links ≡ self.links) × (result.sources ≡ self.sources) }
    {
        self.complete = false;
        self
    }
}

/// The workers that were started, and the operator's, which is started last: without it, not all workers could be
/// started. It has no `Drop` either.
pub(crate) struct WorkersWithOperator<'run, K: Carrying> {
    handles: WorkerHandles<K>,
    operator: Option<OperatorHandle<'run>>,
}

impl<'run, K: Carrying> WorkersWithOperator<'run, K> {
    /// The workers that were started, with the operator's, if there is one.
    pub(crate) fn new(
        handles: WorkerHandles<K>,
        operator: Option<OperatorHandle<'run>>,
    ) -> WorkersWithOperator<'run, K>
        ensures handles { result.handles ≡ handles }
        ensures operator { result.operator ≡ operator.entry }
    {
        WorkersWithOperator { handles, operator }
    }

    /// Joins the access workers and the operator's, then stops the link workers and joins them too.
    pub(crate) fn stop_and_join<R: Threads + Wait>(
        self,
        rt: &R,
        sources: Vec<AccessResult<K>>,
        links: Vec<LinkResult>,
    ) -> Joined<K>
        requires empty { (sources.items ≡ []) × (links.items ≡ []) }
        requires room { (vec_len self.handles.sources ≤ vec_capacity sources) ×
            (vec_len self.handles.links ≤ vec_capacity links) }
        ensures operator { KeepItsOperator (option_map (λ h. h.promise) self.entry.operator) result.operator }
        ensures sources { KeepEachAccess (map (λ h. h.promise) self.entry.handles.sources.items)
            result.sources.items }
        ensures links { KeepEachLink (map (λ h. h.promise) self.entry.handles.links.items)
            result.links.items }
    {
        let WorkersWithOperator { handles, operator } = self;
        let WorkerHandles {
            to,
            workers,
            links: link_handles,
            sources: source_handles,
            complete: _,
        } = handles;
        let sources = join_sources(rt, source_handles, sources);
        let operator = join_operator(rt, operator);
        stop_all::<K, R>(rt, &to, workers);
        let links = join_links(rt, link_handles, links);
        Joined {
            operator,
            sources,
            links,
        }
    }
}
