//! The results of the joined workers of a run.
ghost use Rattle.std.specs.Prelude.{◌≡◌, None, Some, Ok, IfOk, IfErr, map};
ghost use Rattle.abt_links.specs.declared.fault.RunFault.{RunFault};
ghost use Rattle.abt_links.specs.Faults as faults;

use crate::fault::RunFault;
use crate::join::Joined;
use abt_history::{Keeping, SiteOf};
use abt_journal::{Seat, ServeFault};
use std::alloc::{AllocError, Global};

/// The results of the workers of a run.
#[derive(Drop)]
pub(crate) struct WorkerResults<K: Keeping> {
    pub(crate) accesses: Vec<Seat>,
    pub(crate) sites: Vec<SiteOf<K>>,
    pub(crate) links: Vec<Seat>,
    pub(crate) operator: Seat,
}

// The results of all workers, or the fault that the run tells. Memory is asked for only if no worker had a fault.
pub(crate) fn worked_of<K: Keeping>(
    alloc: Global,
    joined: Joined<K>,
) -> Result<WorkerResults<K>, RunFault>
    ensures fault { (fault : RunFault) →
        faults.fault_told joined.operator joined.sources.items joined.links.items ≡ Some fault →
        result ≡ Err fault }
    ensures none { faults.fault_told joined.operator joined.sources.items joined.links.items ≡ None →
        IfErr result (λ fault. fault ≡ RunFault.Memory) }
    ensures accesses { IfOk result
        (λ w. w.accesses.items ≡ map (λ r. r.0) (faults.given_back joined.sources.items)) }
    ensures sites { IfOk result
        (λ w. w.sites.items ≡ map (λ r. r.1) (faults.given_back joined.sources.items)) }
    ensures links { IfOk result (λ w. w.links.items ≡ faults.given_back joined.links.items) }
    ensures operator { IfOk result (λ w. joined.operator ≡ Some (Ok w.operator)) }
{
    if let Some(fault) = fault_told(&joined) {
        return Err(fault);
    }
    let Joined {
        operator,
        sources,
        links,
    } = joined;
    let Some(Ok(operator)) = operator else {
        unreachable!()
    };
    let (accesses, sites) = apart(alloc, given_back(alloc, sources)?)?;
    let links = given_back(alloc, links)?;
    Ok(WorkerResults {
        accesses,
        sites,
        links,
        operator,
    })
}

// The fault that a run tells of its workers, if there is one.
fn fault_told<K: Keeping>(joined: &Joined<K>) -> Option<RunFault>
    ensures { result ≡ faults.fault_told joined.now.operator joined.now.sources.items joined.now.links.items }
{
    let Some(operator) = &joined.operator else {
        return Some(RunFault::Thread);
    };
    let handles = graver(fault_among(&joined.sources), fault_among(&joined.links));
    let fault = graver(handles, fault_in(operator))?;
    Some(RunFault::from(fault))
}

// The first Wound of these, or else want of memory, if there is a fault.
fn fault_among<T>(results: &[Result<T, ServeFault>]) -> Option<ServeFault>
    ensures { result ≡ faults.fault_among results.now }
{
    match results.split_first() {
        None => None,
        Some((first, rest)) => graver(fault_in(first), fault_among(rest)),
    }
}

// The fault of one worker.
fn fault_in<T>(given: &Result<T, ServeFault>) -> Option<ServeFault>
    ensures { result ≡ faults.fault_in given.now }
{
    match given {
        Ok(_) => None,
        Err(fault) => Some(*fault),
    }
}

// Of two faults the first, if it is a Wound or the only one, and else the second.
fn graver(fault: Option<ServeFault>, other: Option<ServeFault>) -> Option<ServeFault>
    ensures { result ≡ faults.graver fault other }
{
    match (fault, other) {
        (Some(ServeFault::Wound { .. }), _) | (Some(ServeFault::Memory), None) => fault,
        (None, _) | (Some(ServeFault::Memory), Some(_)) => other,
    }
}

// The results of the workers without a fault.
fn given_back<T: Drop>(
    alloc: Global,
    results: Vec<Result<T, ServeFault>>,
) -> Result<Vec<T>, AllocError>
    ensures { IfOk result (λ given. given.items ≡ faults.given_back results.items) }
{
    let mut given = Vec::with_capacity(alloc, results.len())?;
    for result in results {
        if let Ok(value) = result {
            given.push(value)?;
        }
    }
    Ok(given)
}

// The first ones of pairs, and the others.
fn apart<A: Drop, B: Drop>(
    alloc: Global,
    pairs: Vec<(A, B)>,
) -> Result<(Vec<A>, Vec<B>), AllocError>
    ensures { IfOk result
        (λ r. (r.0.items ≡ map (λ p. p.0) pairs.items) × (r.1.items ≡ map (λ p. p.1) pairs.items)) }
{
    let mut firsts = Vec::with_capacity(alloc, pairs.len())?;
    let mut others = Vec::with_capacity(alloc, pairs.len())?;
    for (first, other) in pairs {
        firsts.push(first)?;
        others.push(other)?;
    }
    Ok((firsts, others))
}
