//! Stores that fail: which number comes next, and that no request is lost.
use super::*;
use abt_keep::{MemoryStore, Record, StoreFault, StorePlan};

// The number of the ask after one that failed under a plan, with or without a restart in between.
fn number_after(rt: &impl Abort, plan: StorePlan, restarts: bool) -> Result<u32, Fail> {
    let mut store = MemoryStore::new(0);
    let source = started(rt, &mut store)?;
    store.plan(plan);
    let mut source = ask_fails(rt, source, &mut store, slow(), AskFault::Keep)?;
    if restarts {
        source = start(source.crash(), &mut store, 0)?;
    }
    let (_, request) = ask(source, &mut store, slow())?;
    Ok(request.seq())
}

#[test]
fn a_number_that_failed_is_given_up_by_a_restart_alone(rt: HostRuntime) -> Result<(), Fail> {
    same(&rt, &number_after(&rt, StorePlan::FailsAfter, false)?, &1);
    same(&rt, &number_after(&rt, StorePlan::FailsAfter, true)?, &65);
    same(&rt, &number_after(&rt, StorePlan::FailsBefore, true)?, &1);
    Ok(())
}

// A store that fails once, at its Nth call, before it does anything.
#[derive(Debug, Drop)]
struct FailsOnce {
    kept: Record,
    calls: u64,
    nth: u64,
    failures: u64,
}

impl SeqStore for FailsOnce {
    ghost content = { λ s. s.kept };

    ghost failure_count = { λ s. s.failures };

    ghost kept_gives = { λ _ _ _. Unit {0} };

    ghost keep_gives = { λ _ _ _ _. Unit {0} };

    fn kept(&mut self) -> Result<Record, StoreFault> {
        self.calls = self.calls.saturating_add(1);
        if self.calls == self.nth {
            self.failures = self.failures.saturating_add(1);
            return Err(StoreFault::Device);
        }
        Ok(self.kept)
    }

    fn keep(&mut self, kept: Record) -> Result<(), StoreFault> {
        self.calls = self.calls.saturating_add(1);
        if self.calls == self.nth {
            self.failures = self.failures.saturating_add(1);
            return Err(StoreFault::Device);
        }
        self.kept = kept;
        Ok(())
    }

    fn failures(&self) -> u64 {
        self.failures
    }
}

// Asks until it isn't refused: the request, and how often it was refused.
fn ask_until_kept(
    source: Source<Idle>,
    store: &mut FailsOnce,
    rate: Rate,
) -> Result<(Source<Asking>, Request, u8), Fail> {
    match source.ask(store, rate) {
        Ok((source, request)) => Ok((source, request, 0)),
        Err(refused) => {
            let Ok((source, request)) = refused.source.ask(store, rate) else {
                return Err("refused twice".into());
            };
            Ok((source, request, 1))
        }
    }
}

// A start at moment 0, which is refused at the first call of the store alone, and then works.
fn start_until_kept(
    rt: &impl Abort,
    store: &mut FailsOnce,
    nth: u64,
) -> Result<Source<Idle>, Fail> {
    match Source::<Down>::new(connection()?).start(store, 0) {
        Ok(source) => Ok(source),
        Err(refused) => {
            same(rt, &nth, &1);
            same(rt, &refused.fault, &StartFault::Keep);
            let Ok(source) = refused.source.start(store, 0) else {
                return Err("refused twice".into());
            };
            Ok(source)
        }
    }
}

#[test]
fn no_request_is_lost_at_whichever_call_the_store_fails(rt: HostRuntime) -> Result<(), Fail> {
    // The store is read once and written once.
    for nth in 1..4u64 {
        ask_twice_over_a_failure(&rt, nth)?;
    }
    Ok(())
}

fn ask_twice_over_a_failure(rt: &impl Abort, nth: u64) -> Result<(), Fail> {
    let mut store = FailsOnce {
        kept: Record::old(4),
        calls: 0,
        nth,
        failures: 0,
    };
    let source = start_until_kept(rt, &mut store, nth)?;
    let (source, first, refusals) = ask_until_kept(source, &mut store, slow())?;
    same(
        rt,
        &(first.seq(), refusals),
        &(5, if nth == 2 { 1 } else { 0 }),
    );
    let source = refuse(source, &first)?;
    let (source, second, refusals) = ask_until_kept(source, &mut store, middle())?;
    same(rt, &(second.seq(), refusals), &(6, 0));
    last_is(rt, &source, 6);
    same(rt, &store.kept, &Record::old(68));
    same(rt, &store.failures(), &(if nth < 3 { 1 } else { 0 }));
    Ok(())
}
