//! Numbers kept in strides, beside the spacing that a restart waits for.
use super::*;
use abt_keep::{MemoryStore, Record, StoreFault, StorePlan};

// A store that counts its writes.
#[derive(Debug, Drop)]
struct Counts {
    kept: Record,
    writes: u64,
}

impl SeqStore for Counts {
    ghost content = { λ s. s.kept };

    ghost failure_count = { λ _. 0 };

    ghost kept_gives = { λ _ _ _. Unit {0} };

    ghost keep_gives = { λ _ _ _ _. Unit {0} };

    fn kept(&mut self) -> Result<Record, StoreFault> {
        Ok(self.kept)
    }

    fn keep(&mut self, kept: Record) -> Result<(), StoreFault> {
        self.kept = kept;
        self.writes = self.writes.saturating_add(1);
        Ok(())
    }

    fn failures(&self) -> u64 {
        0
    }
}

// Asks for a rate, and demands which number that is, how often the store was written then, and what it keeps.
fn asks(
    rt: &impl Abort,
    source: Source<Idle>,
    store: &mut Counts,
    rate: Rate,
    expected: (u32, u64, u32, u64),
) -> Result<Source<Idle>, Fail> {
    let (source, request) = ask(source, store, rate)?;
    let kept = store.kept;
    same(
        rt,
        &(request.seq(), store.writes, kept.number(), kept.spacing()),
        &expected,
    );
    same(rt, &source.kept(), &kept);
    refuse(source, &request)
}

#[test]
fn one_write_keeps_64_numbers(rt: HostRuntime) -> Result<(), Fail> {
    let mut store = Counts {
        kept: Record::old(0),
        writes: 0,
    };
    let mut source = started(&rt, &mut store)?;
    for seq in 1..=64 {
        source = asks(&rt, source, &mut store, slow(), (seq, 1, 64, 1000000000000))?;
    }
    for seq in 65..=66 {
        source = asks(
            &rt,
            source,
            &mut store,
            slow(),
            (seq, 2, 128, 1000000000000),
        )?;
    }
    Ok(())
}

// A store with a spacing of one millisecond, that of the fast rate.
fn millisecond() -> Result<Counts, Fail> {
    Ok(Counts {
        kept: Record::new(0, 1000000000).ok_or("a record")?,
        writes: 0,
    })
}

#[test]
fn a_greater_need_is_written_within_the_stride(rt: HostRuntime) -> Result<(), Fail> {
    let mut store = millisecond()?;
    let source = started(&rt, &mut store)?;
    let source = asks(&rt, source, &mut store, fast(), (1, 1, 64, 1000000000))?;
    let source = asks(&rt, source, &mut store, fast(), (2, 1, 64, 1000000000))?;
    // No rate needs no spacing, and the slow one 2,500,000,000 ps.
    let source = asks(&rt, source, &mut store, Rate::ZERO, (3, 1, 64, 1000000000))?;
    let source = asks(&rt, source, &mut store, slow(), (4, 2, 67, 2500000000))?;
    let source = asks(&rt, source, &mut store, fast(), (5, 2, 67, 2500000000))?;
    last_is(&rt, &source, 5);
    Ok(())
}

// While a request waits, and while its rate is the present one, its spacing counts in each need.
#[test]
fn the_open_request_and_the_present_rate_count(rt: HostRuntime) -> Result<(), Fail> {
    let mut store = millisecond()?;
    let source = started(&rt, &mut store)?;
    let (source, _) = ask(source, &mut store, slow())?;
    store.kept = Record::new(0, 1000000000).ok_or("a record")?;
    let source = start(source.crash(), &mut store, 0)?;
    let (source, first) = ask(source, &mut store, slow())?;
    same(&rt, &(first.seq(), store.kept.spacing()), &(1, 2500000000));
    let source = raise(source, &first)?;
    let (source, second) = ask(source, &mut store, fast())?;
    same(&rt, &(second.seq(), store.kept.spacing()), &(2, 2500000000));
    shapes_at(&rt, &source, slow());
    Ok(())
}

#[test]
fn a_start_waits_for_the_kept_spacing(rt: HostRuntime) -> Result<(), Fail> {
    let mut store = millisecond()?;
    let source = started(&rt, &mut store)?;
    let (source, request) = ask(source, &mut store, fast())?;
    let mut source = raise(source, &request)?;
    let too_soon = Err(ShapeFault::TooSoon { next: 1000000000 });
    emits(&rt, &mut source, 999999999, too_soon);
    emits(&rt, &mut source, 1000000000, Ok(2000000000));
    Ok(())
}

#[test]
fn all_numbers_end_with_the_last(rt: HostRuntime) -> Result<(), Fail> {
    let mut store = MemoryStore::new(4294967290);
    let (source, request) = ask(started(&rt, &mut store)?, &mut store, slow())?;
    same(&rt, &request.seq(), &4294967291);
    let source = start(source.crash(), &mut store, 0)?;
    let source = ask_fails(&rt, source, &mut store, slow(), AskFault::SeqExhausted)?;
    last_is(&rt, &source, 4294967295);
    Ok(())
}

// Whatever the store does, a refused ask leaves what the source knows.
#[test]
fn a_refused_ask_leaves_the_source(rt: HostRuntime) -> Result<(), Fail> {
    for (plan, stored) in [(StorePlan::FailsBefore, 0), (StorePlan::FailsAfter, 64)] {
        let mut store = MemoryStore::new(0);
        let source = started(&rt, &mut store)?;
        store.plan(plan);
        let source = ask_fails(&rt, source, &mut store, slow(), AskFault::Keep)?;
        same(&rt, &store.kept(), &Ok(Record::old(stored)));
        same(&rt, &(source.last(), source.kept()), &(0, Record::old(0)));
        shapes_at(&rt, &source, Rate::ZERO);
    }
    Ok(())
}
