//! Sources with their store over their whole lifetime.
use super::{connection, same, slow};
use abt_keep::{MemoryStore, StorePlan};
use abt_lifetime::{SourceCall, StoredSource};
use std::alloc::{AllocError, Global};
use std::test::Fail;

// The numbers of the requests that go out over calls. If memory was refused nothing was done, and the calls come once more.
fn sent(
    source: &mut StoredSource<MemoryStore>,
    alloc: Global,
    calls: &[SourceCall],
) -> Result<[Option<u32>; 4], AllocError> {
    let requests = match source.call_all(alloc, calls) {
        Ok(requests) => requests,
        Err(_) => source.call_all(alloc, calls)?,
    };
    let number = |at: usize| requests.get(at).map(|request| request.seq());
    Ok([number(0), number(1), number(2), number(3)])
}

fn start(now: u64) -> SourceCall {
    SourceCall::Start { now }
}

fn ask() -> SourceCall {
    SourceCall::Ask { rate: slow() }
}

// The first ask takes the numbers up to 64, the first one after a crash those up to 128. A call that the state doesn't allow does nothing.
#[test]
fn numbers_rise_over_crashes(rt: HostRuntime) -> Result<(), Fail> {
    let calls = [
        ask(),
        start(0),
        start(1),
        ask(),
        SourceCall::Emit { now: 2 },
        ask(),
        SourceCall::Crash,
        SourceCall::Crash,
        ask(),
        start(5),
        ask(),
    ];
    let mut source = StoredSource::new(connection()?, MemoryStore::new(0));
    let found = sent(&mut source, rt.alloc(), &calls)?;
    same(&rt, &found, &[Some(1), Some(2), Some(65), None]);
    Ok(())
}

// The read of the first start fails, so nothing is sent until the next one.
#[test]
fn a_start_that_fails_sends_nothing(rt: HostRuntime) -> Result<(), Fail> {
    let mut store = MemoryStore::new(128);
    store.plan(StorePlan::FailsBefore);
    let calls = [start(0), ask(), start(1), ask(), ask()];
    let mut source = StoredSource::new(connection()?, store);
    let found = sent(&mut source, rt.alloc(), &calls)?;
    same(&rt, &found, &[Some(129), Some(130), None, None]);
    Ok(())
}
