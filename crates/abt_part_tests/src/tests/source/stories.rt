//! Sources over a store in memory, and the words of their faults.
use super::super::says;
use super::*;
use abt_keep::{MemoryStore, StorePlan};

#[test]
fn a_refused_start_hands_the_source_back(rt: HostRuntime) -> Result<(), Fail> {
    let vc = connection()?;
    let mut store = MemoryStore::new(0);
    store.plan(StorePlan::FailsBefore);
    let (late, source) = (2305842009213693953, Source::<Down>::new(vc));
    let source = start_fails(&rt, source, &mut store, late, StartFault::Keep)?;
    let source = start_fails(&rt, source, &mut store, late, StartFault::TimeRange)?;
    let source = start(source, &mut store, 0)?;
    same(
        &rt,
        &(source.vc(), source.rate(), source.last()),
        &(vc, Rate::ZERO, 0),
    );
    Ok(())
}

#[test]
fn the_last_moment_of_a_start_is_the_longest_hold_off_before_the_last_of_a_cell(
    rt: HostRuntime,
) -> Result<(), Fail> {
    // 2^61 - 10^12, and one more.
    let (last, late) = (2305842009213693952, 2305842009213693953);
    let mut store = MemoryStore::new(0);
    let source = Source::<Down>::new(connection()?);
    let source = start_fails(&rt, source, &mut store, late, StartFault::TimeRange)?;
    let source = start(source, &mut store, last)?;
    let (mut source, _) = ask(source, &mut store, slow())?;
    emits(&rt, &mut source, 2305843009213693952, Err(ShapeFault::Zero));
    let fault = Err(ShapeFault::TimeRange);
    emits(&rt, &mut source, 2305843009213693953, fault);
    Ok(())
}

#[test]
fn only_the_newest_request_is_answered(rt: HostRuntime) -> Result<(), Fail> {
    let mut store = MemoryStore::new(0);
    let (source, first) = ask(started(&rt, &mut store)?, &mut store, slow())?;
    request_is(&rt, &first, 1, Rate::ZERO, slow());
    repeats(&rt, &source, &first);
    let (source, second) = ask(source, &mut store, middle())?;
    request_is(&rt, &second, 2, Rate::ZERO, middle());
    repeats(&rt, &source, &second);

    let source = raise(ignore(source, &first)?, &second)?;
    shapes_at(&rt, &source, middle());

    let (source, third) = ask(source, &mut store, slow())?;
    request_is(&rt, &third, 3, slow(), slow());
    shapes_at(&rt, &source, slow());
    let mut source = refuse(source, &third)?;
    shapes_at(&rt, &source, slow());
    let too_soon = Err(ShapeFault::TooSoon {
        next: 1000000000000,
    });
    emits(&rt, &mut source, 999999999999, too_soon);
    Ok(())
}

#[test]
fn an_answer_to_other_terms_is_ignored(rt: HostRuntime) -> Result<(), Fail> {
    let mut store = MemoryStore::new(0);
    let (mut source, newest) = ask(started(&rt, &mut store)?, &mut store, middle())?;
    let elsewhere = Vc::new(1, 101).ok_or("another channel")?;
    let others = [
        Request::new(elsewhere, 1, Rate::ZERO, middle()),
        Request::new(newest.vc(), 2, Rate::ZERO, middle()),
        Request::new(newest.vc(), 1, slow(), middle()),
        Request::new(newest.vc(), 1, Rate::ZERO, fast()),
    ];
    for other in others {
        source = ignore(source, &other.ok_or("other terms")?)?;
    }
    repeats(&rt, &source, &newest);
    shapes_at(&rt, &source, Rate::ZERO);
    Ok(())
}

#[test]
fn the_last_number_is_used_once(rt: HostRuntime) -> Result<(), Fail> {
    let mut store = MemoryStore::new(4294967294);
    let (source, last) = ask(started(&rt, &mut store)?, &mut store, slow())?;
    same(&rt, &last.seq(), &4294967295);
    let source = raise(source, &last)?;
    let source = ask_fails(&rt, source, &mut store, slow(), AskFault::SeqExhausted)?;
    shapes_at(&rt, &source, slow());
    Ok(())
}

#[test]
fn a_restarted_source_ignores_yesterdays_yes(rt: HostRuntime) -> Result<(), Fail> {
    let mut store = MemoryStore::new(0);
    let (source, first) = ask(started(&rt, &mut store)?, &mut store, slow())?;
    let source = start(source.crash(), &mut store, 5)?;
    let (source, second) = ask(source, &mut store, middle())?;
    request_is(&rt, &second, 65, Rate::ZERO, middle());
    let source = ignore(source, &first)?;
    shapes_at(&rt, &source, Rate::ZERO);
    Ok(())
}

#[test]
fn cells_leave_at_the_rate_of_the_moment(rt: HostRuntime) -> Result<(), Fail> {
    let mut store = MemoryStore::new(0);
    let source = start(
        Source::<Down>::new(connection()?),
        &mut store,
        5000000000000,
    )?;
    let (source, request) = ask(source, &mut store, fast())?;
    let mut source = raise(source, &request)?;
    let too_soon = Err(ShapeFault::TooSoon {
        next: 6000000000000,
    });
    emits(&rt, &mut source, 5900000000000, too_soon);
    emits(&rt, &mut source, 6000000000000, Ok(6001000000000));

    // The lower rate counts from the next cell on, before any answer.
    let (mut source, _) = ask(source, &mut store, slow())?;
    emits(&rt, &mut source, 5999999999999, Err(ShapeFault::ClockBack));
    emits(&rt, &mut source, 6001000000000, Ok(6003500000000));
    Ok(())
}

#[test]
fn faults_have_texts(rt: HostRuntime) -> Result<(), Fail> {
    let keep = "the store did not give its record";
    says(&rt, rt.alloc(), &StartFault::Keep, keep)?;
    let range = "the moment of the start is out of range";
    says(&rt, rt.alloc(), &StartFault::TimeRange, range)?;
    let exhausted = "no sequence number is left";
    says(&rt, rt.alloc(), &AskFault::SeqExhausted, exhausted)?;
    let keep = "the store did not take the next record";
    says(&rt, rt.alloc(), &AskFault::Keep, keep)
}
