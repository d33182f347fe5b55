//! Sources, in stories. Each call goes through a helper that takes what is expected out of its answer and says nothing to the
//! prover, so that a story's proof doesn't carry each call on to the next one.
mod failing;
mod lifetimes;
mod stories;
mod strides;

use super::same;
use abt_cell::{Answer, Request, Vc};
use abt_keep::SeqStore;
use abt_rate::Rate;
use abt_shaper::ShapeFault;
use abt_source::{Answered, AskFault, Asking, Down, Idle, Source, StartFault, Up};
use std::process::Abort;
use std::test::Fail;

// The connection of the worked examples (docs/FORMATS.md, "Test cells").
fn connection() -> Result<Vc, Fail> {
    Ok(Vc::new(1, 100).ok_or("a channel")?)
}

// 400, 600 and 1,000 cells per second.
fn slow() -> Rate {
    Rate::from_code(0x5120)
}

fn middle() -> Rate {
    Rate::from_code(0x5258)
}

fn fast() -> Rate {
    Rate::from_code(0x53e8)
}

fn request_is(rt: &impl Abort, request: &Request, seq: u32, floor: Rate, ask: Rate) {
    same(
        rt,
        &(request.seq(), request.floor(), request.ask()),
        &(seq, floor, ask),
    );
}

// A start that works.
fn start<K: SeqStore>(source: Source<Down>, store: &mut K, now: u64) -> Result<Source<Idle>, Fail> {
    let Ok(source) = source.start(store, now) else {
        return Err("the start was refused".into());
    };
    Ok(source)
}

// A start that is refused: the source that comes back.
fn start_fails<K: SeqStore>(
    rt: &impl Abort,
    source: Source<Down>,
    store: &mut K,
    now: u64,
    fault: StartFault,
) -> Result<Source<Down>, Fail> {
    let Err(refused) = source.start(store, now) else {
        return Err("the start was not refused".into());
    };
    same(rt, &refused.fault, &fault);
    Ok(refused.source)
}

// A source that was started at moment 0 over a store.
fn started<K: SeqStore>(rt: &impl Abort, store: &mut K) -> Result<Source<Idle>, Fail> {
    let vc = connection()?;
    let source = start(Source::<Down>::new(vc), store, 0)?;
    same(rt, &source.vc(), &vc);
    same(rt, &source.rate(), &Rate::ZERO);
    Ok(source)
}

// An ask that works.
fn ask<S: Up, K: SeqStore>(
    source: Source<S>,
    store: &mut K,
    rate: Rate,
) -> Result<(Source<Asking>, Request), Fail> {
    let Ok(asked) = source.ask(store, rate) else {
        return Err("the ask was refused".into());
    };
    Ok(asked)
}

// An ask that is refused: the source that comes back.
fn ask_fails<S: Up, K: SeqStore>(
    rt: &impl Abort,
    source: Source<S>,
    store: &mut K,
    rate: Rate,
    fault: AskFault,
) -> Result<Source<S>, Fail> {
    let Err(refused) = source.ask(store, rate) else {
        return Err("the ask was not refused".into());
    };
    same(rt, &refused.fault, &fault);
    Ok(refused.source)
}

// The yes to a request, which is heard.
fn raise(source: Source<Asking>, request: &Request) -> Result<Source<Idle>, Fail> {
    let Answered::Raised(source) = source.answer(&Answer::of(request, true)) else {
        return Err("did not hear the yes".into());
    };
    Ok(source)
}

// The no to a request, which is heard.
fn refuse(source: Source<Asking>, request: &Request) -> Result<Source<Idle>, Fail> {
    let Answered::Refused(source) = source.answer(&Answer::of(request, false)) else {
        return Err("did not hear the no".into());
    };
    Ok(source)
}

// The yes to another request, which is ignored.
fn ignore(source: Source<Asking>, request: &Request) -> Result<Source<Asking>, Fail> {
    let Answered::Ignored(source) = source.answer(&Answer::of(request, true)) else {
        return Err("heard a yes to another request".into());
    };
    Ok(source)
}

fn repeats(rt: &impl Abort, source: &Source<Asking>, request: &Request) {
    same(rt, &source.again(), request);
}

fn shapes_at<S: Up>(rt: &impl Abort, source: &Source<S>, rate: Rate) {
    same(rt, &source.rate(), &rate);
}

fn last_is<S: Up>(rt: &impl Abort, source: &Source<S>, last: u32) {
    same(rt, &source.last(), &last);
}

fn emits<S: Up>(
    rt: &impl Abort,
    source: &mut Source<S>,
    now: u64,
    expected: Result<u64, ShapeFault>,
) {
    same(rt, &source.emit(now), &expected);
}
