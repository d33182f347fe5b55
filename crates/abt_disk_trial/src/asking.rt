//! A source asks.
use crate::stopped::Stopped;
use abt_cell::{Request, Vc};
use abt_disk::{FileStore, open_store};
use abt_rate::Rate;
use abt_source::{Asking, Source, Up};

// Starts a source over the store of a file, asks so often, and tells each number as soon as its request goes out.
pub(crate) fn ask_all(rt: &HostRuntime, path: &str, now: u64, count: u64) -> Result<(), Stopped> {
    let vc = Vc::new(1, 100).ok_or(Stopped::Words)?;
    let mut store = open_store(rt, path)?;
    let Ok(source) = Source::new(vc).start(&mut store, now) else {
        return Err(Stopped::Start);
    };
    println!(rt; "started {}", source.last())?;
    if count == 0 {
        return Ok(());
    }
    let mut source = ask(rt, source, &mut store, 0)?;
    for number in 1..count {
        source = ask(rt, source, &mut store, number)?;
    }
    Ok(())
}

// Asks for one of two rates in turn, so that spacings are written too, and tells the number.
fn ask<S: Up>(
    rt: &HostRuntime,
    source: Source<S>,
    store: &mut FileStore,
    number: u64,
) -> Result<Source<Asking>, Stopped> {
    let code = if number % 7 == 0 { 0x4e00 } else { 0x53e8 };
    let Ok((source, request)) = source.ask(store, Rate::from_code(code)) else {
        return Err(store.fault().map_or(Stopped::Ask, Stopped::Disk));
    };
    tell(rt, &request)?;
    Ok(source)
}

fn tell(rt: &HostRuntime, request: &Request) -> Result<(), Stopped> {
    println!(rt; "asked {}", request.seq())?;
    Ok(())
}
