ghost use Rattle.abt_perform.specs.Plans.{IsWithinLimits};

use super::{Narrow, done_alone, planned};
use abt_perform::Plan;
use std::alloc::Global;
use std::io::{self, Write};
use std::process::Abort;
use std::test::Fail;

#[test]
fn where_the_output_breaks_off_its_beginning_went_out(rt: HostRuntime) -> Result<(), Fail> {
    let alloc = rt.alloc();
    for room in 0..37 {
        let plan = planned(alloc, &["rate", "53e8"])?;
        breaks_off(&rt, alloc, &plan, room);
    }
    Ok(())
}

fn breaks_off(rt: &impl Abort, alloc: Global, plan: &Plan, room: usize)
    requires { IsWithinLimits plan.now }
{
    let mut out = Narrow::new(room);
    let mut errors = Narrow::new(512);
    let status = done_alone(alloc, plan, &mut "".as_bytes(), &mut out, &mut errors);
    let text = "53e8 units 512000 spacing 1000000000\n".as_bytes();
    assert_eq!(rt; errors.taken(), "fault: write\n".as_bytes());
    assert_eq!(rt; out.taken().len(), room);
    assert!(rt; text.starts_with(out.taken()));
    assert_eq!(rt; status, 1);
}

#[test]
fn a_fault_that_cannot_be_told_changes_no_status(rt: HostRuntime) -> Result<(), Fail> {
    let alloc = rt.alloc();
    for room in 0..14 {
        let plan = planned(alloc, &["rate", "none"])?;
        tells_a_part(&rt, alloc, &plan, room);
    }
    Ok(())
}

fn tells_a_part(rt: &impl Abort, alloc: Global, plan: &Plan, room: usize)
    requires { IsWithinLimits plan.now }
{
    let mut out = Narrow::new(512);
    let mut errors = Narrow::new(room);
    let status = done_alone(alloc, plan, &mut "".as_bytes(), &mut out, &mut errors);
    assert_eq!(rt; status, 1);
    assert!(rt; out.taken().is_empty());
    assert_eq!(rt; errors.taken().len(), room.min(12));
    assert!(rt; "fault: code\n".as_bytes().starts_with(errors.taken()));
}

/// A writer that takes at most seven octets a call, and nothing after so many calls.
#[derive(Drop)]
struct Stuck {
    calls: usize,
    inside: Narrow,
}

impl Write for Stuck {
    fn write(&mut self, buf: &[u8]) -> io::Result<usize> {
        if self.calls == 0 {
            return Ok(0);
        }
        self.calls -= 1;
        self.inside.write(&buf[..buf.len().min(7)])
    }

    fn flush(&mut self) -> io::Result<()> {
        Ok(())
    }
}

// Whether a plan is done over a writer that takes nothing after so many calls; if not, that is told, and the beginning went out.
fn is_done_before(rt: &impl Abort, alloc: Global, plan: &Plan, calls: usize, text: &str) -> bool
    requires { IsWithinLimits plan.now }
{
    let inside = Narrow::new(512);
    let mut out = Stuck { calls, inside };
    let mut errors = Narrow::new(512);
    let status = done_alone(alloc, plan, &mut "".as_bytes(), &mut out, &mut errors);
    if status == 0 {
        assert_eq!(rt; out.inside.taken(), text.as_bytes());
        assert!(rt; errors.taken().is_empty());
        return true;
    }
    assert_eq!(rt; status, 1);
    assert_eq!(rt; errors.taken(), "fault: write\n".as_bytes());
    assert!(rt; out.inside.taken().len() < text.len());
    assert!(rt; text.as_bytes().starts_with(out.inside.taken()));
    false
}

// Demands that a plan makes so many writes, and that it breaks off at whichever one of them fails.
fn breaks_off_at_each(rt: &impl Abort, alloc: Global, plan: &Plan, writes: usize, text: &str)
    requires { IsWithinLimits plan.now }
{
    for calls in 0..writes {
        assert!(rt; !is_done_before(rt, alloc, plan, calls, text), "{calls}");
    }
    assert!(rt; is_done_before(rt, alloc, plan, writes, text));
}

#[test]
fn a_writer_that_takes_no_octet_at_a_write_is_told(rt: HostRuntime) -> Result<(), Fail> {
    let alloc = rt.alloc();
    let rate = planned(alloc, &["rate", "53e8"])?;
    breaks_off_at_each(
        &rt,
        alloc,
        &rate,
        6,
        "53e8 units 512000 spacing 1000000000\n",
    );
    let port = planned(alloc, &["port", "512000", "zz"])?;
    breaks_off_at_each(&rt, alloc, &port, 3, "1 fault hex\ntotal 0\n");
    Ok(())
}
