ghost use Rattle.std.specs.Prelude.{◌≤◌, All};

use super::{same, same_items};
use abt_gcra::{Bucket, Gcra, GcraFault, PoliceFault, Policer, SPACING_MAX, Verdict, police};
use abt_rate::{Rate, TAU_MAX};
use std::alloc::Global;
use std::process::Abort;
use std::test::Fail;

mod walk;

// Demands that a cell gets this verdict by both forms.
fn judged(rt: &impl Abort, gcra: &mut Gcra, bucket: &mut Bucket, cell: (u64, u64), verdict: Verdict)
    requires least { 1 ≤ cell.1 }
    requires greatest { cell.1 ≤ SPACING_MAX }
{
    same(rt, &gcra.check(cell.0, cell.1), &Ok(verdict));
    same(rt, &bucket.check(cell.0, cell.1), &Ok(verdict));
}

fn policed(
    rt: &impl Abort,
    policer: &mut Policer,
    at: u64,
    held: Rate,
    expected: Result<Verdict, GcraFault>,
) {
    same(rt, &policer.arrive(at, held), &expected);
}

// Cells with a spacing of 10 within a tolerance of 2. The fourth arrives at 27, and is due at 30,
// which is 3 before (worked by hand).
const FIVE_CELLS: [(u64, u64); 5] = [(0, 10), (8, 10), (18, 10), (27, 10), (28, 10)];

const FIVE_VERDICTS: [Verdict; 5] = [
    Verdict::Conforming,
    Verdict::Conforming,
    Verdict::Conforming,
    Verdict::TooEarly,
    Verdict::Conforming,
];

// The answer to a list; if memory was refused, it is asked for again.
fn listed(alloc: Global, tau: u64, cells: &[(u64, u64)]) -> Result<Vec<Verdict>, PoliceFault>
    requires tolerance { tau ≤ TAU_MAX }
    requires spacings { All (λ cell. (1 ≤ cell.1) × (cell.1 ≤ SPACING_MAX)) cells.now }
{
    match police(alloc, tau, cells) {
        Err(PoliceFault::Memory) => police(alloc, tau, cells),
        answer => answer,
    }
}

#[test]
fn the_fourth_of_five_cells_comes_too_early(rt: HostRuntime) -> Result<(), Fail> {
    let verdicts = listed(rt.alloc(), 2, &FIVE_CELLS)?;
    same_items(&rt, &verdicts, &FIVE_VERDICTS);
    let mut gcra = Gcra::new(2);
    let mut bucket = Bucket::new(2);
    for (cell, verdict) in FIVE_CELLS.iter().zip(FIVE_VERDICTS.iter()) {
        judged(&rt, &mut gcra, &mut bucket, (cell.0, 10), *verdict);
    }
    Ok(())
}

#[test]
fn a_list_is_refused_at_its_first_bad_cell(rt: HostRuntime) -> Result<(), Fail> {
    let back = listed(rt.alloc(), 0, &[(5, 10), (4, 10)]).err();
    same(&rt, &back, &Some(PoliceFault::ClockBack { index: 1 }));
    let late = listed(rt.alloc(), 0, &[(4611686018427387905, 10)]).err();
    same(&rt, &late, &Some(PoliceFault::TimeRange { index: 0 }));
    same(&rt, &listed(rt.alloc(), 0, &[])?.len(), &0);
    Ok(())
}

// The least spacing of 5120 is 2500000000 picoseconds (docs/RULES.md, "Rates").
#[test]
fn a_policer_follows_the_rate_that_is_held(rt: HostRuntime) {
    let rate = Rate::from_code(0x5120);
    let mut policer = Policer::new(200);
    policed(&rt, &mut policer, 5, Rate::ZERO, Ok(Verdict::NoRate));
    policed(&rt, &mut policer, 4, rate, Err(GcraFault::ClockBack));
    policed(&rt, &mut policer, 5, rate, Ok(Verdict::Conforming));
    policed(&rt, &mut policer, 2499999804, rate, Ok(Verdict::TooEarly));
    policed(&rt, &mut policer, 2499999805, rate, Ok(Verdict::Conforming));
}

#[test]
fn the_greatest_arrival_is_timed(rt: HostRuntime) -> Result<(), Fail> {
    let rate = Rate::from_code(0x4000);
    let mut gcra = Gcra::new(TAU_MAX);
    let mut bucket = Bucket::new(TAU_MAX);
    let mut policer = Policer::new(TAU_MAX);
    for verdict in [Verdict::Conforming, Verdict::Conforming, Verdict::TooEarly] {
        let cell = (4611686018427387904, SPACING_MAX);
        judged(&rt, &mut gcra, &mut bucket, cell, verdict);
        policed(&rt, &mut policer, 4611686018427387904, rate, Ok(verdict));
    }
    one_moment_later(&rt, &mut gcra, &mut bucket);
    let fault = Err(GcraFault::TimeRange);
    policed(&rt, &mut policer, 4611686018427387905, rate, fault);
    same(
        &rt,
        &listed(rt.alloc(), 0, &[(4611686018427387904, 1)])?.len(),
        &1,
    );
    Ok(())
}

fn one_moment_later(rt: &impl Abort, gcra: &mut Gcra, bucket: &mut Bucket) {
    same(
        rt,
        &gcra.check(4611686018427387905, 1),
        &Err(GcraFault::TimeRange),
    );
    same(
        rt,
        &bucket.check(4611686018427387905, 1),
        &Err(GcraFault::TimeRange),
    );
}
