//! Ten thousand cells through both forms and a slow walk of the windows.
ghost use Rattle.std.specs.Prelude.{◌≡◌, ◌<◌, ◌≤◌, All, IfOk};

use super::{judged, listed, same};
use abt_gcra::{Bucket, Gcra, SPACING_MAX, Verdict};
use abt_rate::TAU_MAX;
use std::alloc::{AllocError, Global};
use std::process::Abort;
use std::test::Fail;

// A generator of numbers, by multiplication and addition modulo 2^64.
#[derive(Drop)]
struct Numbers {
    state: u64,
}

impl Numbers {
    fn below(&mut self, limit: u64) -> u64
        requires { 0 < limit }
        ensures { result < limit }
    {
        self.state = self
            .state
            .wrapping_mul(6364136223846793005)
            .wrapping_add(1442695040888963407);
        (self.state >> 33) % limit
    }
}

// Cells that come at about the rate of their spacings.
fn generated(alloc: Global, numbers: &mut Numbers) -> Result<Vec<(u64, u64)>, AllocError>
    ensures { IfOk result (λ cells. All (λ cell. (1 ≤ cell.1) × (cell.1 ≤ SPACING_MAX)) cells.items) }
{
    let mut cells = Vec::new(alloc);
    let mut at: u64 = 0;
    for _ in 0..100 {
        at = at.saturating_add(numbers.below(22));
        let spacing = 1 + numbers.below(20);
        cells.push((at, spacing))?;
    }
    Ok(cells)
}

// Such cells; if memory is refused, others are generated.
fn cells(alloc: Global, numbers: &mut Numbers) -> Result<Vec<(u64, u64)>, AllocError>
    ensures { IfOk result (λ cells. All (λ cell. (1 ≤ cell.1) × (cell.1 ≤ SPACING_MAX)) cells.items) }
{
    match generated(alloc, numbers) {
        Err(_) => generated(alloc, numbers),
        cells => cells,
    }
}

// For any two cells: the earlier one's arrival and the spacings from it up to the later one, less the
// tolerance, are at most the later one's arrival.
fn keeps_windows(tau: u64, cells: &[(u64, u64)]) -> bool {
    for (index, earlier) in cells.iter().enumerate() {
        let mut due = earlier.0.saturating_add(earlier.1);
        for later in cells[index..].iter().skip(1) {
            if due > later.0.saturating_add(tau) {
                return false;
            }
            due = due.saturating_add(later.1);
        }
    }
    true
}

#[test]
fn ten_thousand_cells_get_the_verdicts_of_their_windows(rt: HostRuntime) -> Result<(), Fail> {
    let mut numbers = Numbers { state: 1 };
    let mut early = 0u64;
    for _ in 0..100 {
        let cells = cells(rt.alloc(), &mut numbers)?;
        let tau = numbers.below(40);
        let verdicts = listed(rt.alloc(), tau, &cells)?;
        same(&rt, &verdicts.len(), &cells.len());
        early = early.saturating_add(walk(&rt, rt.alloc(), tau, &cells, &verdicts)?);
    }
    assert!(rt; 1000 < early);
    assert!(rt; early < 9000);
    Ok(())
}

// Demands the verdicts of a list by its windows and by both forms: how many cells came too early. If memory is refused, it is walked again.
fn walk(
    rt: &impl Abort,
    alloc: Global,
    tau: u64,
    cells: &[(u64, u64)],
    verdicts: &[Verdict],
) -> Result<u64, AllocError>
    requires { tau ≤ TAU_MAX }
{
    match walk_once(rt, alloc, tau, cells, verdicts) {
        Err(_) => walk_once(rt, alloc, tau, cells, verdicts),
        early => early,
    }
}

// The verdict of a cell behind those that were taken, which it joins where it conforms.
fn verdict_after(
    tau: u64,
    taken: &mut Vec<(u64, u64)>,
    cell: (u64, u64),
) -> Result<Verdict, AllocError> {
    taken.push(cell)?;
    if keeps_windows(tau, taken) {
        return Ok(Verdict::Conforming);
    }
    let _ = taken.pop();
    Ok(Verdict::TooEarly)
}

fn walk_once(
    rt: &impl Abort,
    alloc: Global,
    tau: u64,
    cells: &[(u64, u64)],
    verdicts: &[Verdict],
) -> Result<u64, AllocError>
    requires { tau ≤ TAU_MAX }
{
    let mut early = 0u64;
    let mut gcra = Gcra::new(tau);
    let mut bucket = Bucket::new(tau);
    let mut taken = Vec::new(alloc);
    for (cell, verdict) in cells.iter().zip(verdicts) {
        let walked = verdict_after(tau, &mut taken, *cell)?;
        if walked == Verdict::TooEarly {
            early = early.saturating_add(1);
        }
        same(rt, verdict, &walked);
        let spacing = cell.1.clamp(1, 20);
        judged(rt, &mut gcra, &mut bucket, (cell.0, spacing), walked);
    }
    Ok(early)
}
