use abt_rate::Rate;
use abt_shaper::{ShapeFault, Shaper};

// The spacing of 5120 is 2500000000 picoseconds, that of 53e8 is 1000000000 (docs/RULES.md, "Rates"):
// each answer is the moment plus the spacing of the rate at which the cell left.
#[test]
fn a_cell_waits_for_the_rate_of_the_one_before(rt: HostRuntime) {
    let slow = Rate::from_code(0x5120);
    let fast = Rate::from_code(0x53e8);
    let mut shaper = Shaper::new(1000);
    assert_eq!(rt;
        shaper.emit(999, slow),
        Err(ShapeFault::TooSoon { next: 1000 })
    );
    assert_eq!(rt; shaper.emit(1000, Rate::ZERO), Err(ShapeFault::Zero));
    assert_eq!(rt; shaper.emit(1000, slow), Ok(2500001000));
    let too_soon = Err(ShapeFault::TooSoon { next: 2500001000 });
    assert_eq!(rt; shaper.emit(2500000999, fast), too_soon);
    assert_eq!(rt; shaper.emit(2500001000, fast), Ok(3500001000));
    assert_eq!(rt; shaper.emit(2500000999, fast), Err(ShapeFault::ClockBack));
    assert_eq!(rt;
        shaper.emit(2305843009213693953, Rate::ZERO),
        Err(ShapeFault::TimeRange)
    );
}

// The greatest moment is 2^61 picoseconds (docs/RULES.md, "Limits").
#[test]
fn a_cell_leaves_at_the_greatest_moment(rt: HostRuntime) {
    let rate = Rate::from_code(0x53e8);
    let mut shaper = Shaper::new(2305843009213693952);
    assert_eq!(rt;
        shaper.emit(2305843009213693953, rate),
        Err(ShapeFault::TimeRange)
    );
    assert_eq!(rt;
        shaper.emit(2305843009213693952, rate),
        Ok(2305843010213693952)
    );
    let last = Err(ShapeFault::TooSoon {
        next: 2305843010213693952,
    });
    assert_eq!(rt; shaper.emit(2305843009213693952, rate), last);
}
