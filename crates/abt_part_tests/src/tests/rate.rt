use abt_rate::Rate;
use std::test::Fail;

// Codes, units and spacings worked out by hand from the rule of the rate code (docs/RULES.md, "Rates").

#[test]
fn a_code_without_the_nonzero_bit_is_no_rate(rt: HostRuntime) {
    for code in [0x0000, 0x3fff, 0x8000] {
        assert_eq!(rt; Rate::from_code(code), Rate::ZERO);
    }
    assert_eq!(rt; Rate::ZERO.units(), 0);
    assert_eq!(rt; Rate::ZERO.code(), 0);
    assert_eq!(rt; Rate::ZERO.spacing(), None);
}

#[test]
fn each_code_has_its_units_and_its_spacing(rt: HostRuntime) {
    let rows = [
        (0x4000, 512, 1_000_000_000_000),
        (0x5120, 204_800, 2_500_000_000),
        (0x53e8, 512_000, 1_000_000_000),
        (0x64b1, 180_617_216, 2_834_725),
        (0x7fff, 2_196_875_771_904, 234),
    ];
    for (code, units, spacing) in rows {
        let rate = Rate::from_code(code);
        assert_eq!(rt; rate.units(), units, "the units of {code}");
        assert_eq!(rt; rate.spacing(), Some(spacing), "the spacing of {code}");
        assert_eq!(rt; rate.code(), code);
    }
}

#[test]
fn the_reserved_bit_is_ignored_and_never_written(rt: HostRuntime) {
    let rate = Rate::from_code(0xffff);
    assert_eq!(rt; rate, Rate::from_code(0x7fff));
    assert_eq!(rt; rate.code(), 0x7fff);
}

#[test]
fn every_code_is_read_back_from_its_canonical_one(rt: HostRuntime) {
    for code in 0..=u16::MAX {
        let rate = Rate::from_code(code);
        let canonical = rate.code();
        assert!(rt;
            canonical == 0 || (0x4000..0x8000).contains(&canonical),
            "of {code}"
        );
        assert_eq!(rt;
            Rate::from_code(canonical).units(),
            rate.units(),
            "of {code}"
        );
    }
}

#[test]
fn rates_are_ordered_by_their_units(rt: HostRuntime) {
    assert!(rt; Rate::ZERO < Rate::from_code(0x4000));
    assert!(rt; Rate::from_code(0x41ff) < Rate::from_code(0x4200));
    assert!(rt; Rate::from_code(0x4201) > Rate::from_code(0x4200));
}

#[test]
fn a_number_of_units_is_rounded_down_to_a_rate(rt: HostRuntime) {
    let rows = [
        (0, 0x0000),
        (511, 0x0000),
        (512, 0x4000),
        (1_023, 0x41ff),
        (1_025, 0x4200),
        (180_841_984, 0x64b1),
        (2_196_875_771_903, 0x7ffe),
        (u64::MAX, 0x7fff),
    ];
    for (units, code) in rows {
        assert_eq!(rt; Rate::at_most(units).code(), code, "of {units}");
    }
}

#[test]
fn a_number_of_units_is_rounded_up_to_a_rate(rt: HostRuntime) -> Result<(), Fail> {
    let rows = [
        (0, 0x0000),
        (1, 0x4000),
        (512, 0x4000),
        (1_025, 0x4201),
        (180_841_984, 0x64b2),
        (2_196_875_771_904, 0x7fff),
    ];
    for (units, code) in rows {
        let rate = Rate::at_least(units).ok_or("no rate is as great")?;
        assert_eq!(rt; rate.code(), code, "of {units}");
    }
    assert_eq!(rt; Rate::at_least(2_196_875_771_905), None);
    Ok(())
}
