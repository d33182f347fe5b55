use super::expect;
use std::test::Fail;

#[test]
fn a_code_is_told_with_its_units_and_its_spacing(rt: HostRuntime) -> Result<(), Fail> {
    let alloc = rt.alloc();
    // Values by hand from the rules of docs/RULES.md, "Rates": (512 + m) * 2^e units, ceil(512 * 10^12 / units) ps.
    for (code, text) in [
        ("53e8", "53e8 units 512000 spacing 1000000000\n"),
        ("8000", "0000 units 0 spacing none\n"),
        ("0000", "0000 units 0 spacing none\n"),
        ("3fff", "0000 units 0 spacing none\n"),
        ("4000", "4000 units 512 spacing 1000000000000\n"),
        ("7fff", "7fff units 2196875771904 spacing 234\n"),
        ("ffff", "7fff units 2196875771904 spacing 234\n"),
        ("FFFF", "7fff units 2196875771904 spacing 234\n"),
        ("64b1", "64b1 units 180617216 spacing 2834725\n"),
        ("64B1", "64b1 units 180617216 spacing 2834725\n"),
    ] {
        expect(&rt, alloc, &["rate", code], 0, text, "")?;
    }
    Ok(())
}

#[test]
fn what_is_not_four_digits_is_no_code(rt: HostRuntime) -> Result<(), Fail> {
    for code in ["+53e", "53e", "53e81", "", "53eg", " 53e", "0x53", "5 e8"] {
        expect(&rt, rt.alloc(), &["rate", code], 1, "", "fault: code\n")?;
    }
    Ok(())
}
